// What a run says on standard error at its end.
ghost use Rattle.std.specs.Prelude.{◌≡◌, ℕ, List, ◌⊎◌, IfOk};
ghost use Rattle.exit_status.specs.declared.outcomes.Outcome.TheVariants as outcomes;
ghost use Rattle.socat_top.specs.Notes.{OnlyNotes, Said, Tail};
ghost use Rattle.socat_top.specs.Headline.{Printed};

use exit_status::{Outcome, line_of};
use relay_model::{Bytes, NoMemory};
use std::alloc::Global;
use world_trait::{NoteAnswer, World};

/// The line where there is no memory to make one.
const OUT_OF_MEMORY: &[u8] = b"socat: out of memory\n";

/// Notes the text, where there is one, and gives the answer; want of memory takes its place.
fn say<W: World>(world: &mut W, text: &[u8], answer: Outcome) -> Outcome
    ensures said { ((result ≡ answer) × Said text.now (W.seen world.old).told (W.seen world.new).told)
        ⊎ ((result ≡ outcomes.Memory) × ((W.seen world.new).told ≡ (W.seen world.old).told)) }
    ensures calm { OnlyNotes (W.seen world.old) (W.seen world.new) }
{
    if text.is_empty() {
        return answer;
    }
    match world.note(text) {
        NoteAnswer::Noted | NoteAnswer::Failed => answer,
        NoteAnswer::Memory => Outcome::Memory,
    }
}

/// Notes the line of an outcome, where it has one. Where there is no memory for it, the answer is that.
pub fn conclude<W: World>(alloc: Global, world: &mut W, outcome: Outcome) -> Outcome
    ensures answer { (result ≡ outcome) ⊎ (result ≡ outcomes.Memory) }
    ensures tail { Tail result (W.seen world.old).told (W.seen world.new).told }
    ensures calm { OnlyNotes (W.seen world.old) (W.seen world.new) }
{
    match line_of(alloc, &outcome) {
        Ok(line) => say(world, line.as_slice(), outcome),
        Err(NoMemory) => say(world, OUT_OF_MEMORY, Outcome::Memory),
    }
}

/// Notes a text that was asked for, where there was memory for it, and then gives this answer.
pub fn print<W: World>(
    alloc: Global,
    world: &mut W,
    text: Result<Bytes, NoMemory>,
    done: Outcome,
) -> Outcome
    ensures printed { (wanted : List ℕ) → IfOk text (λ bytes. bytes ≡ wanted) → Printed done wanted (W.seen world.old).told (W.seen world.new).told result }
    ensures answer { (result ≡ done) ⊎ (result ≡ outcomes.Memory) }
    ensures calm { OnlyNotes (W.seen world.old) (W.seen world.new) }
{
    match text {
        Ok(text) => say(world, text.as_slice(), done),
        Err(NoMemory) => conclude(alloc, world, Outcome::Memory),
    }
}
