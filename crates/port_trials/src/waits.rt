// The calls on a world: a place is opened, read and waited for. They are over any world, of which the prover compares the
// name alone.
ghost use Rattle.std.specs.Prelude.{◌≡◌, true, IfOk};
ghost use Rattle.relay_model.specs.{Free, Open};

use case_rows::{Answered, Answers, CaseFault};
use relay_model::{Half, Options, Place, ReadyAt, ReadyList, Single, Target, Text};
use std::alloc::Global;
use world_trait::{OpenAnswer, ReadAnswer, Turned, World};

/// Opens the place, reads it where it stands open, and waits twice.
pub(crate) fn make_waits<W: World>(
    alloc: Global,
    world: &mut W,
    place: Place,
    answers: &mut Answers,
) -> Answered
    requires { (W.seen world.old).held place ≡ Free }
{
    if open(alloc, world, place, answers)? {
        read(world, place, answers);
    }
    wait(alloc, world, place, answers)?;
    wait(alloc, world, place, answers)
}

/// Opens a file at the place. True where that stands open then.
fn open<W: World>(
    alloc: Global,
    world: &mut W,
    place: Place,
    answers: &mut Answers,
) -> Result<bool, CaseFault>
    requires { (W.seen world.old).held place ≡ Free }
    ensures { IfOk result (λ stands. stands ≡ true → (W.seen world.new).held place ≡ Open) }
{
    let name = Text::of(alloc, b"x")?;
    let single = Single {
        options: Options::defaults(alloc)?,
        target: Target::FileAt(name),
    };
    let answer = world.open_place(place, &single, None);
    drop(single);
    answers.word(open_word(answer));
    Ok(answer == OpenAnswer::Opened)
}

fn open_word(answer: OpenAnswer) -> &'static str {
    match answer {
        OpenAnswer::Opened => "opened",
        OpenAnswer::Later => "later",
        OpenAnswer::Failed => "failed",
        OpenAnswer::Memory => "memory",
    }
}

/// Reads the place once.
fn read<W: World>(world: &mut W, place: Place, answers: &mut Answers)
    requires { (W.seen world.old).held place ≡ Open }
{
    let mut into = [0u8; 16];
    answers.word(read_word(world.read(place, &mut into)));
}

fn read_word(answer: ReadAnswer) -> &'static str {
    match answer {
        ReadAnswer::Bytes(_) => "bytes",
        ReadAnswer::Empty => "empty",
        ReadAnswer::End => "end",
        ReadAnswer::NotYet => "not-yet",
        ReadAnswer::Failed => "failed",
        ReadAnswer::Memory => "memory",
    }
}

/// Waits without a moment, and says what is named.
fn wait<W: World>(alloc: Global, world: &mut W, place: Place, answers: &mut Answers) -> Answered {
    let mut ready = ReadyList::new(alloc)?;
    match world.wait(None, &mut ready) {
        Turned::Turned { .. } => say_named(&ready, place, answers),
        Turned::Memory => answers.word("memory"),
    }
    Ok(())
}

/// How many halves are named, and which of the place's.
fn say_named(ready: &ReadyList, place: Place, answers: &mut Answers) {
    answers.word_and_number("named", ready.len() as u64);
    if is_named(ready, place, Half::ToRead) {
        answers.word_part("to-read");
    }
    if is_named(ready, place, Half::ToWrite) {
        answers.word_part("to-write");
    }
}

/// Whether this half of the place is named.
fn is_named(ready: &ReadyList, place: Place, half: Half) -> bool {
    let asked = ReadyAt { place, half };
    for i in 0..ready.len() {
        if ready.get(i) == asked {
            return true;
        }
    }
    false
}
