// The run of a list of words over a desk.
ghost use Rattle.std.specs.Prelude.{◌≡◌, [], true, IfSome, Some, is_some};
ghost use Rattle.relay_model.specs.Journals.{History};
ghost use Rattle.session_loop.specs.{Risen, StopCause, is_failure};
ghost use Rattle.exit_status.specs.{exit_code};
ghost use Rattle.port_trait.specs.{Agrees};
ghost use Rattle.port_table.specs.{OnJoinedBack, handed};
ghost use Rattle.port_desk.specs.{Passed, StartsInStep, AreUnused, HasPassed, IsFree, start_of};
ghost use Rattle.socat_top.specs.Behind.{told_behind};
ghost use Rattle.socat_top.specs.Kept.{history_of};
ghost use Rattle.socat_top.specs.Headline.{Answers, CompletesTask, Leaves, TaskEnds, TaskEndsBehind};
ghost use Rattle.socat_top.specs.Tasks.{task};

use crate::calls::socat;
use exit_status::{Outcome, status};
use port_desk::{Backs, Beginning, Counts, Desk, Ended, Modelled};
use port_trait::{Maker, Poller, Port};
use relay_model::{Kept, Text};
use std::alloc::Global;
use std::marker::Brand;

/// How a run ended: its outcome, the exit status of it, the standard ports, what the desk kept, and its counts.
#[derive(Drop)]
pub struct Shipped<I: Port, O: Port, E: Port> {
    pub outcome: Outcome,
    pub status: u8,
    pub standard: Backs<I, O, E>,
    pub kept: Kept,
    pub counts: Counts,
}

/// Does what the words ask over a desk, with at most `turns` waits, and ends the desk.
pub fn run<M: Maker + Drop, P: Poller + Drop, I: Port, O: Port, E: Port>(
    alloc: Global,
    desk: Desk<M, P, I, O, E>,
    words: &[Text],
    turns: u64,
) -> Shipped<I, O, E>
    requires free { IsFree (⟦<Desk<M, P, I, O, E> as Modelled>⟧.model desk) }
    ensures status { result.status ≡ exit_code result.outcome }
    ensures headline { (before : History) → (⟦<Desk<M, P, I, O, E> as Modelled>⟧.model desk).history ≡ Some before
        → Leaves (task words.now) turns before (Some (history_of result.kept)) result.outcome }
    ensures passed { let stdin = I.seen (handed result.standard.stdin) in let stdout = O.seen (handed result.standard.stdout) in
        let stderr = E.seen (handed result.standard.stderr) in
        (before : History) → (⟦<Desk<M, P, I, O, E> as Modelled>⟧.model desk).history ≡ Some before
        → HasPassed before (⟦<Desk<M, P, I, O, E> as Modelled>⟧.model desk)
        → Passed (history_of result.kept) stdin.gave stdout.took stderr.took stdin.ended }
    ensures ends { let stdin = I.seen (handed result.standard.stdin) in let stdout = O.seen (handed result.standard.stdout) in
        (⟦<Desk<M, P, I, O, E> as Modelled>⟧.model desk).history ≡ Some (record { acts = []; asked = [] })
        → AreUnused (⟦<Desk<M, P, I, O, E> as Modelled>⟧.model desk)
        → TaskEnds (task words.now) result.kept.journal.acts stdin.gave stdout.took stdin.ended }
    ensures stdin_behind { OnJoinedBack (λ port. Agrees (I.seen port)) result.standard.stdin }
    ensures stdout_behind { OnJoinedBack (λ port. Agrees (O.seen port)) result.standard.stdout }
    ensures behind { let stdin = I.seen (handed result.standard.stdin) in let stdout = O.seen (handed result.standard.stdout) in
        (⟦<Desk<M, P, I, O, E> as Modelled>⟧.model desk).history ≡ Some (record { acts = []; asked = [] })
        → AreUnused (⟦<Desk<M, P, I, O, E> as Modelled>⟧.model desk)
        → TaskEndsBehind (task words.now) result.kept.journal.acts stdin stdout
        (told_behind I.seen result.standard.stdin) (told_behind O.seen result.standard.stdout) }
    ensures answers { Answers (task words.now) result.outcome }
    ensures complete { let before = (⟦<Desk<M, P, I, O, E> as Modelled>⟧.model desk).counts in
        CompletesTask (task words.now) turns before.faults result.counts.faults before.waits result.counts.waits
        before.stops result.counts.stops result.outcome }
    ensures failed { is_failure result.outcome ≡ true → Risen (⟦<Desk<M, P, I, O, E> as Modelled>⟧.model desk).counts.faults result.counts.faults }
    ensures stopped { let before = (⟦<Desk<M, P, I, O, E> as Modelled>⟧.model desk).counts in
        StopCause turns before.waits result.counts.waits before.stops result.counts.stops result.outcome }
{
    let (outcome, desk) = follow::<M, P, I, O, E, Brand>(alloc, desk, words, turns);
    let status = status(&outcome);
    let Ended {
        standard,
        kept,
        counts,
    } = desk.end();
    Shipped {
        outcome,
        status,
        standard,
        kept,
        counts,
    }
}

/// Does what the words ask over a desk that is followed from here on.
fn follow<M: Maker + Drop, P: Poller + Drop, I: Port, O: Port, E: Port, B: Beginning>(
    alloc: Global,
    desk: Desk<M, P, I, O, E>,
    words: &[Text],
    turns: u64,
) -> (Outcome, Desk<M, P, I, O, E>)
    requires free { IsFree (⟦<Desk<M, P, I, O, E> as Modelled>⟧.model desk) }
    requires start { B.start ≡ Some (start_of (⟦<Desk<M, P, I, O, E> as Modelled>⟧.model desk)) }
    ensures free { IsFree (⟦<Desk<M, P, I, O, E> as Modelled>⟧.model result.1) }
    ensures headline { let model = ⟦<Desk<M, P, I, O, E> as Modelled>⟧.model in (before : History) → (model desk).history ≡ Some before
        → Leaves (task words.now) turns before (model result.1).history result.0 }
    ensures tells { let model = ⟦<Desk<M, P, I, O, E> as Modelled>⟧.model in is_some (model result.1).history ≡ is_some (model desk).history }
    ensures passed { let after = ⟦<Desk<M, P, I, O, E> as Modelled>⟧.model result.1 in
        StartsInStep B.start → IfSome after.history (λ history. HasPassed history after) }
    ensures answers { Answers (task words.now) result.0 }
    ensures complete { let model = ⟦<Desk<M, P, I, O, E> as Modelled>⟧.model in
        let before = (model desk).counts in let after = (model result.1).counts in
        CompletesTask (task words.now) turns before.faults after.faults before.waits after.waits before.stops after.stops result.0 }
    ensures failed { is_failure result.0 ≡ true
        → Risen (⟦<Desk<M, P, I, O, E> as Modelled>⟧.model desk).counts.faults (⟦<Desk<M, P, I, O, E> as Modelled>⟧.model result.1).counts.faults }
    ensures stopped { let model = ⟦<Desk<M, P, I, O, E> as Modelled>⟧.model in
        let before = (model desk).counts in let after = (model result.1).counts in
        StopCause turns before.waits after.waits before.stops after.stops result.0 }
{
    let mut followed = desk.follow::<B>();
    let outcome = socat(alloc, &mut followed, words, turns);
    (outcome, followed.unfollow())
}
