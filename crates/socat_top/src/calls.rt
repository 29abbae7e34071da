// What a list of words asks for, done over any world.
ghost use Rattle.std.specs.Prelude.{◌≡◌, ◌⊎◌, true, is_some, Some};
ghost use Rattle.exit_status.specs.declared.outcomes.Outcome.TheVariants as outcomes;
ghost use Rattle.relay_model.specs.{Place, Free, Fit};
ghost use Rattle.relay_model.specs.Journals.{History};
ghost use Rattle.cmd_words.specs.{IsFit};
ghost use Rattle.session_loop.specs.{Risen, Completes, StopCause, is_failure, is_relayed};
ghost use Rattle.socat_top.specs.Headline.{Answers, CompletesTask, Headline, Leaves, Loads};
ghost use Rattle.socat_top.specs.Notes.{OnlyNotes};
ghost use Rattle.socat_top.specs.Tasks.{task, command_task};

use crate::generated::generated_run;
use crate::notes::{conclude, print};
use cmd_words::{Command, CommandFault, command_of};
use event_loop::relay;
use exit_status::{Outcome, usage_text, version_text};
use relay_model::{Config, NoMemory, Text};
use std::alloc::Global;
use world_trait::World;

/// Does what the words ask, over any world, with at most `turns` waits. The words don't include the program's name.
/// Words that are refused open nothing. The line of the outcome is noted at the end, where it has one.
pub fn socat<W: World>(alloc: Global, world: &mut W, words: &[Text], turns: u64) -> Outcome
    requires free { (p : Place) → (W.seen world.old).held p ≡ Free }
    ensures free { (p : Place) → (W.seen world.new).held p ≡ Free }
    ensures headline { (before : History) → (W.seen world.old).told ≡ Some before → Leaves (task words.now) turns before (W.seen world.new).told result }
    ensures answers { Answers (task words.now) result }
    ensures tells { is_some (W.seen world.new).told ≡ is_some (W.seen world.old).told }
    ensures failed { is_failure result ≡ true → Risen (W.seen world.old).faults (W.seen world.new).faults }
    ensures stopped { StopCause turns (W.seen world.old).waits (W.seen world.new).waits (W.seen world.old).stops (W.seen world.new).stops result }
    ensures complete { CompletesTask (task words.now) turns (W.seen world.old).faults (W.seen world.new).faults (W.seen world.old).waits
        (W.seen world.new).waits (W.seen world.old).stops (W.seen world.new).stops result }
{
    match command_of(alloc, words) {
        Ok(command) => {
            let outcome = obey(alloc, world, &command, turns);
            // (a call of its own, since the prover reads the end of a large value at each branch)
            drop(command);
            outcome
        }
        Err(CommandFault::Refused(refused)) => conclude(alloc, world, Outcome::Refused(refused)),
        Err(CommandFault::Memory) => conclude(alloc, world, Outcome::Memory),
    }
}

/// Runs a command, and notes the line of its outcome.
fn obey<W: World>(alloc: Global, world: &mut W, command: &Command, turns: u64) -> Outcome
    requires fit { IsFit command.now }
    requires free { (p : Place) → (W.seen world.old).held p ≡ Free }
    ensures free { (p : Place) → (W.seen world.new).held p ≡ Free }
    ensures headline { (before : History) → (W.seen world.old).told ≡ Some before
        → Leaves (command_task command.now) turns before (W.seen world.new).told result }
    ensures answers { Answers (command_task command.now) result }
    ensures tells { is_some (W.seen world.new).told ≡ is_some (W.seen world.old).told }
    ensures failed { is_failure result ≡ true → Risen (W.seen world.old).faults (W.seen world.new).faults }
    ensures stopped { StopCause turns (W.seen world.old).waits (W.seen world.new).waits (W.seen world.old).stops (W.seen world.new).stops result }
    ensures complete { CompletesTask (command_task command.now) turns (W.seen world.old).faults (W.seen world.new).faults
        (W.seen world.old).waits (W.seen world.new).waits (W.seen world.old).stops (W.seen world.new).stops result }
{
    match command {
        Command::Relay(config) => run_relay(alloc, world, config, turns),
        Command::Load(number) => load(alloc, world, *number),
        Command::Usage => print(alloc, world, usage_text(alloc), Outcome::Told),
        Command::Version => print(alloc, world, version_text(alloc), Outcome::Told),
    }
}

/// Makes the generated run of this number, which does nothing outside, and notes its summary.
fn load<W: World>(alloc: Global, world: &mut W, number: u64) -> Outcome
    ensures headline { (before : History) → (W.seen world.old).told ≡ Some before → Loads number (Some before) (W.seen world.new).told result }
    ensures answers { (result ≡ outcomes.Loaded) ⊎ (result ≡ outcomes.Memory) }
    ensures calm { OnlyNotes (W.seen world.old) (W.seen world.new) }
{
    match generated_run(alloc, number) {
        Ok(summary) => print(alloc, world, summary.line(alloc), Outcome::Loaded),
        Err(NoMemory) => conclude(alloc, world, Outcome::Memory),
    }
}

/// Relays, and notes the line of the outcome.
fn run_relay<W: World>(alloc: Global, world: &mut W, config: &Config, turns: u64) -> Outcome
    requires fit { Fit config.now }
    requires free { (p : Place) → (W.seen world.old).held p ≡ Free }
    ensures free { (p : Place) → (W.seen world.new).held p ≡ Free }
    ensures headline { (before : History) → (W.seen world.old).told ≡ Some before → Headline config.now turns before (W.seen world.new).told result }
    ensures answers { is_relayed result ≡ true }
    ensures tells { is_some (W.seen world.new).told ≡ is_some (W.seen world.old).told }
    ensures failed { is_failure result ≡ true → Risen (W.seen world.old).faults (W.seen world.new).faults }
    ensures stopped { StopCause turns (W.seen world.old).waits (W.seen world.new).waits (W.seen world.old).stops (W.seen world.new).stops result }
    ensures complete { Completes turns (W.seen world.old).faults (W.seen world.new).faults (W.seen world.old).waits (W.seen world.new).waits
        (W.seen world.old).stops (W.seen world.new).stops result }
{
    let outcome = relay(alloc, world, config, turns);
    conclude(alloc, world, outcome)
}
