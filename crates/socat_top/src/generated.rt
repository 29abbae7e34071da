// The generated run.
ghost use Rattle.std.specs.Prelude.{◌≡◌, [], Some, IfOk};
ghost use Rattle.relay_model.specs.{Place, Free};
ghost use Rattle.socat_top.specs.Command.{load_command};
ghost use Rattle.socat_top.specs.Numbered.{told_named};
ghost use Rattle.socat_top.specs.Runs.{GeneratedRun};

use crate::commands::load_command;
use crate::numbered_worlds::NumberedWorld;
use crate::summaries::Summary;
use event_loop::relay;
use exit_status::Outcome;
use relay_model::{Config, NoMemory};
use std::alloc::Global;
use world_trait::World;

/// How many waits the run may make; it needs far fewer.
const TURNS: u64 = 1_000_000;

/// Relays over the world of this number, and sums up what was done. Only want of memory leaves it without a summary.
pub fn generated_run(alloc: Global, number: u64) -> Result<Summary, NoMemory>
    ensures { IfOk result (λ summary. GeneratedRun number summary) }
{
    let mut world = NumberedWorld::new(alloc, number)?;
    let summary = run_over(alloc, &mut world, number);
    drop(world);
    summary
}

/// Relays over the world of this number, in which nothing was done yet, and sums up what was done.
fn run_over(alloc: Global, world: &mut NumberedWorld, number: u64) -> Result<Summary, NoMemory>
    requires told { (⟦<NumberedWorld as World>⟧.seen world.old).told ≡ told_named number (Some (record { acts = []; asked = [] })) }
    requires free { (p : Place) → (⟦<NumberedWorld as World>⟧.seen world.old).held p ≡ Free }
    ensures { IfOk result (λ summary. GeneratedRun number summary) }
{
    let command = load_command(alloc)?;
    let summary = sum_up(alloc, world, &command, number);
    drop(command);
    summary
}

/// Relays as the command of a generated run asks, and sums up what was done.
fn sum_up(
    alloc: Global,
    world: &mut NumberedWorld,
    command: &Config,
    number: u64,
) -> Result<Summary, NoMemory>
    requires command { command.now ≡ load_command }
    requires told { (⟦<NumberedWorld as World>⟧.seen world.old).told ≡ told_named number (Some (record { acts = []; asked = [] })) }
    requires free { (p : Place) → (⟦<NumberedWorld as World>⟧.seen world.old).held p ≡ Free }
    ensures { IfOk result (λ summary. GeneratedRun number summary) }
{
    match relay(alloc, world, command, TURNS) {
        Outcome::Memory => Err(NoMemory),
        _ => Ok(Summary::of(number, world.journal())),
    }
}
