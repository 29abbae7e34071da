// One wait of the loop.
ghost use Rattle.std.specs.Prelude.{◌≡◌, ◌<◌, ◌≤◌, ◌+◌, ◌-◌, ◌^◌, length, OnOk};

use crate::all_sessions::Sessions;
use crate::turns::hear_door;
use fork_table::Steps;
use relay_model::{Config, NoMemory};
use std::sync::ledger::Ledger;
use world_trait::{Turned, World};

/// What a wait came to.
#[derive(Clone, Copy, PartialEq, Eq)]
pub enum Waited {
    Goes,
    /// The turn says stop, which no session has heard yet.
    Stops,
    /// The turn came, and there was no memory for the list of work after it.
    Short,
    /// There was no memory for the turn.
    Memory,
}

impl Sessions {
    ghost use Rattle.event_loop.specs.Courses.{SessionsSomewhere, NoWork};
    ghost use Rattle.event_loop.specs.Turns.{AllUnheard, HearsNamed, Queued, TakesTurn};
    ghost use Rattle.event_loop.specs.Looks.{AddsParts, CameForCause, LooksFew, OnlyNamedCame, WorksFew};
    ghost use Rattle.event_loop.specs.Waited.{WaitedIs};
    ghost use Rattle.event_loop.specs.Paid.{WaitPaid};

    /// Waits until this moment at the latest, and has those hear what the turn says that it concerns: the door, the
    /// sessions that it names, and no other. Those whose timer has fallen due have work then too.
    pub fn wait<W: World, L: Ledger>(
        &mut self,
        world: &mut W,
        config: &Config,
        until: Option<u64>,
        turns: u64,
        steps: &mut Steps<L>,
    ) -> Waited
        requires few { self.old.made < turns }
        requires course { SessionsSomewhere config.now (W.seen world.old) self.old }
        requires idle { NoWork self.old }
        ensures waits { WaitedIs config.now turns until (W.seen world.old) (W.seen world.new) self.old self.new result }
        ensures looks { LooksFew (length self.new.ready.entries) steps.old.ticks steps.new.ticks self.old self.new }
        ensures few { WorksFew (length self.new.ready.entries) self.old self.new }
        ensures paid { WaitPaid config.now turns until (W.seen world.old) (W.seen world.new) self.old self.new steps.old.ticks
            steps.new.ticks result }
    {
        match world.wait(until, &mut self.ready) {
            Turned::Turned { at, stop } => {
                self.take_turn(at, stop);
                if stop {
                    Waited::Stops
                } else {
                    match self.hear_turn(config, steps) {
                        Ok(()) => Waited::Goes,
                        Err(NoMemory) => Waited::Short,
                    }
                }
            }
            Turned::Memory => Waited::Memory,
        }
    }

    /// One more turn came, at this moment, which the door hears.
    fn take_turn(&mut self, at: u64, stop: bool)
        requires { self.old.made < 2 ^ 64 - 1 }
        ensures { TakesTurn at stop self.old self.new }
    {
        self.made += 1;
        self.clock = at;
        hear_door(&mut self.door, &self.ready, stop);
    }

    /// Has the sessions hear the last turn that it names, and puts them into the list of work, and with them those whose
    /// timer has fallen due.
    fn hear_turn<L: Ledger>(
        &mut self,
        config: &Config,
        steps: &mut Steps<L>,
    ) -> Result<(), NoMemory>
        requires { AllUnheard self.old }
        ensures heard { HearsNamed config.now self.old self.new }
        ensures queued { OnOk result (Queued config.now self.old self.new) }
        ensures ready { self.new.ready ≡ self.old.ready }
        ensures looks { steps.new.ticks ≤ steps.old.ticks + length self.old.ready.entries }
        ensures few { WorksFew (length self.old.ready.entries) self.old self.new }
        ensures alone { OnlyNamedCame (length self.old.ready.entries) self.old self.new }
        ensures came { CameForCause config.now self.old.ready.entries self.old self.new }
        ensures parts { OnOk result (AddsParts (length self.old.ready.entries) self.old self.new) }
    {
        self.hear_named(config, steps);
        self.queue_named(config)?;
        self.queue_due()
    }
}
