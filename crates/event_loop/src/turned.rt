// One turn of the loop: all calls that are called for, and then one wait.
ghost use Rattle.std.specs.Prelude.{◌+◌, length};
ghost use Rattle.relay_model.specs.{Fit};

use crate::all_sessions::Sessions;
use crate::asked::DoorAsked;
use crate::waited::Waited;
use fork_table::Steps;
use relay_model::{Config, Why};
use std::alloc::Global;
use std::sync::ledger::Ledger;
use world_trait::World;

/// Why the loop takes no more turns.
#[derive(Clone, Copy, PartialEq, Eq)]
pub enum RunEnd {
    /// The door is over, and no session lives.
    Over,
    /// The run is to end for this reason: for want of memory, or since the turns are used up (`Stopped`).
    Ends(Why),
    /// The turn says stop, which no session has heard yet.
    Stops,
    /// The turn came, and there was no memory for the list of work after it.
    Short,
}

impl Sessions {
    ghost use Rattle.event_loop.specs.Courses.{SessionsSomewhere, NoWork};
    ghost use Rattle.event_loop.specs.Looks.{LooksFew};
    ghost use Rattle.event_loop.specs.Paid.{WaitForPaid};
    ghost use Rattle.event_loop.specs.Turned.{LooksBounded, TurnIs, WaitsForAll, Within};

    /// Has each session that has work and the door make their calls, and then waits once, unless the run ends or `turns` waits were
    /// made. A wait comes only where it is in order, and lasts until the least moment that anything waits for.
    /// Unless timers may have fallen due by the last turn, a call looks at sessions twice at most for each act that it makes,
    /// for each entry of that turn and of its own, and for one.
    pub fn turn<W: World, L: Ledger>(
        &mut self,
        alloc: Global,
        world: &mut W,
        config: &Config,
        turns: u64,
        steps: &mut Steps<L>,
    ) -> Option<RunEnd>
        requires fit { Fit config.now }
        requires course { Within config.now turns (W.seen world.old) self.old }
        ensures turns { TurnIs config.now turns (W.seen world.old) (W.seen world.new) self.old self.new result }
        ensures looks { LooksBounded config.now turns (W.seen world.old) (W.seen world.new) self.old self.new steps.old.ticks
            steps.new.ticks result }
        ensures few { LooksFew (length self.old.work.items + length self.new.ready.entries) steps.old.ticks steps.new.ticks
            self.old self.new }
    {
        if let Some(why) = self.run_rows(world, config, steps) {
            return Some(RunEnd::Ends(why));
        }
        match self.ask_door(alloc, world, config, steps) {
            DoorAsked::Waits(first) => self.wait_for(first, world, config, turns, steps),
            DoorAsked::Over => match self.table.first_from(0) {
                Some(_) => self.wait_for(None, world, config, turns, steps),
                None => Some(RunEnd::Over),
            },
            DoorAsked::Ends(why) => Some(RunEnd::Ends(why)),
        }
    }

    /// Waits, while every session waits, and the door until this moment or, where it is over, for none.
    fn wait_for<W: World, L: Ledger>(
        &mut self,
        first: Option<u64>,
        world: &mut W,
        config: &Config,
        turns: u64,
        steps: &mut Steps<L>,
    ) -> Option<RunEnd>
        requires course { SessionsSomewhere config.now (W.seen world.old) self.old }
        requires idle { NoWork self.old }
        ensures waits { WaitsForAll config.now turns first (W.seen world.old) (W.seen world.new) self.old self.new result }
        ensures looks { LooksFew (length self.new.ready.entries) steps.old.ticks steps.new.ticks self.old self.new }
        ensures paid { WaitForPaid config.now turns first (W.seen world.old) (W.seen world.new) self.old self.new steps.old.ticks
            steps.new.ticks result }
    {
        let until = self.least_until(first);
        if self.made < turns {
            match self.wait(world, config, until, turns, steps) {
                Waited::Goes => None,
                Waited::Stops => Some(RunEnd::Stops),
                Waited::Short => Some(RunEnd::Short),
                Waited::Memory => Some(RunEnd::Ends(Why::Memory)),
            }
        } else {
            Some(RunEnd::Ends(Why::Stopped))
        }
    }
}
