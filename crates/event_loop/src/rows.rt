// The sessions of the loop between two turns: those that have work, one after another.
ghost use Rattle.std.specs.Prelude.{◌≡◌, ◌<◌, ◌≤◌, ◌+◌, length, OnOk};
ghost use Rattle.fork_table.specs.{IsFirstLive};
ghost use Rattle.event_loop.specs.Rows.{Wakened};

use crate::all_sessions::{Row, Sessions};
use fork_table::Steps;
use relay_model::{Config, NoMemory, Why};
use session_loop::{Pause, drain};
use std::sync::ledger::Ledger;
use world_trait::World;

impl Sessions {
    ghost use Rattle.event_loop.specs.Courses.{SessionsSomewhere, SomewhereAt, SameRest, TakesWork, DrainsRow, Settles, SetsTimer, timer_of};
    ghost use Rattle.event_loop.specs.Endings.{RowRuns, AllRun};
    ghost use Rattle.event_loop.specs.Paid.{RowsPaid};

    /// Has each session that has work make its calls up to its next pause. Answers the reason for which the run is to be
    /// ended, as soon as there is one: a session wishes for a closing that would end every session, or memory is wanting.
    pub fn run_rows<W: World, L: Ledger>(
        &mut self,
        world: &mut W,
        config: &Config,
        steps: &mut Steps<L>,
    ) -> Option<Why>
        requires { SessionsSomewhere config.now (W.seen world.old) self.old }
        ensures runs { AllRun config.now (W.seen world.old) (W.seen world.new) self.old self.new result }
        ensures rest { SameRest self.old self.new }
        ensures looks { steps.new.ticks ≤ steps.old.ticks + length self.old.work.items }
        ensures paid { RowsPaid config.now (W.seen world.old) (W.seen world.new) self.old self.new steps.old.ticks steps.new.ticks result }
    {
        while let Some(number) = self.take_work() {
            if let Some(why) = self.run_row(number, world, config, steps) {
                return Some(why);
            }
        }
        None
    }

    /// Takes the first number out of the list of work.
    pub fn take_work(&mut self) -> Option<u32>
        ensures { TakesWork self.old self.new result }
    {
        match self.work.pop_front() {
            Some(number) => Some(number),
            None => None,
        }
    }

    /// The least number after this one whose session lives.
    pub fn next_after(&self, number: u32) -> Option<u32>
        ensures { IsFirstLive self.now.table (number + 1) result }
    {
        let end = self.table.next_number();
        if number < end {
            self.table.first_from(number + 1)
        } else {
            None
        }
    }

    /// Has the session with this number, if it lives, make its calls up to its next pause, and sets its timer. Answers
    /// the reason for which the run is to be ended, if there is one.
    pub fn run_row<W: World, L: Ledger>(
        &mut self,
        number: u32,
        world: &mut W,
        config: &Config,
        steps: &mut Steps<L>,
    ) -> Option<Why>
        requires course { SomewhereAt config.now (W.seen world.old) number self.old }
        ensures runs { RowRuns config.now (W.seen world.old) (W.seen world.new) number self.old self.new result }
        ensures rest { SameRest self.old self.new }
        ensures looks { steps.new.ticks ≤ steps.old.ticks + 1 }
    {
        match self.drain_row(number, world, config, steps) {
            Some(pause) => self.settle(number, pause),
            None => None,
        }
    }

    /// What comes of the pause of the session with this number.
    fn settle(&mut self, number: u32, pause: Pause) -> Option<Why>
        ensures { Settles number pause self.old self.new result }
    {
        match pause {
            Pause::Sleep(until) => match self.set_timer(number, until) {
                Ok(()) => None,
                Err(NoMemory) => Some(Why::Memory),
            },
            Pause::Done => {
                self.table.retire(number);
                self.timers.clear(number);
                None
            }
            Pause::Spreads(why) => Some(why),
        }
    }

    /// The session with this number waits until this moment, if until any. After an error its timer is as it was.
    fn set_timer(&mut self, number: u32, until: Option<u64>) -> Result<(), NoMemory>
        ensures set { OnOk result (timer_of self.new number ≡ until) }
        ensures kept { SetsTimer number self.old self.new }
    {
        match until {
            Some(at) => {
                self.timers.reserve(1)?;
                self.timers.set(number, at);
            }
            None => self.timers.clear(number),
        }
        Ok(())
    }

    fn drain_row<W: World, L: Ledger>(
        &mut self,
        number: u32,
        world: &mut W,
        config: &Config,
        steps: &mut Steps<L>,
    ) -> Option<Pause>
        requires course { SomewhereAt config.now (W.seen world.old) number self.old }
        ensures drains { DrainsRow config.now (W.seen world.old) (W.seen world.new) number self.old self.new result }
        ensures looks { steps.new.ticks ≤ steps.old.ticks + 1 }
    {
        match self.table.session_mut(number, steps) {
            Some(row) => {
                wake_row(row, self.made, self.clock);
                Some(drain(&mut row.member, world, config, &mut self.scratch))
            }
            None => None,
        }
    }
}

/// Has the session hear that a turn came, the last one of these at this moment, where it hasn't yet.
pub fn wake_row(row: &mut Row, made: u64, at: u64)
    ensures { Wakened made at row.old row.new }
{
    if row.turn < made {
        row.member.session.wake(at);
    }
    row.turn = made;
}
