// The end of all sessions.
ghost use Rattle.std.specs.Prelude.{◌≤◌, ◌+◌, OnOk};

use crate::all_sessions::Sessions;
use crate::rows::wake_row;
use fork_table::Steps;
use relay_model::{NoMemory, Why};
use std::sync::ledger::Ledger;

impl Sessions {
    ghost use Rattle.event_loop.specs.Courses.{NoWork, SameButWork};
    ghost use Rattle.event_loop.specs.Closings.{LooksAtRows};
    ghost use Rattle.event_loop.specs.Endings.{CutsRow, CutsRows, AllQueued, WorkLives};

    /// Cuts each session for this reason, once it has heard the last turn.
    pub fn cut_rows<L: Ledger>(&mut self, why: Why, steps: &mut Steps<L>)
        ensures cuts { CutsRows why self.old self.new }
        ensures looks { LooksAtRows self.old steps.old.ticks steps.new.ticks }
    {
        let mut next = self.table.first_from(0);
        while let Some(number) = next {
            self.cut_row(number, why, steps);
            next = self.next_after(number);
        }
    }

    /// Cuts the session with this number, if it lives.
    pub fn cut_row<L: Ledger>(&mut self, number: u32, why: Why, steps: &mut Steps<L>)
        ensures cuts { CutsRow number why self.old self.new }
        ensures looks { steps.new.ticks ≤ steps.old.ticks + 1 }
    {
        if let Some(row) = self.table.session_mut(number, steps) {
            wake_row(row, self.made, self.clock);
            row.member.session.cut(why);
        }
    }

    /// Puts each session into the list of work. After an error some are there.
    pub fn queue_all(&mut self) -> Result<(), NoMemory>
        ensures all { OnOk result (AllQueued self.new) }
        ensures same { SameButWork self.old self.new }
        ensures lives { OnOk result (NoWork self.old → WorkLives self.new) }
    {
        let mut next = self.table.first_from(0);
        while let Some(number) = next {
            self.work.push_back(number)?;
            next = self.next_after(number);
        }
        Ok(())
    }
}
