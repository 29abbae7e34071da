// The closings of all sessions that were cut.
ghost use Rattle.std.specs.Prelude.{◌≡◌, ◌≤◌, ◌+◌};

use crate::all_sessions::Sessions;
use crate::leaving::close_all;
use fork_table::Steps;
use relay_model::{Config, Why};
use std::sync::ledger::Ledger;
use world_trait::World;

impl Sessions {
    ghost use Rattle.event_loop.specs.Closings.{EmptiesRow, RowLeaves, RowsLeave, SomeLeaving};

    /// Closes all that the sessions hold, which were cut for this reason, and asks for their children. None lives then.
    pub fn close_rows<W: World, L: Ledger>(
        &mut self,
        world: &mut W,
        config: &Config,
        why: Why,
        steps: &mut Steps<L>,
    )
        requires { SomeLeaving config.now (W.seen world.old) why self.old }
        ensures leave { RowsLeave config.now (W.seen world.old) (W.seen world.new) why self.old self.new steps.old.ticks steps.new.ticks }
        ensures made { self.new.made ≡ self.old.made }
    {
        let mut next = self.table.first_from(0);
        while let Some(number) = next {
            self.close_row(number, world, config, why, steps);
            next = self.next_after(number);
        }
    }

    fn close_row<W: World, L: Ledger>(
        &mut self,
        number: u32,
        world: &mut W,
        config: &Config,
        why: Why,
        steps: &mut Steps<L>,
    )
        requires { SomeLeaving config.now (W.seen world.old) why self.old }
        ensures leaves { RowLeaves config.now (W.seen world.old) (W.seen world.new) number why self.old self.new }
        ensures looks { steps.new.ticks ≤ steps.old.ticks + 1 }
        ensures made { self.new.made ≡ self.old.made }
    {
        self.empty_row(number, world, config, why, steps);
        self.table.retire(number);
    }

    fn empty_row<W: World, L: Ledger>(
        &mut self,
        number: u32,
        world: &mut W,
        config: &Config,
        why: Why,
        steps: &mut Steps<L>,
    )
        requires { SomeLeaving config.now (W.seen world.old) why self.old }
        ensures empties { EmptiesRow config.now (W.seen world.old) (W.seen world.new) number why self.old self.new }
        ensures looks { steps.new.ticks ≤ steps.old.ticks + 1 }
        ensures made { self.new.made ≡ self.old.made }
    {
        if let Some(row) = self.table.session_mut(number, steps) {
            close_all(
                &mut row.member.session,
                &mut self.door,
                world,
                config,
                &mut self.scratch,
                why,
            );
        }
    }
}
