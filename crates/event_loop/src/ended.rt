// The end of a run: all that is still held is closed.
ghost use Rattle.std.specs.Prelude.{◌≡◌};
ghost use Rattle.event_loop.specs.Vacated.{why_over as over_by};

use crate::all_sessions::Sessions;
use crate::turned::RunEnd;
use exit_status::Outcome;
use fork_table::Steps;
use relay_model::{Config, Why};
use session_loop::outcome_for;
use std::sync::ledger::Ledger;
use world_trait::World;

impl Sessions {
    ghost use Rattle.event_loop.specs.Vacated.{EndsFor, EndsLeaving, SomeEnd, SomeLeft, SomeOver, TellsOver};

    /// Ends the run for this: closes all that is still held, and answers how it ended. It makes no wait, and looks at sessions
    /// twice at most for each act that it makes.
    pub fn end<W: World, L: Ledger>(
        &mut self,
        world: &mut W,
        config: &Config,
        end: RunEnd,
        steps: &mut Steps<L>,
    ) -> Outcome
        requires { SomeEnd config.now (W.seen world.old) end self.old }
        ensures { EndsFor config.now end (W.seen world.old) (W.seen world.new) self.old result steps.old.ticks steps.new.ticks }
    {
        match end {
            RunEnd::Over => self.outcome_over(),
            RunEnd::Ends(why) => {
                self.cut_rows(why, steps);
                self.leave(world, config, why, steps)
            }
            RunEnd::Short => {
                self.cut_rows(Why::Memory, steps);
                self.leave(world, config, Why::Memory, steps)
            }
            RunEnd::Stops => {
                self.stop_all(steps);
                self.leave(world, config, Why::Stopped, steps)
            }
        }
    }

    /// Closes all that is held, once each session was cut for this reason.
    fn leave<W: World, L: Ledger>(
        &mut self,
        world: &mut W,
        config: &Config,
        why: Why,
        steps: &mut Steps<L>,
    ) -> Outcome
        requires { SomeLeft config.now (W.seen world.old) why self.old }
        ensures { EndsLeaving config.now why (W.seen world.old) (W.seen world.new) self.old result steps.old.ticks steps.new.ticks }
    {
        self.close_rows(world, config, why, steps);
        self.close_door(world, why);
        outcome_for(why, None, None, None, self.made)
    }

    /// The outcome of a run whose door is over, while no session lives.
    fn outcome_over(&self) -> Outcome
        requires { SomeOver self.now }
        ensures { TellsOver self.now result }
    {
        let cause = self.door.cause();
        let listening = self.door.failed_listening();
        outcome_for(why_over(cause, listening), listening, None, None, self.made)
    }
}

/// Why a run is over whose door listens no more: for what ended the door's calls, if anything; else since so many listenings
/// failed and no try is left, or since all were served.
fn why_over(cause: Option<Why>, listening: Option<u64>) -> Why
    ensures { result ≡ over_by cause listening }
{
    match (cause, listening) {
        (Some(why), _) => why,
        (None, Some(_)) => Why::ListenFailed,
        (None, None) => Why::Served,
    }
}
