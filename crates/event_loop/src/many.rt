// The loop of a command with `fork`.
ghost use Rattle.std.specs.Prelude.{◌≡◌, None, IfOk};
ghost use Rattle.event_loop.specs.Births.{Forks};
ghost use Rattle.event_loop.specs.Loops.{is_late};

use crate::all_sessions::Sessions;
use crate::steps::Step;
use crate::turned::RunEnd;
use fork_table::Steps;
use relay_model::{Config, NoMemory};
use std::alloc::Global;
use std::sync::ledger::Ledger;
use world_trait::World;

/// All sessions, and how the run is to be ended at the next call, where its last wait says so.
#[derive(Drop)]
pub struct ManySessions {
    pub sessions: Sessions,
    pub end: Option<RunEnd>,
}

impl ManySessions {
    ghost use Rattle.event_loop.specs.Loops.{BeginsMany, Further, ManyLook, ManyTurn, SomeMany};

    /// Nothing is open and no session has begun.
    pub fn new(alloc: Global, config: &Config) -> Result<ManySessions, NoMemory>
        requires { Forks config.now }
        ensures { IfOk result (BeginsMany config.now) }
    {
        let sessions = Sessions::new(alloc, config)?;
        Ok(ManySessions {
            sessions,
            end: None,
        })
    }

    /// Makes all calls that are called for and then waits once, or ends the relay.
    pub fn turn<W: World, L: Ledger>(
        &mut self,
        alloc: Global,
        world: &mut W,
        config: &Config,
        turns: u64,
        steps: &mut Steps<L>,
    ) -> Step
        requires { SomeMany config.now turns (W.seen world.old) self.old }
        ensures turns { ManyTurn config.now turns (W.seen world.old) (W.seen world.new) self.old self.new result }
        ensures further { Further turns self.old.sessions.made self.new.sessions.made result }
        ensures looks { ManyLook config.now turns (W.seen world.old) (W.seen world.new) self.old steps.old.ticks steps.new.ticks }
    {
        match self.end {
            None => self.go_on(alloc, world, config, turns, steps),
            Some(end) => Step::Over(self.sessions.end(world, config, end, steps)),
        }
    }

    /// The same, where the last wait ended nothing.
    fn go_on<W: World, L: Ledger>(
        &mut self,
        alloc: Global,
        world: &mut W,
        config: &Config,
        turns: u64,
        steps: &mut Steps<L>,
    ) -> Step
        requires some { SomeMany config.now turns (W.seen world.old) self.old }
        requires going { self.old.end ≡ None }
        ensures turns { ManyTurn config.now turns (W.seen world.old) (W.seen world.new) self.old self.new result }
        ensures further { Further turns self.old.sessions.made self.new.sessions.made result }
        ensures looks { ManyLook config.now turns (W.seen world.old) (W.seen world.new) self.old steps.old.ticks steps.new.ticks }
    {
        match self.sessions.turn(alloc, world, config, turns, steps) {
            None => Step::Goes,
            Some(end) => {
                if comes_after_wait(end) {
                    self.end = Some(end);
                    Step::Goes
                } else {
                    Step::Over(self.sessions.end(world, config, end, steps))
                }
            }
        }
    }
}

/// Whether the run is to be ended for what its wait brought.
fn comes_after_wait(end: RunEnd) -> bool
    ensures { result ≡ is_late end }
{
    match end {
        RunEnd::Stops | RunEnd::Short => true,
        RunEnd::Over | RunEnd::Ends(_) => false,
    }
}
