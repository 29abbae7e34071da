// The loop of a command of one session.
ghost use Rattle.std.specs.Prelude.{IfOk};
ghost use Rattle.session_loop.specs.{Runnable};

use crate::steps::Step;
use relay_model::{Config, NoMemory};
use relay_session::new_block;
use session_loop::Driver;
use std::alloc::Global;
use world_trait::World;

/// One session, and what it reads into.
#[derive(Drop)]
pub struct OneSession {
    pub driver: Driver,
    pub scratch: Vec<u8>,
}

impl OneSession {
    ghost use Rattle.event_loop.specs.Loops.{BeginsOne, Further, OneTurns, SomeOne};

    /// Nothing is open.
    pub fn new(alloc: Global, config: &Config) -> Result<OneSession, NoMemory>
        requires { Runnable config.now }
        ensures { IfOk result (BeginsOne config.now) }
    {
        let scratch = new_block(alloc, config.block)?;
        let driver = Driver::new(alloc, config)?;
        Ok(OneSession { driver, scratch })
    }

    /// Makes the calls that are wished for and then waits once, or ends the relay.
    pub fn turn<W: World>(&mut self, world: &mut W, config: &Config, turns: u64) -> Step
        requires { SomeOne config.now turns (W.seen world.old) self.old }
        ensures turns { OneTurns config.now turns (W.seen world.old) (W.seen world.new) self.old self.new result }
        ensures further { Further turns self.old.driver.made self.new.driver.made result }
    {
        match self.driver.turn(world, config, &mut self.scratch, turns) {
            None => Step::Goes,
            Some(why) => Step::Over(self.driver.outcome(why)),
        }
    }
}
