// A session that is driven over a world. What the calls keep true is said of every history that the session
// stands for, whether the world tells its history or not.
ghost use Rattle.std.specs.Prelude.{◌≡◌, ℕ, ◌<◌, ◌≤◌, [], Option, Some, None, true, vec_len, IfOk, IfSome, IfNone};
ghost use Rattle.relay_model.specs.{Place, Free};
ghost use Rattle.relay_session.specs.{has_ended};
ghost use Rattle.world_trait.specs.Seen.{Seen};
ghost use Rattle.session_loop.specs.Commands.{Runnable};

use crate::faults::{Fault, first_of};
use exit_status::Op;
use relay_model::{Config, NoMemory, ReadyList, Why};
use relay_session::Session;
use session_driver::{Dumper, Stepped, step_noted};
use std::alloc::Global;
use world_trait::World;

/// A session that is driven, with what the loop needs beside it.
#[derive(Drop)]
pub struct Driver {
    pub session: Session,
    /// The first read or write that failed.
    pub fault: Option<Fault>,
    /// How many turns were made.
    pub made: u64,
    pub ready: ReadyList,
    /// Makes the texts of what is read.
    pub dumper: Dumper,
    ghost roomy: { 256 ≤ ready.room },
}

/// Where the session has to wait, or that it is done.
#[derive(Clone, Copy, PartialEq, Eq)]
pub enum DriverPause {
    Sleep(Option<u64>),
    Done(Why),
}

impl Driver {
    ghost use Rattle.session_loop.specs.Courses.{DriverCourse, SomewhereFor, KeepsFor, PauseIs, IsPause, rank};

    pub fn new(alloc: Global, config: &Config) -> Result<Driver, NoMemory>
        requires { Runnable config.now }
        ensures { IfOk result
            (λ r. (r.made ≡ 0)
            × ((n : ℕ) (start : Seen) → ((p : Place)
            → start.held p ≡ Free) → DriverCourse config.now n start start r [])) }
    {
        let ready = ReadyList::new(alloc)?;
        let session = Session::new(alloc, config)?;
        Ok(Driver {
            session,
            fault: None,
            made: 0,
            ready,
            dumper: Dumper::new(alloc),
        })
    }

    /// Makes the next call that is wished for, and notes what it read where the command dumps that; a sleep and the end
    /// are left to the caller.
    pub fn step<W: World>(
        &mut self,
        world: &mut W,
        config: &Config,
        scratch: &mut Vec<u8>,
    ) -> Option<DriverPause>
        requires block { config.now.block ≤ vec_len scratch.old }
        requires course { (n : ℕ) × SomewhereFor config.now n (W.seen world.old) self.old }
        ensures course { KeepsFor config.now (W.seen world.old) (W.seen world.new) self.old self.new }
        ensures fewer { IfNone result (rank self.new < rank self.old) }
        ensures pause { IfSome result (PauseIs self.new) }
        ensures paused { IfSome result (IsPause self.new) }
        ensures over { has_ended self.old.session ≡ true → has_ended self.new.session ≡ true }
        ensures made { self.new.made ≡ self.old.made }
        ensures scratch { vec_len scratch.new ≡ vec_len scratch.old }
    {
        match step_noted(&mut self.session, world, config, scratch, &mut self.dumper) {
            Stepped::Acted => None,
            Stepped::ReadFailed(place) => {
                self.fault = first_of(self.fault, place, Op::Reading);
                None
            }
            Stepped::WriteFailed(place) => {
                self.fault = first_of(self.fault, place, Op::Writing);
                None
            }
            Stepped::Childless => None,
            Stepped::Memory => None,
            Stepped::Sleep(until) => Some(DriverPause::Sleep(until)),
            Stepped::Done(why) => Some(DriverPause::Done(why)),
        }
    }
}
