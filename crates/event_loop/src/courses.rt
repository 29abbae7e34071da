// What a loop drives: one session or many.
ghost use Rattle.std.specs.Prelude.{IfOk};
ghost use Rattle.relay_model.specs.{Fit};

use crate::many::ManySessions;
use crate::one::OneSession;
use command_places::has_fork;
use relay_model::{Config, NoMemory};
use std::alloc::Global;

/// One session, or with `fork` the session of each peer.
#[derive(Drop)]
pub enum LoopCourse {
    One(OneSession),
    Many(ManySessions),
}

impl LoopCourse {
    ghost use Rattle.event_loop.specs.Loops.{Begins};

    /// Nothing is open.
    pub fn new(alloc: Global, config: &Config) -> Result<LoopCourse, NoMemory>
        requires { Fit config.now }
        ensures { IfOk result (Begins config.now) }
    {
        if has_fork(config) {
            Ok(LoopCourse::Many(ManySessions::new(alloc, config)?))
        } else {
            Ok(LoopCourse::One(OneSession::new(alloc, config)?))
        }
    }
}
