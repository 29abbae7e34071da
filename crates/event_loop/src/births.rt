// The loop at the beginning of a history.
ghost use Rattle.std.specs.Prelude.{IfOk};

use crate::all_sessions::Sessions;
use command_places::{options_of, program_door};
use fork_table::ForkTable;
use program_door::Door;
use relay_model::{Config, NoMemory, ReadyList};
use relay_session::new_block;
use std::alloc::Global;
use std::collections::VecDeque;
use timer_set::TimerSet;

impl Sessions {
    ghost use Rattle.event_loop.specs.Births.{Forks, BeginsAll};
    ghost use Rattle.event_loop.specs.Courses.{NoWork};

    /// Nothing is open and no session has begun.
    pub fn new(alloc: Global, config: &Config) -> Result<Sessions, NoMemory>
        requires { Forks config.now }
        ensures begins { IfOk result (BeginsAll config.now) }
        ensures idle { IfOk result NoWork }
    {
        let options = options_of(config, program_door());
        let ready = ReadyList::new(alloc)?;
        let scratch = new_block(alloc, config.block)?;
        let door = Door::new(config);
        let sessions = options.sessions;
        let table = ForkTable::new(alloc, sessions.max_children, sessions.stop_after);
        let timers = TimerSet::new(alloc);
        Ok(Sessions {
            door,
            table,
            work: VecDeque::new(alloc),
            timers,
            pending_session: None,
            ready,
            scratch,
            clock: 0,
            made: 0,
        })
    }
}
