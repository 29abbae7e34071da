// All that the loop drives.
ghost use Rattle.std.specs.Prelude.{◌≤◌};

use fork_table::ForkTable;
use program_door::Door;
use relay_model::ReadyList;
use relay_session::PendingSession;
use session_loop::Member;
use std::collections::VecDeque;
use timer_set::TimerSet;

/// A session that lives.
#[derive(Drop)]
pub struct Row {
    pub member: Member,
    /// How many turns were made when it last heard one. It sleeps through those that came since, or is to hear the
    /// last.
    pub turn: u64,
}

/// The program door, the session of each peer, and what the loop needs beside them.
#[derive(Drop)]
pub struct Sessions {
    pub door: Door,
    pub table: ForkTable<Row>,
    /// The numbers of the sessions that have work. All others sleep.
    pub work: VecDeque<u32>,
    /// The moment that each session waits for that waits for one, by its number.
    pub timers: TimerSet,
    /// The next session, before its peer is asked for.
    pub pending_session: Option<PendingSession>,
    pub ready: ReadyList,
    pub scratch: Vec<u8>,
    /// The moment of the last turn, in milliseconds.
    pub clock: u64,
    /// How many turns were made.
    pub made: u64,
    ghost roomy: { 256 ≤ ready.room },
}
