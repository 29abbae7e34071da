// A session as a row of a table: when it began and ended, what passed each way, and how each way ended.
ghost use Rattle.std.specs.Prelude.{◌≡◌};
ghost use Rattle.relay_model.specs.{passed};
ghost use Rattle.journal_table.specs.Rows.{failed, ending_of, passage_of, idle_of, row_of};

use crate::overviews::Overview;
use command_places::{input, is_formed, output};
use history_facts::{
    closed_why, got_length, moved_at, now, put_length, read_fault_at, shut_at, write_fault_at,
};
use relay_model::{Way, Why};

/// How far a direction of a session came.
#[derive(Clone, Copy)]
pub enum WayEnding {
    /// It goes on.
    Open,
    /// Its end was passed on.
    Passed,
    /// A read or a write of it failed before its end was passed on.
    Failed,
    /// Its session was closed before its end was passed on.
    Cut,
}

/// What went through a direction: the bytes that were read and those that were written.
#[derive(Clone, Copy)]
pub struct WayTraffic {
    pub read: usize,
    pub written: usize,
    pub ending: WayEnding,
}

/// A session: its number, the moments at which it began and ended, and how long nothing had moved then. A direction
/// that the command doesn't form has no passage.
#[derive(Clone, Copy)]
pub struct SessionRow {
    pub session: u32,
    pub began: Option<u64>,
    pub ended: Option<u64>,
    pub idle: u64,
    pub right: Option<WayTraffic>,
    pub left: Option<WayTraffic>,
    pub why: Option<Why>,
}

impl<'a> Overview<'a> {
    /// Whether a read or a write of the direction failed.
    fn has_failed(&self, session: u32, way: Way) -> bool
        ensures { result ≡ failed self.now.config self.now.acts session way }
    {
        let past = self.facts();
        read_fault_at(past, input(self.config(), session, way)).is_some()
            || write_fault_at(past, output(self.config(), session, way)).is_some()
    }

    fn ending(&self, session: u32, way: Way) -> WayEnding
        ensures { result ≡ ending_of self.now.config self.now.acts session way }
    {
        let past = self.facts();
        if shut_at(past, output(self.config(), session, way)).is_some() {
            WayEnding::Passed
        } else if self.has_failed(session, way) {
            WayEnding::Failed
        } else if closed_why(past, session).is_some() {
            WayEnding::Cut
        } else {
            WayEnding::Open
        }
    }

    fn passage(&self, session: u32, way: Way) -> Option<WayTraffic>
        ensures { result ≡ passage_of self.now.config self.now.acts session way }
    {
        if !is_formed(self.config(), way) {
            return None;
        }
        let past = self.facts();
        Some(WayTraffic {
            read: got_length(past, input(self.config(), session, way)),
            written: put_length(past, output(self.config(), session, way)),
            ending: self.ending(session, way),
        })
    }

    /// How long nothing of the session had moved when it ended, or when the last turn was made.
    fn idle(&self, session: u32) -> u64
        ensures { result ≡ idle_of self.now.config self.now.acts session }
    {
        let until = match self.end_moment(session) {
            Some(ended) => ended,
            None => now(self.facts()),
        };
        until.saturating_sub(moved_at(self.facts(), session))
    }

    /// The row of the session.
    pub fn row(&self, session: u32) -> SessionRow
        ensures { result ≡ row_of self.now.config self.now.acts session }
    {
        SessionRow {
            session,
            began: self.begin_moment(session),
            ended: self.end_moment(session),
            idle: self.idle(session),
            right: self.passage(session, Way::LeftToRight),
            left: self.passage(session, Way::RightToLeft),
            why: closed_why(self.facts(), session),
        }
    }
}
