// The summary of a generated run.
ghost use Rattle.std.specs.Prelude.{◌≡◌, ◌<◌, ◌+◌, ◌^◌, length, sum, string_bytes, IfOk};
ghost use Rattle.relay_model.specs.{admitted};
ghost use Rattle.socat_top.specs.Command.{load_command};
ghost use Rattle.socat_top.specs.Sums.{begins, brought, delivered, finishes, sessions_of, was_finished};

use relay_model::{Act, Bytes, Journal, NoMemory, Side, Why};
use std::alloc::{AllocError, Global};

/// How many sessions were closed as finished, how many bytes were written at right places, and the sum of these.
#[derive(Clone, Copy, PartialEq, Eq)]
pub struct Summary {
    pub number: u64,
    pub sessions: u64,
    pub bytes: u64,
    pub sum: u64,
}

impl Summary {
    ghost use Rattle.socat_top.specs.Summaries.{summary_line, summary_of};

    /// The summary of the acts of a run of this number.
    pub fn of(number: u64, journal: &Journal) -> Summary
        requires bytes { length (delivered journal.now.acts) < 2 ^ 64 }
        requires sum { sum (delivered journal.now.acts) < 2 ^ 64 }
        ensures { result ≡ summary_of number journal.now.acts }
    {
        let Totals { bytes, sum } = add_up(journal);
        Summary {
            number,
            sessions: finished_sessions(journal) as u64,
            bytes,
            sum,
        }
    }

    /// Its line, with a newline at its end.
    pub fn line(&self, alloc: Global) -> Result<Bytes, NoMemory>
        ensures { IfOk result (λ bytes. bytes ≡ summary_line self.now) }
    {
        let text = self.text(alloc)?;
        Bytes::of(alloc, text.as_bytes())
    }

    #[tactic(auto, unfolding(crate::specs::Summaries::summary_line))]
    fn text(&self, alloc: Global) -> Result<String, AllocError>
        ensures { IfOk result (λ text. string_bytes text ≡ summary_line self.now) }
    {
        let Summary {
            number,
            sessions,
            bytes,
            sum,
        } = *self;
        format!(in alloc; "load {number}: {sessions} sessions, {bytes} bytes, sum {sum}\n")
    }
}

/// How many of the sessions that began were closed as finished.
fn finished_sessions(journal: &Journal) -> usize
    ensures { result ≡ sessions_of journal.now.acts }
{
    let mut count = 0;
    for session in 0..begun_sessions(journal) {
        if was_finished(journal, session) {
            count += 1;
        }
    }
    count
}

/// How many peers were accepted, each of which began a session.
fn begun_sessions(journal: &Journal) -> usize
    ensures { result ≡ admitted load_command journal.now.acts }
{
    let mut count = 0;
    for i in 0..journal.len() {
        if is_admission(journal.get(i)) {
            count += 1;
        }
    }
    count
}

fn is_admission(act: &Act) -> bool
    ensures { result ≡ begins act.now }
{
    matches!(act, Act::Accepted(place, _) if place.side == Side::Left)
}

fn was_finished(journal: &Journal, session: usize) -> bool
    ensures { result ≡ was_finished journal.now.acts session }
{
    for i in 0..journal.len() {
        if finishes(journal.get(i), session) {
            return true;
        }
    }
    false
}

fn finishes(act: &Act, session: usize) -> bool
    ensures { result ≡ finishes act.now session }
{
    match act {
        Act::Closed(place, Why::Finished) => place.session as usize == session,
        _ => false,
    }
}

/// The bytes that were written at right places: how many, and their sum.
struct Totals {
    bytes: u64,
    sum: u64,
}

fn add_up(journal: &Journal) -> Totals
    requires bytes { length (delivered journal.now.acts) < 2 ^ 64 }
    requires sum { sum (delivered journal.now.acts) < 2 ^ 64 }
    ensures bytes { result.bytes ≡ length (delivered journal.now.acts) }
    ensures sum { result.sum ≡ sum (delivered journal.now.acts) }
{
    let mut bytes = 0;
    let mut sum = 0;
    for i in 0..journal.len() {
        let piece = bytes_to_right(journal.get(i));
        bytes += piece.len() as u64;
        sum = sum_with(sum, piece);
    }
    Totals { bytes, sum }
}

/// The bytes that an act writes at a right place.
fn bytes_to_right(act: &Act) -> &[u8]
    ensures { result.now ≡ brought act.now }
{
    match act {
        Act::Wrote(place, bytes) if place.side == Side::Right => bytes.as_slice(),
        _ => &[],
    }
}

/// A sum with these bytes added to it.
fn sum_with(before: u64, bytes: &[u8]) -> u64
    requires { before + sum bytes.now < 2 ^ 64 }
    ensures { result ≡ before + sum bytes.now }
{
    let mut total = before;
    for byte in bytes {
        total += u64::from(*byte);
    }
    total
}
