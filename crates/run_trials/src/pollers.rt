// What waits for the ports of a row, as one kind of poller: so all rows are runs of one desk.
ghost use Rattle.std.specs.Prelude.{◌≡◌, ◌≤◌};
ghost use Rattle.port_trait.specs.Counting.{Counted};

use port_trait::{KeyList, Polled, Poller};

/// At which poll a run beside a server is stopped, if it is still there.
const LAST: u64 = 1_000;

/// How many milliseconds a poll beside a server may wait.
const SOON: u64 = 10;

/// One of three pollers.
#[derive(Drop)]
pub(crate) enum AnyPoller<A, B, C> {
    Watching(A),
    InMemory(B),
    Ticking(C),
}

impl<A: Poller, B: Poller, C: Poller> AnyPoller<A, B, C> {
    fn poll(&mut self, until: Option<u64>, ready: &mut KeyList) -> Polled
        requires { 256 ≤ ready.old.room }
        ensures { ready.new.room ≡ ready.old.room }
    {
        match self {
            AnyPoller::Watching(poller) => poller.poll(until, ready),
            AnyPoller::InMemory(poller) => poller.poll(until, ready),
            AnyPoller::Ticking(poller) => poller.poll(until, ready),
        }
    }
}

/// Waits as the poller of its row does. Beside a server it never waits for long, and says stop after many polls.
#[derive(Drop)]
pub(crate) struct RowPoller<A, B, C> {
    waiter: AnyPoller<A, B, C>,
    beside_server: bool,
    polls: u64,
    asked: Option<u64>,
    at: u64,
    stops: u64,
}

impl<A, B, C> RowPoller<A, B, C> {
    pub(crate) fn new(waiter: AnyPoller<A, B, C>, beside_server: bool) -> RowPoller<A, B, C> {
        RowPoller {
            waiter,
            beside_server,
            polls: 0,
            asked: None,
            at: 0,
            stops: 0,
        }
    }

    /// Until when the next poll may wait where it is asked to wait until `until`.
    fn moment(&self, until: Option<u64>) -> Option<u64> {
        if !self.beside_server {
            return until;
        }
        let soon = self.at.saturating_add(SOON);
        Some(until.map_or(soon, |moment| moment.min(soon)))
    }

    /// Whether so many polls were made beside a server that the run is to stop.
    fn is_late(&self) -> bool {
        self.beside_server && self.polls >= LAST
    }
}

impl<A: Poller, B: Poller, C: Poller> Poller for RowPoller<A, B, C> {
    ghost stops = { λ poller. poller.stops };

    ghost clock = { λ poller. poller.at };

    ghost asked = { λ poller. poller.asked };

    fn poll(&mut self, until: Option<u64>, ready: &mut KeyList) -> Polled {
        self.polls = self.polls.saturating_add(1);
        let moment = self.moment(until);
        let polled = self.waiter.poll(moment, ready);
        let stop = polled.stop || self.is_late();
        self.asked = until;
        self.at = self.at.max(polled.at);
        self.stops = count_stop(self.stops, stop);
        Polled { at: self.at, stop }
    }
}

fn count_stop(stops: u64, stop: bool) -> u64
    ensures { Counted stop stops result }
{
    if stop { stops.saturating_add(1) } else { stops }
}
