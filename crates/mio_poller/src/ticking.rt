// A poller that keeps time and names nothing.
ghost use Rattle.std.specs.Prelude.{◌≡◌, ◌≤◌, [], Some, None, min, false, option_map, unwrap_or, IfOk};
ghost use Rattle.std.specs.Duration.{as_nanos};
ghost use Rattle.mio_poller.specs.Pollers.{fresh_ticks};

use crate::poller::wait_once;
use crate::system::Readiness;
use mio::event::Event;
use port_trait::{KeyList, Polled, Poller};
use std::marker::Model;
use std::time::{Clock, Duration, Instant};
use std::{io, thread};

/// A clock with nothing to be ready.
#[derive(Drop)]
struct Ticks<R> {
    rt: R,
    start: Instant,
}

impl<R: Clock + Drop> Readiness for Ticks<R> {
    ghost seen = { λ _. [] };

    fn time_since_start(&self) -> io::Result<Duration> {
        self.start.elapsed(&self.rt)
    }

    fn wait(&mut self, most: Option<Duration>) -> io::Result<()> {
        thread::sleep(&self.rt, tick_within(most));
        Ok(())
    }

    fn events(&self) -> &[Event] {
        &[]
    }
}

/// A tick of 10 milliseconds, or the time that is left where that is shorter.
fn tick_within(most: Option<Duration>) -> Duration
    ensures { as_nanos result ≡ min 10_000_000 (unwrap_or (option_map as_nanos most) 10_000_000) }
{
    let tick = Duration::from_millis(10);
    match most {
        Some(left) if left < tick => left,
        Some(_) | None => tick,
    }
}

/// Sleeps at most 10 milliseconds a poll, and names nothing: for ports that are asked again and again.
#[derive(Drop)]
pub struct TickPoller<R> {
    ticks: Ticks<R>,
    at: u64,
    asked: Option<u64>,
}

impl<R> Model for TickPoller<R> {
    ghost use Rattle.mio_poller.specs.Pollers.{TickState};

    ghost Value = { TickState };

    ghost view = { λ poller. record { clock = poller.at; asked = poller.asked } };
}

impl<R: Clock + Drop> TickPoller<R> {
    /// Its clock begins now. It fails where the system's clock can't be read.
    pub fn new(rt: R) -> io::Result<TickPoller<R>>
        ensures { IfOk result (λ poller. poller ≡ fresh_ticks) }
    {
        let start = Instant::now(&rt)?;
        Ok(TickPoller {
            ticks: Ticks { rt, start },
            at: 0,
            asked: None,
        })
    }
}

impl<R: Clock + Drop> Poller for TickPoller<R> {
    ghost named = { λ _. Some [] };

    ghost stopped = { λ _. Some false };

    ghost stops = { λ _. 0 };

    ghost clock = { λ poller. poller.clock };

    ghost asked = { λ poller. poller.asked };

    /// Sleeps until the moment, but for 10 milliseconds at most.
    fn poll(&mut self, until: Option<u64>, ready: &mut KeyList) -> Polled
        requires { 256 ≤ ready.old.room }
        ensures answer { result ≡ record { at = self.new.clock; stop = false } }
        ensures asked { self.new.asked ≡ until }
        ensures clock { self.old.clock ≤ self.new.clock }
        ensures ready { ready.new ≡ record ready.old { entries = [] } }
    {
        ready.clear();
        self.asked = until;
        self.at = wait_once(&mut self.ticks, self.at, until);
        Polled {
            at: self.at,
            stop: false,
        }
    }
}
