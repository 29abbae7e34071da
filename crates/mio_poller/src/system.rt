// What a poller asks the system for: its clock, and a wait for what is ready.
ghost use Rattle.std.specs.Prelude.{◌≤◌, ◌≡◌, List, [], Option, Result, length, IfOk, OnErr};
ghost use Rattle.std.specs.declared.time.Duration.{Duration};
ghost use Rattle.std.specs.declared.io.Error.{Error};
ghost use Rattle.mio.specs.declared.event.event.Event.{Event};
ghost use Rattle.mio.specs.Events.{items, capacity as events_capacity};

use mio::event::Event;
use mio::{Events, Poll, Registry};
use relay_model::MOST_READY;
use std::alloc::Global;
use std::io;
use std::marker::Model;
use std::net::Net;
use std::time::{Clock, Duration, Instant};

/// The events of one wait. Each may name both halves of a port, so they fit a list of keys. What doesn't fit
/// stays for the next wait.
const MOST_EVENTS: usize = MOST_READY / 2;

/// The system's clock and its wait for readiness.
pub trait Readiness: Drop {
    // what its clock may answer
    ghost tells: { Self → Result Duration Error → Type 0 } = { λ _ _. Unit {0} };
    // what a wait of at most so long may make of it
    ghost waits: { Self → Option Duration → Self → Type 0 } = { λ _ _ _. Unit {0} };
    // the events that its last wait left
    ghost seen: { Self → List Event };

    /// The time since its clock began.
    fn time_since_start(&self) -> io::Result<Duration>
        ensures { tells self.now result };

    /// Sleeps until something is ready or the time is up; `None` sets no limit. One that is refused leaves no events.
    fn wait(&mut self, most: Option<Duration>) -> io::Result<()>
        ensures once { waits self.old most self.new }
        ensures refused { OnErr result (seen self.new ≡ []) };

    /// What the last wait found ready, at most 128 events.
    fn events(&self) -> &[Event]
        ensures events { result.now ≡ seen self.now }
        ensures most { length result.now ≤ 128 };
}

/// The system of this process (epoll(7), clock_gettime(2)).
#[derive(Drop)]
pub struct System<R> {
    rt: R,
    poll: Poll,
    events: Events,
    start: Instant,
    ghost room: { events_capacity events ≡ 128 },
    ghost few: { length (items events) ≤ 128 },
}

impl<R> Model for System<R> {
    ghost use Rattle.std.specs.Prelude.{List};
    ghost use Rattle.mio.specs.declared.event.event.Event.{Event};
    ghost use Rattle.mio.specs.Events.{items};

    ghost Value = { List Event };

    ghost view = { λ system. items system.events };
}

/// Why there is no system to wait with.
pub(crate) enum Lack {
    Refused,
    Memory,
}

impl<R: Net + Clock + Drop> System<R> {
    /// Nothing is registered, and the clock begins now.
    pub(crate) fn new(rt: R, alloc: Global) -> Result<System<R>, Lack>
        ensures { IfOk result (λ system. system ≡ []) }
    {
        let (Ok(start), Ok(poll)) = (Instant::now(&rt), Poll::new(&rt)) else {
            return Err(Lack::Refused);
        };
        match Events::with_capacity(alloc, MOST_EVENTS) {
            Ok(events) => Ok(System {
                rt,
                poll,
                events,
                start,
            }),
            Err(_) => Err(Lack::Memory),
        }
    }

    /// Where what it waits for is registered.
    pub(crate) fn registry(&self) -> &Registry {
        self.poll.registry()
    }
}

impl<R: Net + Clock + Drop> Readiness for System<R> {
    ghost seen = { λ system. system };

    fn time_since_start(&self) -> io::Result<Duration> {
        self.start.elapsed(&self.rt)
    }

    fn wait(&mut self, most: Option<Duration>) -> io::Result<()> {
        self.poll.poll(&mut self.events, most)
    }

    fn events(&self) -> &[Event]
        ensures events { result.now ≡ self.now }
        ensures most { length result.now ≤ 128 }
    {
        self.events.iter().as_slice()
    }
}
