// A poller in memory.
ghost use Rattle.std.specs.Prelude.{◌≡◌, ◌≤◌, [], false, Some};
ghost use Rattle.port_objects.specs.Pollers.{fresh_poller, clock_after};

use port_trait::{KeyList, Polled, Poller};
use std::marker::Model;
use std::thread;

/// Names some entries at its first poll alone, and comes to each moment at once.
#[derive(Drop)]
pub struct MemPoller {
    clock: u64,
    asked: Option<u64>,
    next: Option<KeyList>,
    last: Option<KeyList>,
}

impl Model for MemPoller {
    ghost use Rattle.port_objects.specs.Pollers.{MemPollerState, entries_of};

    ghost Value = { MemPollerState };

    ghost view = { λ poller. record { clock = poller.clock; asked = poller.asked; next = entries_of poller.next; last = entries_of poller.last } };
}

impl MemPoller {
    /// A poller that names nothing.
    pub fn new() -> MemPoller
        ensures { result ≡ fresh_poller [] }
    {
        MemPoller {
            clock: 0,
            asked: None,
            next: None,
            last: None,
        }
    }

    /// A poller that names these entries at its first poll.
    pub fn naming(keys: KeyList) -> MemPoller
        ensures { result ≡ fresh_poller keys.entries }
    {
        MemPoller {
            clock: 0,
            asked: None,
            next: Some(keys),
            last: None,
        }
    }
}

impl Poller for MemPoller {
    ghost named = { λ poller. Some poller.last };

    ghost stops = { λ _. 0 };

    ghost clock = { λ poller. poller.clock };

    ghost asked = { λ poller. poller.asked };

    /// Comes to the moment, or without one lets other threads run.
    fn poll(&mut self, until: Option<u64>, ready: &mut KeyList) -> Polled
        requires { 256 ≤ ready.old.room }
        ensures answer { result ≡ record { at = self.new.clock; stop = false } }
        ensures clock { self.new.clock ≡ clock_after self.old.clock until }
        ensures asked { self.new.asked ≡ until }
        ensures grows { self.old.clock ≤ self.new.clock }
        ensures named { (self.new.last ≡ self.old.next) × (self.new.next ≡ []) }
        ensures ready { ready.new ≡ record ready.old { entries = self.old.next } }
    {
        self.asked = until;
        match until {
            Some(moment) => self.clock = self.clock.max(moment),
            None => thread::yield_now(),
        }
        self.last = self.next.take();
        match &self.last {
            Some(keys) => ready.set(keys),
            None => ready.clear(),
        }
        Polled {
            at: self.clock,
            stop: false,
        }
    }
}
