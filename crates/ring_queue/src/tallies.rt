// What a ring counts.
ghost use Rattle.std.specs.Prelude.{◌≡◌, Some};
ghost use Rattle.port_trait.specs.{Tallied, Fault};
ghost use Rattle.ring_queue.specs.Tallies.{no_tally, with_misuse};

use port_trait::PortCounts;

/// The answers of a ring that need a cause, and how many of its faults are calls that it doesn't serve. The number
/// stays at its last value.
#[derive(Clone, Copy, PartialEq)]
pub struct RingTally {
    pub counts: PortCounts,
    pub misuses: u64,
}

impl RingTally {
    /// Nothing was counted yet.
    pub fn new() -> RingTally
        ensures { result ≡ no_tally }
    {
        RingTally {
            counts: PortCounts::new(),
            misuses: 0,
        }
    }

    /// Counts a call that the ring doesn't serve.
    pub fn count_misuse(&mut self)
        ensures misused { self.new ≡ with_misuse self.old }
        ensures counted { Tallied (Some Fault) self.old.counts self.new.counts }
    {
        self.counts.count_fault();
        self.misuses = self.misuses.saturating_add(1);
    }
}
