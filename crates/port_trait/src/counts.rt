// How often a port answered what is to have a cause.
ghost use Rattle.std.specs.Prelude.{◌≡◌, ◌+◌, ◌-◌, ◌^◌, min, Some};
ghost use Rattle.port_trait.specs.Counting.{Tallied, Fault, End, Empty, Stall};

/// How often a port failed, ended, gave an empty datagram, and had nothing to give or no room. Each number
/// stays at its last value.
#[derive(Clone, Copy, PartialEq)]
pub struct PortCounts {
    pub faults: u64,
    pub ends: u64,
    pub empties: u64,
    pub stalls: u64,
}

impl PortCounts {
    /// Nothing was counted yet.
    pub fn new() -> PortCounts
        ensures { result ≡ record { faults = 0; ends = 0; empties = 0; stalls = 0 } }
    {
        PortCounts {
            faults: 0,
            ends: 0,
            empties: 0,
            stalls: 0,
        }
    }

    /// Counts one fault.
    pub fn count_fault(&mut self)
        ensures value { self.new ≡ record self.old { faults = min (self.old.faults + 1) (2 ^ 64 - 1) } }
        ensures counted { Tallied (Some Fault) self.old self.new }
    {
        self.faults = self.faults.saturating_add(1);
    }

    /// Counts one end.
    pub fn count_end(&mut self)
        ensures value { self.new ≡ record self.old { ends = min (self.old.ends + 1) (2 ^ 64 - 1) } }
        ensures counted { Tallied (Some End) self.old self.new }
    {
        self.ends = self.ends.saturating_add(1);
    }

    /// Counts one empty datagram.
    pub fn count_empty(&mut self)
        ensures value { self.new ≡ record self.old { empties = min (self.old.empties + 1) (2 ^ 64 - 1) } }
        ensures counted { Tallied (Some Empty) self.old self.new }
    {
        self.empties = self.empties.saturating_add(1);
    }

    /// Counts one call that came too early.
    pub fn count_stall(&mut self)
        ensures value { self.new ≡ record self.old { stalls = min (self.old.stalls + 1) (2 ^ 64 - 1) } }
        ensures counted { Tallied (Some Stall) self.old self.new }
    {
        self.stalls = self.stalls.saturating_add(1);
    }
}
