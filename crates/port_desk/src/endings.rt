// What a desk leaves.
ghost use Rattle.std.specs.Prelude.{◌≡◌};

use port_table::Back;
use relay_model::Kept;

/// The three standard ports.
#[derive(Drop)]
pub struct Backs<I, O, E> {
    pub stdin: Back<I>,
    pub stdout: Back<O>,
    pub stderr: Back<E>,
}

/// How often something failed, a turn was waited for, and a stop was answered. Only a desk counts.
#[derive(Clone, Copy, PartialEq, Eq)]
pub struct Counts {
    pub(crate) faults: u64,
    pub(crate) waits: u64,
    pub(crate) stops: u64,
}

impl Counts {
    /// How often something failed.
    pub fn faults(&self) -> u64
        ensures { result ≡ self.now.faults }
    {
        self.faults
    }

    /// How many turns were waited for.
    pub fn waits(&self) -> u64
        ensures { result ≡ self.now.waits }
    {
        self.waits
    }

    /// How often a stop was answered.
    pub fn stops(&self) -> u64
        ensures { result ≡ self.now.stops }
    {
        self.stops
    }
}

/// What a desk leaves: the standard ports, what its recorder kept, and its counts.
#[derive(Drop)]
pub struct Ended<I, O, E> {
    pub standard: Backs<I, O, E>,
    pub kept: Kept,
    pub counts: Counts,
}
