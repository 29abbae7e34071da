// How a run ends.
use crate::acts::Why;
use crate::places::{Half, Place, Side};

/// How a run ended.
#[derive(Clone, Copy, PartialEq, Eq)]
pub enum RunOutcome {
    /// Memory was wanting.
    Memory,
    /// It was stopped after so many turns.
    Stopped(usize),
    /// An accepting failed.
    AcceptFailed,
    /// No listening succeeded in so many tries.
    ListenFailed(usize),
    /// No opening of this side succeeded in so many tries.
    OpenFailed(Side, usize),
    /// The first read or write that failed was at this half of the place.
    Faulted(Place, Half),
    /// It ended for this reason.
    Ended(Why),
}
