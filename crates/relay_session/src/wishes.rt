// What a session wishes for, and what it may hear.
use relay_model::{ChildEnd, Peer, Place, Shut, Why};

/// The next call that a session wishes to be made. `at_most` is in bytes, `until` in milliseconds since the run began.
#[derive(Clone, Copy, PartialEq, Eq)]
pub enum Wish {
    Open(Place),
    Settle(Place),
    Listen(Place),
    Accept { door: Place, place: Place },
    Read { place: Place, at_most: usize },
    Write(Place),
    /// What waits goes out as one packet.
    Send(Place),
    Shut(Place, Shut),
    Close(Place, Why),
    Reap(Place),
    Sleep { until: Option<u64> },
    Done(Why),
}

/// The answer to a wish. `Later` answers an opening or a settling, `Empty` a read of an empty datagram, `Done` a shut or
/// a close, and `Woken` a sleep.
#[derive(Clone, Copy)]
pub enum Answer<'a> {
    Opened,
    Later,
    Listening,
    Accepted(Peer),
    NoPeer,
    Bytes(&'a [u8]),
    Empty,
    End,
    NotYet,
    Took(usize),
    Done,
    Reaped(ChildEnd),
    NoChild,
    Woken,
    Failed,
}
