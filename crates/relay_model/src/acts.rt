// One act is one call on the world together with its answer.
ghost use Rattle.std.specs.Prelude.{◌≡◌, IfOk};
ghost use Rattle.relay_model.specs.Acts.{copied_act};

use crate::contents::{Bytes, NoMemory};
use crate::places::Place;
use crate::readiness::ReadyList;

/// How the end of a direction is passed on at its sink (socat(1), `shut-none` to `shut-null`).
#[derive(Clone, Copy, PartialEq, Eq)]
pub enum Shut {
    Nothing,
    Down,
    Close,
    Null,
}

/// Why something that was held is closed.
#[derive(Clone, Copy, PartialEq, Eq)]
pub enum Why {
    Finished,
    ClosingTime,
    Idle,
    Faulted,
    OpenFailed,
    ListenFailed,
    AcceptFailed,
    Refused,
    Served,
    Stopped,
    Memory,
}

/// The other end of an accepted connection; `Local` is a Unix socket's.
#[derive(Clone, Copy, PartialEq, Eq)]
pub enum Peer {
    V4 { addr: [u8; 4], port: u16 },
    V6 { addr: [u8; 16], port: u16 },
    Local,
}

/// What is known of a child: `Ended` has its exit status, `Killed` was ended by a signal.
#[derive(Clone, Copy, PartialEq, Eq)]
pub enum ChildEnd {
    Running,
    Ended(i32),
    Killed,
}

/// One call on the world with its answer. Moments are milliseconds since the run began.
#[derive(Drop)]
pub enum Act {
    Turn {
        until: Option<u64>,
        at: u64,
        ready: ReadyList,
        stop: bool,
    },
    Opened(Place),
    OpenLater(Place),
    OpenFailed(Place),
    Listening(Place),
    ListenFailed(Place),
    Accepted(Place, Peer),
    NoPeer(Place),
    AcceptFailed(Place),
    Read(Place, Bytes),
    ReadEmpty(Place),
    ReadEnd(Place),
    ReadNotYet(Place),
    ReadFault(Place),
    Wrote(Place, Bytes),
    WriteNotYet(Place),
    WriteFault(Place),
    Shut(Place, Shut),
    ShutFault(Place, Shut),
    Closed(Place, Why),
    Reaped(Place, ChildEnd),
    Note(Bytes),
    NoteFault(Bytes),
}

impl Act {
    /// A copy. The copy of a `Turn` has room for its entries alone.
    pub fn copy(&self) -> Result<Act, NoMemory>
        ensures { IfOk result (λ a. a ≡ copied_act self.now) }
    {
        match self {
            Act::Turn {
                until,
                at,
                ready,
                stop,
            } => Ok(Act::Turn {
                until: *until,
                at: *at,
                ready: ready.copy()?,
                stop: *stop,
            }),
            Act::Opened(place) => Ok(Act::Opened(*place)),
            Act::OpenLater(place) => Ok(Act::OpenLater(*place)),
            Act::OpenFailed(place) => Ok(Act::OpenFailed(*place)),
            Act::Listening(place) => Ok(Act::Listening(*place)),
            Act::ListenFailed(place) => Ok(Act::ListenFailed(*place)),
            Act::Accepted(place, peer) => Ok(Act::Accepted(*place, *peer)),
            Act::NoPeer(place) => Ok(Act::NoPeer(*place)),
            Act::AcceptFailed(place) => Ok(Act::AcceptFailed(*place)),
            Act::Read(place, bytes) => Ok(Act::Read(*place, bytes.copy()?)),
            Act::ReadEmpty(place) => Ok(Act::ReadEmpty(*place)),
            Act::ReadEnd(place) => Ok(Act::ReadEnd(*place)),
            Act::ReadNotYet(place) => Ok(Act::ReadNotYet(*place)),
            Act::ReadFault(place) => Ok(Act::ReadFault(*place)),
            Act::Wrote(place, bytes) => Ok(Act::Wrote(*place, bytes.copy()?)),
            Act::WriteNotYet(place) => Ok(Act::WriteNotYet(*place)),
            Act::WriteFault(place) => Ok(Act::WriteFault(*place)),
            Act::Shut(place, how) => Ok(Act::Shut(*place, *how)),
            Act::ShutFault(place, how) => Ok(Act::ShutFault(*place, *how)),
            Act::Closed(place, why) => Ok(Act::Closed(*place, *why)),
            Act::Reaped(place, end) => Ok(Act::Reaped(*place, *end)),
            Act::Note(bytes) => Ok(Act::Note(bytes.copy()?)),
            Act::NoteFault(bytes) => Ok(Act::NoteFault(bytes.copy()?)),
        }
    }
}
