// What became of a wish of the program door.
use relay_model::Peer;

/// What became of the next wish of the program door. A sleep and the end are left to the caller.
#[derive(Clone, Copy, PartialEq, Eq)]
pub enum DoorStepped {
    /// The call was made, and its answer heard.
    Acted,
    /// The same: this peer came, and the next session is its.
    Admitted(Peer),
    /// The same: the accepting failed, which ends every session.
    AcceptFailed,
    /// There was no memory for the call, and nothing was done.
    Memory,
    Sleep(Option<u64>),
    Done,
}
