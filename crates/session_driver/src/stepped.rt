// What became of a wish.
use relay_model::{Place, Why};

/// What became of the next wish of a session. A sleep and the end are left to the caller.
#[derive(Clone, Copy, PartialEq, Eq)]
pub enum Stepped {
    /// The call was made, and its answer heard.
    Acted,
    /// The same, and the read failed.
    ReadFailed(Place),
    /// The same, and the write failed.
    WriteFailed(Place),
    /// There is no child, or no memory to know of it.
    Childless,
    /// There was no memory for the call; the session is cut.
    Memory,
    Sleep(Option<u64>),
    Done(Why),
}

/// What became of a wished read.
#[derive(Clone, Copy, PartialEq, Eq)]
pub enum Fetched {
    /// So many bytes were read.
    Bytes(usize),
    Other(Stepped),
}
