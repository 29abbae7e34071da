// The answers of a world. `Memory`: there was none, and nothing was done.
use relay_model::{ChildEnd, Peer};

/// The end of a wait: its moment in milliseconds since the run began, and whether the run is to stop.
#[derive(Clone, Copy, PartialEq, Eq)]
pub enum Turned {
    Turned { at: u64, stop: bool },
    Memory,
}

/// The answer to an opening, and to a settling of one that was under way. After `Later` it is under way.
#[derive(Clone, Copy, PartialEq, Eq)]
pub enum OpenAnswer {
    Opened,
    Later,
    Failed,
    Memory,
}

/// The answer to a listening.
#[derive(Clone, Copy, PartialEq, Eq)]
pub enum ListenAnswer {
    Listening,
    Failed,
    Memory,
}

/// The answer to an accepting: the peer that came, or that none has come yet.
#[derive(Clone, Copy, PartialEq, Eq)]
pub enum AcceptAnswer {
    Accepted(Peer),
    NoPeer,
    Failed,
    Memory,
}

/// The answer to a read: so many bytes, an empty datagram, the end of the input, or none yet.
#[derive(Clone, Copy, PartialEq, Eq)]
pub enum ReadAnswer {
    Bytes(usize),
    Empty,
    End,
    NotYet,
    Failed,
    Memory,
}

/// The answer to a write: how many bytes were taken from the front, or none yet.
#[derive(Clone, Copy, PartialEq, Eq)]
pub enum WriteAnswer {
    Took(usize),
    NotYet,
    Failed,
    Memory,
}

/// The answer to a sending: all bytes were taken in one piece, or none yet.
#[derive(Clone, Copy, PartialEq, Eq)]
pub enum SendAnswer {
    Sent,
    NotYet,
    Failed,
    Memory,
}

/// The answer to a shut. After `Failed` the place counts as shut too.
#[derive(Clone, Copy, PartialEq, Eq)]
pub enum ShutAnswer {
    Done,
    Failed,
    Memory,
}

/// The answer to a note. After `Failed` a front of the text may have been written.
#[derive(Clone, Copy, PartialEq, Eq)]
pub enum NoteAnswer {
    Noted,
    Failed,
    Memory,
}

/// The answer to a reaping: what is known of the child, or that there is none.
#[derive(Clone, Copy, PartialEq, Eq)]
pub enum ReapAnswer {
    Reaped(ChildEnd),
    NoChild,
    Memory,
}
