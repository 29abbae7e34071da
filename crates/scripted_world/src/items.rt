// What a scripted world is told to answer.
use relay_model::{Bytes, Peer};

/// What a read gives: these bytes (longer ones in parts), an empty datagram, the end of the input, or a fault.
#[derive(Drop)]
pub enum ReadItem {
    Bytes(Bytes),
    Empty,
    End,
    Fault,
}

/// What becomes of a write: up to so many bytes are taken, none yet, or it fails.
#[derive(Clone, Copy, PartialEq, Eq)]
pub enum WriteItem {
    Upto(u32),
    NotYet,
    Fault,
}

/// What becomes of an opening or a settling: it opens, is under way, or fails. A listening is never under way.
#[derive(Clone, Copy, PartialEq, Eq)]
pub enum OpenItem {
    Opens,
    Later,
    Fails,
}

/// What becomes of an accepting: this peer has come, or it fails.
#[derive(Clone, Copy, PartialEq, Eq)]
pub enum PeerItem {
    Comes(Peer),
    Fails,
}
