// Under which number the row of a sender was made.
use relay_model::Peer;
use std::alloc::Global;
use std::collections::HashMap;

/// A sender as it is looked up.
#[derive(Clone, Copy, PartialEq, Eq, Hash)]
enum Sender {
    V4([u8; 4], u16),
    V6([u8; 16], u16),
    Local,
}

/// The numbers of rows by their senders.
#[derive(Drop)]
pub(crate) struct Senders {
    numbers: HashMap<Sender, u32>,
}

impl Senders {
    /// None; takes no memory.
    pub(crate) fn new(alloc: Global) -> Senders {
        Senders {
            numbers: HashMap::new(alloc),
        }
    }

    /// The number that was noted last for the sender.
    pub(crate) fn number(&self, peer: Peer) -> Option<u32> {
        self.numbers.get(&sender_of(peer)).copied()
    }

    /// Notes the number. Without memory it isn't noted.
    pub(crate) fn note(&mut self, peer: Peer, number: u32) {
        let _ = self.numbers.insert(sender_of(peer), number);
    }

    /// Forgets the sender.
    pub(crate) fn forget(&mut self, peer: Peer) {
        self.numbers.remove(&sender_of(peer));
    }
}

fn sender_of(peer: Peer) -> Sender {
    match peer {
        Peer::V4 { addr, port } => Sender::V4(addr, port),
        Peer::V6 { addr, port } => Sender::V6(addr, port),
        Peer::Local => Sender::Local,
    }
}
