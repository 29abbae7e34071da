// What a script gives to acceptings.
ghost use Rattle.std.specs.Prelude.{◌≡◌, Some};
ghost use Rattle.scripted_world.specs.Lines.{next_of};
ghost use Rattle.scripted_world.specs.Peers.{peer_given};

use crate::items::PeerItem;
use crate::lines::PlacedItems;
use relay_model::{Peer, Place};

/// A peer that comes, or a failure, and from which moment on.
#[derive(Clone, Copy)]
pub struct DuePeer {
    pub at: u64,
    pub item: PeerItem,
}

/// What an accepting gives now.
#[derive(Clone, Copy, PartialEq, Eq)]
pub enum Coming {
    Comes(Peer),
    NoPeer,
    Fault,
}

impl DuePeer {
    /// What this gives to an accepting at this moment.
    fn comes(&self, now: u64) -> Coming
        ensures { result ≡ peer_given (Some self.now) now }
    {
        if now < self.at {
            return Coming::NoPeer;
        }
        match self.item {
            PeerItem::Comes(peer) => Coming::Comes(peer),
            PeerItem::Fails => Coming::Fault,
        }
    }
}

/// What an accepting at the door gives at this moment.
pub fn who_comes(lines: &PlacedItems<DuePeer>, door: Place, now: u64) -> Coming
    ensures { result ≡ peer_given (next_of lines.now door) now }
{
    match lines.next(door) {
        None => Coming::NoPeer,
        Some(line) => line.comes(now),
    }
}
