// What a maker counts of its answers.
ghost use Rattle.std.specs.Prelude.{◌≡◌, true, None};
ghost use Rattle.port_trait.specs.{risen, came_after, making_failed, making_stalled, peer_failed, peer_stalled};
ghost use Rattle.port_trait.specs.Counting.{Counted};
ghost use Rattle.socket_maker.specs.Makers.{risen_if};

use port_trait::{MadePeer, Making};
use relay_model::Peer;

/// How many answers of a maker were failures, how many were still under way, and the peer that was accepted last.
#[derive(Clone, Copy)]
pub struct MakerTally {
    faults: u64,
    stalls: u64,
    came: Option<Peer>,
}

impl MakerTally {
    /// Of a maker that was asked for nothing yet.
    pub fn new() -> MakerTally
        ensures { result ≡ record { faults = 0; stalls = 0; came = None } }
    {
        MakerTally {
            faults: 0,
            stalls: 0,
            came: None,
        }
    }

    /// Counts a failure.
    pub fn count_fault(&mut self)
        ensures value { self.new ≡ record self.old { faults = risen self.old.faults } }
        ensures counted { Counted true self.old.faults self.new.faults }
    {
        self.faults = self.faults.saturating_add(1);
    }

    fn count_stall(&mut self)
        ensures value { self.new ≡ record self.old { stalls = risen self.old.stalls } }
        ensures counted { Counted true self.old.stalls self.new.stalls }
    {
        self.stalls = self.stalls.saturating_add(1);
    }

    /// Counts the answer of an opening or a listening: a failure, and what is under way.
    pub fn count_making<T>(&mut self, making: &Making<T>)
        ensures faults { self.new.faults ≡ risen_if (making_failed making.now) self.old.faults }
        ensures stalls { self.new.stalls ≡ risen_if (making_stalled making.now) self.old.stalls }
        ensures counted_fault { Counted (making_failed making.now) self.old.faults self.new.faults }
        ensures counted_stall { Counted (making_stalled making.now) self.old.stalls self.new.stalls }
        ensures came { self.new.came ≡ self.old.came }
    {
        match making {
            Making::Failed => self.count_fault(),
            Making::Later(_) => self.count_stall(),
            Making::Made(_) | Making::Memory => {}
        }
    }

    /// Counts the answer of an accepting, and remembers the peer that came.
    pub fn count_peer<T>(&mut self, peer: &MadePeer<T>)
        ensures faults { self.new.faults ≡ risen_if (peer_failed peer.now) self.old.faults }
        ensures stalls { self.new.stalls ≡ risen_if (peer_stalled peer.now) self.old.stalls }
        ensures counted_fault { Counted (peer_failed peer.now) self.old.faults self.new.faults }
        ensures counted_stall { Counted (peer_stalled peer.now) self.old.stalls self.new.stalls }
        ensures came { self.new.came ≡ came_after self.old.came peer.now }
    {
        match peer {
            MadePeer::Came(_, who) => self.came = Some(*who),
            MadePeer::NoPeer => self.count_stall(),
            MadePeer::Failed => self.count_fault(),
            MadePeer::Memory => {}
        }
    }
}
