// Peers are accepted at doors.
ghost use Rattle.std.specs.Prelude.{◌≡◌, ◌≢◌, false, true};
ghost use Rattle.port_trait.specs.declared.makers.MadePeer.TheVariants as peers;
ghost use Rattle.relay_model.specs.declared.acts.Peer.TheVariants as whose;
ghost use Rattle.socket_kinds.specs.{AcceptsAt, OnBoth, OnCame, OnPeer, is_door, is_unix_door, has_left_off, HasPartner};
ghost use Rattle.socket_ports.specs.Accepting.{IsFreshPort};

use crate::port::SocketPort;
use mio::Registry;
use port_trait::MadePeer;
use socket_kinds::{Accepts, SocketAt};
use std::alloc::Global;
use std::sync::Arc;

impl<T: Accepts, G: Drop> SocketPort<SocketAt<T>, G> {
    /// Accepts a peer, whose socket the registry reports under `key`; `kept` is let go with its port. It answers
    /// `NoPeer` where none waits, and where 64 connections in a row were aborted before they were accepted; `Failed`
    /// where this is no door, and where the system refuses. At a door of datagrams the first one is the peer's, and
    /// stays to be read.
    pub fn accept<K: Drop>(
        &mut self,
        alloc: Global,
        registry: &Arc<Registry, Global>,
        key: usize,
        kept: K,
    ) -> MadePeer<SocketPort<SocketAt<T>, K>>
        ensures fresh { OnPeer IsFreshPort result }
        ensures sort { OnPeer (λ port. is_door port.socket ≡ false) result }
        ensures no_door { is_door self.old.socket ≡ false → result ≡ peers.Failed }
        ensures left_off { has_left_off self.new.socket ≡ true → result ≡ peers.NoPeer }
        ensures addressed { is_unix_door self.old.socket ≡ false → OnCame (λ peer. peer ≢ whose.Local) result }
        ensures came { AcceptsAt T.comes self.old.socket (has_left_off self.new.socket) (λ port. port.socket) result }
        ensures partner { OnBoth (λ port peer. HasPartner port.socket peer) result }
        ensures kept { (self.new.counts ≡ self.old.counts) × (self.new.begun ≡ self.old.begun) × (self.new.ended ≡ self.old.ended) }
    {
        match self.socket.accept(alloc, registry, key) {
            MadePeer::Came(socket, peer) => MadePeer::Came(SocketPort::new(socket, kept), peer),
            MadePeer::NoPeer => MadePeer::NoPeer,
            MadePeer::Failed => MadePeer::Failed,
            MadePeer::Memory => MadePeer::Memory,
        }
    }
}
