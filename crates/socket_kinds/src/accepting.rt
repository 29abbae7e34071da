// Peers are accepted at doors.
ghost use Rattle.std.specs.Prelude.{◌≡◌, ◌≢◌, false, true, None};
ghost use Rattle.port_trait.specs.declared.makers.MadePeer.TheVariants as peers;
ghost use Rattle.relay_model.specs.declared.acts.Peer.TheVariants as whose;
ghost use Rattle.socket_kinds.specs.Accepting.{OnPeer, OnCame, OnBoth, IsNoPartner, StandsOrFailed};
ghost use Rattle.socket_kinds.specs.Doors.{is_unix};
ghost use Rattle.socket_kinds.specs.Kinds.{is_door, is_unix_door, has_left_off, AcceptsAt, HasPartner, IsConnectedFrom, IsOfPackets, IsToldPeer};
ghost use Rattle.socket_kinds.specs.declared.any_socket.AnySocket.TheVariants as sockets;

use crate::any_socket::AnySocket;
use crate::datagram::DatagramSocket;
use crate::door::{Accepts, Arrival, Listener, SocketDoor, is_starved};
use crate::peers::peer_of;
use crate::stream::{SocketStream, StreamSocket};
use mio::Registry;
use port_trait::{MadePeer, Making};
use relay_model::Peer;
use std::alloc::Global;
use std::io;
use std::io::{Error, ErrorKind};
use std::net::{SocketAddr, UdpSocket};
use std::sync::Arc;

/// The sockets whose TCP doors listen at this.
pub type SocketAt<T> = AnySocket<StreamSocket, DatagramSocket, SocketDoor<T>>;

impl<T: Accepts> AnySocket<StreamSocket, DatagramSocket, SocketDoor<T>> {
    /// Accepts a peer, whose socket the registry reports under `key`. It answers `NoPeer` where none waits, and where 64
    /// connections in a row were aborted before they were accepted or no descriptor is free; `Failed` where this is no
    /// door, and where the system refuses. At a door of datagrams the first one is the peer's, and stays to be read.
    pub fn accept(
        &mut self,
        alloc: Global,
        registry: &Arc<Registry, Global>,
        key: usize,
    ) -> MadePeer<SocketAt<T>>
        ensures sort { OnPeer (λ socket. is_door socket ≡ false) result }
        ensures no_door { is_door self.old ≡ false → result ≡ peers.Failed }
        ensures left_off { has_left_off self.new ≡ true → result ≡ peers.NoPeer }
        ensures addressed { is_unix_door self.old ≡ false → OnCame (λ peer. peer ≢ whose.Local) result }
        ensures came { AcceptsAt T.comes self.old (has_left_off self.new) (λ socket. socket) result }
        ensures partner { OnBoth HasPartner result }
    {
        match self {
            AnySocket::Door(door) => accept_at(alloc, registry, door, key),
            AnySocket::Stream(_) | AnySocket::Datagrams(_) => MadePeer::Failed,
        }
    }
}

fn accept_at<T: Accepts>(
    alloc: Global,
    registry: &Arc<Registry, Global>,
    door: &mut SocketDoor<T>,
    key: usize,
) -> MadePeer<SocketAt<T>>
    ensures sort { OnPeer (λ socket. is_door socket ≡ false) result }
    ensures left_off { door.new.cut_short ≡ true → result ≡ peers.NoPeer }
    ensures addressed { is_unix door.old.listener ≡ false → OnCame (λ peer. peer ≢ whose.Local) result }
    ensures came { AcceptsAt T.comes (sockets.Door door.old) door.new.cut_short (λ socket. socket) result }
    ensures partner { OnBoth HasPartner result }
{
    door.cut_short = false;
    door.starved = false;
    let single = matches!(door.listener, Listener::Packets(_));
    match &door.listener {
        Listener::Tcp(_) | Listener::Unix(_) => accept_connected(registry, door, key),
        Listener::Udp(enrolled) | Listener::Packets(enrolled) => {
            match share_with_next(&enrolled.socket) {
                Ok(socket) => accept_partner(alloc, registry, socket, key, single),
                Err(error) => turn_away(door, &error),
            }
        }
    }
}

/// A descriptor of the door's socket for the peer whose datagram waits there. The datagram stays.
fn share_with_next(door: &UdpSocket) -> io::Result<UdpSocket> {
    door.peek_from(&mut [0u8; 1])?;
    door.try_clone()
}

/// Takes nobody for this reason. Where no descriptor is free, the door leaves off.
fn turn_away<T: Drop>(door: &mut SocketDoor<T>, error: &Error) -> MadePeer<SocketAt<T>>
    ensures left_off { door.new.cut_short ≡ true → result ≡ peers.NoPeer }
    ensures nobody { OnPeer (λ socket. is_door socket ≡ false) result }
    ensures none { OnPeer IsOfPackets result }
    ensures unaddressed { OnCame (λ peer. peer ≢ whose.Local) result }
    ensures alone { OnBoth HasPartner result }
{
    door.starved = is_starved(error);
    door.cut_short = door.starved;
    if door.starved {
        return MadePeer::NoPeer;
    }
    no_partner(error)
}

#[tactic(auto, using(crate::proofs::Arrivals::stands))]
fn accept_connected<T: Accepts>(
    registry: &Registry,
    door: &mut SocketDoor<T>,
    key: usize,
) -> MadePeer<SocketAt<T>>
    ensures sort { OnPeer (λ socket. is_door socket ≡ false) result }
    ensures left_off { door.new.cut_short ≡ true → result ≡ peers.NoPeer }
    ensures addressed { is_unix door.old.listener ≡ false → OnCame (λ peer. peer ≢ whose.Local) result }
    ensures came { AcceptsAt T.comes (sockets.Door door.old) door.new.cut_short (λ socket. socket) result }
    ensures partner { OnBoth HasPartner result }
{
    let nodelay = door.nodelay;
    match door.accept_stream() {
        Arrival::Came(stream, from) => stand(registry, stream, from, nodelay, key),
        Arrival::Aborted | Arrival::Starved | Arrival::LeftOff | Arrival::Nobody(_) => {
            MadePeer::NoPeer
        }
        Arrival::Failed => MadePeer::Failed,
    }
}

/// The socket of a connection that was accepted, whose peer has this address.
fn stand<T: Drop>(
    registry: &Registry,
    mut stream: SocketStream,
    from: Option<SocketAddr>,
    nodelay: bool,
    key: usize,
) -> MadePeer<SocketAt<T>>
    ensures sort { OnPeer (λ socket. is_door socket ≡ false) result }
    ensures from { StandsOrFailed (IsConnectedFrom from) result }
    ensures addressed { from ≢ None → OnCame (λ peer. peer ≢ whose.Local) result }
    ensures partner { OnBoth HasPartner result }
{
    if nodelay {
        stream.dont_delay();
    }
    if !stream.enroll(registry, key) {
        return MadePeer::Failed;
    }
    let socket = StreamSocket::new_connected(stream, from);
    MadePeer::Came(AnySocket::Stream(socket), told_peer(from))
}

/// The peer of the address that an accepting told. Only those of Unix sockets have none.
fn told_peer(from: Option<SocketAddr>) -> Peer
    ensures told { IsToldPeer from result }
    ensures addressed { from ≢ None → result ≢ whose.Local }
{
    match from {
        Some(addr) => peer_of(addr),
        None => Peer::Local,
    }
}

/// Takes the datagram that waits at this socket, which is the door's, only once the new port stands. A `single` one
/// gives no further datagram.
fn accept_partner<T: Drop>(
    alloc: Global,
    registry: &Arc<Registry, Global>,
    socket: UdpSocket,
    key: usize,
    single: bool,
) -> MadePeer<SocketAt<T>>
    ensures sort { OnPeer (λ socket. is_door socket ≡ false) result }
    ensures packets { OnPeer IsOfPackets result }
    ensures addressed { OnCame (λ peer. peer ≢ whose.Local) result }
    ensures partner { OnBoth HasPartner result }
{
    match DatagramSocket::new(alloc, registry, socket, key) {
        Making::Made(socket) => hold_first(socket, single),
        Making::Later(_) | Making::Failed => MadePeer::Failed,
        Making::Memory => MadePeer::Memory,
    }
}

fn hold_first<T: Drop>(mut socket: DatagramSocket, single: bool) -> MadePeer<SocketAt<T>>
    ensures sort { OnPeer (λ socket. is_door socket ≡ false) result }
    ensures packets { OnPeer IsOfPackets result }
    ensures addressed { OnCame (λ peer. peer ≢ whose.Local) result }
    ensures partner { OnBoth HasPartner result }
{
    match socket.take_first(single) {
        Ok(sender) => MadePeer::Came(AnySocket::Datagrams(socket), peer_of(sender)),
        Err(error) => no_partner(&error),
    }
}

fn no_partner<T: Drop>(error: &Error) -> MadePeer<SocketAt<T>>
    ensures answer { IsNoPartner error.now result }
    ensures nobody { OnPeer (λ socket. is_door socket ≡ false) result }
    ensures none { OnPeer IsOfPackets result }
    ensures unaddressed { OnCame (λ peer. peer ≢ whose.Local) result }
    ensures alone { OnBoth HasPartner result }
{
    if error.kind() == ErrorKind::WouldBlock {
        return MadePeer::NoPeer;
    }
    MadePeer::Failed
}
