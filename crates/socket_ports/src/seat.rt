// A port's part in what a door and its peers share.
ghost use Rattle.std.specs.Prelude.{◌≡◌, ◌≢◌, ◌<◌, ◌≤◌, length, None, Some, IfOk};
ghost use Rattle.relay_model.specs.declared.acts.Peer.TheVariants as peers;
ghost use Rattle.socket_kinds.specs.{OnBoth, OnCame, OnPort};
ghost use Rattle.socket_ports.specs.Crowds.{IsKnown};
ghost use Rattle.relay_model.specs.{longest_packet};
ghost use Rattle.port_trait.specs.{Gives, AcceptsWhole, IsAtOnce};

use crate::crowd::Crowd;
use crate::crowds::Gathering;
use crate::socket::UdpLink;
use mio::Registry;
use peer_demux::{Hub, Mode, RowPeer};
use port_trait::{Got, MadePeer, Making, Took};
use relay_model::{NoMemory, Peer};
use std::alloc::Global;
use std::net::UdpSocket;
use std::snapshot::Snapshot;

/// Whose part it is.
#[derive(Clone, Copy)]
enum Role {
    Door,
    /// The peer of this row.
    Peer(u32),
}

/// A door, or a peer that was accepted at it. What they share is let go with the last of them.
pub(crate) struct Seat {
    gathering: Gathering,
    place: usize,
    role: Role,
    // who came at it; a door has none
    pub(crate) peer: Snapshot<Option<Peer>>,
}

impl Seat {
    /// The door of this socket, whose calls don't wait. Never `Later`.
    pub(crate) fn door(
        alloc: Global,
        registry: &Registry,
        gathering: &Gathering,
        key: usize,
        socket: UdpSocket,
    ) -> Making<Seat>
        ensures at_once { IsAtOnce result }
        ensures alone { OnPort (λ seat. seat.peer.value ≡ None) result }
    {
        let Some(link) = UdpLink::enroll(registry, socket) else {
            return Making::Failed;
        };
        let (Ok(hub), Ok(gathering)) = (Hub::new(alloc, link, Mode::ByPeer), gathering.share())
        else {
            return Making::Memory;
        };
        match gathering.add(Crowd::new(alloc, hub, key)) {
            Ok(place) => Making::Made(Seat {
                gathering,
                place,
                role: Role::Door,
                peer: Snapshot::of(&None),
            }),
            Err(NoMemory) => Making::Memory,
        }
    }

    /// Takes the next peer at the door, whose port has this key.
    pub(crate) fn accept(&self, key: usize) -> MadePeer<Seat>
        ensures addressed { OnCame (λ peer. peer ≢ peers.Local) result }
        ensures told { OnBoth (λ seat peer. seat.peer.value ≡ Some peer) result }
    {
        let Role::Door = self.role else {
            return MadePeer::Failed;
        };
        let Ok(gathering) = self.gathering.share() else {
            return MadePeer::Memory;
        };
        match self.next_peer(key) {
            Ok(RowPeer::New { row, from }) => MadePeer::Came(
                Seat {
                    gathering,
                    place: self.place,
                    role: Role::Peer(row),
                    peer: Snapshot::of(&Some(from)),
                },
                from,
            ),
            Ok(RowPeer::NoPeer) => MadePeer::NoPeer,
            Ok(RowPeer::Failed) => MadePeer::Failed,
            Err(NoMemory) => MadePeer::Memory,
        }
    }

    fn next_peer(&self, key: usize) -> Result<RowPeer, NoMemory>
        ensures { IfOk result IsKnown }
    {
        let Some(mut crowds) = self.gathering.crowds().try_lock() else {
            return Ok(RowPeer::NoPeer);
        };
        match crowds.at(self.place) {
            Some(crowd) => crowd.accept(key),
            None => Ok(RowPeer::Failed),
        }
    }

    /// Takes what the peer sent. A door has nothing to read.
    pub(crate) fn read(&self, into: &mut [u8]) -> Got
        requires { 0 < length into.old }
        ensures { Gives None None into.new result }
    {
        let Role::Peer(row) = self.role else {
            return Got::Failed;
        };
        let Some(mut crowds) = self.gathering.crowds().try_lock() else {
            return Got::NotYet;
        };
        match crowds.at(self.place) {
            Some(crowd) => crowd.read(row, into),
            None => Got::Failed,
        }
    }

    /// Sends the bytes to the peer as one packet. A door has nobody to send to.
    pub(crate) fn send(&self, bytes: &[u8]) -> Took
        requires { length bytes.now ≤ longest_packet }
        ensures { AcceptsWhole None None bytes.now result }
    {
        let Role::Peer(row) = self.role else {
            return Took::Failed;
        };
        let Some(mut crowds) = self.gathering.crowds().try_lock() else {
            return Took::NotYet;
        };
        match crowds.at(self.place) {
            Some(crowd) => crowd.send(row, bytes),
            None => Took::Failed,
        }
    }
}

impl Drop for Seat {
    fn drop(self) {
        let Seat {
            gathering,
            place,
            role,
            peer: _,
        } = self;
        if let Some(mut crowds) = gathering.crowds().try_lock() {
            if let Some(crowd) = crowds.at(place) {
                match role {
                    Role::Door => crowd.close(),
                    Role::Peer(row) => crowd.leave(row),
                }
            }
            crowds.clear(place);
        }
    }
}
