// The port of a door of datagrams, and of each peer that was accepted at it.
ghost use Rattle.std.specs.Prelude.{◌≡◌, ◌≢◌, ◌<◌, true, false, length, None, Some};
ghost use Rattle.port_trait.specs.{Tallied, IsAtOnce, IsWithin, Accepts, AcceptsAll, write_event, untold};
ghost use Rattle.port_trait.specs.declared.answers.Begun.TheVariants as begins;
ghost use Rattle.port_trait.specs.declared.answers.Settled.TheVariants as settles;
ghost use Rattle.port_trait.specs.declared.answers.PortReap.TheVariants as reaps;
ghost use Rattle.port_trait.specs.declared.answers.Joining.TheVariants as joining;
ghost use Rattle.relay_model.specs.declared.acts.Peer.TheVariants as peers;
ghost use Rattle.socket_kinds.specs.{OnBoth, OnCame, OnPort};
ghost use Rattle.socket_ports.specs.Ports.{blocked_hint, fresh_peer_port};

use crate::crowds::Gathering;
use crate::seat::Seat;
use mio::Registry;
use port_trait::{
    Begun, Got, Hint, Joining, MadePeer, Making, Port, PortCounts, PortReap, Settled, Shutting,
    Took, count_reading, count_writing,
};
use relay_model::{LONGEST_PACKET, Shut};
use std::alloc::Global;
use std::marker::Model;
use std::net::UdpSocket;

/// How often a port whose write found no room is asked, before it hints that there may be room: once before the wait
/// that may have ended for that, and once after it.
const ASKS: u8 = 2;

/// The door of a socket of datagrams, or a peer that was accepted at it. The door and its peers share the socket: what
/// comes is sorted by senders, and what a port writes goes to its peer. A peer's datagrams are let go with its port.
#[derive(Drop)]
pub struct PeerPort {
    seat: Seat,
    // how often this was asked since a write found no room; None where none did
    blocked: Option<u8>,
    counts: PortCounts,
    begun: bool,
    ended: bool,
}

impl Model for PeerPort {
    ghost use Rattle.std.specs.Prelude.{is_some};
    ghost use Rattle.socket_ports.specs.Ports.{PeerState};

    ghost Value = { PeerState };

    ghost view = { λ port. record { counts = port.counts; begun = port.begun; ended = port.ended; blocked = is_some port.blocked; peer = port.seat.peer.value } };
}

impl PeerPort {
    fn at(seat: Seat) -> PeerPort
        ensures { result ≡ fresh_peer_port seat.peer.value }
    {
        PeerPort {
            seat,
            blocked: None,
            counts: PortCounts::new(),
            begun: false,
            ended: false,
        }
    }

    /// The door of this socket, whose calls don't wait. The registry reports the socket under a key that no port has, and
    /// the gathering names the door by this key. Never `Later`.
    pub fn door(
        alloc: Global,
        registry: &Registry,
        gathering: &Gathering,
        key: usize,
        socket: UdpSocket,
    ) -> Making<PeerPort>
        ensures at_once { IsAtOnce result }
        ensures fresh { OnPort (λ port. port ≡ fresh_peer_port None) result }
    {
        match Seat::door(alloc, registry, gathering, key, socket) {
            Making::Made(seat) => Making::Made(PeerPort::at(seat)),
            Making::Later(_) | Making::Failed => Making::Failed,
            Making::Memory => Making::Memory,
        }
    }

    /// Takes the next peer at the door, whose port has this key. A peer is no door, and answers `Failed`.
    pub fn accept(&mut self, key: usize) -> MadePeer<PeerPort>
        ensures addressed { OnCame (λ peer. peer ≢ peers.Local) result }
        ensures fresh { OnBoth (λ port peer. port ≡ fresh_peer_port (Some peer)) result }
        ensures kept { self.new ≡ self.old }
    {
        match self.seat.accept(key) {
            MadePeer::Came(seat, peer) => MadePeer::Came(PeerPort::at(seat), peer),
            MadePeer::NoPeer => MadePeer::NoPeer,
            MadePeer::Failed => MadePeer::Failed,
            MadePeer::Memory => MadePeer::Memory,
        }
    }

    /// Counts what a write came to, and remembers whether it found no room.
    fn count_writing(&mut self, took: Took)
        ensures tallied { Tallied (write_event took) self.old.counts self.new.counts }
        ensures kept { (self.new.begun ≡ self.old.begun) × (self.new.ended ≡ self.old.ended) }
    {
        self.blocked = match took {
            Took::NotYet => Some(0),
            Took::Took(_) | Took::Failed => None,
        };
        count_writing(&mut self.counts, took);
    }

    /// Whether there may be room again, after one look more.
    fn may_write(&mut self) -> bool
        ensures kept { self.new ≡ self.old }
        ensures blocked { result ≡ true → self.old.blocked ≡ true }
    {
        let Some(asks) = self.blocked else {
            return false;
        };
        let asks = asks.saturating_add(1).min(ASKS);
        self.blocked = Some(asks);
        asks == ASKS
    }
}

impl Port for PeerPort {
    ghost seen = { λ port. record untold { hinting = blocked_hint port; counts = port.counts; begun = port.begun; ended = port.ended } };

    fn begin(&mut self) -> Begun
        ensures begun { result ≡ begins.Begun }
        ensures kept { self.new ≡ record self.old { begun = true } }
    {
        self.begun = true;
        Begun::Begun
    }

    fn settle(&mut self) -> Settled
        ensures ready { result ≡ settles.Ready }
        ensures kept { self.new ≡ self.old }
    {
        Settled::Ready
    }

    /// Takes what the socket has, and then gives the peer's first datagram, in parts where it is longer than `into`.
    fn read(&mut self, into: &mut [u8]) -> Got {
        let got = self.seat.read(into);
        self.ended = got == Got::End;
        count_reading(&mut self.counts, got);
        got
    }

    /// Sends at most 65,507 bytes as one datagram.
    fn write(&mut self, bytes: &[u8]) -> Took {
        let took = send_front(&self.seat, bytes);
        self.count_writing(took);
        took
    }

    fn send(&mut self, bytes: &[u8]) -> Took {
        let took = if bytes.len() > usize::from(LONGEST_PACKET) {
            Took::Failed
        } else {
            self.seat.send(bytes)
        };
        self.count_writing(took);
        took
    }

    /// Sends until all is accepted. Where there is no room it fails, since no call of it waits.
    fn put_all(&mut self, bytes: &[u8]) -> Took {
        let took = send_all(&self.seat, bytes);
        self.count_writing(took);
        took
    }

    /// Sends an empty datagram at `Null` (socat(1), `shut-null`). The other ways do nothing, since a datagram has no
    /// end.
    fn shut(&mut self, how: Shut) -> Shutting {
        match how {
            Shut::Null => match self.seat.send(&[]) {
                Took::Took(_) => Shutting::Done,
                Took::NotYet | Took::Failed => {
                    self.counts.count_fault();
                    Shutting::Failed
                }
            },
            Shut::Nothing | Shut::Down | Shut::Close => Shutting::Done,
        }
    }

    /// Room, where a write found none and a wait has ended since. What came is told by the poller.
    fn hint(&mut self) -> Hint
        ensures kept { self.new ≡ self.old }
        ensures blocked { IsWithin (blocked_hint self.old) result }
    {
        let writable = self.may_write();
        Hint {
            readable: false,
            writable,
        }
    }

    /// A port whose write found no room.
    fn may_hint(&self) -> Hint
        ensures { result ≡ blocked_hint self.now }
    {
        Hint {
            readable: false,
            writable: self.blocked.is_some(),
        }
    }

    fn has_child(&self) -> bool
        ensures { result ≡ false }
    {
        false
    }

    fn reap(&mut self) -> PortReap
        ensures none { result ≡ reaps.NoChild }
        ensures kept { self.new ≡ self.old }
    {
        PortReap::NoChild
    }

    fn join(&mut self) -> Joining
        ensures joined { result ≡ joining.Joined }
        ensures kept { self.new ≡ self.old }
    {
        Joining::Joined
    }
}

/// Sends a front of the bytes as one datagram.
fn send_front(seat: &Seat, bytes: &[u8]) -> Took
    requires { 0 < length bytes.now }
    ensures { Accepts None None bytes.now result }
{
    seat.send(&bytes[..bytes.len().min(usize::from(LONGEST_PACKET))])
}

/// Sends all bytes, or a front of them.
fn send_all(seat: &Seat, bytes: &[u8]) -> Took
    ensures { AcceptsAll None None bytes.now result }
{
    let mut count = 0;
    while count < bytes.len() {
        match send_front(seat, &bytes[count..]) {
            Took::Took(more) => count += more,
            Took::NotYet | Took::Failed => return Took::Failed,
        }
    }
    Took::Took(count)
}
