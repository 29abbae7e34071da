// What stands of a datagram that came, and whose it is.
ghost use Rattle.std.specs.Prelude.{◌≡◌, ◌<◌, ◌≤◌, length, take, drop, min, vec_len};
ghost use Rattle.socket_kinds.specs.Datagrams.{Asks, Receives, ReceivesFrom, IsRefused, IsSentBy};

use crate::enrolled::PacketWire;
use port_trait::copy_front;
use relay_model::NoMemory;
use std::alloc::Global;
use std::io;
use std::io::{Error, ErrorKind};
use std::marker::Model;
use std::net::SocketAddr;

/// The most bytes of a datagram that comes, by its length field (RFC 768).
const MOST_RECEIVED: usize = 65_535;

/// Whom the datagrams come from and go to.
#[derive(Clone, Copy)]
pub(crate) enum Partner {
    /// The one that the socket is connected to.
    Connected,
    /// The one that has this address. What others send is dropped.
    At(SocketAddr),
    /// Everyone. Nothing can be sent.
    Anyone,
}

/// What asking the system for a datagram came to.
#[derive(Clone, Copy, PartialEq)]
pub(crate) enum FetchedPacket {
    Datagram,
    /// One of another sender.
    Others,
    NotYet,
    Failed,
}

/// The bytes of one datagram that weren't handed out.
#[derive(Drop)]
pub(crate) struct Packet {
    bytes: Vec<u8>,
    from: usize,
    to: usize,
    ghost ordered: { from ≤ to },
    ghost inside: { to ≤ vec_len bytes },
}

impl Model for Packet {
    ghost use Rattle.std.specs.Prelude.{List, ℕ, ◌-◌, take, drop};

    ghost Value = { List ℕ };

    ghost view = { λ packet. take (packet.to - packet.from) (drop packet.from packet.bytes.items) };
}

impl Packet {
    /// No bytes, with room for any datagram.
    pub(crate) fn new(alloc: Global) -> Result<Packet, NoMemory> {
        Ok(Packet {
            bytes: vec![in alloc; 0u8; MOST_RECEIVED]?,
            from: 0,
            to: 0,
        })
    }

    pub(crate) fn len(&self) -> usize
        ensures { result ≡ length self.now }
    {
        self.to - self.from
    }

    /// Takes the next datagram of the partner that the wire is connected to.
    fn receive<U: PacketWire>(&mut self, wire: &mut U) -> io::Result<()>
        ensures { Receives (U.receives wire.old wire.new) self.new result }
    {
        self.from = 0;
        self.to = 0;
        self.to = wire.receive(&mut self.bytes)?;
        Ok(())
    }

    /// Takes the next datagram, whoever sent it.
    pub(crate) fn receive_from<U: PacketWire>(&mut self, wire: &mut U) -> io::Result<SocketAddr>
        ensures { ReceivesFrom (U.receives_from wire.old wire.new) self.new result }
    {
        self.from = 0;
        self.to = 0;
        let (count, sender) = wire.receive_from(&mut self.bytes)?;
        self.to = count;
        Ok(sender)
    }

    /// Takes the next datagram, and asks whether it is the partner's.
    pub(crate) fn fetch<U: PacketWire>(&mut self, wire: &mut U, partner: Partner) -> FetchedPacket
        ensures { Asks U.receives U.receives_from partner wire.old wire.new self.new result }
    {
        let sender = match partner {
            Partner::Connected => match self.receive(wire) {
                Ok(()) => return FetchedPacket::Datagram,
                Err(error) => return failed_fetch(&error),
            },
            Partner::At(_) | Partner::Anyone => self.receive_from(wire),
        };
        match sender {
            Ok(sender) => sent_by(sender, partner),
            Err(error) => failed_fetch(&error),
        }
    }

    /// Hands out what fits.
    #[tactic(auto, using(crate::proofs::Packets::rest_of))]
    pub(crate) fn give(&mut self, into: &mut [u8]) -> usize
        ensures count { result ≡ min (length self.old) (length into.old) }
        ensures front { take result into.new ≡ take result self.old }
        ensures rest { self.new ≡ drop result self.old }
    {
        let count = copy_front(&self.bytes[self.from..self.to], into);
        self.from += count;
        count
    }
}

/// Whose the datagram is that came.
fn sent_by(sender: SocketAddr, partner: Partner) -> FetchedPacket
    ensures { IsSentBy partner sender result }
{
    match partner {
        Partner::At(partner) if sender != partner => FetchedPacket::Others,
        Partner::At(_) | Partner::Anyone | Partner::Connected => FetchedPacket::Datagram,
    }
}

/// Why the system gave no datagram.
fn failed_fetch(error: &Error) -> FetchedPacket
    ensures { IsRefused error.now result }
{
    if error.kind() == ErrorKind::WouldBlock {
        FetchedPacket::NotYet
    } else {
        FetchedPacket::Failed
    }
}
