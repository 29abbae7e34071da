// The socket that a door and its peers share.
ghost use Rattle.std.specs.Prelude.{◌≡◌, ◌≤◌, ◌↔◌, length, take, None, IsTrue};
ghost use Rattle.std.specs.IoError.{error_kind};
ghost use Rattle.std.specs.declared.io.ErrorKind.TheVariants.{WouldBlock};
ghost use Rattle.relay_model.specs.{longest_packet};
ghost use Rattle.peer_demux.specs.{Receives, Sends, has_failed, has_stalled, has_packet, send_failed, send_stalled, risen_if};
ghost use Rattle.socket_kinds.specs.{Answers};
ghost use Rattle.socket_ports.specs.Links.{Arrives, Departs, SendsOnce};

use mio::unix::SourceFd;
use mio::{Interest, Registry, Token};
use mio_poller::SHARED;
use peer_demux::{Link, Received};
use port_trait::Took;
use relay_model::{LONGEST_PACKET, Peer};
use socket_kinds::{PacketWire, address_of, peer_of};
use std::io::{self, Error, ErrorKind};
use std::marker::Model;
use std::net::{SocketAddr, UdpSocket};
use std::os::fd::AsRawFd;

/// The system's socket that a door and its peers share.
#[derive(Drop)]
pub(crate) struct SharedUdp {
    socket: UdpSocket,
}

impl PacketWire for SharedUdp {
    fn receive(&mut self, into: &mut [u8]) -> io::Result<usize> {
        self.socket.recv(into)
    }

    fn receive_from(&mut self, into: &mut [u8]) -> io::Result<(usize, SocketAddr)> {
        self.socket.recv_from(into)
    }

    fn send(&mut self, bytes: &[u8]) -> io::Result<usize> {
        self.socket.send(bytes)
    }

    fn send_to(&mut self, bytes: &[u8], to: SocketAddr) -> io::Result<usize> {
        self.socket.send_to(bytes, to)
    }
}

/// A socket of datagrams, which sends to whom it is told (udp(7)).
#[derive(Drop)]
pub(crate) struct UdpLink<U = SharedUdp> {
    wire: U,
    faults: u64,
    stalls: u64,
    packets: u64,
}

impl<U> Model for UdpLink<U> {
    ghost use Rattle.socket_ports.specs.Links.{LinkState};

    ghost Value = { LinkState U };

    ghost view = { λ link. record { wire = link.wire; faults = link.faults; stalls = link.stalls; packets = link.packets } };
}

impl UdpLink {
    /// Has the registry report the socket, whose calls don't wait, under the key of sockets that are shared. It is reported
    /// until it is let go (epoll(7)). None where the system refuses.
    pub(crate) fn enroll(registry: &Registry, socket: UdpSocket) -> Option<UdpLink> {
        let fd = socket.as_raw_fd();
        let both = Interest::READABLE | Interest::WRITABLE;
        if registry
            .register(&mut SourceFd(&fd), Token(SHARED), both)
            .is_err()
        {
            return None;
        }
        Some(UdpLink {
            wire: SharedUdp { socket },
            faults: 0,
            stalls: 0,
            packets: 0,
        })
    }
}

impl<U: PacketWire> Link for UdpLink<U> {
    ghost faults = { λ link. link.faults };

    ghost stalls = { λ link. link.stalls };

    ghost packets = { λ link. link.packets };

    /// Takes at most 65,507 bytes of a datagram (RFC 768).
    fn receive(&mut self, into: &mut [u8]) -> Received
        requires { longest_packet ≤ length into.old }
        ensures once { Answers (U.receives_from self.old.wire self.new.wire (take longest_packet into.new)) (λ told. Arrives told result) }
        ensures gives { Receives None None into.new result }
        ensures faults { self.new.faults ≡ risen_if (has_failed result) self.old.faults }
        ensures stalls { self.new.stalls ≡ risen_if (has_stalled result) self.old.stalls }
        ensures packets { self.new.packets ≡ risen_if (has_packet result) self.old.packets }
    {
        let received = receive_packet(&mut self.wire, into);
        match received {
            Received::Packet { .. } => self.packets = self.packets.saturating_add(1),
            Received::NotYet => self.stalls = self.stalls.saturating_add(1),
            Received::Failed => self.faults = self.faults.saturating_add(1),
        }
        received
    }

    /// Sends nothing to a peer without an address.
    fn send_to(&mut self, to: Peer, bytes: &[u8]) -> Took
        requires { length bytes.now ≤ longest_packet }
        ensures once { SendsOnce U.sends_to self.old.wire self.new.wire to bytes.now result }
        ensures sends { Sends None None to bytes.now result }
        ensures kept { self.new.packets ≡ self.old.packets }
        ensures faults { self.new.faults ≡ risen_if (send_failed result) self.old.faults }
        ensures stalls { self.new.stalls ≡ risen_if (send_stalled result) self.old.stalls }
    {
        let took = match address_of(to) {
            Some(addr) => send_to_answer(&self.wire.send_to(bytes, addr), bytes.len()),
            None => Took::Failed,
        };
        match took {
            Took::Took(_) => {}
            Took::NotYet => self.stalls = self.stalls.saturating_add(1),
            Took::Failed => self.faults = self.faults.saturating_add(1),
        }
        took
    }
}

/// Receives one packet.
fn receive_packet<U: PacketWire>(wire: &mut U, into: &mut [u8]) -> Received
    requires { longest_packet ≤ length into.old }
    ensures once { Answers (U.receives_from wire.old wire.new (take longest_packet into.new)) (λ told. Arrives told result) }
    ensures gives { Receives None None into.new result }
{
    receive_from_answer(&wire.receive_from(&mut into[..usize::from(LONGEST_PACKET)]))
}

/// What came where the system answered so: the packet's sender is the address that it told.
fn receive_from_answer(answer: &io::Result<(usize, SocketAddr)>) -> Received
    ensures { Arrives answer.now result }
{
    match answer {
        Ok((len, sender)) => Received::Packet {
            from: peer_of(*sender),
            len: *len,
        },
        Err(error) => {
            if is_blocked(error) {
                Received::NotYet
            } else {
                Received::Failed
            }
        }
    }
}

/// What a sending of so many bytes came to where the system answered so.
fn send_to_answer(answer: &io::Result<usize>, len: usize) -> Took
    ensures { Departs len answer.now result }
{
    match answer {
        Ok(count) if *count == len => Took::Took(len),
        Ok(_) => Took::Failed,
        Err(error) => {
            if is_blocked(error) {
                Took::NotYet
            } else {
                Took::Failed
            }
        }
    }
}

/// Whether the call would have had to wait.
fn is_blocked(error: &Error) -> bool
    ensures { IsTrue result ↔ (error_kind error.now ≡ WouldBlock) }
{
    error.kind() == ErrorKind::WouldBlock
}
