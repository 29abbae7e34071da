// Doors: sockets that listen for peers.
ghost use Rattle.std.specs.Prelude.{◌≡◌, true, false, Result};
ghost use Rattle.std.specs.declared.io.Error.{Error};
ghost use Rattle.std.specs.declared.net.socket_addr.SocketAddr.{SocketAddr};
ghost use Rattle.mio.specs.declared.net.stream.TcpStream.{TcpStream};
ghost use Rattle.socket_kinds.specs.Answering.{Answers};
ghost use Rattle.socket_kinds.specs.declared.door.Arrival.TheVariants as arrivals;
ghost use Rattle.port_trait.specs.declared.answers.Settled.TheVariants as settles;
ghost use Rattle.port_trait.specs.declared.answers.Got.TheVariants as reads;
ghost use Rattle.port_trait.specs.declared.answers.Took.TheVariants as writes;
ghost use Rattle.port_trait.specs.declared.answers.Shutting.TheVariants as shuts;
ghost use Rattle.socket_kinds.specs.Doors.{door_hint, has_left, is_unix, ArrivesAt, Comes, ComesAddressed, IsDeclined, IsOne, OnlyBlocked};

use crate::enrolled::EnrolledUdp;
use crate::socket::Socket;
use crate::stream::SocketStream;
use mio::net::{TcpListener, TcpStream, UnixListener};
use port_trait::{Got, Hint, Settled, Shutting, Took};
use relay_model::Shut;
use std::io;
use std::io::{Error, ErrorKind};
use std::marker::Model;
use std::net::SocketAddr;

/// How many aborted connections one accepting passes over at most.
const MOST_ABORTED: usize = 64;

/// What listens.
#[derive(Drop)]
pub enum Listener<T = TcpListener> {
    Tcp(T),
    Unix(UnixListener),
    Udp(EnrolledUdp),
    /// Each datagram is a peer's by itself.
    Packets(EnrolledUdp),
}

/// What an accepting came to.
#[derive(Drop)]
pub(crate) enum Arrival {
    /// A connection, with the address of its peer where that has one.
    Came(SocketStream, Option<SocketAddr>),
    /// The connection was aborted before it was accepted.
    Aborted,
    /// It has to wait until a descriptor is free.
    Starved,
    /// The accepting came to its end before the connections that may wait.
    LeftOff,
    /// Nobody waits, as the system said by this error.
    Nobody(Error),
    Failed,
}

impl<T: Accepts> Listener<T> {
    /// Accepts once. A socket of datagrams has no connections.
    fn accept_one(&self) -> Arrival
        ensures blocked { OnlyBlocked result }
        ensures addressed { is_unix self.now ≡ false → ComesAddressed result }
        ensures came { ArrivesAt T.comes self.now result }
    {
        match self {
            Listener::Tcp(listener) => accept_connection(listener),
            Listener::Unix(listener) => match listener.accept() {
                Ok((stream, _)) => Arrival::Came(SocketStream::Unix(stream), None),
                Err(error) => failed_arrival(error),
            },
            Listener::Udp(_) | Listener::Packets(_) => Arrival::Failed,
        }
    }
}

/// What TCP connections are accepted from. As with `Wire`, its relation names the answer of a call.
pub trait Accepts: Drop {
    // what an accepting answers
    ghost comes: { Self → Result (TcpStream × SocketAddr) Error → Type 0 } = { λ _ _. Unit {0} };

    /// Accepts once (accept(2)).
    fn accept_next(&self) -> io::Result<(TcpStream, SocketAddr)>
        ensures { comes self.now result };
}

impl Accepts for TcpListener {
    fn accept_next(&self) -> io::Result<(TcpStream, SocketAddr)> {
        self.accept()
    }
}

/// The connection that one call accepts, with the address that this call tells, or why there is none.
fn accept_connection<L: Accepts>(listener: &L) -> Arrival
    ensures once { Answers (L.comes listener.now) (λ told. Comes told result) }
    ensures blocked { OnlyBlocked result }
    ensures addressed { ComesAddressed result }
{
    arrival_of(listener.accept_next())
}

/// What an accepting at a TCP door came to.
fn arrival_of(accepted: io::Result<(TcpStream, SocketAddr)>) -> Arrival
    ensures came { Comes accepted result }
    ensures blocked { OnlyBlocked result }
    ensures addressed { ComesAddressed result }
{
    match accepted {
        Ok((stream, addr)) => Arrival::Came(SocketStream::Tcp(stream), Some(addr)),
        Err(error) => failed_arrival(error),
    }
}

/// Whether the call failed since no further descriptor can be had (errno(3), `ENFILE` and `EMFILE`).
pub(crate) fn is_starved(error: &Error) -> bool {
    matches!(error.raw_os_error(), Some(23 | 24))
}

/// Why the system gave no connection (accept(2), `EAGAIN` and `ECONNABORTED`).
fn failed_arrival(error: Error) -> Arrival
    ensures kind { IsDeclined error result }
    ensures blocked { OnlyBlocked result }
    ensures nobody { ComesAddressed result }
{
    if error.kind() == ErrorKind::WouldBlock {
        return Arrival::Nobody(error);
    }
    if error.kind() == ErrorKind::ConnectionAborted {
        return Arrival::Aborted;
    }
    if is_starved(&error) {
        return Arrival::Starved;
    }
    Arrival::Failed
}

/// A socket that listens. It neither gives nor takes bytes.
#[derive(Drop)]
pub struct SocketDoor<T = TcpListener> {
    pub(crate) listener: Listener<T>,
    pub(crate) nodelay: bool,
    // whether the last accepting left off with connections that may wait, and whether it did so for want of descriptors
    pub(crate) cut_short: bool,
    pub(crate) starved: bool,
}

impl<T> Model for SocketDoor<T> {
    ghost use Rattle.socket_kinds.specs.Doors.{DoorState};

    ghost Value = { DoorState T };

    ghost view = { λ door. record { cut_short = door.cut_short; listener = door.listener } };
}

impl<T> SocketDoor<T> {
    /// The door of this listener. With `nodelay` the TCP connections that it accepts don't wait to fill a segment.
    pub fn new(listener: Listener<T>, nodelay: bool) -> SocketDoor<T>
        ensures { result ≡ record { cut_short = false; listener = listener } }
    {
        SocketDoor {
            listener,
            nodelay,
            cut_short: false,
            starved: false,
        }
    }

    /// Hints from now on that there may be more.
    fn leave_off(&mut self) -> Arrival
        ensures hints { self.new ≡ record self.old { cut_short = true } }
        ensures left { result ≡ arrivals.LeftOff }
    {
        self.cut_short = true;
        Arrival::LeftOff
    }
}

impl<T: Accepts> SocketDoor<T> {
    /// Accepts a connection, and passes over those that were aborted. After 64 of these it leaves off, and hints
    /// that there may be more; so it does where no descriptor is free.
    pub(crate) fn accept_stream(&mut self) -> Arrival
        ensures one { IsOne result }
        ensures left_off { self.new ≡ record self.old { cut_short = has_left result } }
        ensures blocked { OnlyBlocked result }
        ensures addressed { is_unix self.old.listener ≡ false → ComesAddressed result }
        ensures came { ArrivesAt T.comes self.old.listener result }
    {
        self.cut_short = false;
        for _ in 0..MOST_ABORTED {
            match self.listener.accept_one() {
                Arrival::Came(stream, from) => return Arrival::Came(stream, from),
                Arrival::Aborted => {}
                Arrival::Starved => {
                    self.starved = true;
                    return self.leave_off();
                }
                Arrival::LeftOff => return self.leave_off(),
                Arrival::Nobody(error) => return Arrival::Nobody(error),
                Arrival::Failed => return Arrival::Failed,
            }
        }
        self.leave_off()
    }
}

impl SocketDoor {
    /// The port at which it listens, as the system chose it. `None` where it has none.
    pub fn local_port(&self) -> Option<u16> {
        let addr = match &self.listener {
            Listener::Tcp(listener) => listener.local_addr(),
            Listener::Udp(enrolled) | Listener::Packets(enrolled) => enrolled.socket.local_addr(),
            Listener::Unix(_) => return None,
        };
        match addr {
            Ok(addr) => Some(addr.port()),
            Err(_) => None,
        }
    }
}

impl<T: Drop> Socket for SocketDoor<T> {
    ghost hints = { door_hint };

    fn settle(&mut self) -> Settled
        ensures ready { result ≡ settles.Ready }
        ensures kept { self.new ≡ self.old }
    {
        Settled::Ready
    }

    fn receive(&mut self, _into: &mut [u8]) -> Got
        ensures failed { result ≡ reads.Failed }
        ensures kept { self.new ≡ self.old }
    {
        Got::Failed
    }

    fn transmit(&mut self, _bytes: &[u8]) -> Took
        ensures failed { result ≡ writes.Failed }
        ensures kept { self.new ≡ self.old }
    {
        Took::Failed
    }

    fn transmit_packet(&mut self, _bytes: &[u8]) -> Took
        ensures failed { result ≡ writes.Failed }
        ensures kept { self.new ≡ self.old }
    {
        Took::Failed
    }

    fn finish(&mut self, _how: Shut) -> Shutting
        ensures done { result ≡ shuts.Done }
        ensures kept { self.new ≡ self.old }
    {
        Shutting::Done
    }

    /// Peers may wait that the system won't tell of again.
    fn hint(&self) -> Hint
        ensures { result ≡ door_hint self.now }
    {
        Hint {
            readable: self.cut_short,
            writable: false,
        }
    }
}
