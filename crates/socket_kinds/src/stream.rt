// Stream sockets: TCP and Unix.
ghost use Rattle.std.specs.Prelude.{◌≡◌, ◌≢◌, ◌<◌, ℕ, Bool, List, length, true, false, Option, Result, ⊤, None};
ghost use Rattle.std.specs.Io.{ReadsAtMost, WritesAtMost};
ghost use Rattle.std.specs.Io.KnownBytes.{Keeps, ReadConsumes, WriteAppends};
ghost use Rattle.std.specs.declared.io.Error.{Error};
ghost use Rattle.std.specs.declared.net.handle.Shutdown.{Shutdown};
ghost use Rattle.std.specs.declared.net.handle.Shutdown.TheVariants as halves;
ghost use Rattle.port_trait.specs.{Gives, Accepts, no_hint, finishes};
ghost use Rattle.port_trait.specs.declared.answers.Took.TheVariants as writes;
ghost use Rattle.port_trait.specs.declared.answers.Got.TheVariants as reads;
ghost use Rattle.port_trait.specs.declared.answers.Shutting.TheVariants as shuts;
ghost use Rattle.socket_kinds.specs.Answering.{Answers, ReaderGave, WriterTook, IsReceived, IsAccepted, IsShutDown, IsAsked, settling_of};
ghost use Rattle.socket_kinds.specs.declared.answering.Connection.TheVariants as connections;

use crate::answering::{Connection, receive_answer, send_answer, shut_down};
use crate::socket::Socket;
use mio::net::{TcpStream, UnixStream};
use mio::{Interest, Registry, Token};
use port_trait::{Got, Hint, Settled, Shutting, Took};
use relay_model::Shut;
use std::io;
use std::io::{Error, Read, Write};
use std::marker::Model;
use std::net::{Shutdown, SocketAddr};
use std::snapshot::Snapshot;

/// A stream of one of the two families.
#[derive(Drop)]
pub enum SocketStream {
    Tcp(TcpStream),
    Unix(UnixStream),
}

/// What a connection goes over. A contract over any wire can name the answer of one of its calls by the wire's own
/// relations alone, so it holds only of a caller that makes this one call.
pub trait Wire: Read + Write + Drop {
    // what a read answers that fills the buffer so, a write of these bytes, and a shutdown of this half
    ghost receives: { Self → Self → List ℕ → Result ℕ Error → Type 0 } = { λ _ _ _ _. Unit {0} };

    ghost transmits: { Self → Self → List ℕ → Result ℕ Error → Type 0 } = { λ _ _ _ _. Unit {0} };

    ghost shuts_half: { Self → Self → Shutdown → Result ⊤ Error → Type 0 } = { λ _ _ _ _. Unit {0} };
    // which error was kept of it, and whether its peer is known
    ghost tells_error: { Self → Result (Option Error) Error → Type 0 } = { λ _ _. Unit {0} };

    ghost knows_peer: { Self → Bool → Type 0 } = { λ _ _. Unit {0} };

    /// Reads once (recv(2)).
    fn receive(&mut self, into: &mut [u8]) -> io::Result<usize>
        ensures bound { ReadsAtMost result into.new }
        ensures bytes { ReadConsumes (Self.remaining self.old) (Self.remaining self.new) result into.new }
        ensures answered { receives self.old self.new into.new result };

    /// Writes once (send(2)).
    fn transmit(&mut self, bytes: &[u8]) -> io::Result<usize>
        ensures bound { WritesAtMost result bytes.now }
        ensures bytes { WriteAppends (Self.contents self.old) (Self.contents self.new) result bytes.now }
        ensures answered { transmits self.old self.new bytes.now result };

    /// Shuts this half (shutdown(2)).
    fn shut(&mut self, half: Shutdown) -> io::Result<()>
        ensures answered { shuts_half self.old self.new half result }
        ensures silent { Keeps (Self.contents self.old) (Self.contents self.new) };

    /// The error that the system kept of it, which it then forgets.
    fn kept_error(&self) -> io::Result<Option<Error>>
        ensures { tells_error self.now result };

    /// Whether the system knows its peer.
    fn has_peer(&self) -> bool
        ensures { knows_peer self.now result };
}

impl Read for SocketStream {
    fn read(&mut self, into: &mut [u8]) -> io::Result<usize> {
        match self {
            SocketStream::Tcp(stream) => stream.read(into),
            SocketStream::Unix(stream) => stream.read(into),
        }
    }
}

impl Write for SocketStream {
    fn write(&mut self, bytes: &[u8]) -> io::Result<usize> {
        match self {
            SocketStream::Tcp(stream) => stream.write(bytes),
            SocketStream::Unix(stream) => stream.write(bytes),
        }
    }

    fn flush(&mut self) -> io::Result<()> {
        match self {
            SocketStream::Tcp(stream) => stream.flush(),
            SocketStream::Unix(stream) => stream.flush(),
        }
    }
}

impl Wire for SocketStream {
    fn receive(&mut self, into: &mut [u8]) -> io::Result<usize> {
        self.read(into)
    }

    fn transmit(&mut self, bytes: &[u8]) -> io::Result<usize> {
        self.write(bytes)
    }

    fn shut(&mut self, half: Shutdown) -> io::Result<()> {
        match self {
            SocketStream::Tcp(stream) => stream.shutdown(half),
            SocketStream::Unix(stream) => stream.shutdown(half),
        }
    }

    fn kept_error(&self) -> io::Result<Option<Error>> {
        match self {
            SocketStream::Tcp(stream) => stream.take_error(),
            SocketStream::Unix(stream) => stream.take_error(),
        }
    }

    fn has_peer(&self) -> bool {
        match self {
            SocketStream::Tcp(stream) => stream.peer_addr().is_ok(),
            SocketStream::Unix(stream) => stream.peer_addr().is_ok(),
        }
    }
}

impl SocketStream {
    /// Small segments aren't held back (socat(1), `nodelay`). Where the system refuses it, the bytes go all the same.
    pub fn dont_delay(&self) {
        if let SocketStream::Tcp(stream) = self {
            let _ = stream.set_nodelay(true);
        }
    }

    /// Has the registry report both halves under this key.
    pub fn enroll(&mut self, registry: &Registry, key: usize) -> bool {
        let both = Interest::READABLE | Interest::WRITABLE;
        match self {
            SocketStream::Tcp(stream) => registry.register(stream, Token(key), both).is_ok(),
            SocketStream::Unix(stream) => registry.register(stream, Token(key), both).is_ok(),
        }
    }
}

/// A connection, which may be under way.
#[derive(Drop)]
pub struct StreamSocket<S = SocketStream> {
    stream: S,
    connection: Connection,
    from: Snapshot<Option<SocketAddr>>,
}

impl<S> Model for StreamSocket<S> {
    ghost use Rattle.socket_kinds.specs.Streams.{StreamState};

    ghost Value = { StreamState S };

    ghost view = { λ socket. record { stream = socket.stream; connection = socket.connection; from = socket.from.value } };
}

impl<S> StreamSocket<S> {
    /// One that was begun to connect.
    pub fn new_connecting(stream: S) -> StreamSocket<S>
        ensures { result ≡ record { stream = stream; connection = connections.UnderWay; from = None } }
    {
        StreamSocket {
            stream,
            connection: Connection::UnderWay,
            from: Snapshot::of(&None),
        }
    }

    /// One that stands, with its peer's address where an accepting told that.
    pub fn new_connected(stream: S, from: Option<SocketAddr>) -> StreamSocket<S>
        ensures { result ≡ record { stream = stream; connection = connections.Standing; from = from } }
    {
        StreamSocket {
            stream,
            connection: Connection::Standing,
            from: Snapshot::of(&from),
        }
    }
}

/// Asks how a connection that was begun stands. The kept error is asked only of one whose peer isn't known.
fn ask<S: Wire>(stream: &S) -> Connection
    ensures { (known : Bool) × S.knows_peer stream.now known × IsAsked known (S.tells_error stream.now) result }
{
    if stream.has_peer() {
        return Connection::Standing;
    }
    Connection::of(&stream.kept_error())
}

impl<S: Wire> Socket for StreamSocket<S> {
    /// Asks the system while the connection is under way. What it came to then stays.
    fn settle(&mut self) -> Settled
        ensures answer { result ≡ settling_of self.new.connection }
        ensures asked { self.old.connection ≡ connections.UnderWay
            → (known : Bool) × S.knows_peer self.old.stream known × IsAsked known (S.tells_error self.old.stream) self.new.connection }
        ensures stays { self.old.connection ≢ connections.UnderWay → self.new ≡ self.old }
        ensures kept { (self.new.stream ≡ self.old.stream) × (self.new.from ≡ self.old.from) }
    {
        if self.connection == Connection::UnderWay {
            self.connection = ask(&self.stream);
        }
        self.connection.settle_answer()
    }

    /// One read, and its answer.
    fn receive(&mut self, into: &mut [u8]) -> Got
        requires { 0 < length into.old }
        ensures once { Answers (S.receives self.old.stream self.new.stream into.new) (λ read. IsReceived read result) }
        ensures bytes { ReaderGave (S.remaining self.old.stream) (S.remaining self.new.stream) into.new result }
        ensures gives { Gives None None into.new result }
        ensures stream { result ≢ reads.Empty }
        ensures kept { (self.new.connection ≡ self.old.connection) × (self.new.from ≡ self.old.from) }
    {
        receive_answer(&self.stream.receive(into))
    }

    /// One write, and its answer.
    fn transmit(&mut self, bytes: &[u8]) -> Took
        requires { 0 < length bytes.now }
        ensures once { Answers (S.transmits self.old.stream self.new.stream bytes.now) (λ written. IsAccepted written result) }
        ensures bytes { WriterTook (S.contents self.old.stream) (S.contents self.new.stream) bytes.now result }
        ensures accepts { Accepts None None bytes.now result }
        ensures kept { (self.new.connection ≡ self.old.connection) × (self.new.from ≡ self.old.from) }
    {
        send_answer(&self.stream.transmit(bytes))
    }

    /// A stream has no packets.
    fn transmit_packet(&mut self, _bytes: &[u8]) -> Took
        ensures failed { result ≡ writes.Failed }
        ensures kept { self.new ≡ self.old }
    {
        Took::Failed
    }

    /// Shuts the writing half at `Down` and `Close`, so that the peer reads to its end and can still answer. What
    /// `Close` closes besides is closed where the socket is dropped.
    fn finish(&mut self, how: Shut) -> Shutting
        ensures ended { finishes how ≡ true
            → Answers (S.shuts_half self.old.stream self.new.stream halves.Write) (λ done. IsShutDown done result) }
        ensures silent { Keeps (S.contents self.old.stream) (S.contents self.new.stream) }
        ensures untouched { finishes how ≡ false → (result ≡ shuts.Done) × (self.new ≡ self.old) }
        ensures kept { (self.new.connection ≡ self.old.connection) × (self.new.from ≡ self.old.from) }
    {
        match how {
            Shut::Down | Shut::Close => shut_down(&self.stream.shut(Shutdown::Write)),
            Shut::Nothing | Shut::Null => Shutting::Done,
        }
    }

    /// The poller names what a stream is ready for.
    fn hint(&self) -> Hint
        ensures { result ≡ no_hint }
    {
        Hint::none()
    }
}
