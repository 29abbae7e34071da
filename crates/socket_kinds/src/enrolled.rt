// Sockets of datagrams that a registry reports.
ghost use Rattle.std.specs.Prelude.{ℕ, ◌≤◌, List, length, Result, IfOk};
ghost use Rattle.std.specs.Io.{ReadsAtMost, WritesAtMost};
ghost use Rattle.std.specs.declared.io.Error.{Error};
ghost use Rattle.std.specs.declared.net.socket_addr.SocketAddr.{SocketAddr};
ghost use Rattle.port_trait.specs.{IsAtOnce};

use mio::unix::SourceFd;
use mio::{Interest, Registry, Token};
use port_trait::Making;
use std::alloc::Global;
use std::io;
use std::net::{SocketAddr, UdpSocket};
use std::os::fd::AsRawFd;
use std::sync::Arc;

/// What datagrams go over. As with `Wire`, a contract over any of them can name the answer of one of its calls by its
/// own relations alone.
pub trait PacketWire: Drop {
    // what a receiving answers that fills the buffer so: from the one partner, and from anyone
    ghost receives: { Self → Self → List ℕ → Result ℕ Error → Type 0 } = { λ _ _ _ _. Unit {0} };

    ghost receives_from: { Self → Self → List ℕ → Result (ℕ × SocketAddr) Error → Type 0 } = { λ _ _ _ _. Unit {0} };
    // what a sending of these bytes answers: to the one partner, and to this address
    ghost sends: { Self → Self → List ℕ → Result ℕ Error → Type 0 } = { λ _ _ _ _. Unit {0} };

    ghost sends_to: { Self → Self → SocketAddr → List ℕ → Result ℕ Error → Type 0 } = { λ _ _ _ _ _. Unit {0} };

    /// Receives one datagram (recv(2)). What of it is longer than the buffer is lost.
    fn receive(&mut self, into: &mut [u8]) -> io::Result<usize>
        ensures bound { ReadsAtMost result into.new }
        ensures answered { receives self.old self.new into.new result };

    /// Receives one datagram and its sender's address (recvfrom(2)).
    fn receive_from(&mut self, into: &mut [u8]) -> io::Result<(usize, SocketAddr)>
        ensures bound { IfOk result (λ came. came.0 ≤ length into.new) }
        ensures answered { receives_from self.old self.new into.new result };

    /// Sends one datagram (send(2)).
    fn send(&mut self, bytes: &[u8]) -> io::Result<usize>
        ensures bound { WritesAtMost result bytes.now }
        ensures answered { sends self.old self.new bytes.now result };

    /// Sends one datagram to this address (sendto(2)).
    fn send_to(&mut self, bytes: &[u8], to: SocketAddr) -> io::Result<usize>
        ensures bound { WritesAtMost result bytes.now }
        ensures answered { sends_to self.old self.new to bytes.now result };
}

/// A socket of datagrams whose calls don't wait. A door and the ports that it accepts share one socket of the system's,
/// which is reported under the key of each until that takes its own back (epoll(7)).
pub struct EnrolledUdp {
    pub(crate) socket: UdpSocket,
    registry: Arc<Registry, Global>,
}

impl EnrolledUdp {
    /// Has the registry report the socket under this key. Never `Later`.
    pub fn new(
        registry: &Arc<Registry, Global>,
        socket: UdpSocket,
        key: usize,
        interest: Interest,
    ) -> Making<EnrolledUdp>
        ensures { IsAtOnce result }
    {
        let Ok(registry) = Arc::try_clone(registry) else {
            return Making::Memory;
        };
        let fd = socket.as_raw_fd();
        match registry.register(&mut SourceFd(&fd), Token(key), interest) {
            Ok(()) => Making::Made(EnrolledUdp { socket, registry }),
            Err(_) => Making::Failed,
        }
    }
}

impl PacketWire for EnrolledUdp {
    fn receive(&mut self, into: &mut [u8]) -> io::Result<usize> {
        self.socket.recv(into)
    }

    fn receive_from(&mut self, into: &mut [u8]) -> io::Result<(usize, SocketAddr)> {
        self.socket.recv_from(into)
    }

    fn send(&mut self, bytes: &[u8]) -> io::Result<usize> {
        self.socket.send(bytes)
    }

    fn send_to(&mut self, bytes: &[u8], to: SocketAddr) -> io::Result<usize> {
        self.socket.send_to(bytes, to)
    }
}

impl Drop for EnrolledUdp {
    fn drop(self) {
        let EnrolledUdp { socket, registry } = self;
        let fd = socket.as_raw_fd();
        let _ = registry.deregister(&mut SourceFd(&fd));
    }
}
