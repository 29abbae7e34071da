// The port of any address that isn't a standard stream.
ghost use Rattle.real_maker.specs.Ports.{of_port};

use crate::opening::OfSocket;
use crate::socks::SocksOpening;
use child_ports::ChildPort;
use file_ports::FilePort;
use port_objects::EchoPort;
use port_trait::{Begun, Got, Hint, Joining, Port, PortReap, Settled, Shutting, Took};
use relay_model::Shut;
use socket_ports::PeerPort;
use tunnel_port::ConnectPort;

/// The echo pipe, a socket, a file, a program, a connection through a proxy, or a door of datagrams or its peer. Each
/// call is that call on the port that it is. It has no type parameters: where a maker stands for one, a port without
/// any is compared by its name.
#[derive(Drop)]
pub enum RealPort {
    Echo(EchoPort),
    Socket(OfSocket),
    File(FilePort),
    Child(ChildPort),
    Socks(Box<SocksOpening>),
    Proxy(ConnectPort<OfSocket>),
    Peer(PeerPort),
}

impl Port for RealPort {
    ghost seen = { of_port ⟦<EchoPort as Port>⟧.seen ⟦<OfSocket as Port>⟧.seen ⟦<FilePort as Port>⟧.seen ⟦<ChildPort as Port>⟧.seen
        ⟦<SocksOpening as Port>⟧.seen ⟦<ConnectPort<OfSocket> as Port>⟧.seen ⟦<PeerPort as Port>⟧.seen };

    fn begin(&mut self) -> Begun {
        match self {
            RealPort::Echo(port) => port.begin(),
            RealPort::Socket(port) => port.begin(),
            RealPort::File(port) => port.begin(),
            RealPort::Child(port) => port.begin(),
            RealPort::Socks(port) => port.begin(),
            RealPort::Proxy(port) => port.begin(),
            RealPort::Peer(port) => port.begin(),
        }
    }

    fn settle(&mut self) -> Settled {
        match self {
            RealPort::Echo(port) => port.settle(),
            RealPort::Socket(port) => port.settle(),
            RealPort::File(port) => port.settle(),
            RealPort::Child(port) => port.settle(),
            RealPort::Socks(port) => port.settle(),
            RealPort::Proxy(port) => port.settle(),
            RealPort::Peer(port) => port.settle(),
        }
    }

    fn read(&mut self, into: &mut [u8]) -> Got {
        match self {
            RealPort::Echo(port) => port.read(into),
            RealPort::Socket(port) => port.read(into),
            RealPort::File(port) => port.read(into),
            RealPort::Child(port) => port.read(into),
            RealPort::Socks(port) => port.read(into),
            RealPort::Proxy(port) => port.read(into),
            RealPort::Peer(port) => port.read(into),
        }
    }

    fn write(&mut self, bytes: &[u8]) -> Took {
        match self {
            RealPort::Echo(port) => port.write(bytes),
            RealPort::Socket(port) => port.write(bytes),
            RealPort::File(port) => port.write(bytes),
            RealPort::Child(port) => port.write(bytes),
            RealPort::Socks(port) => port.write(bytes),
            RealPort::Proxy(port) => port.write(bytes),
            RealPort::Peer(port) => port.write(bytes),
        }
    }

    fn send(&mut self, bytes: &[u8]) -> Took {
        match self {
            RealPort::Echo(port) => port.send(bytes),
            RealPort::Socket(port) => port.send(bytes),
            RealPort::File(port) => port.send(bytes),
            RealPort::Child(port) => port.send(bytes),
            RealPort::Socks(port) => port.send(bytes),
            RealPort::Proxy(port) => port.send(bytes),
            RealPort::Peer(port) => port.send(bytes),
        }
    }

    fn put_all(&mut self, bytes: &[u8]) -> Took {
        match self {
            RealPort::Echo(port) => port.put_all(bytes),
            RealPort::Socket(port) => port.put_all(bytes),
            RealPort::File(port) => port.put_all(bytes),
            RealPort::Child(port) => port.put_all(bytes),
            RealPort::Socks(port) => port.put_all(bytes),
            RealPort::Proxy(port) => port.put_all(bytes),
            RealPort::Peer(port) => port.put_all(bytes),
        }
    }

    fn shut(&mut self, how: Shut) -> Shutting {
        match self {
            RealPort::Echo(port) => port.shut(how),
            RealPort::Socket(port) => port.shut(how),
            RealPort::File(port) => port.shut(how),
            RealPort::Child(port) => port.shut(how),
            RealPort::Socks(port) => port.shut(how),
            RealPort::Proxy(port) => port.shut(how),
            RealPort::Peer(port) => port.shut(how),
        }
    }

    fn hint(&mut self) -> Hint {
        match self {
            RealPort::Echo(port) => port.hint(),
            RealPort::Socket(port) => port.hint(),
            RealPort::File(port) => port.hint(),
            RealPort::Child(port) => port.hint(),
            RealPort::Socks(port) => port.hint(),
            RealPort::Proxy(port) => port.hint(),
            RealPort::Peer(port) => port.hint(),
        }
    }

    fn may_hint(&self) -> Hint {
        match self {
            RealPort::Echo(port) => port.may_hint(),
            RealPort::Socket(port) => port.may_hint(),
            RealPort::File(port) => port.may_hint(),
            RealPort::Child(port) => port.may_hint(),
            RealPort::Socks(port) => port.may_hint(),
            RealPort::Proxy(port) => port.may_hint(),
            RealPort::Peer(port) => port.may_hint(),
        }
    }

    fn has_child(&self) -> bool {
        match self {
            RealPort::Echo(port) => port.has_child(),
            RealPort::Socket(port) => port.has_child(),
            RealPort::File(port) => port.has_child(),
            RealPort::Child(port) => port.has_child(),
            RealPort::Socks(port) => port.has_child(),
            RealPort::Proxy(port) => port.has_child(),
            RealPort::Peer(port) => port.has_child(),
        }
    }

    fn reap(&mut self) -> PortReap {
        match self {
            RealPort::Echo(port) => port.reap(),
            RealPort::Socket(port) => port.reap(),
            RealPort::File(port) => port.reap(),
            RealPort::Child(port) => port.reap(),
            RealPort::Socks(port) => port.reap(),
            RealPort::Proxy(port) => port.reap(),
            RealPort::Peer(port) => port.reap(),
        }
    }

    fn join(&mut self) -> Joining {
        match self {
            RealPort::Echo(port) => port.join(),
            RealPort::Socket(port) => port.join(),
            RealPort::File(port) => port.join(),
            RealPort::Child(port) => port.join(),
            RealPort::Socks(port) => port.join(),
            RealPort::Proxy(port) => port.join(),
            RealPort::Peer(port) => port.join(),
        }
    }
}
