// The port of a socket, also while its host is looked up.
ghost use Rattle.std.specs.Prelude.{◌≡◌, true, false, None};
ghost use Rattle.port_trait.specs.{Tallied, settle_event, untold};
ghost use Rattle.socket_maker.specs.Ports.{Follows, begun_at, counts_at, ended_at, hints_at, may_hint_at};

use crate::looking::LookingPort;
use port_trait::{
    Begun, Got, Hint, Joining, Port, PortReap, Settled, Shutting, Took, count_writing,
};
use relay_model::Shut;
use socket_kinds::AnySocket;
use socket_ports::{Removal, SocketPort};

/// The port of a socket that stands, or is under way.
pub type PlainPort = SocketPort<AnySocket, Option<Removal>>;

/// A socket, or one whose host is looked up. Each call is that call on the socket, once that is opened.
#[derive(Drop)]
pub enum HostPort {
    Looking(LookingPort),
    Socket(PlainPort),
}

impl HostPort {
    /// Settles the socket, which is opened once the lookup has come to its end.
    fn advance(&mut self) -> Settled
        ensures follows { Follows self.old self.new }
        ensures kept { (begun_at self.new ≡ begun_at self.old) × (ended_at self.new ≡ ended_at self.old) }
        ensures counts { Tallied (settle_event result) (counts_at self.old) (counts_at self.new) }
    {
        let port = match self {
            HostPort::Socket(port) => return port.settle(),
            HostPort::Looking(port) => port,
        };
        let (settled, socket) = port.advance();
        if let Some(socket) = socket {
            let standing = SocketPort::with_counts(socket, None, port.counts, port.begun);
            *self = HostPort::Socket(standing);
        }
        settled
    }
}

impl Port for HostPort {
    ghost seen = { λ port. record untold {
      hints = hints_at port;
      hinting = may_hint_at port;
      counts = counts_at port;
      begun = begun_at port;
      ended = ended_at port;
    } };

    fn begin(&mut self) -> Begun {
        match self {
            HostPort::Looking(port) => {
                port.begun = true;
                Begun::Begun
            }
            HostPort::Socket(port) => port.begin(),
        }
    }

    fn settle(&mut self) -> Settled {
        self.advance()
    }

    fn read(&mut self, into: &mut [u8]) -> Got {
        match self {
            HostPort::Looking(port) => port.barred_read(),
            HostPort::Socket(port) => port.read(into),
        }
    }

    fn write(&mut self, bytes: &[u8]) -> Took {
        match self {
            HostPort::Looking(port) => port.barred_write(),
            HostPort::Socket(port) => port.write(bytes),
        }
    }

    fn send(&mut self, bytes: &[u8]) -> Took {
        match self {
            HostPort::Looking(port) => port.barred_write(),
            HostPort::Socket(port) => port.send(bytes),
        }
    }

    fn put_all(&mut self, bytes: &[u8]) -> Took {
        match self {
            HostPort::Looking(port) => {
                count_writing(&mut port.counts, Took::Failed);
                Took::Failed
            }
            HostPort::Socket(port) => port.put_all(bytes),
        }
    }

    fn shut(&mut self, how: Shut) -> Shutting {
        match self {
            HostPort::Looking(port) => port.finish(how),
            HostPort::Socket(port) => port.shut(how),
        }
    }

    fn hint(&mut self) -> Hint {
        match self {
            HostPort::Looking(port) => port.hint(),
            HostPort::Socket(port) => port.hint(),
        }
    }

    fn may_hint(&self) -> Hint {
        match self {
            HostPort::Looking(_) => Hint::all(),
            HostPort::Socket(port) => port.may_hint(),
        }
    }

    fn has_child(&self) -> bool {
        false
    }

    fn reap(&mut self) -> PortReap {
        PortReap::NoChild
    }

    /// No thread works for it: that of a lookup is nobody's to wait for.
    fn join(&mut self) -> Joining {
        Joining::Joined
    }
}
