// The port of a standard stream in the loop.
ghost use Rattle.standard_ports.specs.Ports.{of_direct};

use crate::piped::PipePort;
use crate::told::ToldSocket;
use file_ports::Halves;
use port_trait::{Begun, Got, Hint, Joining, Port, PortReap, Settled, Shutting, Took};
use relay_model::Shut;
use socket_ports::SocketPort;
use std::io::{Stdin, Stdout};

/// Standard input or standard output by the descriptor itself, which is always ready.
pub type SharedPort = SocketPort<ToldSocket<Halves<Stdin, Stdout>>, ()>;

/// A pipe that was opened anew, or a descriptor that is always ready. Each call is that call on the port that it is. It
/// has no type parameters: a type without any is compared by its name.
#[derive(Drop)]
pub enum DirectPort {
    Pipe(PipePort),
    Shared(SharedPort),
}

impl Port for DirectPort {
    ghost seen = { of_direct ⟦<PipePort as Port>⟧.seen ⟦<SharedPort as Port>⟧.seen };

    fn begin(&mut self) -> Begun {
        match self {
            DirectPort::Pipe(port) => port.begin(),
            DirectPort::Shared(port) => port.begin(),
        }
    }

    fn settle(&mut self) -> Settled {
        match self {
            DirectPort::Pipe(port) => port.settle(),
            DirectPort::Shared(port) => port.settle(),
        }
    }

    fn read(&mut self, into: &mut [u8]) -> Got {
        match self {
            DirectPort::Pipe(port) => port.read(into),
            DirectPort::Shared(port) => port.read(into),
        }
    }

    fn write(&mut self, bytes: &[u8]) -> Took {
        match self {
            DirectPort::Pipe(port) => port.write(bytes),
            DirectPort::Shared(port) => port.write(bytes),
        }
    }

    fn send(&mut self, bytes: &[u8]) -> Took {
        match self {
            DirectPort::Pipe(port) => port.send(bytes),
            DirectPort::Shared(port) => port.send(bytes),
        }
    }

    fn put_all(&mut self, bytes: &[u8]) -> Took {
        match self {
            DirectPort::Pipe(port) => port.put_all(bytes),
            DirectPort::Shared(port) => port.put_all(bytes),
        }
    }

    fn shut(&mut self, how: Shut) -> Shutting {
        match self {
            DirectPort::Pipe(port) => port.shut(how),
            DirectPort::Shared(port) => port.shut(how),
        }
    }

    fn hint(&mut self) -> Hint {
        match self {
            DirectPort::Pipe(port) => port.hint(),
            DirectPort::Shared(port) => port.hint(),
        }
    }

    fn may_hint(&self) -> Hint {
        match self {
            DirectPort::Pipe(port) => port.may_hint(),
            DirectPort::Shared(port) => port.may_hint(),
        }
    }

    fn has_child(&self) -> bool {
        match self {
            DirectPort::Pipe(port) => port.has_child(),
            DirectPort::Shared(port) => port.has_child(),
        }
    }

    fn reap(&mut self) -> PortReap {
        match self {
            DirectPort::Pipe(port) => port.reap(),
            DirectPort::Shared(port) => port.reap(),
        }
    }

    fn join(&mut self) -> Joining {
        match self {
            DirectPort::Pipe(port) => port.join(),
            DirectPort::Shared(port) => port.join(),
        }
    }
}
