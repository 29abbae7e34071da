// The port of standard input.
ghost use Rattle.standard_ports.specs.Ports.{of_input};

use crate::direct::DirectPort;
use blocking_streams::{Blocking, InputSource};
use port_trait::{Begun, Got, Hint, Joining, Port, PortReap, Settled, Shutting, Took};
use relay_model::Shut;
use ring_reader::RingReader;
use std::io::Stdin;
use std::sync::Wait;
use std::thread::Threads;

/// Standard input behind a ring.
pub type InputRing<R> = RingReader<InputSource<Blocking<Stdin>>, R>;

/// Standard input, in the loop or behind a ring. Each call is that call on the port that it is.
#[derive(Drop)]
pub enum InputPort<R> {
    Direct(DirectPort),
    Ring(InputRing<R>),
}

impl<R: Threads + Wait + Copy + Drop> Port for InputPort<R> {
    ghost seen = { of_input ⟦<DirectPort as Port>⟧.seen ⟦<InputRing<R> as Port>⟧.seen };

    fn begin(&mut self) -> Begun {
        match self {
            InputPort::Direct(port) => port.begin(),
            InputPort::Ring(port) => port.begin(),
        }
    }

    fn settle(&mut self) -> Settled {
        match self {
            InputPort::Direct(port) => port.settle(),
            InputPort::Ring(port) => port.settle(),
        }
    }

    fn read(&mut self, into: &mut [u8]) -> Got {
        match self {
            InputPort::Direct(port) => port.read(into),
            InputPort::Ring(port) => port.read(into),
        }
    }

    fn write(&mut self, bytes: &[u8]) -> Took {
        match self {
            InputPort::Direct(port) => port.write(bytes),
            InputPort::Ring(port) => port.write(bytes),
        }
    }

    fn send(&mut self, bytes: &[u8]) -> Took {
        match self {
            InputPort::Direct(port) => port.send(bytes),
            InputPort::Ring(port) => port.send(bytes),
        }
    }

    fn put_all(&mut self, bytes: &[u8]) -> Took {
        match self {
            InputPort::Direct(port) => port.put_all(bytes),
            InputPort::Ring(port) => port.put_all(bytes),
        }
    }

    fn shut(&mut self, how: Shut) -> Shutting {
        match self {
            InputPort::Direct(port) => port.shut(how),
            InputPort::Ring(port) => port.shut(how),
        }
    }

    fn hint(&mut self) -> Hint {
        match self {
            InputPort::Direct(port) => port.hint(),
            InputPort::Ring(port) => port.hint(),
        }
    }

    fn may_hint(&self) -> Hint {
        match self {
            InputPort::Direct(port) => port.may_hint(),
            InputPort::Ring(port) => port.may_hint(),
        }
    }

    fn has_child(&self) -> bool {
        match self {
            InputPort::Direct(port) => port.has_child(),
            InputPort::Ring(port) => port.has_child(),
        }
    }

    fn reap(&mut self) -> PortReap {
        match self {
            InputPort::Direct(port) => port.reap(),
            InputPort::Ring(port) => port.reap(),
        }
    }

    fn join(&mut self) -> Joining {
        match self {
            InputPort::Direct(port) => port.join(),
            InputPort::Ring(port) => port.join(),
        }
    }
}
