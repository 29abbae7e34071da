// The port of standard output.
ghost use Rattle.standard_ports.specs.Ports.{of_output};

use crate::direct::DirectPort;
use crate::told_sink::ToldSink;
use blocking_streams::Blocking;
use port_trait::{Begun, Got, Hint, Joining, Port, PortReap, Settled, Shutting, StdSink, Took};
use relay_model::Shut;
use ring_writer::RingWriter;
use std::io::Stdout;
use std::sync::Wait;
use std::thread::Threads;

/// Standard output behind a ring, whose late failures are told.
pub type OutputRing<R> = RingWriter<ToldSink<StdSink<Blocking<Stdout>>>, R>;

/// Standard output, in the loop or behind a ring. Each call is that call on the port that it is.
#[derive(Drop)]
pub enum OutputPort<R> {
    Direct(DirectPort),
    Ring(OutputRing<R>),
}

impl<R: Threads + Wait + Copy + Drop> Port for OutputPort<R> {
    ghost seen = { of_output ⟦<DirectPort as Port>⟧.seen ⟦<OutputRing<R> as Port>⟧.seen };

    fn begin(&mut self) -> Begun {
        match self {
            OutputPort::Direct(port) => port.begin(),
            OutputPort::Ring(port) => port.begin(),
        }
    }

    fn settle(&mut self) -> Settled {
        match self {
            OutputPort::Direct(port) => port.settle(),
            OutputPort::Ring(port) => port.settle(),
        }
    }

    fn read(&mut self, into: &mut [u8]) -> Got {
        match self {
            OutputPort::Direct(port) => port.read(into),
            OutputPort::Ring(port) => port.read(into),
        }
    }

    fn write(&mut self, bytes: &[u8]) -> Took {
        match self {
            OutputPort::Direct(port) => port.write(bytes),
            OutputPort::Ring(port) => port.write(bytes),
        }
    }

    fn send(&mut self, bytes: &[u8]) -> Took {
        match self {
            OutputPort::Direct(port) => port.send(bytes),
            OutputPort::Ring(port) => port.send(bytes),
        }
    }

    fn put_all(&mut self, bytes: &[u8]) -> Took {
        match self {
            OutputPort::Direct(port) => port.put_all(bytes),
            OutputPort::Ring(port) => port.put_all(bytes),
        }
    }

    fn shut(&mut self, how: Shut) -> Shutting {
        match self {
            OutputPort::Direct(port) => port.shut(how),
            OutputPort::Ring(port) => port.shut(how),
        }
    }

    fn hint(&mut self) -> Hint {
        match self {
            OutputPort::Direct(port) => port.hint(),
            OutputPort::Ring(port) => port.hint(),
        }
    }

    fn may_hint(&self) -> Hint {
        match self {
            OutputPort::Direct(port) => port.may_hint(),
            OutputPort::Ring(port) => port.may_hint(),
        }
    }

    fn has_child(&self) -> bool {
        match self {
            OutputPort::Direct(port) => port.has_child(),
            OutputPort::Ring(port) => port.has_child(),
        }
    }

    fn reap(&mut self) -> PortReap {
        match self {
            OutputPort::Direct(port) => port.reap(),
            OutputPort::Ring(port) => port.reap(),
        }
    }

    fn join(&mut self) -> Joining {
        match self {
            OutputPort::Direct(port) => port.join(),
            OutputPort::Ring(port) => port.join(),
        }
    }
}
