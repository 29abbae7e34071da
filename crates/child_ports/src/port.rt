// The port of a child.
ghost use Rattle.std.specs.Prelude.{◌≡◌, true};

use crate::unreaped::Ward;
use file_ports::Halves;
use port_trait::{Begun, Got, Hint, Joining, Port, PortReap, Settled, Shutting, Took};
use relay_model::Shut;
use socket_ports::SocketPort;
use std::io::{PipeReader, PipeWriter};
use std::marker::Model;
use std::process::SystemProcess;

/// The port of a program's pipes.
pub type ProgramPipes = SocketPort<Halves<PipeReader, PipeWriter>, ()>;

/// A program behind the port of its pipes. Each call but `reap` is that call on the port of the pipes; its child is asked
/// at the end of its output, too.
#[derive(Drop)]
pub struct ChildPort<P = ProgramPipes> {
    pipes: P,
    ward: Ward<SystemProcess>,
}

impl<P> Model for ChildPort<P> {
    ghost Value = { P };

    ghost view = { λ port. port.pipes };
}

impl<P> ChildPort<P> {
    /// The port of this child.
    pub fn new(pipes: P, ward: Ward<SystemProcess>) -> ChildPort<P>
        ensures { result ≡ pipes }
    {
        ChildPort { pipes, ward }
    }
}

impl<P: Port> Port for ChildPort<P> {
    ghost seen = { λ port. record (P.seen port) { child = true } };

    ghost answers_settle = { λ old new settled. P.answers_settle old new settled };

    ghost answers_shut = { λ old new how shutting. P.answers_shut old new how shutting };

    fn begin(&mut self) -> Begun {
        self.pipes.begin()
    }

    fn settle(&mut self) -> Settled {
        self.pipes.settle()
    }

    /// At the end of its output a child has mostly ended.
    fn read(&mut self, into: &mut [u8]) -> Got {
        let got = self.pipes.read(into);
        if got == Got::End {
            self.ward.ask_all();
        }
        got
    }

    fn write(&mut self, bytes: &[u8]) -> Took {
        self.pipes.write(bytes)
    }

    fn send(&mut self, bytes: &[u8]) -> Took {
        self.pipes.send(bytes)
    }

    fn put_all(&mut self, bytes: &[u8]) -> Took {
        self.pipes.put_all(bytes)
    }

    fn shut(&mut self, how: Shut) -> Shutting {
        self.pipes.shut(how)
    }

    fn hint(&mut self) -> Hint {
        self.pipes.hint()
    }

    fn may_hint(&self) -> Hint {
        self.pipes.may_hint()
    }

    fn has_child(&self) -> bool {
        true
    }

    fn reap(&mut self) -> PortReap {
        PortReap::Reaped(self.ward.ask())
    }

    fn join(&mut self) -> Joining {
        self.pipes.join()
    }
}
