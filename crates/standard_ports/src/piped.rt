// The port of a pipe that a watch of the poller tells of.
ghost use Rattle.std.specs.Prelude.{◌≡◌, true};
ghost use Rattle.standard_ports.specs.Ports.{pipe_seen};

use crate::told::ToldSocket;
use file_ports::Halves;
use mio_poller::Watch;
use port_trait::{Begun, Got, Hint, Joining, Port, PortReap, Settled, Shutting, Took};
use relay_model::Shut;
use socket_ports::SocketPort;
use std::fs::File;
use std::marker::Model;

/// The port of a pipe's open descriptor.
pub type PipeEnd = SocketPort<ToldSocket<Halves<File, File>>, ()>;

/// A pipe that stands under no key, and so hints by its watch. Each other call is that call on the pipe's port; one that
/// would have waited has the watch forget what it was told.
#[derive(Drop)]
pub struct PipePort {
    pipe: PipeEnd,
    watch: Watch,
}

impl Model for PipePort {
    ghost use Rattle.socket_ports.specs.{SocketPortState};
    ghost use Rattle.file_ports.specs.{HalvesState};
    ghost use Rattle.standard_ports.specs.Told.{ToldState};

    ghost Value = { SocketPortState (ToldState HalvesState) };

    ghost view = { λ port. port.pipe };
}

impl PipePort {
    /// The port of this pipe, which is registered under the key of the watch.
    pub fn new(pipe: PipeEnd, watch: Watch) -> PipePort
        ensures { result ≡ pipe }
    {
        PipePort { pipe, watch }
    }
}

impl Port for PipePort {
    ghost seen = { pipe_seen ⟦<PipeEnd as Port>⟧.seen };

    fn begin(&mut self) -> Begun {
        self.pipe.begin()
    }

    fn settle(&mut self) -> Settled {
        self.pipe.settle()
    }

    fn read(&mut self, into: &mut [u8]) -> Got {
        let got = self.pipe.read(into);
        if got == Got::NotYet {
            self.watch.forget();
        }
        got
    }

    fn write(&mut self, bytes: &[u8]) -> Took {
        let took = self.pipe.write(bytes);
        if took == Took::NotYet {
            self.watch.forget();
        }
        took
    }

    fn send(&mut self, bytes: &[u8]) -> Took {
        self.pipe.send(bytes)
    }

    fn put_all(&mut self, bytes: &[u8]) -> Took {
        self.pipe.put_all(bytes)
    }

    fn shut(&mut self, how: Shut) -> Shutting {
        self.pipe.shut(how)
    }

    /// A half that is there is ready where a poll has told of the pipe.
    fn hint(&mut self) -> Hint
        ensures readable { result.readable ≡ true → self.old.socket.socket.reads ≡ true }
        ensures writable { result.writable ≡ true → self.old.socket.socket.writes ≡ true }
        ensures kept { self.new ≡ self.old }
    {
        let told = self.watch.is_told();
        Hint {
            readable: told && self.pipe.socket().socket().reads(),
            writable: told && self.pipe.socket().socket().writes(),
        }
    }

    fn may_hint(&self) -> Hint {
        Hint::all()
    }

    fn has_child(&self) -> bool {
        self.pipe.has_child()
    }

    fn reap(&mut self) -> PortReap {
        self.pipe.reap()
    }

    fn join(&mut self) -> Joining {
        self.pipe.join()
    }
}
