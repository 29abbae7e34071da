// The three standard streams.
ghost use Rattle.std.specs.Prelude.{◌≡◌, ◌&&◌, not, false};
ghost use Rattle.port_table.specs.Endings.{EndsSo, OnJoinedBack, handed, is_left};
ghost use Rattle.port_table.specs.PortTables.{StreamEnds};
ghost use Rattle.port_trait.specs.{finishes, Shuts, Agrees};
ghost use Rattle.port_table.specs.Ports.{StreamBegins};

use crate::endings::Back;
use port_trait::{Begun, Joining, Port, Shutting};
use relay_model::Shut;
use std::marker::Model;

/// The ports of the standard streams.
#[derive(Drop)]
pub struct Standard<I, O, E> {
    pub stdin: I,
    pub stdout: O,
    pub stderr: E,
}

/// A standard stream: its port, whether it has begun, and whether the end of its output was passed on.
#[derive(Drop)]
pub struct StandardPort<T: Port> {
    pub port: T,
    pub begun: bool,
    pub finished: bool,
}

impl<T: Port> Model for StandardPort<T> {
    ghost use Rattle.port_table.specs.Ports.{StreamSeen};

    ghost Value = { StreamSeen };

    ghost view = { λ stream. record { port = T.seen stream.port; begun = stream.begun; finished = stream.finished } };
}

/// Whether a shut of this kind passes the end of the output on.
pub fn is_final(how: Shut) -> bool
    ensures { result ≡ finishes how }
{
    matches!(how, Shut::Down | Shut::Close)
}

impl<T: Port> StandardPort<T> {
    /// The stream of a port that nobody has begun here.
    pub fn new(port: T) -> StandardPort<T>
        ensures port { result.port ≡ T.seen port }
        ensures fresh { (result.begun ≡ false) × (result.finished ≡ false) }
    {
        StandardPort {
            port,
            begun: false,
            finished: false,
        }
    }

    /// Begins the port, unless it has begun.
    pub fn begin(&mut self) -> Begun
        ensures { StreamBegins self.old self.new result }
    {
        if self.begun {
            return Begun::Begun;
        }
        let answer = self.port.begin();
        self.begun = answer == Begun::Begun;
        answer
    }

    pub fn shut(&mut self, how: Shut) -> Shutting
        ensures { StreamEnds (finishes how) self.old self.new (λ old new. Shuts old new how result) }
    {
        self.finished = is_final(how) || self.finished;
        self.port.shut(how)
    }

    /// Passes the end on where that is still to be done, on a stream that has begun and wasn't told it, and joins the port.
    pub fn end(self) -> Back<T>
        ensures ends { EndsSo (self.begun && not self.finished) self.port (is_left result) (T.seen (handed result)) }
        ensures behind { OnJoinedBack (λ port. Agrees (T.seen port)) result }
    {
        let StandardPort {
            mut port,
            begun,
            finished,
        } = self;
        if begun && !finished {
            port.shut(Shut::Close);
        }
        match port.join() {
            Joining::Joined => Back::Joined(port),
            Joining::Running => Back::Left(port),
        }
    }
}
