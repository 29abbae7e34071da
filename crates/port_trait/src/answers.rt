// What the calls of ports, sources and sinks answer.
ghost use Rattle.std.specs.Prelude.{◌≡◌};
ghost use Rattle.port_trait.specs.Hinting.{all_hints, no_hint};

use relay_model::ChildEnd;

/// What a `begin` came to.
#[derive(Clone, Copy, PartialEq)]
pub enum Begun {
    Begun,
    Failed,
    Memory,
}

/// Whether what was begun stands by now.
#[derive(Clone, Copy, PartialEq)]
pub enum Settled {
    Ready,
    NotYet,
    Failed,
}

/// What a read of a port came to: bytes, an empty datagram, the end, nothing for now, or a fault.
#[derive(Clone, Copy, PartialEq)]
pub enum Got {
    Bytes(usize),
    Empty,
    End,
    NotYet,
    Failed,
}

/// What a write on a port came to: so many bytes accepted, no room for now, or a fault.
#[derive(Clone, Copy, PartialEq)]
pub enum Took {
    Took(usize),
    NotYet,
    Failed,
}

/// What passing on the end came to.
#[derive(Clone, Copy, PartialEq)]
pub enum Shutting {
    Done,
    Failed,
}

/// What a port knows of its readiness by itself.
#[derive(Clone, Copy, PartialEq)]
pub struct Hint {
    pub readable: bool,
    pub writable: bool,
}

impl Hint {
    /// Neither half.
    pub fn none() -> Hint
        ensures { result ≡ no_hint }
    {
        Hint {
            readable: false,
            writable: false,
        }
    }

    /// Both halves.
    pub fn all() -> Hint
        ensures { result ≡ all_hints }
    {
        Hint {
            readable: true,
            writable: true,
        }
    }
}

/// How the port's child stands.
#[derive(Clone, Copy, PartialEq)]
pub enum PortReap {
    Reaped(ChildEnd),
    NoChild,
}

/// Whether what works for the port has come back to it.
#[derive(Clone, Copy, PartialEq)]
pub enum Joining {
    Joined,
    Running,
}

/// What a read of a source came to.
#[derive(Clone, Copy, PartialEq)]
pub enum SourceGot {
    Bytes(usize),
    End,
    Failed,
}

/// What a write on a sink came to.
#[derive(Clone, Copy, PartialEq)]
pub enum SinkTook {
    Took(usize),
    Failed,
}
