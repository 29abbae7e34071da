// The port of standard error.
ghost use Rattle.std.specs.Prelude.{◌≡◌, [], IfSome, Some};
ghost use Rattle.port_trait.specs.{Begins, StandsBegun};
ghost use Rattle.port_trait.specs.declared.answers.Begun.TheVariants as begins;
ghost use Rattle.standard_ports.specs.Errors.{fresh_plain, of_errors, plain_seen, unsaid};

use crate::error_rings::{ErrorParts, ErrorSink, RingMaker};
use crate::prompt::Prompt;
use crate::told::ToldSocket;
use file_ports::Halves;
use port_trait::{Begun, Got, Hint, Joining, Port, PortReap, Settled, Shutting, Took};
use relay_model::Shut;
use ring_writer::RingWriter;
use socket_ports::SocketPort;
use std::io::{Stderr, Stdin};
use std::mem;
use std::rt::HostRuntime;
use std::sync::Wait;
use std::thread::Threads;

/// Standard error behind a ring.
pub type ErrorRing<R> = RingWriter<ErrorSink, R>;

/// Standard error by the descriptor itself. A write that would wait fails.
pub type PlainErrors = SocketPort<ToldSocket<Halves<Stdin, Prompt<Stderr>>>, ()>;

/// What the ring of standard error is made of and begun with.
#[derive(Drop)]
pub struct ErrorStart<R> {
    rt: R,
    parts: ErrorParts,
    maker: RingMaker,
}

impl<R: Threads + Wait + Copy + Drop> ErrorStart<R> {
    /// Begins a ring, or the descriptor itself where there is no memory or no thread for one.
    fn begin(&self) -> ErrorPort<R>
        ensures begins { Begins unsaid (⟦<ErrorPort<R> as Port>⟧.seen result) begins.Begun }
        ensures stands { StandsBegun unsaid (⟦<ErrorPort<R> as Port>⟧.seen result) begins.Begun }
    {
        match self.begin_ring() {
            Some(ring) => ErrorPort::Ring(ring),
            None => {
                let mut port = self.plain_port();
                port.begin();
                ErrorPort::Plain(port)
            }
        }
    }

    /// A ring that has begun.
    fn begin_ring(&self) -> Option<ErrorRing<R>>
        ensures begins { IfSome result (λ ring. Begins unsaid (⟦<ErrorRing<R> as Port>⟧.seen ring) begins.Begun) }
        ensures stands { IfSome result (λ ring. StandsBegun unsaid (⟦<ErrorRing<R> as Port>⟧.seen ring) begins.Begun) }
    {
        let parts = self.parts.another().ok()?;
        let mut ring = self.maker.make(parts)?.attach(self.rt);
        match ring.begin() {
            Begun::Begun => Some(ring),
            Begun::Failed | Begun::Memory => {
                drop(ring);
                None
            }
        }
    }

    /// The descriptor itself.
    fn plain_port(&self) -> PlainErrors
        ensures { result ≡ fresh_plain }
    {
        plain_errors(self.parts.system, false)
    }
}

/// The descriptor itself, of which is known whether it is always ready.
fn plain_errors(system: HostRuntime, always_ready: bool) -> PlainErrors
    ensures { result ≡ fresh_plain }
{
    let stderr = Prompt::new(system.stderr(), always_ready);
    SocketPort::new(ToldSocket::new(Halves::always(None, Some(stderr))), ())
}

/// Standard error.
#[derive(Drop)]
pub enum ErrorPort<R> {
    /// Nothing was asked of it. It has no ring and no thread yet.
    Unasked(ErrorStart<R>),
    /// A thread writes what lies in the ring.
    Ring(ErrorRing<R>),
    /// It is always ready, there is no ring, or something was asked of it before its beginning.
    Plain(PlainErrors),
}

impl<R: Threads + Wait + Copy + Drop> ErrorPort<R> {
    /// Standard error that has taken nothing. Its ring is made at its beginning, unless its descriptor is always ready.
    pub fn new(rt: R, parts: ErrorParts, maker: RingMaker, always_ready: bool) -> ErrorPort<R>
        ensures told { (⟦<ErrorPort<R> as Port>⟧.seen result).took ≡ Some [] }
        ensures none { IfSome (⟦<ErrorPort<R> as Port>⟧.seen result).took (λ all. all ≡ []) }
    {
        if always_ready {
            return ErrorPort::Plain(plain_errors(parts.system, true));
        }
        ErrorPort::Unasked(ErrorStart { rt, parts, maker })
    }

    /// Goes over to the next state.
    fn go_over(&mut self, next: ErrorPort<R>)
        ensures { self.new ≡ next }
    {
        drop(mem::replace(self, next));
    }
}

impl<R: Threads + Wait + Copy + Drop> Port for ErrorPort<R> {
    ghost seen = { of_errors (plain_seen ⟦<PlainErrors as Port>⟧.seen) ⟦<ErrorRing<R> as Port>⟧.seen };

    fn begin(&mut self) -> Begun {
        match self {
            ErrorPort::Unasked(start) => {
                let begun = start.begin();
                self.go_over(begun);
                Begun::Begun
            }
            ErrorPort::Ring(port) => port.begin(),
            ErrorPort::Plain(port) => port.begin(),
        }
    }

    fn settle(&mut self) -> Settled {
        Settled::Ready
    }

    fn read(&mut self, into: &mut [u8]) -> Got {
        match self {
            ErrorPort::Unasked(start) => {
                let mut port = start.plain_port();
                let got = port.read(into);
                self.go_over(ErrorPort::Plain(port));
                got
            }
            ErrorPort::Ring(port) => port.read(into),
            ErrorPort::Plain(port) => port.read(into),
        }
    }

    fn write(&mut self, bytes: &[u8]) -> Took {
        match self {
            ErrorPort::Unasked(start) => {
                let mut port = start.plain_port();
                let took = port.write(bytes);
                self.go_over(ErrorPort::Plain(port));
                took
            }
            ErrorPort::Ring(port) => port.write(bytes),
            ErrorPort::Plain(port) => port.write(bytes),
        }
    }

    fn send(&mut self, bytes: &[u8]) -> Took {
        match self {
            ErrorPort::Unasked(start) => {
                let mut port = start.plain_port();
                let took = port.send(bytes);
                self.go_over(ErrorPort::Plain(port));
                took
            }
            ErrorPort::Ring(port) => port.send(bytes),
            ErrorPort::Plain(port) => port.send(bytes),
        }
    }

    fn put_all(&mut self, bytes: &[u8]) -> Took {
        match self {
            ErrorPort::Unasked(start) => {
                let mut port = start.plain_port();
                let took = port.put_all(bytes);
                self.go_over(ErrorPort::Plain(port));
                took
            }
            ErrorPort::Ring(port) => port.put_all(bytes),
            ErrorPort::Plain(port) => port.put_all(bytes),
        }
    }

    fn shut(&mut self, how: Shut) -> Shutting {
        match self {
            ErrorPort::Unasked(start) => {
                let mut port = start.plain_port();
                let shutting = port.shut(how);
                self.go_over(ErrorPort::Plain(port));
                shutting
            }
            ErrorPort::Ring(port) => port.shut(how),
            ErrorPort::Plain(port) => port.shut(how),
        }
    }

    fn hint(&mut self) -> Hint {
        match self {
            ErrorPort::Unasked(_) => Hint::none(),
            ErrorPort::Ring(port) => port.hint(),
            ErrorPort::Plain(port) => port.hint(),
        }
    }

    fn may_hint(&self) -> Hint {
        Hint::all()
    }

    fn has_child(&self) -> bool {
        false
    }

    fn reap(&mut self) -> PortReap {
        PortReap::NoChild
    }

    fn join(&mut self) -> Joining {
        match self {
            ErrorPort::Ring(port) => port.join(),
            ErrorPort::Unasked(_) | ErrorPort::Plain(_) => Joining::Joined,
        }
    }
}
