// The standard streams before their first byte.
ghost use Rattle.std.specs.Prelude.{◌≡◌, [], true, IfSome, Some};
ghost use Rattle.ring_reader.specs.{given_of};
ghost use Rattle.ring_writer.specs.{took_of};
ghost use Rattle.socket_ports.specs.{fresh_port};
ghost use Rattle.standard_ports.specs.Told.{fresh_told};
ghost use Rattle.standard_ports.specs.Ports.{direct_passed, is_none, is_unread, is_unwritten};
ghost use Rattle.standard_ports.specs.declared.direct.DirectPort.TheVariants as directs;

use crate::direct::DirectPort;
use crate::input::{InputPort, InputRing};
use crate::output::{OutputPort, OutputRing};
use crate::piped::PipePort;
use crate::told::ToldSocket;
use file_ports::Halves;
use mio_poller::Watch;
use port_trait::Port;
use socket_ports::SocketPort;
use std::fs::File;
use std::io::{Stdin, Stdout};
use std::sync::Wait;
use std::thread::Threads;

/// A standard stream in the loop that has passed no bytes yet.
#[derive(Drop)]
pub struct FreshDirect {
    pub port: DirectPort,
    ghost unread: { is_none (direct_passed port).gave ≡ true },
    ghost unwritten: { is_none (direct_passed port).took ≡ true },
}

impl FreshDirect {
    /// A pipe, which is registered under the key of the watch.
    pub fn pipe(halves: Halves<File, File>, watch: Watch) -> FreshDirect
        ensures { result.port ≡ directs.Pipe (fresh_port (fresh_told halves)) }
    {
        let pipe = SocketPort::new(ToldSocket::new(halves), ());
        FreshDirect {
            port: DirectPort::Pipe(PipePort::new(pipe, watch)),
        }
    }

    /// The descriptor itself.
    pub fn of_halves(halves: Halves<Stdin, Stdout>) -> FreshDirect
        ensures { result.port ≡ directs.Shared (fresh_port (fresh_told halves)) }
    {
        FreshDirect {
            port: DirectPort::Shared(SocketPort::new(ToldSocket::new(halves), ())),
        }
    }
}

/// Standard input that has given nothing yet.
#[derive(Drop)]
pub struct FreshInput<R> {
    port: InputPort<R>,
    ghost unread: { is_unread port ≡ true },
}

impl<R: Threads + Wait + Copy + Drop> FreshInput<R> {
    /// Standard input in the loop.
    pub fn direct(direct: FreshDirect) -> FreshInput<R> {
        let FreshDirect { port } = direct;
        FreshInput {
            port: InputPort::Direct(port),
        }
    }

    /// Standard input behind this ring.
    pub fn ring(ring: InputRing<R>) -> FreshInput<R>
        requires { given_of ring ≡ [] }
    {
        FreshInput {
            port: InputPort::Ring(ring),
        }
    }

    /// The port. It tells that it gave nothing.
    pub fn into_port(self) -> InputPort<R>
        ensures told { (⟦<InputPort<R> as Port>⟧.seen result).gave ≡ Some [] }
        ensures none { IfSome (⟦<InputPort<R> as Port>⟧.seen result).gave (λ all. all ≡ []) }
    {
        let FreshInput { port } = self;
        port
    }
}

/// Standard output that has taken nothing yet.
#[derive(Drop)]
pub struct FreshOutput<R> {
    port: OutputPort<R>,
    ghost unwritten: { is_unwritten port ≡ true },
}

impl<R: Threads + Wait + Copy + Drop> FreshOutput<R> {
    /// Standard output in the loop.
    pub fn direct(direct: FreshDirect) -> FreshOutput<R> {
        let FreshDirect { port } = direct;
        FreshOutput {
            port: OutputPort::Direct(port),
        }
    }

    /// Standard output behind this ring.
    pub fn ring(ring: OutputRing<R>) -> FreshOutput<R>
        requires { took_of ring ≡ [] }
    {
        FreshOutput {
            port: OutputPort::Ring(ring),
        }
    }

    /// The port. It tells that it took nothing.
    pub fn into_port(self) -> OutputPort<R>
        ensures told { (⟦<OutputPort<R> as Port>⟧.seen result).took ≡ Some [] }
        ensures none { IfSome (⟦<OutputPort<R> as Port>⟧.seen result).took (λ all. all ≡ []) }
    {
        let FreshOutput { port } = self;
        port
    }
}
