// What the system's answers mean to a port.
ghost use Rattle.std.specs.Prelude.{◌≡◌};
ghost use Rattle.socket_kinds.specs.Answering.{IsReceived, IsAccepted, IsShutDown, connection_of, settling_of};

use port_trait::{Got, Settled, Shutting, Took};
use std::io;
use std::io::{Error, ErrorKind};

/// How a connection stands that was begun.
#[derive(Clone, Copy, PartialEq)]
pub(crate) enum Connection {
    UnderWay,
    Standing,
    Broken,
}

impl Connection {
    /// One whose peer the system doesn't know, by the error that it kept (connect(2), `EINPROGRESS`).
    pub(crate) fn of(kept: &io::Result<Option<Error>>) -> Connection
        ensures { result ≡ connection_of kept.now }
    {
        match kept {
            Ok(None) => Connection::UnderWay,
            Ok(Some(_)) | Err(_) => Connection::Broken,
        }
    }

    pub(crate) fn settle_answer(self) -> Settled
        ensures { result ≡ settling_of self }
    {
        match self {
            Connection::UnderWay => Settled::NotYet,
            Connection::Standing => Settled::Ready,
            Connection::Broken => Settled::Failed,
        }
    }
}

/// What a read of a stream came to (recv(2)).
pub fn receive_answer(read: &io::Result<usize>) -> Got
    ensures { IsReceived read.now result }
{
    match read {
        Ok(0) => Got::End,
        Ok(count) => Got::Bytes(*count),
        Err(error) if error.kind() == ErrorKind::WouldBlock => Got::NotYet,
        Err(_) => Got::Failed,
    }
}

/// What a write came to (send(2)).
pub fn send_answer(written: &io::Result<usize>) -> Took
    ensures { IsAccepted written.now result }
{
    match written {
        Ok(0) => Took::Failed,
        Ok(count) => Took::Took(*count),
        Err(error) if error.kind() == ErrorKind::WouldBlock => Took::NotYet,
        Err(_) => Took::Failed,
    }
}

/// What a shutdown came to (shutdown(2)). One that the peer has reset is shut already.
pub(crate) fn shut_down(done: &io::Result<()>) -> Shutting
    ensures { IsShutDown done.now result }
{
    match done {
        Ok(()) => Shutting::Done,
        Err(error) if error.kind() == ErrorKind::NotConnected => Shutting::Done,
        Err(_) => Shutting::Failed,
    }
}
