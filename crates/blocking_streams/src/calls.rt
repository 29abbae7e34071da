// One read and one write that wait.
ghost use Rattle.std.specs.Prelude.{◌≡◌, IfErr};
ghost use Rattle.std.specs.Io.{ReadsAtMost, WritesAtMost};
ghost use Rattle.std.specs.Io.KnownBytes.{ReadConsumes, WriteAppends};
ghost use Rattle.std.specs.IoError.{error_kind};
ghost use Rattle.blocking_streams.specs.Errors.{IsLast, IsNext};

use libc::types::pollfd;
use std::io;
use std::io::{Error, ErrorKind, Read, Write};
use std::os::fd::AsRawFd;

/// What comes after a call that the system refused.
#[derive(Clone, Copy, PartialEq)]
pub(crate) enum Next {
    /// The call would have waited: it is made again once the descriptor is ready (read(2), write(2), `EAGAIN`).
    WaitAndRetry,
    /// A signal came first: it is made again (signal(7), `EINTR`).
    Retry,
    Fail,
}

impl Next {
    fn after(error: &Error) -> Next
        ensures { IsNext (error_kind error.now) result }
    {
        match error.kind() {
            ErrorKind::WouldBlock => Next::WaitAndRetry,
            ErrorKind::Interrupted => Next::Retry,
            _ => Next::Fail,
        }
    }
}

/// Reads once. Where the descriptor is set not to wait, this waits until it can be read, and leaves it set so.
pub fn read_blocking<S: Read + AsRawFd>(stream: &mut S, into: &mut [u8]) -> io::Result<usize>
    ensures bound { ReadsAtMost result into.new }
    ensures bytes { ReadConsumes (S.remaining stream.old) (S.remaining stream.new) result into.new }
    ensures last { IfErr result IsLast }
{
    for _ in 0..u64::MAX {
        match stream.read(into) {
            Ok(count) => return Ok(count),
            Err(error) => retry_after(error, stream, libc::net::POLLIN)?,
        }
    }
    Err(gave_up())
}

/// Writes once, likewise.
pub fn write_blocking<S: Write + AsRawFd>(stream: &mut S, bytes: &[u8]) -> io::Result<usize>
    ensures bound { WritesAtMost result bytes.now }
    ensures bytes { WriteAppends (S.contents stream.old) (S.contents stream.new) result bytes.now }
    ensures last { IfErr result IsLast }
{
    for _ in 0..u64::MAX {
        match stream.write(bytes) {
            Ok(count) => return Ok(count),
            Err(error) => retry_after(error, stream, libc::net::POLLOUT)?,
        }
    }
    Err(gave_up())
}

/// Waits where the call that met this error is to be made again, for this event of the stream.
fn retry_after<S: AsRawFd>(error: Error, stream: &S, event: i16) -> io::Result<()>
    ensures { IfErr result IsLast }
{
    match Next::after(&error) {
        Next::WaitAndRetry => wait_for(stream.as_raw_fd(), event),
        Next::Retry => Ok(()),
        Next::Fail => Err(error),
    }
}

/// Waits for the event, an end or an error of the descriptor (poll(2)), or for a signal.
fn wait_for(fd: i32, event: i16) -> io::Result<()>
    ensures { IfErr result IsLast }
{
    let mut asked = [pollfd {
        fd,
        events: event,
        revents: 0,
    }];
    if libc::net::poll(&mut asked, i32::MAX) >= 0 || os::errno() == libc::EINTR {
        return Ok(());
    }
    Err(Error::other("the descriptor can't be waited for"))
}

/// No run comes to it.
fn gave_up() -> Error
    ensures { IsLast result }
{
    Error::other("gave up after 2^64 tries")
}
