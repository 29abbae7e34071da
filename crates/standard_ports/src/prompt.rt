// A writer that isn't waited for.
ghost use Rattle.std.specs.Prelude.{◌≡◌};

use file_ports::WriteEnd;
use libc::types::pollfd;
use std::io;
use std::io::{Error, Write};
use std::os::fd::{AsRawFd, RawFd};

/// The most bytes that a pipe takes at once wherever it takes any (pipe(7), `PIPE_BUF`).
const AT_ONCE: usize = 4096;

/// A stream each of whose writes fails where it would wait: where the descriptor isn't ready, or more bytes are given than
/// one that is ready need take.
#[derive(Drop)]
pub struct Prompt<S> {
    stream: S,
    always_ready: bool,
}

impl<S> Prompt<S> {
    /// This stream, of which is known whether no call on it waits.
    pub fn new(stream: S, always_ready: bool) -> Prompt<S> {
        Prompt {
            stream,
            always_ready,
        }
    }
}

impl<S: Write + AsRawFd> Write for Prompt<S> {
    ghost contents = { λ prompt. S.contents prompt.stream };

    fn write(&mut self, bytes: &[u8]) -> io::Result<usize> {
        let at_once = self.always_ready
            || bytes.len() <= AT_ONCE && is_writable(self.stream.as_raw_fd());
        if !at_once {
            return Err(Error::other("the write would wait"));
        }
        self.stream.write(bytes)
    }

    fn flush(&mut self) -> io::Result<()> {
        self.stream.flush()
    }
}

impl<S: Write + AsRawFd> WriteEnd for Prompt<S> {
    fn transmit(&mut self, bytes: &[u8]) -> io::Result<usize> {
        self.write(bytes)
    }
}

/// Whether the descriptor is ready to be written, or tells an error at once (poll(2)).
fn is_writable(fd: RawFd) -> bool {
    let mut asked = [pollfd {
        fd,
        events: libc::net::POLLOUT,
        revents: 0,
    }];
    libc::net::poll(&mut asked, 0) > 0
}
