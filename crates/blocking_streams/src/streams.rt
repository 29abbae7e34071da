// A stream that waits.
ghost use Rattle.std.specs.Prelude.{◌≡◌};

use crate::calls::{read_blocking, write_blocking};
use std::io;
use std::io::{Read, Write};
use std::os::fd::AsRawFd;

/// A stream each of whose reads and writes waits until the system does it. Who shares the descriptor may have set it not
/// to wait (open(2), `O_NONBLOCK`); it stays so.
#[derive(Drop)]
pub struct Blocking<S> {
    stream: S,
}

impl<S> Blocking<S> {
    /// This stream.
    pub fn new(stream: S) -> Blocking<S> {
        Blocking { stream }
    }
}

impl<S: Read + AsRawFd> Read for Blocking<S> {
    ghost remaining = { λ blocking. S.remaining blocking.stream };

    fn read(&mut self, into: &mut [u8]) -> io::Result<usize> {
        read_blocking(&mut self.stream, into)
    }
}

impl<S: Write + AsRawFd> Write for Blocking<S> {
    ghost contents = { λ blocking. S.contents blocking.stream };

    fn write(&mut self, bytes: &[u8]) -> io::Result<usize> {
        write_blocking(&mut self.stream, bytes)
    }

    fn flush(&mut self) -> io::Result<()> {
        self.stream.flush()
    }
}
