// What is read of a file, to its end.
ghost use Rattle.std.specs.Prelude.{◌≡◌, true, false};
ghost use Rattle.std.specs.Io.{ReadsAtMost};
ghost use Rattle.file_ports.specs.Inputs.{GaveToHangUp, IsHangUp, IsToHangUp};
ghost use Rattle.socket_kinds.specs.{Answers};

use crate::ends::ReadEnd;
use std::fs::File;
use std::io;
use std::io::{Error, IsTerminal, Read};
use std::os::fd::{AsRawFd, RawFd};

/// What a read of a terminal that hung up fails with (read(2)).
const EIO: i32 = 5;

/// A file that is read. The end of a terminal is also where it hangs up.
#[derive(Drop)]
pub struct FileInput<F> {
    file: F,
    is_terminal: bool,
}

impl FileInput<File> {
    /// This file.
    pub(crate) fn of(file: File) -> FileInput<File> {
        let is_terminal = file.is_terminal();
        FileInput { file, is_terminal }
    }
}

impl<F: AsRawFd> AsRawFd for FileInput<F> {
    fn as_raw_fd(&self) -> RawFd {
        self.file.as_raw_fd()
    }
}

impl<F: ReadEnd> Read for FileInput<F> {
    fn read(&mut self, into: &mut [u8]) -> io::Result<usize> {
        read_to_hang_up(&mut self.file, self.is_terminal, into)
    }
}

impl<F: ReadEnd> ReadEnd for FileInput<F> {
    ghost receives = { λ old new into read. Answers (F.receives old.file new.file into) (λ told. IsToHangUp old.is_terminal told read) };

    fn receive(&mut self, into: &mut [u8]) -> io::Result<usize> {
        read_to_hang_up(&mut self.file, self.is_terminal, into)
    }
}

/// One read. A terminal that hung up gives no byte.
fn read_to_hang_up<F: ReadEnd>(
    file: &mut F,
    is_terminal: bool,
    into: &mut [u8],
) -> io::Result<usize>
    ensures bound { ReadsAtMost result into.new }
    ensures once { Answers (F.receives file.old file.new into.new) (λ told. IsToHangUp is_terminal told result) }
    ensures bytes { GaveToHangUp is_terminal (F.remaining file.old) (F.remaining file.new) into.new result }
{
    match file.receive(into) {
        Ok(count) => Ok(count),
        Err(error) if is_hang_up(is_terminal, &error) => Ok(0),
        Err(error) => Err(error),
    }
}

/// Whether a read that failed so met a terminal that hung up.
fn is_hang_up(is_terminal: bool, error: &Error) -> bool
    ensures is { result ≡ true → IsHangUp is_terminal error.now }
    ensures other { result ≡ false → ¬ (IsHangUp is_terminal error.now) }
{
    is_terminal && error.raw_os_error() == Some(EIO)
}
