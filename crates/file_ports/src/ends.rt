// What is read from and written to by calls of the system, and what each call means to a port.
ghost use Rattle.std.specs.Prelude.{◌≢◌, ◌<◌, ℕ, List, length, Result, None};
ghost use Rattle.std.specs.Io.{ReadsAtMost, WritesAtMost};
ghost use Rattle.std.specs.Io.KnownBytes.{ReadConsumes, WriteAppends};
ghost use Rattle.std.specs.declared.io.Error.{Error};
ghost use Rattle.port_trait.specs.{Gives, Accepts};
ghost use Rattle.port_trait.specs.declared.answers.Got.TheVariants as reads;
ghost use Rattle.socket_kinds.specs.{Answers, ReaderGave, WriterTook, IsReceived, IsAccepted};

use port_trait::{Got, Took};
use socket_kinds::{receive_answer, send_answer};
use std::fs::File;
use std::io;
use std::io::{PipeReader, PipeWriter, Read, Stdin, Stdout, Write};

/// What bytes are read from. A contract over any of them can name the answer of its read by the relation alone, so it holds
/// only of a caller that makes this one call.
pub trait ReadEnd: Read {
    // what a read answers that fills the buffer so
    ghost receives: { Self → Self → List ℕ → Result ℕ Error → Type 0 } = { λ _ _ _ _. Unit {0} };

    /// Reads once (read(2)).
    fn receive(&mut self, into: &mut [u8]) -> io::Result<usize>
        ensures bound { ReadsAtMost result into.new }
        ensures bytes { ReadConsumes (Self.remaining self.old) (Self.remaining self.new) result into.new }
        ensures answered { receives self.old self.new into.new result };
}

/// What bytes are written to, likewise.
pub trait WriteEnd: Write {
    // what a write of these bytes answers
    ghost transmits: { Self → Self → List ℕ → Result ℕ Error → Type 0 } = { λ _ _ _ _. Unit {0} };

    /// Writes once (write(2)).
    fn transmit(&mut self, bytes: &[u8]) -> io::Result<usize>
        ensures bound { WritesAtMost result bytes.now }
        ensures bytes { WriteAppends (Self.contents self.old) (Self.contents self.new) result bytes.now }
        ensures answered { transmits self.old self.new bytes.now result };
}

impl ReadEnd for File {
    fn receive(&mut self, into: &mut [u8]) -> io::Result<usize> {
        self.read(into)
    }
}

impl ReadEnd for PipeReader {
    fn receive(&mut self, into: &mut [u8]) -> io::Result<usize> {
        self.read(into)
    }
}

impl ReadEnd for Stdin {
    fn receive(&mut self, into: &mut [u8]) -> io::Result<usize> {
        self.read(into)
    }
}

impl WriteEnd for File {
    fn transmit(&mut self, bytes: &[u8]) -> io::Result<usize> {
        self.write(bytes)
    }
}

impl WriteEnd for PipeWriter {
    fn transmit(&mut self, bytes: &[u8]) -> io::Result<usize> {
        self.write(bytes)
    }
}

impl WriteEnd for Stdout {
    fn transmit(&mut self, bytes: &[u8]) -> io::Result<usize> {
        self.write(bytes)
    }
}

/// One read, and its answer.
pub(crate) fn receive_once<R: ReadEnd>(reader: &mut R, into: &mut [u8]) -> Got
    requires { 0 < length into.old }
    ensures once { Answers (R.receives reader.old reader.new into.new) (λ read. IsReceived read result) }
    ensures bytes { ReaderGave (R.remaining reader.old) (R.remaining reader.new) into.new result }
    ensures gives { Gives None None into.new result }
    ensures stream { result ≢ reads.Empty }
{
    receive_answer(&reader.receive(into))
}

/// One write, and its answer.
pub(crate) fn transmit_once<W: WriteEnd>(writer: &mut W, bytes: &[u8]) -> Took
    requires { 0 < length bytes.now }
    ensures once { Answers (W.transmits writer.old writer.new bytes.now) (λ written. IsAccepted written result) }
    ensures bytes { WriterTook (W.contents writer.old) (W.contents writer.new) bytes.now result }
    ensures accepts { Accepts None None bytes.now result }
{
    send_answer(&writer.transmit(bytes))
}
