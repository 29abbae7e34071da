// Sources give bytes and sinks take them; both may block.
ghost use Rattle.std.specs.Prelude.{◌≡◌, ◌<◌, ℕ, Bool, true, false, not, List, length, Option, None, min, take};
ghost use Rattle.port_trait.specs.Counting.{Counted};
ghost use Rattle.port_trait.specs.Streams.{SourceGives, SinkTakes, source_failed, source_ended, sink_failed, ReaderGives, WriterTakes};
ghost use Rattle.std.specs.Io.KnownBytes.{Keeps};

use crate::answers::{SinkTook, SourceGot};
use std::io::{Read, Write};

/// What bytes come from.
pub trait Source {
    // what it still has
    ghost left: { Self → Option (List ℕ) } = { λ _. None };
    // what the reader of std beneath has left, where that is known
    ghost rest: { Self → Option (List ℕ) } = { λ _. None };

    ghost faults: { Self → ℕ };

    ghost ends: { Self → ℕ };

    /// Takes what there is, up to the length of `into`; may wait for it.
    fn read(&mut self, into: &mut [u8]) -> SourceGot
        requires { 0 < length into.old }
        ensures gives { SourceGives (left self.old) (left self.new) into.new result }
        ensures rest { ReaderGives (rest self.old) (rest self.new) into.new result }
        ensures faults { Counted (source_failed result) (faults self.old) (faults self.new) }
        ensures ends { Counted (source_ended result) (ends self.old) (ends self.new) };
}

/// What bytes go to.
pub trait Sink {
    // what it took
    ghost took: { Self → Option (List ℕ) } = { λ _. None };
    // what the writer of std beneath holds, where that is known
    ghost holds: { Self → Option (List ℕ) } = { λ _. None };

    ghost faults: { Self → ℕ };
    // whether the last call on it was a `finish` that answered true
    ghost finished: { Self → Bool };

    /// Takes a front of the bytes; may wait for room. Taking nothing is a fault.
    fn write(&mut self, bytes: &[u8]) -> SinkTook
        requires { 0 < length bytes.now }
        ensures takes { SinkTakes (took self.old) (took self.new) bytes.now result }
        ensures holds { WriterTakes (holds self.old) (holds self.new) bytes.now result }
        ensures faults { Counted (sink_failed result) (faults self.old) (faults self.new) }
        ensures finished { finished self.new ≡ false };

    /// Nothing more will be written. False is a fault.
    fn finish(&mut self) -> bool
        ensures kept { took self.new ≡ took self.old }
        ensures held { Keeps (holds self.old) (holds self.new) }
        ensures faults { Counted (not result) (faults self.old) (faults self.new) }
        ensures finished { finished self.new ≡ result };
}

/// A reader of std as a source.
#[derive(Drop)]
pub struct StdSource<R> {
    reader: R,
    faults: u64,
    ends: u64,
}

impl<R: Read> StdSource<R> {
    /// Reads from this reader.
    pub fn new(reader: R) -> StdSource<R> {
        StdSource {
            reader,
            faults: 0,
            ends: 0,
        }
    }
}

impl<R: Read> Source for StdSource<R> {
    ghost rest = { λ source. R.remaining source.reader };

    ghost faults = { λ source. source.faults };

    ghost ends = { λ source. source.ends };

    fn read(&mut self, into: &mut [u8]) -> SourceGot {
        match self.reader.read(into) {
            Ok(0) => {
                self.ends = self.ends.saturating_add(1);
                SourceGot::End
            }
            Ok(count) => SourceGot::Bytes(count),
            Err(_) => {
                self.faults = self.faults.saturating_add(1);
                SourceGot::Failed
            }
        }
    }
}

/// A writer of std as a sink.
#[derive(Drop)]
pub struct StdSink<W> {
    writer: W,
    faults: u64,
    finished: bool,
}

impl<W: Write> StdSink<W> {
    /// Writes to this writer.
    pub fn new(writer: W) -> StdSink<W> {
        StdSink {
            writer,
            faults: 0,
            finished: false,
        }
    }
}

impl<W: Write> Sink for StdSink<W> {
    ghost holds = { λ sink. W.contents sink.writer };

    ghost faults = { λ sink. sink.faults };

    ghost finished = { λ sink. sink.finished };

    fn write(&mut self, bytes: &[u8]) -> SinkTook {
        self.finished = false;
        match self.writer.write(bytes) {
            Ok(0) => {
                self.faults = self.faults.saturating_add(1);
                SinkTook::Failed
            }
            Ok(count) => SinkTook::Took(count),
            Err(_) => {
                self.faults = self.faults.saturating_add(1);
                SinkTook::Failed
            }
        }
    }

    fn finish(&mut self) -> bool {
        self.finished = self.writer.flush().is_ok();
        if !self.finished {
            self.faults = self.faults.saturating_add(1);
        }
        self.finished
    }
}

/// Copies as many bytes as fit, and answers how many.
pub fn copy_front(from: &[u8], into: &mut [u8]) -> usize
    ensures count { result ≡ min (length from.now) (length into.old) }
    ensures copied { take result into.new ≡ take result from.now }
{
    let count = from.len().min(into.len());
    into[..count].copy_from_slice(&from[..count]);
    count
}
