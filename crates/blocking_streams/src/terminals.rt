// An input that may be a terminal.
ghost use Rattle.std.specs.Prelude.{◌≡◌, ◌<◌, length, None};
ghost use Rattle.port_trait.specs.Counting.{Counted};
ghost use Rattle.port_trait.specs.{SourceGives, ReaderGives, source_failed, source_ended};
ghost use Rattle.blocking_streams.specs.Inputs.{InputGives, IsInputAnswer};

use port_trait::{Source, SourceGot};
use std::io;
use std::io::{IsTerminal, Read};

/// A terminal that hung up, as a read tells it (termios(3)).
const HUNG_UP: i32 = libc::EIO;

/// A reader as a source. Where it is a terminal, a read after it hung up comes to the end.
#[derive(Drop)]
pub struct InputSource<R> {
    reader: R,
    terminal: bool,
    faults: u64,
    ends: u64,
}

impl<R: Read> InputSource<R> {
    /// Reads from this reader, which is a terminal or not.
    pub fn new(reader: R, terminal: bool) -> InputSource<R>
        ensures { (result.reader ≡ reader) × (result.terminal ≡ terminal) }
    {
        InputSource {
            reader,
            terminal,
            faults: 0,
            ends: 0,
        }
    }
}

impl<R: Read> Source for InputSource<R> {
    ghost faults = { λ source. source.faults };

    ghost ends = { λ source. source.ends };

    fn read(&mut self, into: &mut [u8]) -> SourceGot
        requires { 0 < length into.old }
        ensures input { InputGives self.old.terminal (R.remaining self.old.reader) (R.remaining self.new.reader) into.new result }
        ensures kept { self.new.terminal ≡ self.old.terminal }
        ensures gives { SourceGives None None into.new result }
        ensures rest { ReaderGives None None into.new result }
        ensures faults { Counted (source_failed result) self.old.faults self.new.faults }
        ensures ends { Counted (source_ended result) self.old.ends self.new.ends }
    {
        let got = input_answer(&self.reader.read(into), self.terminal);
        match got {
            SourceGot::Bytes(_) => {}
            SourceGot::End => self.ends = self.ends.saturating_add(1),
            SourceGot::Failed => self.faults = self.faults.saturating_add(1),
        }
        got
    }
}

/// What a read of an input came to.
fn input_answer(read: &io::Result<usize>, terminal: bool) -> SourceGot
    ensures { IsInputAnswer terminal read.now result }
{
    match read {
        Ok(0) => SourceGot::End,
        Ok(count) => SourceGot::Bytes(*count),
        Err(error) => {
            if terminal && error.raw_os_error() == Some(HUNG_UP) {
                SourceGot::End
            } else {
                SourceGot::Failed
            }
        }
    }
}
