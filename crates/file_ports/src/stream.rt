// A file, from its opening on.
ghost use Rattle.std.specs.Prelude.{◌≡◌, ◌≢◌, ◌<◌, ◌&&◌, length, true, false, not, None};
ghost use Rattle.port_trait.specs.{Gives, Accepts, finishes};
ghost use Rattle.port_trait.specs.declared.answers.Got.TheVariants as reads;
ghost use Rattle.port_trait.specs.declared.answers.Settled.TheVariants as settles;
ghost use Rattle.port_trait.specs.declared.answers.Shutting.TheVariants as shuts;
ghost use Rattle.port_trait.specs.declared.answers.Took.TheVariants as writes;
ghost use Rattle.file_ports.specs.Halves.{halves_hint};
ghost use Rattle.file_ports.specs.Streams.{halves_of, is_open};

use crate::halves::Halves;
use crate::input::FileInput;
use crate::waiting::{Progress, WaitingPipe};
use port_trait::{Got, Hint, Settled, Shutting, Took};
use relay_model::Shut;
use socket_kinds::Socket;
use std::fs::File;

/// The halves of an open file, or a named pipe that waits for its other end. Until that came there is nothing to read
/// and no room to write; an opening that fails is the fault of the half that asks.
#[derive(Drop)]
pub enum FileStream {
    Open(Halves<FileInput<File>, File>),
    Waiting(WaitingPipe),
}

impl FileStream {
    /// Takes over what a pipe's opening has come to. True where it was refused.
    fn advance(&mut self) -> bool
        ensures { halves_of self.new ≡ halves_of self.old }
    {
        let FileStream::Waiting(pipe) = self else {
            return false;
        };
        match pipe.ask() {
            Progress::NotYet => false,
            Progress::Open(halves) => {
                *self = FileStream::Open(halves);
                false
            }
            Progress::Refused => true,
        }
    }
}

impl Socket for FileStream {
    ghost hints = { λ stream. halves_hint (halves_of stream) };

    fn settle(&mut self) -> Settled
        ensures ready { result ≡ settles.Ready }
        ensures kept { self.new ≡ self.old }
    {
        Settled::Ready
    }

    /// A half that isn't there fails.
    fn receive(&mut self, into: &mut [u8]) -> Got
        requires { 0 < length into.old }
        ensures absent { (halves_of self.old).reads ≡ false → result ≡ reads.Failed }
        ensures gives { Gives None None into.new result }
        ensures stream { result ≢ reads.Empty }
        ensures kept { halves_of self.new ≡ halves_of self.old }
    {
        let refused = self.advance();
        match self {
            FileStream::Open(halves) => halves.receive(into),
            FileStream::Waiting(pipe) if refused || !pipe.reads() => Got::Failed,
            FileStream::Waiting(_) => Got::NotYet,
        }
    }

    /// A half that isn't there, or was shut, fails.
    fn transmit(&mut self, bytes: &[u8]) -> Took
        requires { 0 < length bytes.now }
        ensures absent { (halves_of self.old).writes ≡ false → result ≡ writes.Failed }
        ensures accepts { Accepts None None bytes.now result }
        ensures kept { halves_of self.new ≡ halves_of self.old }
    {
        let refused = self.advance();
        match self {
            FileStream::Open(halves) => halves.transmit(bytes),
            FileStream::Waiting(pipe) if refused || !pipe.writes() => Took::Failed,
            FileStream::Waiting(_) => Took::NotYet,
        }
    }

    /// A file has no packets.
    fn transmit_packet(&mut self, _bytes: &[u8]) -> Took
        ensures failed { result ≡ writes.Failed }
        ensures kept { self.new ≡ self.old }
    {
        Took::Failed
    }

    /// Closes what is written at `Down` and `Close`. A pipe that waits for its other end does so where that comes.
    fn finish(&mut self, how: Shut) -> Shutting
        ensures untouched { finishes how ≡ false → result ≡ shuts.Done }
        ensures done { is_open self.old ≡ true → result ≡ shuts.Done }
        ensures closed { halves_of self.new ≡ record (halves_of self.old) { writes = (halves_of self.old).writes && not (finishes how) } }
    {
        match self {
            FileStream::Open(halves) => halves.finish(how),
            FileStream::Waiting(pipe) => pipe.finish(how),
        }
    }

    /// What is always ready says so. The poller names what it is told of the others.
    fn hint(&self) -> Hint
        ensures { result ≡ halves_hint (halves_of self.now) }
    {
        match self {
            FileStream::Open(halves) => halves.hint(),
            FileStream::Waiting(pipe) => pipe.hint(),
        }
    }
}
