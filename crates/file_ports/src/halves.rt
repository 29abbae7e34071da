// What is read and what is written through descriptors whose calls answer at once.
ghost use Rattle.std.specs.Prelude.{◌≡◌, ◌≢◌, ◌<◌, ◌&&◌, length, false, not, None, is_some, IfSome};
ghost use Rattle.port_trait.specs.{Gives, Accepts, finishes};
ghost use Rattle.port_trait.specs.declared.answers.Got.TheVariants as reads;
ghost use Rattle.port_trait.specs.declared.answers.Settled.TheVariants as settles;
ghost use Rattle.port_trait.specs.declared.answers.Shutting.TheVariants as shuts;
ghost use Rattle.port_trait.specs.declared.answers.Took.TheVariants as writes;
ghost use Rattle.socket_kinds.specs.{Answers, ReaderGave, WriterTook, IsReceived, IsAccepted};
ghost use Rattle.file_ports.specs.Halves.{AtHalf, HalvesState, halves_hint, is_always};
ghost use Rattle.file_ports.specs.declared.halves.HalfReadiness.TheVariants as readiness;

use crate::ends::{ReadEnd, WriteEnd, receive_once, transmit_once};
use mio::unix::SourceFd;
use mio::{Interest, Registry, Token};
use port_trait::{Got, Hint, Settled, Shutting, Took};
use relay_model::Shut;
use socket_kinds::Socket;
use std::io::ErrorKind;
use std::marker::Model;
use std::os::fd::AsRawFd;

/// Who knows when a descriptor is ready. A regular file always is, and no registry takes it (epoll_ctl(2), `EPERM`).
#[derive(Clone, Copy, PartialEq)]
pub enum HalfReadiness {
    Reported,
    Always,
}

/// The descriptors of the two halves, each where that half is used. A half that is shut is closed, so that who reads
/// the other end of a pipe comes to its end.
#[derive(Drop)]
pub struct Halves<I, O> {
    reading: Option<I>,
    writing: Option<O>,
    readiness: HalfReadiness,
}

impl<I, O> Model for Halves<I, O> {
    ghost Value = { HalvesState };

    ghost view = { λ halves. record { reads = is_some halves.reading; writes = is_some halves.writing; readiness = halves.readiness } };
}

impl<I: AsRawFd + Drop, O: AsRawFd + Drop> Halves<I, O> {
    /// Has the registry report each half under this key. `None` where the system refuses.
    pub fn enroll(
        registry: &Registry,
        key: usize,
        reading: Option<I>,
        writing: Option<O>,
    ) -> Option<Halves<I, O>>
        ensures { IfSome result (λ halves. (halves.reads ≡ is_some reading) × (halves.writes ≡ is_some writing)) }
    {
        let mut readiness = HalfReadiness::Reported;
        if let Some(input) = &reading {
            readiness = enroll(registry, key, input, Interest::READABLE)?;
        }
        if let Some(output) = &writing {
            readiness = enroll(registry, key, output, Interest::WRITABLE)?;
        }
        Some(Halves {
            reading,
            writing,
            readiness,
        })
    }
}

impl<I, O> Halves<I, O> {
    /// Halves that are always ready, which no registry reports.
    pub fn always(reading: Option<I>, writing: Option<O>) -> Halves<I, O>
        ensures { result ≡ record { reads = is_some reading; writes = is_some writing; readiness = readiness.Always } }
    {
        Halves {
            reading,
            writing,
            readiness: HalfReadiness::Always,
        }
    }

    /// Whether there is something to read from.
    pub fn reads(&self) -> bool
        ensures { result ≡ self.now.reads }
    {
        self.reading.is_some()
    }

    /// Whether there is something to write to.
    pub fn writes(&self) -> bool
        ensures { result ≡ self.now.writes }
    {
        self.writing.is_some()
    }

    /// Whether the descriptors are always ready, so that nothing reports them.
    pub(crate) fn is_always_ready(&self) -> bool
        ensures { result ≡ is_always self.now.readiness }
    {
        self.readiness == HalfReadiness::Always
    }
}

/// Has no call on the descriptor wait, and the registry report it unless it is always ready.
fn enroll<F: AsRawFd>(
    registry: &Registry,
    key: usize,
    descriptor: &F,
    interest: Interest,
) -> Option<HalfReadiness> {
    let fd = descriptor.as_raw_fd();
    if os::set_nonblocking(fd, true) != 0 {
        return None;
    }
    match registry.register(&mut SourceFd(&fd), Token(key), interest) {
        Ok(()) => Some(HalfReadiness::Reported),
        Err(error) if error.kind() == ErrorKind::PermissionDenied => Some(HalfReadiness::Always),
        Err(_) => None,
    }
}

/// Reads from a half, where it is there.
fn receive_at<I: ReadEnd>(half: &mut Option<I>, into: &mut [u8]) -> Got
    requires { 0 < length into.old }
    ensures absent { is_some half.old ≡ false → result ≡ reads.Failed }
    ensures once { AtHalf (λ before now. Answers (I.receives before now into.new) (λ read. IsReceived read result)) half.old half.new }
    ensures bytes { AtHalf (λ before now. ReaderGave (I.remaining before) (I.remaining now) into.new result) half.old half.new }
    ensures gives { Gives None None into.new result }
    ensures stream { result ≢ reads.Empty }
{
    match half {
        Some(input) => receive_once(input, into),
        None => Got::Failed,
    }
}

/// Writes to a half, where it is there.
fn transmit_at<O: WriteEnd>(half: &mut Option<O>, bytes: &[u8]) -> Took
    requires { 0 < length bytes.now }
    ensures absent { is_some half.old ≡ false → result ≡ writes.Failed }
    ensures once { AtHalf (λ before now. Answers (O.transmits before now bytes.now) (λ written. IsAccepted written result)) half.old half.new }
    ensures bytes { AtHalf (λ before now. WriterTook (O.contents before) (O.contents now) bytes.now result) half.old half.new }
    ensures accepts { Accepts None None bytes.now result }
{
    match half {
        Some(output) => transmit_once(output, bytes),
        None => Took::Failed,
    }
}

impl<I: ReadEnd + Drop, O: WriteEnd + Drop> Socket for Halves<I, O> {
    ghost hints = { halves_hint };

    fn settle(&mut self) -> Settled
        ensures ready { result ≡ settles.Ready }
        ensures kept { self.new ≡ self.old }
    {
        Settled::Ready
    }

    /// A half that isn't there fails.
    fn receive(&mut self, into: &mut [u8]) -> Got
        requires { 0 < length into.old }
        ensures absent { self.old.reads ≡ false → result ≡ reads.Failed }
        ensures gives { Gives None None into.new result }
        ensures stream { result ≢ reads.Empty }
        ensures kept { self.new ≡ self.old }
    {
        receive_at(&mut self.reading, into)
    }

    /// A half that isn't there, or was shut, fails.
    fn transmit(&mut self, bytes: &[u8]) -> Took
        requires { 0 < length bytes.now }
        ensures absent { self.old.writes ≡ false → result ≡ writes.Failed }
        ensures accepts { Accepts None None bytes.now result }
        ensures kept { self.new ≡ self.old }
    {
        transmit_at(&mut self.writing, bytes)
    }

    /// A stream has no packets.
    fn transmit_packet(&mut self, _bytes: &[u8]) -> Took
        ensures failed { result ≡ writes.Failed }
        ensures kept { self.new ≡ self.old }
    {
        Took::Failed
    }

    /// Closes what is written at `Down` and `Close`.
    fn finish(&mut self, how: Shut) -> Shutting
        ensures done { result ≡ shuts.Done }
        ensures closed { self.new ≡ record self.old { writes = self.old.writes && not (finishes how) } }
    {
        match how {
            Shut::Down | Shut::Close => self.writing = None,
            Shut::Nothing | Shut::Null => {}
        }
        Shutting::Done
    }

    /// What is always ready says so. The poller names what it is told of the others.
    fn hint(&self) -> Hint
        ensures { result ≡ halves_hint self.now }
    {
        let always = self.is_always_ready();
        Hint {
            readable: always && self.reading.is_some(),
            writable: always && self.writing.is_some(),
        }
    }
}
