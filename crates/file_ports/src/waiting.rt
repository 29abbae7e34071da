// The port's side of a named pipe whose opening waits for its other end.
ghost use Rattle.std.specs.Prelude.{◌≡◌, ◌||◌, true, false, IfOk, IfSome};
ghost use Rattle.port_trait.specs.{finishes};
ghost use Rattle.port_trait.specs.declared.answers.Shutting.TheVariants as shuts;
ghost use Rattle.file_ports.specs.Halves.{waiting_halves, halves_hint};
ghost use Rattle.file_ports.specs.Opened.{IsPipeOf};
ghost use Rattle.file_ports.specs.Streams.{OnOpened};
ghost use Rattle.file_ports.specs.Waiting.{shutting_after};

use crate::access::{Access, reads, writes};
use crate::halves::Halves;
use crate::input::FileInput;
use crate::open::NamedPipe;
use crate::opening::FileCalls;
use crate::pipes::{PipeOpenings, PipeOutcome, PipeRefusal, Spot};
use mio::net::UnixStream;
use mio::{Interest, Registry, Token};
use port_trait::{Hint, Shutting};
use relay_model::{Part, Shut, Single};
use socket_kinds::Socket;
use std::alloc::Global;
use std::fs::File;
use std::marker::Model;
use std::mem;
use std::net::Net;
use std::rc::Rc;
use std::rt::HostRuntime;
use std::thread::Threads;

/// What the opening of a pipe has come to.
pub(crate) enum Progress {
    NotYet,
    Open(Halves<FileInput<File>, File>),
    Refused,
}

/// A named pipe that waits for its other end. One that is let go before leaves its line, and nothing waits for that.
#[derive(Drop)]
pub struct WaitingPipe {
    part: Part,
    shut: bool,
    // none once nothing more is to be written
    spot: Option<Spot>,
    registry: Rc<Registry, Global>,
    key: usize,
    // its other end is closed once the spot was told, which the registry reports
    notice: UnixStream,
    // where the entry goes with the port
    parting: Option<Parting>,
}

/// Lets go who waits at the entry of a pipe that is about to be removed, where nobody else could find it: an opening for
/// both ways waits for nobody, and is another end to all who do (fifo(7)).
struct Parting {
    system: HostRuntime,
    name: String,
}

impl Parting {
    /// Nobody waits at the entry.
    fn leave_out(self) {
        let Parting { system: _, name } = self;
        drop(name);
    }
}

impl Drop for Parting {
    fn drop(self) {
        let Parting { system, name } = self;
        let _ = system.open_by(&Access::plain(true, true).options(), name.as_str());
    }
}

/// The parting of an entry that goes with its port.
fn parting_of(
    system: HostRuntime,
    alloc: Global,
    single: &Single,
    name: &str,
) -> Result<Option<Parting>, PipeRefusal> {
    if !single.options.entry.unlink_close {
        return Ok(None);
    }
    let name = String::from_str(alloc, name)?;
    Ok(Some(Parting { system, name }))
}

impl Model for WaitingPipe {
    ghost use Rattle.file_ports.specs.Halves.{WaitingState};

    ghost Value = { WaitingState };

    ghost view = { λ pipe. record { part = pipe.part; shut = pipe.shut } };
}

impl WaitingPipe {
    /// Lines up for the pipe that the address names. What its opening came to is reported under `key`.
    pub(crate) fn of<R>(
        rt: &R,
        system: HostRuntime,
        openings: &mut PipeOpenings,
        key: usize,
        single: &Single,
        part: Part,
        pipe: NamedPipe,
    ) -> Result<WaitingPipe, PipeRefusal>
    where
        R: Net + Threads,
        requires { IsPipeOf single.now part pipe }
        ensures { IfOk result (λ pipe. pipe ≡ record { part = part; shut = false }) }
    {
        let (mut notice, done) = UnixStream::pair(rt)?;
        let registry = openings.registry.clone()?;
        let parting = parting_of(system, openings.alloc, single, pipe.name.as_str())?;
        registry.register(&mut notice, Token(key), Interest::READABLE)?;
        let spot = openings.line_up(rt, system, pipe, done)?;
        Ok(WaitingPipe {
            part,
            shut: false,
            spot: Some(spot),
            registry,
            key,
            notice,
            parting,
        })
    }

    /// What the opening has come to. `Open` comes once. An entry that is no pipe any more is refused, and so is one whose
    /// half was shut.
    pub(crate) fn ask(&mut self) -> Progress
        ensures opened { OnOpened result (λ halves. halves ≡ waiting_halves self.old) }
        ensures kept { self.new ≡ self.old }
    {
        let Some(spot) = &self.spot else {
            return Progress::Refused;
        };
        match spot.take() {
            PipeOutcome::UnderWay => Progress::NotYet,
            PipeOutcome::Opened(file) => self.take_file(file),
            PipeOutcome::Refused => Progress::Refused,
        }
    }

    /// The halves of the open pipe.
    fn take_file(&mut self, file: File) -> Progress
        ensures opened { OnOpened result (λ halves. halves ≡ waiting_halves self.old) }
        ensures kept { self.new ≡ self.old }
    {
        if let Some(parting) = mem::take(&mut self.parting) {
            parting.leave_out();
        }
        match self.halves_of(file) {
            Some(halves) => Progress::Open(halves),
            None => Progress::Refused,
        }
    }

    fn halves_of(&self, file: File) -> Option<Halves<FileInput<File>, File>>
        ensures { IfSome result (λ halves. halves ≡ waiting_halves self.now) }
    {
        let (registry, key) = (&*self.registry, self.key);
        let halves = match (self.part, self.shut) {
            (Part::Reading, false) => {
                Halves::enroll(registry, key, Some(FileInput::of(file)), None)?
            }
            (Part::Writing, false) => Halves::enroll(registry, key, None, Some(file))?,
            _ => return None,
        };
        if halves.is_always_ready() {
            return None;
        }
        Some(halves)
    }

    pub(crate) fn reads(&self) -> bool
        ensures { result ≡ (waiting_halves self.now).reads }
    {
        reads(self.part)
    }

    pub(crate) fn writes(&self) -> bool
        ensures { result ≡ (waiting_halves self.now).writes }
    {
        writes(self.part) && !self.shut
    }

    /// The poller names the pipe.
    pub(crate) fn hint(&self) -> Hint
        ensures { result ≡ halves_hint (waiting_halves self.now) }
    {
        Hint::none()
    }

    /// Nothing more will be written from `Down` and `Close` on. A reader that comes later sees an end, as long as the
    /// program runs; where the pipe couldn't be opened this fails.
    pub(crate) fn finish(&mut self, how: Shut) -> Shutting
        ensures untouched { finishes how ≡ false → result ≡ shuts.Done }
        ensures closed { self.new ≡ record self.old { shut = self.old.shut || finishes how } }
    {
        match how {
            Shut::Down | Shut::Close => self.end_writing(),
            Shut::Nothing | Shut::Null => Shutting::Done,
        }
    }

    fn end_writing(&mut self) -> Shutting
        ensures { self.new ≡ record self.old { shut = true } }
    {
        let waits = self.writes();
        self.shut = true;
        if !waits {
            return Shutting::Done;
        }
        match mem::take(&mut self.spot) {
            Some(spot) => shutting_after(&spot.take()),
            None => Shutting::Done,
        }
    }
}

/// How the end is passed on to a pipe whose opening came to this.
fn shutting_after(outcome: &PipeOutcome) -> Shutting
    ensures { result ≡ shutting_after outcome.now }
{
    match outcome {
        PipeOutcome::UnderWay | PipeOutcome::Opened(_) => Shutting::Done,
        PipeOutcome::Refused => Shutting::Failed,
    }
}
