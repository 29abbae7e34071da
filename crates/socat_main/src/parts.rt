// Steps of a beginning, each with what was wanting where it couldn't be made.
ghost use Rattle.std.specs.Prelude.{◌≡◌};

use blocking_streams::Blocking;
use mio_poller::{MioPoller, MioWake};
use port_desk::Standard;
use port_trait::{DirectReader, DirectWriter, Making, Sink, StdSink, StdSource};
use relay_model::NoMemory;
use socat_top::NO_MEMORY;
use standard_ports::{Failures, ToldSink};
use std::alloc::Global;
use std::fs::{Files, OpenOptions};
use std::io::{Stderr, Stdin, Stdout, Write};
use std::net::Net;
use std::os::fd::AsRawFd;
use std::process::ExitCode;
use std::rt::HostRuntime;
use std::time::Clock;

/// The status where the system refuses the poller or what is registered with it.
const FAILED: u8 = 1;

/// What was wanting before a run began.
#[derive(Clone, Copy)]
pub enum StartLack {
    Memory,
    /// The system refused the poller, or what is registered with it.
    Poller,
}

impl From<NoMemory> for StartLack {
    fn from(_absent: NoMemory) -> StartLack {
        StartLack::Memory
    }
}

/// Says what was wanting, and gives the status of it. The line takes no memory.
pub fn report_lack<W: Write>(errors: &mut W, lack: StartLack) -> ExitCode {
    match lack {
        StartLack::Memory => {
            let _ = errors.write_all(b"socat: out of memory\n");
            ExitCode::from(NO_MEMORY)
        }
        StartLack::Poller => {
            let _ = errors.write_all(b"socat: no poller\n");
            ExitCode::from(FAILED)
        }
    }
}

/// The standard streams by their descriptors, of which nothing is asked before they are used.
pub type BareStreams = Standard<
    DirectReader<StdSource<Stdin>>,
    DirectWriter<StdSink<Stdout>>,
    DirectWriter<StdSink<Blocking<Stderr>>>,
>;

/// The standard streams of words that only have something said.
pub fn bare_streams(rt: &HostRuntime) -> BareStreams {
    Standard {
        stdin: DirectReader::new(StdSource::new(rt.stdin())),
        stdout: DirectWriter::new(StdSink::new(rt.stdout())),
        stderr: DirectWriter::new(StdSink::new(Blocking::new(rt.stderr()))),
    }
}

/// A poller, and a wake of it for the thread of each standard stream.
pub fn make_poller<R: Net + Clock + Drop>(
    rt: R,
    alloc: Global,
) -> Result<(MioPoller<R>, (MioWake, MioWake, MioWake)), StartLack> {
    let poller = take_made(MioPoller::new(rt, alloc))?;
    let wakes = (
        take_made(poller.wake())?,
        take_made(poller.wake())?,
        take_made(poller.wake())?,
    );
    Ok((poller, wakes))
}

/// What stands on the descriptor of a standard stream that was closed when the program began, so that nothing else
/// gets it. A directory is neither read nor written: a call on the stream fails, as on a closed one.
fn occupy_descriptor<R: Files>(files: &R) -> Option<R::File>
where
    R::File: AsRawFd,
{
    let mut options = OpenOptions::new();
    options.read(true);
    match files.open_file(&options, "/") {
        Ok(folder) if folder.as_raw_fd() <= 2 => Some(folder),
        Ok(_) | Err(_) => None,
    }
}

/// Keeps the descriptors of the standard streams from what is opened later.
pub fn closed_streams<R: Files>(files: &R) -> [Option<R::File>; 3]
where
    R::File: AsRawFd,
{
    [
        occupy_descriptor(files),
        occupy_descriptor(files),
        occupy_descriptor(files),
    ]
}

/// What was made, or what was wanting for it.
pub fn take_made<T: Drop>(making: Making<T>) -> Result<T, StartLack> {
    match making {
        Making::Made(made) => Ok(made),
        Making::Later(_) | Making::Failed => Err(StartLack::Poller),
        Making::Memory => Err(StartLack::Memory),
    }
}

/// The sink with what tells its failures.
pub fn sink_with_failures<K: Sink + Drop>(
    alloc: Global,
    sink: K,
) -> Result<(ToldSink<K>, Failures), NoMemory> {
    let failures = Failures::none(alloc)?;
    let told = ToldSink::new(sink, failures.share()?);
    Ok((told, failures))
}
