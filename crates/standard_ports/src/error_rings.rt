// The ring of standard error, which is made only once something is to be written.
ghost use Rattle.standard_ports.specs.declared.error_rings.ErrorParts.{ErrorParts};

use blocking_streams::Blocking;
use mio_poller::MioWake;
use port_trait::{StdSink, StdSpawner};
use relay_model::NoMemory;
use ring_writer::FreshWriter;
use std::alloc::Global;
use std::io::Stderr;
use std::rt::HostRuntime;
use std::sync::Wait;
use std::thread::Threads;

/// What the thread of standard error writes to.
pub type ErrorSink = StdSink<Blocking<Stderr>>;

/// The ring of standard error before its first call.
pub type FreshErrors = FreshWriter<ErrorSink>;

/// What the ring of standard error is made of.
#[derive(Drop)]
pub struct ErrorParts {
    pub system: HostRuntime,
    pub alloc: Global,
    pub wake: MioWake,
}

impl ErrorParts {
    /// The same, for another ring.
    pub(crate) fn another(&self) -> Result<ErrorParts, NoMemory> {
        Ok(ErrorParts {
            system: self.system,
            alloc: self.alloc,
            wake: self.wake.another()?,
        })
    }
}

/// What makes the ring of standard error. A port's call can start a thread only so: the runtime is a known one where this
/// was made.
#[derive(Drop)]
pub struct RingMaker {
    make: fn(ErrorParts) -> Option<FreshErrors>,
    ghost ready: { (parts : ErrorParts) → pre make parts },
}

impl RingMaker {
    /// By this function.
    pub fn new(make: fn(ErrorParts) -> Option<FreshErrors>) -> RingMaker
        requires { (parts : ErrorParts) → pre make parts }
    {
        RingMaker { make }
    }

    /// Makes the ring. None where there is no memory.
    pub(crate) fn make(&self, parts: ErrorParts) -> Option<FreshErrors> {
        (self.make)(parts)
    }
}

/// Makes the ring and its thread. None where there is no memory.
pub fn make_errors<R>(rt: R, parts: ErrorParts) -> Option<FreshErrors>
where
    R: Threads + Wait + Copy + Send + Drop + 'static,
{
    let ErrorParts {
        system,
        alloc,
        wake,
    } = parts;
    let sink = StdSink::new(Blocking::new(system.stderr()));
    let mut spawner = StdSpawner::new(rt);
    FreshWriter::new(alloc, sink, &mut spawner, wake).ok()
}
