// How the standard streams are opened for the loop.
ghost use Rattle.std.specs.Prelude.{◌≡◌, [], IfSome, Some};
ghost use Rattle.standard_ports.specs.Openings.{IsInput, IsOutput};

use crate::error_rings::{ErrorParts, RingMaker};
use crate::errors::ErrorPort;
use crate::fresh::FreshDirect;
use file_ports::Halves;
use mio::unix::SourceFd;
use mio::{Interest, Registry, Token};
use mio_poller::{MioPoller, PROBE};
use port_trait::Port;
use relay_model::Half;
use std::alloc::Global;
use std::fs::{Files, OpenOptions};
use std::io::{ErrorKind, Read, Write};
use std::net::Net;
use std::os::fd::{AsRawFd, RawFd};
use std::rt::HostRuntime;
use std::sync::Wait;
use std::thread::Threads;
use std::time::Clock;

/// The names of the open descriptors (proc_pid_fd(5)).
const INPUT: &str = "/proc/self/fd/0";

const OUTPUT: &str = "/proc/self/fd/1";

/// What the name of a pipe's descriptor leads to begins so, where the pipe has no name of its own (proc_pid_fd(5)).
const PIPE: &str = "pipe:[";

/// The port of standard input, without a thread: the descriptor itself where it is always ready, and a pipe without a
/// name opened anew, since the first opening is shared with other processes, and so mustn't be kept from waiting. `None`
/// for all else, and where the system refuses.
pub fn direct_input<R>(
    system: HostRuntime,
    alloc: Global,
    poller: &MioPoller<R>,
) -> Option<FreshDirect>
where
    R: Net + Clock + Drop,
    ensures { IfSome result (λ fresh. IsInput fresh.port) }
{
    let mut stdin = system.stdin();
    if is_pipe(&system, alloc, INPUT) {
        // reading nothing tells whether this descriptor may be read: a new one may in any case
        stdin.read(&mut []).ok()?;
        let watch = poller.watch(Half::ToRead).ok()?;
        let mut options = OpenOptions::new();
        options.read(true);
        let pipe = system.open_file(&options, INPUT).ok()?;
        let halves = Halves::enroll(poller.registry(), watch.key(), Some(pipe), None)?;
        return Some(FreshDirect::pipe(halves, watch));
    }
    if is_always_ready(poller.registry(), stdin.as_raw_fd()) {
        let halves = Halves::always(Some(stdin), None);
        return Some(FreshDirect::of_halves(halves));
    }
    None
}

/// The port of standard output, likewise.
pub fn direct_output<R>(
    system: HostRuntime,
    alloc: Global,
    poller: &MioPoller<R>,
) -> Option<FreshDirect>
where
    R: Net + Clock + Drop,
    ensures { IfSome result (λ fresh. IsOutput fresh.port) }
{
    let mut stdout = system.stdout();
    if is_pipe(&system, alloc, OUTPUT) {
        stdout.write(&[]).ok()?;
        let watch = poller.watch(Half::ToWrite).ok()?;
        let mut options = OpenOptions::new();
        options.write(true);
        let pipe = system.open_file(&options, OUTPUT).ok()?;
        let halves = Halves::enroll(poller.registry(), watch.key(), None, Some(pipe))?;
        return Some(FreshDirect::pipe(halves, watch));
    }
    if is_always_ready(poller.registry(), stdout.as_raw_fd()) {
        let halves = Halves::always(None, Some(stdout));
        return Some(FreshDirect::of_halves(halves));
    }
    None
}

/// The port of standard error. Where a write may wait, its first line starts a thread that writes it.
pub fn open_errors<R, N>(
    rt: R,
    parts: ErrorParts,
    maker: RingMaker,
    poller: &MioPoller<N>,
) -> ErrorPort<R>
where
    R: Threads + Wait + Copy + Drop,
    N: Net + Clock + Drop,
    ensures told { (⟦<ErrorPort<R> as Port>⟧.seen result).took ≡ Some [] }
    ensures none { IfSome (⟦<ErrorPort<R> as Port>⟧.seen result).took (λ all. all ≡ []) }
{
    let always_ready = is_always_ready(poller.registry(), parts.system.stderr().as_raw_fd());
    ErrorPort::new(rt, parts, maker, always_ready)
}

/// Whether this is a pipe without a name. The opening of a named one would wait for its other end (fifo(7)).
fn is_pipe(system: &HostRuntime, alloc: Global, name: &str) -> bool {
    match system.read_link(alloc, name) {
        Ok(target) => match target.to_str() {
            Some(text) => text.starts_with(PIPE),
            None => false,
        },
        Err(_) => false,
    }
}

/// Whether calls on the descriptor answer at once, so that no registry takes it: files and most devices (epoll_ctl(2),
/// `EPERM`).
fn is_always_ready(registry: &Registry, fd: RawFd) -> bool {
    match registry.register(&mut SourceFd(&fd), Token(PROBE), Interest::READABLE) {
        Ok(()) => {
            let _ = registry.deregister(&mut SourceFd(&fd));
            false
        }
        Err(error) => error.kind() == ErrorKind::PermissionDenied,
    }
}
