// Named pipes that wait for their other ends, and the threads that open them.
ghost use Rattle.port_trait.specs.{IsAtOnce};
ghost use Rattle.file_ports.specs.Access.{options_of};
ghost use Rattle.file_ports.specs.Waiting.{OnOutcome};

use crate::access::Access;
use crate::open::{NamedPipe, PipeEntry};
use crate::opening::FileCalls;
use mio::Registry;
use port_trait::Making;
use std::alloc::{AllocError, AllocFailed, Global};
use std::collections::VecDeque;
use std::fs::File;
use std::io::Read;
use std::net::Net;
use std::os::unix::net::UnixStream;
use std::rc::Rc;
use std::rt::HostRuntime;
use std::sync::{Arc, Mutex, MutexGuard};
use std::thread::Threads;
use std::time::Duration;
use std::{io, mem, thread};

/// The most pipes that may wait at once, each with a thread.
const MOST_LINES: usize = 64;

/// How many milliseconds the end of the program waits for a pipe that is to be written: a reader that is there already
/// sees an end.
const LAST_MOMENT: u64 = 200;

/// What the opening of a pipe came to.
#[derive(Drop)]
pub(crate) enum PipeOutcome {
    UnderWay,
    Opened(File),
    Refused,
}

/// Why nobody waits for a pipe.
#[derive(Clone, Copy, PartialEq)]
pub(crate) enum PipeRefusal {
    Failed,
    Memory,
}

impl From<io::Error> for PipeRefusal {
    fn from(_error: io::Error) -> PipeRefusal {
        PipeRefusal::Failed
    }
}

impl From<AllocError> for PipeRefusal {
    fn from(_error: AllocError) -> PipeRefusal {
        PipeRefusal::Memory
    }
}

impl<T: Drop> From<AllocFailed<T>> for PipeRefusal {
    fn from(_error: AllocFailed<T>) -> PipeRefusal {
        PipeRefusal::Memory
    }
}

/// One that waits for a pipe, as the thread sees it. `done` is closed once it was told.
#[derive(Drop)]
pub(crate) struct PipeWaiter {
    number: u64,
    told: Arc<Mutex<PipeOutcome>, Global>,
    done: mio::net::UnixStream,
}

/// Those that wait for one pipe, in their order. It is over once the thread found nobody left.
#[derive(Drop)]
struct PipeQueue {
    waiters: VecDeque<PipeWaiter, Global>,
    next: u64,
    over: bool,
}

/// A line, and whom it is for. The thread closes the other end of `served` when it ends.
#[derive(Drop)]
struct Awaited {
    entry: PipeEntry,
    access: Access,
    line: Arc<Mutex<PipeQueue>, Global>,
    served: UnixStream,
}

/// A place in a line, which is left when it is let go.
pub(crate) struct Spot {
    number: u64,
    told: Arc<Mutex<PipeOutcome>, Global>,
    line: Arc<Mutex<PipeQueue>, Global>,
}

impl Spot {
    /// What the opening came to. A file is taken away.
    pub(crate) fn take(&self) -> PipeOutcome {
        let Some(mut told) = self.told.try_lock() else {
            return PipeOutcome::UnderWay;
        };
        let found = mem::replace(&mut *told, PipeOutcome::Refused);
        if let PipeOutcome::UnderWay = found {
            *told = PipeOutcome::UnderWay;
        }
        found
    }
}

impl Drop for Spot {
    /// Where the thread is at the line just now, it finds this place empty later.
    fn drop(self) {
        let Spot { number, told, line } = self;
        drop(told);
        if let Some(mut line) = line.try_lock() {
            line.waiters.retain(|waiter| waiter.number != number);
        }
    }
}

/// What a new one at a line came to.
enum Joined {
    Waits(u64),
    Over(PipeWaiter),
    Memory,
}

/// The named pipes that are opened one way and wait for their other ends (fifo(7)). A thread opens each pipe for all who
/// wait for it, one after another, so that there is one thread a pipe and not one a session. Who is let go leaves the line,
/// and the thread stays for the next.
pub struct PipeOpenings {
    pub(crate) alloc: Global,
    /// The registry of the ports.
    pub(crate) registry: Rc<Registry, Global>,
    lines: Vec<Awaited>,
}

impl PipeOpenings {
    /// Without any. The ports are registered with this registry.
    pub fn new(alloc: Global, registry: &Registry) -> Making<PipeOpenings>
        ensures at_once { IsAtOnce result }
    {
        let Ok(registry) = registry.try_clone() else {
            return Making::Failed;
        };
        match Rc::new(alloc, registry) {
            Ok(registry) => Making::Made(PipeOpenings {
                alloc,
                registry,
                lines: Vec::new(alloc),
            }),
            Err(_) => Making::Memory,
        }
    }

    /// A place in the line of this pipe. `done` is closed once the place was told. `system` opens the pipe, since only a
    /// known runtime may go to a thread.
    pub(crate) fn line_up<R: Net + Threads>(
        &mut self,
        rt: &R,
        system: HostRuntime,
        pipe: NamedPipe,
        done: mio::net::UnixStream,
    ) -> Result<Spot, PipeRefusal> {
        let told = Arc::new(self.alloc, Mutex::new(PipeOutcome::UnderWay))?;
        let waiter = PipeWaiter {
            number: 0,
            told: Arc::try_clone(&told)?,
            done,
        };
        let (number, line) = self.admit(rt, system, pipe, waiter)?;
        Ok(Spot { number, told, line })
    }

    /// Puts it at the end of a line for this pipe, and begins one where there is none.
    fn admit<R: Net + Threads>(
        &mut self,
        rt: &R,
        system: HostRuntime,
        pipe: NamedPipe,
        mut waiter: PipeWaiter,
    ) -> Result<(u64, Arc<Mutex<PipeQueue>, Global>), PipeRefusal> {
        self.lines.retain(|awaited| !is_over(&awaited.line));
        for awaited in self.lines.iter() {
            if awaited.entry == pipe.entry && awaited.access == pipe.access {
                match join(&awaited.line, waiter) {
                    Joined::Waits(number) => return Ok((number, Arc::try_clone(&awaited.line)?)),
                    Joined::Over(back) => waiter = back,
                    Joined::Memory => return Err(PipeRefusal::Memory),
                }
            }
        }
        self.begin_line(rt, system, pipe, waiter)
    }

    /// Has a thread open this pipe for it, and for those who come behind it.
    fn begin_line<R: Net + Threads>(
        &mut self,
        rt: &R,
        system: HostRuntime,
        pipe: NamedPipe,
        waiter: PipeWaiter,
    ) -> Result<(u64, Arc<Mutex<PipeQueue>, Global>), PipeRefusal> {
        if self.lines.len() >= MOST_LINES {
            return Err(PipeRefusal::Failed);
        }
        let (served, serving) = UnixStream::pair(rt)?;
        let line = line_of(self.alloc, waiter)?;
        let theirs = Arc::try_clone(&line)?;
        let NamedPipe {
            access,
            name,
            entry,
        } = pipe;
        let awaited = Awaited {
            entry,
            access,
            line: Arc::try_clone(&line)?,
            served,
        };
        self.lines.push(awaited)?;
        if !launch(rt, system, access, name, theirs, serving) {
            return Err(PipeRefusal::Failed);
        }
        Ok((0, line))
    }
}

impl Drop for PipeOpenings {
    /// The threads end with the program.
    fn drop(self) {
        let PipeOpenings {
            alloc: _,
            registry: _,
            mut lines,
        } = self;
        for awaited in lines.iter_mut() {
            if awaited.access.write {
                leave_a_moment(&mut awaited.served);
            }
        }
    }
}

/// Waits for the end of the thread that has the other end, for the last moment at most.
fn leave_a_moment(served: &mut UnixStream) {
    let moment = Duration::from_millis(LAST_MOMENT);
    if served.set_read_timeout(Some(moment)).is_ok() {
        let _ = served.read(&mut [0u8; 1]);
    }
}

/// A line of one.
fn line_of(alloc: Global, first: PipeWaiter) -> Result<Arc<Mutex<PipeQueue>, Global>, PipeRefusal> {
    let mut waiters = VecDeque::new(alloc);
    waiters.push_back(first)?;
    let line = PipeQueue {
        waiters,
        next: 1,
        over: false,
    };
    Ok(Arc::new(alloc, Mutex::new(line))?)
}

/// Whether the line is over. One that the thread is at just now isn't.
fn is_over(line: &Mutex<PipeQueue>) -> bool {
    line.try_lock().is_some_and(|line| line.over)
}

/// Puts it at the end of the line. A line that the thread is at just now counts as over.
fn join(line: &Mutex<PipeQueue>, mut waiter: PipeWaiter) -> Joined {
    let Some(mut line) = line.try_lock() else {
        return Joined::Over(waiter);
    };
    if line.over {
        return Joined::Over(waiter);
    }
    let number = line.next;
    line.next = number.wrapping_add(1);
    waiter.number = number;
    match line.waiters.push_back(waiter) {
        Ok(()) => Joined::Waits(number),
        Err(_) => Joined::Memory,
    }
}

/// Starts the thread of a line, which closes `serving` when it ends.
fn launch<R: Threads>(
    rt: &R,
    system: HostRuntime,
    access: Access,
    name: String,
    line: Arc<Mutex<PipeQueue>, Global>,
    serving: UnixStream,
) -> bool {
    let work = move || {
        serve(&system, access, name.as_str(), &line);
        drop(serving);
    };
    thread::spawn(rt, work).is_ok()
}

/// Opens the pipe for one after another, until nobody waits.
fn serve<C: FileCalls>(calls: &C, access: Access, name: &str, line: &Mutex<PipeQueue>) {
    for _ in 0..u64::MAX {
        let outcome = open_pipe(calls, access, name);
        let Some(waiter) = first_of(line) else {
            return;
        };
        tell(waiter, outcome);
        if !goes_on(line) {
            return;
        }
    }
}

fn open_pipe<C: FileCalls>(calls: &C, access: Access, name: &str) -> PipeOutcome
    ensures { OnOutcome result (C.opens calls.now (options_of access) name.now) }
{
    match calls.open_by(&access.options(), name) {
        Ok(file) => PipeOutcome::Opened(file),
        Err(_) => PipeOutcome::Refused,
    }
}

/// Takes the lock, which a port holds for a moment at most.
fn lock<T>(mutex: &Mutex<T>) -> Option<MutexGuard<'_, T>> {
    for _ in 0..u64::MAX {
        if let Some(guard) = mutex.try_lock() {
            return Some(guard);
        }
        thread::yield_now();
    }
    None
}

/// Takes the first of the line. With nobody there the line is over.
fn first_of(line: &Mutex<PipeQueue>) -> Option<PipeWaiter> {
    let mut line = lock(line)?;
    let first = line.waiters.pop_front();
    line.over = first.is_none();
    first
}

/// Whether somebody waits. With nobody there the line is over.
fn goes_on(line: &Mutex<PipeQueue>) -> bool {
    let Some(mut line) = lock(line) else {
        return false;
    };
    line.over = line.waiters.is_empty();
    !line.over
}

/// Leaves what the opening came to with this one, who is reported once it is let go.
fn tell(waiter: PipeWaiter, outcome: PipeOutcome) {
    if let Some(mut told) = lock(&waiter.told) {
        *told = outcome;
    }
}
