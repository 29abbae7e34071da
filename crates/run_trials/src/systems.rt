// Runs over what the program's own maker opens. This page alone names that maker and its poller.
ghost use Rattle.std.specs.Prelude.{◌≡◌, [], IfSome};

use crate::desks::Trial;
use crate::pollers::{AnyPoller, RowPoller};
use mio_poller::{MioPoller, MioWake, TickPoller};
use port_objects::{MemPoller, Tap};
use port_trait::{Maker, Making, Poller, Port};
use real_maker::RealMaker;
use relay_model::NoMemory;
use socket_ports::PeerPoller;
use std::alloc::Global;
use std::fs::Files;
use std::net::Net;
use std::rt::HostRuntime;
use std::thread::Threads;
use std::time::Clock;
use worked_rows::{DeskRun, Look, RowFault, RowSystem, RunResult, Streams, carry_out};

/// The program's poller.
pub(crate) type ProgramPoller<R> = PeerPoller<MioPoller<R>>;

/// The poller beneath that of a row.
type AnyWaiter<R> = AnyPoller<ProgramPoller<R>, MemPoller, TickPoller<R>>;

/// What was made. Rows have no word for a system that refuses it.
fn take_made<T: Drop>(making: Making<T>) -> Result<T, NoMemory> {
    match making {
        Making::Made(made) => Ok(made),
        Making::Later(_) | Making::Failed | Making::Memory => Err(NoMemory),
    }
}

/// The program's poller.
pub(crate) fn system_poller<R: Net + Clock + Drop>(
    rt: R,
    alloc: Global,
) -> Result<ProgramPoller<R>, NoMemory> {
    match take_made(MioPoller::new(rt, alloc)) {
        Ok(poller) => PeerPoller::new(alloc, poller),
        Err(NoMemory) => Err(NoMemory),
    }
}

/// What wakes that poller.
pub(crate) fn wake_of<R: Net + Clock + Drop>(
    poller: &ProgramPoller<R>,
) -> Result<MioWake, NoMemory> {
    take_made(poller.beneath().wake())
}

/// The program's maker, beside its poller.
pub(crate) fn watched_maker<R>(
    rt: R,
    host: HostRuntime,
    alloc: Global,
    poller: &ProgramPoller<R>,
) -> Result<RealMaker<R>, NoMemory>
where
    R: Files + Net + Clock + Threads + Copy + Drop,
{
    take_made(RealMaker::on(rt, host, alloc, poller))
}

/// What waits in the runs of the row.
fn waiter_of<R: Net + Clock + Copy + Drop>(
    rt: R,
    alloc: Global,
    system: RowSystem,
) -> Result<AnyWaiter<R>, NoMemory> {
    match system {
        RowSystem::Watched | RowSystem::Served => Ok(AnyPoller::Watching(system_poller(
            rt, alloc,
        )?)),
        RowSystem::Ticking => match TickPoller::new(rt) {
            Ok(poller) => Ok(AnyPoller::Ticking(poller)),
            Err(_) => Err(NoMemory),
        },
        RowSystem::Unwatched | RowSystem::Memory => Ok(AnyPoller::InMemory(MemPoller::new())),
    }
}

/// The program's maker, beside what waits in the runs of the row.
fn maker_beside<R>(trial: &Trial<'_, R>, waiter: &AnyWaiter<R>) -> Result<RealMaker<R>, NoMemory>
where
    R: Files + Net + Clock + Threads + Copy + Drop,
{
    match waiter {
        AnyPoller::Watching(poller) => watched_maker(trial.rt, trial.host, trial.run.alloc, poller),
        AnyPoller::InMemory(_) | AnyPoller::Ticking(_) => {
            take_made(RealMaker::new(trial.rt, trial.host, trial.run.alloc))
        }
    }
}

/// Carries out the words over these streams, which have passed no bytes. The tap is that of standard output.
pub(crate) fn over_program_maker<R, I: Port, O: Port>(
    trial: &Trial<'_, R>,
    streams: Streams<I, O>,
    tap: Tap,
) -> Result<RunResult, RowFault>
where
    R: Files + Net + Clock + Threads + Copy + Drop,
    requires given { IfSome (I.seen streams.stdin).gave (λ all. all ≡ []) }
    requires taken { IfSome (O.seen streams.stdout).took (λ all. all ≡ []) }
{
    match waiter_of(trial.rt, trial.run.alloc, trial.setting.system) {
        Ok(waiter) => beside_waiter(trial, streams, tap, waiter),
        Err(NoMemory) => Err(RowFault::Memory),
    }
}

/// The same beside what waits.
fn beside_waiter<R, I: Port, O: Port>(
    trial: &Trial<'_, R>,
    streams: Streams<I, O>,
    tap: Tap,
    waiter: AnyWaiter<R>,
) -> Result<RunResult, RowFault>
where
    R: Files + Net + Clock + Threads + Copy + Drop,
    requires given { IfSome (I.seen streams.stdin).gave (λ all. all ≡ []) }
    requires taken { IfSome (O.seen streams.stdout).took (λ all. all ≡ []) }
{
    let is_served = matches!(trial.setting.system, RowSystem::Served);
    match maker_beside(trial, &waiter) {
        Ok(maker) => over(
            trial.run,
            streams,
            tap,
            maker,
            RowPoller::new(waiter, is_served),
        ),
        Err(NoMemory) => Err(RowFault::Memory),
    }
}

/// The same over any maker and any poller.
fn over<M, P, I: Port, O: Port>(
    run: DeskRun<'_>,
    streams: Streams<I, O>,
    tap: Tap,
    maker: M,
    poller: P,
) -> Result<RunResult, RowFault>
where
    M: Maker + Drop,
    P: Poller + Drop,
    requires given { IfSome (I.seen streams.stdin).gave (λ all. all ≡ []) }
    requires taken { IfSome (O.seen streams.stdout).took (λ all. all ≡ []) }
{
    let looks = [Look {
        name: "stdout",
        tap,
    }];
    carry_out(run, streams, maker, poller, &looks)
}
