// How a reader's thread is started, and what it promises.
ghost use Rattle.std.specs.Prelude.{◌≡◌, ◌≤◌, None, IfSome};
ghost use Rattle.crossbeam_queue.specs.Passes.{view, IsPassOf};
ghost use Rattle.port_trait.specs.{Rose};
ghost use Rattle.ring_queue.specs.{OnDone};
ghost use Rattle.ring_reader.specs.Feeding.{Works};
ghost use Rattle.ring_reader.specs.Starting.{FedBy, WillFeed};

use crate::reader_thread::{Fed, Feeder};
use port_trait::{Source, Spawner, Task, Wake};
use ring_queue::{Lines, ThreadEnding, Word};
use std::snapshot::Snapshot;
use std::sync::Wait;
use std::thread::{Promise, Threads};

/// Of which lines and which source the thread hands back the rest.
#[derive(Drop)]
pub(crate) struct FeedPromise<S> {
    lines: Snapshot<Lines<Word>>,
    source: Snapshot<S>,
}

impl<S: Source> Promise<ThreadEnding<Fed<S>>> for FeedPromise<S> {
    ghost kept_by = { λ promise ending. OnDone (FedBy S.left S.faults S.ends promise.lines.value promise.source.value) ending };
}

/// Starts the thread. Where it can't be started, what it was to work with is dropped.
pub(crate) fn launch<S, P, W, R>(
    spawner: &mut P,
    feeder: Feeder<S, W, R>,
) -> Option<Task<ThreadEnding<Fed<S>>, FeedPromise<S>>>
where
    S: Source + Send + Drop + 'static,
    P: Spawner,
    R: Wait + Copy + Send + 'static,
    W: Wake + Send + Drop + 'static,
    requires queues { IsPassOf feeder.lines.value.items feeder.items × IsPassOf feeder.lines.value.back feeder.words }
    requires works { Works (S.left feeder.source.source) (S.left feeder.source.source) (S.faults feeder.source.source) (S.faults feeder.source.source)
        (S.ends feeder.source.source) (S.ends feeder.source.source) feeder.count 0 (view feeder.items) (view feeder.words) }
    ensures grows { P.faults spawner.old ≤ P.faults spawner.new }
    ensures started { IfSome result (WillFeed S.left S.faults S.ends feeder.lines.value feeder.source.source) }
    ensures refused { result ≡ None → Rose (P.faults spawner.old) (P.faults spawner.new) }
{
    let promise = FeedPromise {
        lines: Snapshot::of(&*feeder.lines),
        source: feeder.source.snapshot(),
    };
    let work = move || -> ThreadEnding<Fed<S>>
        requires queues { IsPassOf feeder.lines.value.items feeder.items × IsPassOf feeder.lines.value.back feeder.words }
        requires works { Works (S.left feeder.source.source) (S.left feeder.source.source) (S.faults feeder.source.source) (S.faults feeder.source.source)
            (S.ends feeder.source.source) (S.ends feeder.source.source) feeder.count 0 (view feeder.items) (view feeder.words) }
        ensures { OnDone (FedBy S.left S.faults S.ends feeder.lines.value feeder.source.source) result }
    { feeder.run() };
    match spawner.start(promise, work) {
        Ok(task) => Some(task),
        Err(_) => None,
    }
}

/// Waits until the thread has ended, and takes what it hands back.
pub(crate) fn land<S, R>(
    rt: &R,
    task: Task<ThreadEnding<Fed<S>>, FeedPromise<S>>,
    lines: &Lines<Word>,
    start: &Snapshot<S>,
) -> Fed<S>
where
    S: Source + Drop,
    R: Threads + Wait,
    requires task { WillFeed S.left S.faults S.ends lines.now start.now.value task }
    ensures fed { FedBy S.left S.faults S.ends lines.now start.now.value result }
{
    task.join(rt).take_result(rt)
}
