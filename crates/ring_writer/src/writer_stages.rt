// What becomes of a writer: its thread is started or refused, works, and is joined.
ghost use Rattle.std.specs.Prelude.{◌≡◌, ◌<◌, ◌≤◌, ◌+◌, ◌++◌, ◌∷◌, [], true, false, length, take, None, IfSome, IsSome, if◌then◌else◌};
ghost use Rattle.crossbeam_queue.specs.Passes.{view};
ghost use Rattle.port_trait.specs.{Rose};
ghost use Rattle.port_trait.specs.declared.answers.Begun.TheVariants as begins;
ghost use Rattle.ring_queue.specs.declared.items.RingItem.TheVariants as ring_items;
ghost use Rattle.ring_queue.specs.{bytes_of, told, AddsChunks, OnDone};
ghost use Rattle.ring_writer.specs.WriterThread.{IsToBegin, ThreadEnded};
ghost use Rattle.ring_writer.specs.WriterPuts.{IsPutting};
ghost use Rattle.ring_writer.specs.WriterRing.{WriterStands, TaskStands, IsBack, IsBehind, LineBegins, WritesChunk, fresh_line, line_of, is_open, may_join};

use crate::writer_outlet::Outlet;
use crate::writer_puts::Putter;
use crate::writer_thread::{WriterDone, WriterPromise, WriterWork};
use port_trait::{Begun, Sink, Spawner, Task, Took, Wake};
use ring_queue::{OrderedPass, RingItem, SinkFault, ThreadEnding, settle};
use std::mem;
use std::snapshot::Snapshot;
use std::sync::Wait;
use std::thread::Threads;

/// What is left after the thread's return: both sides of each queue in one hand, and the sink as it stood when
/// the thread was started and as it came back.
#[derive(Drop)]
pub(crate) struct WriterBack<K> {
    pub(crate) items: OrderedPass<RingItem>,
    pub(crate) marks: OrderedPass<SinkFault>,
    pub(crate) begun: Snapshot<K>,
    pub(crate) outlet: Outlet<K>,
}

/// A writer that hasn't begun, one whose thread couldn't be started, one at work, and one whose thread has come
/// back.
#[derive(Drop)]
pub(crate) enum WriterStage<K: Sink + Drop> {
    Ready(Putter, Snapshot<K>, Task<ThreadEnding<WriterDone<K>>, WriterPromise<K>>),
    Refused,
    Working(Putter, Snapshot<K>, Task<ThreadEnding<WriterDone<K>>, WriterPromise<K>>),
    Back(WriterBack<K>),
}

impl<K: Sink + Drop> WriterStage<K> {
    /// The stage of a writer whose thread was to be started.
    pub(crate) fn of(
        putter: Putter,
        begun: Snapshot<K>,
        task: Option<Task<ThreadEnding<WriterDone<K>>, WriterPromise<K>>>,
    ) -> WriterStage<K>
        requires putting { IsPutting putter }
        requires none { ((view putter.sender).sent ≡ []) × ((view putter.taker).taken ≡ []) }
        requires task { IfSome task (TaskStands K.took K.faults K.finished putter.lines.value begun.value) }
        ensures stands { WriterStands K.took K.faults K.finished result }
        ensures line { line_of K.took K.faults K.finished result
            ≡ fresh_line (K.took begun.value) (line_of K.took K.faults K.finished result).refused }
        ensures refused { (line_of K.took K.faults K.finished result).refused ≡ true → task ≡ None }
    {
        match task {
            Some(task) => WriterStage::Ready(putter, begun, task),
            None => WriterStage::Refused,
        }
    }

    /// Whether bytes may be put.
    pub(crate) fn is_open(&self) -> bool
        requires { WriterStands K.took K.faults K.finished self.now }
        ensures { result ≡ is_open (line_of K.took K.faults K.finished self.now) }
    {
        match self {
            WriterStage::Working(putter, _, _) => !putter.ended,
            WriterStage::Ready(_, _, _) | WriterStage::Refused | WriterStage::Back(_) => false,
        }
    }

    /// Whether a join needn't wait for more than the end mark.
    pub(crate) fn may_join(&self) -> bool
        requires { WriterStands K.took K.faults K.finished self.now }
        ensures { result ≡ may_join (line_of K.took K.faults K.finished self.now) }
    {
        match self {
            WriterStage::Working(putter, _, _) => putter.ended,
            WriterStage::Ready(_, _, _) | WriterStage::Refused | WriterStage::Back(_) => true,
        }
    }

    /// Begins, unless no thread could be started.
    pub(crate) fn begin(&mut self) -> Begun
        requires { WriterStands K.took K.faults K.finished self.old }
        ensures stands { WriterStands K.took K.faults K.finished self.new }
        ensures again { (line_of K.took K.faults K.finished self.old).begun ≡ true
            → (result ≡ begins.Begun) × (line_of K.took K.faults K.finished self.new
            ≡ line_of K.took K.faults K.finished self.old) }
        ensures line { LineBegins (line_of K.took K.faults K.finished self.old) (line_of K.took K.faults K.finished self.new) result }
        ensures untold { (line_of K.took K.faults K.finished self.old).begun ≡ false
            → (line_of K.took K.faults K.finished self.old).marks ≡ 0 }
    {
        match mem::replace(self, WriterStage::Refused) {
            WriterStage::Ready(putter, begun, task) => {
                *self = WriterStage::Working(putter, begun, task);
                Begun::Begun
            }
            WriterStage::Refused => Begun::Failed,
            WriterStage::Working(putter, begun, task) => {
                *self = WriterStage::Working(putter, begun, task);
                Begun::Begun
            }
            WriterStage::Back(back) => {
                *self = WriterStage::Back(back);
                Begun::Begun
            }
        }
    }

    /// Puts a chunk of the front of the bytes, and waits for nobody.
    pub(crate) fn put<R: Wait>(&mut self, rt: &R, bytes: &[u8]) -> Took
        requires stands { WriterStands K.took K.faults K.finished self.old }
        requires open { is_open (line_of K.took K.faults K.finished self.old) ≡ true }
        requires some { 0 < length bytes.now }
        ensures stands { WriterStands K.took K.faults K.finished self.new }
        ensures writes { WritesChunk (line_of K.took K.faults K.finished self.old) (line_of K.took K.faults K.finished self.new)
            bytes.now result }
    {
        let WriterStage::Working(putter, _, _) = self else {
            unreachable!()
        };
        putter.put(rt, bytes)
    }

    /// Puts all bytes, and waits for room, or a front of them before the sink failed. The second is whether it
    /// did.
    pub(crate) fn put_all<R: Wait>(&mut self, rt: &R, bytes: &[u8]) -> (usize, bool)
        requires stands { WriterStands K.took K.faults K.finished self.old }
        requires open { is_open (line_of K.took K.faults K.finished self.old) ≡ true }
        ensures stands { WriterStands K.took K.faults K.finished self.new }
        ensures bound { result.0 ≤ length bytes.now }
        ensures all { result.1 ≡ false → result.0 ≡ length bytes.now }
        ensures open { is_open (line_of K.took K.faults K.finished self.new) ≡ true }
        ensures put { AddsChunks (line_of K.took K.faults K.finished self.old).sent
            (line_of K.took K.faults K.finished self.new).sent (take result.0 bytes.now) }
        ensures kept { line_of K.took K.faults K.finished self.new
            ≡ record (line_of K.took K.faults K.finished self.old) {
              sent =
                  (line_of K.took K.faults K.finished self.new).sent;
              marks =
                  (line_of K.took K.faults K.finished self.old).marks + (if result.1 then 1 else 0);
            } }
    {
        let WriterStage::Working(putter, _, _) = self else {
            unreachable!()
        };
        putter.put_all(rt, bytes)
    }

    /// Puts the end mark, and waits for room.
    pub(crate) fn end<R: Wait>(&mut self, rt: &R)
        requires stands { WriterStands K.took K.faults K.finished self.old }
        requires open { is_open (line_of K.took K.faults K.finished self.old) ≡ true }
        ensures stands { WriterStands K.took K.faults K.finished self.new }
        ensures line { line_of K.took K.faults K.finished self.new
            ≡ record (line_of K.took K.faults K.finished self.old) {
              sent =
                  (line_of K.took K.faults K.finished self.old).sent ++ ring_items.End
                  (told (bytes_of (line_of K.took K.faults K.finished self.old).sent)) ∷ [];
            } }
    {
        let WriterStage::Working(putter, _, _) = self else {
            unreachable!()
        };
        putter.end(rt);
    }

    /// Whether a `put` has something to say.
    pub(crate) fn is_ready(&mut self) -> bool
        requires stands { WriterStands K.took K.faults K.finished self.old }
        ensures stands { WriterStands K.took K.faults K.finished self.new }
        ensures kept { line_of K.took K.faults K.finished self.new ≡ line_of K.took K.faults K.finished self.old }
    {
        match self {
            WriterStage::Working(putter, _, _) => putter.is_ready(),
            WriterStage::Ready(_, _, _) | WriterStage::Refused | WriterStage::Back(_) => true,
        }
    }

    /// Waits for the thread, if it was started.
    pub(crate) fn join<R: Threads + Wait>(self, rt: &R) -> WriterStage<K>
        requires stands { WriterStands K.took K.faults K.finished self }
        requires may { may_join (line_of K.took K.faults K.finished self) ≡ true }
        ensures stands { WriterStands K.took K.faults K.finished result }
        ensures kept { line_of K.took K.faults K.finished result
            ≡ record (line_of K.took K.faults K.finished self) {
              behind =
                  (line_of K.took K.faults K.finished result).behind;
            } }
        ensures joined { (line_of K.took K.faults K.finished self).begun ≡ true
            → IsSome (line_of K.took K.faults K.finished result).behind }
        ensures behind { IfSome (line_of K.took K.faults K.finished result).behind (IsBehind (line_of K.took K.faults K.finished result)) }
    {
        match self {
            WriterStage::Working(putter, begun, task) => {
                let done = task.join(rt).take_result(rt);
                WriterStage::Back(hand_back(putter, begun, done))
            }
            WriterStage::Ready(putter, begun, task) => WriterStage::Ready(putter, begun, task),
            WriterStage::Refused => WriterStage::Refused,
            WriterStage::Back(back) => WriterStage::Back(back),
        }
    }
}

/// Starts the thread, which waits for the first item. Where it can't be started, what it was to work with is
/// dropped.
pub(crate) fn start_thread<K, P, W, R>(
    spawner: &mut P,
    work: WriterWork<K, W, R>,
) -> Option<Task<ThreadEnding<WriterDone<K>>, WriterPromise<K>>>
where
    K: Sink + Send + Drop + 'static,
    P: Spawner,
    W: Wake + Send + Drop + 'static,
    R: Wait + Copy + Send + 'static,
    requires { IsToBegin K.took K.faults work }
    ensures grows { P.faults spawner.old ≤ P.faults spawner.new }
    ensures started { IfSome result (TaskStands K.took K.faults K.finished work.lines.value work.outlet.sink) }
    ensures refused { result ≡ None → Rose (P.faults spawner.old) (P.faults spawner.new) }
{
    let promise = WriterPromise {
        lines: Snapshot::of(&*work.lines),
        begun: Snapshot::of(&work.outlet.sink),
    };
    let run = move || -> ThreadEnding<WriterDone<K>>
        requires { IsToBegin K.took K.faults work }
        ensures { OnDone (ThreadEnded K.took K.faults K.finished work.lines.value work.outlet.sink) result }
    { work.run() };
    match spawner.start(promise, run) {
        Ok(task) => Some(task),
        Err(_) => None,
    }
}

/// Puts the sides of each queue into one hand. The thread took all that was put.
fn hand_back<K: Sink + Drop>(
    putter: Putter,
    begun: Snapshot<K>,
    done: WriterDone<K>,
) -> WriterBack<K>
    requires putting { IsPutting putter }
    requires over { putter.ended ≡ true }
    requires done { ThreadEnded K.took K.faults K.finished putter.lines.value begun.value done }
    ensures back { IsBack K.took K.faults K.finished result }
    ensures begun { result.begun ≡ begun }
    ensures sent { (view result.items).sent ≡ (view putter.sender).sent }
    ensures marks { (view result.marks).taken ≡ (view putter.taker).taken }
{
    let Putter {
        lines,
        sender,
        taker,
        ready: _,
        count: _,
        ended: _,
    } = putter;
    let WriterDone {
        taker: thread_taker,
        sender: thread_sender,
        outlet,
    } = done;
    let items = settle(&lines.items, sender, thread_taker);
    let marks = settle(&lines.back, thread_sender, taker);
    WriterBack {
        items,
        marks,
        begun,
        outlet,
    }
}
