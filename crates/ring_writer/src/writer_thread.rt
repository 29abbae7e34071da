// The thread of a writer: it takes what the port put, and gives it to the sink.
ghost use Rattle.std.specs.Prelude.{◌≡◌, ℕ, List, [], true, ◌++◌, ◌∷◌, ◌+◌, ◌≤◌, length, vec_len, vec_capacity, MatchOption};
ghost use Rattle.crossbeam_queue.specs.Passes.{view, IsPassOf, IsSamePass};
ghost use Rattle.ring_queue.specs.{view_of, OnDone, Follows, item_bytes, bytes_of, is_end_mark, last_is};
ghost use Rattle.ring_writer.specs.declared.writer_thread.ThreadProgress.TheVariants as steps;
ghost use Rattle.ring_writer.specs.WriterThread.{IsFinished, CanWork, KeepsTrue, IsToBegin, ThreadEnded};

use crate::writer_outlet::Outlet;
use port_trait::{Sink, Wake};
use ring_queue::{
    CHUNK, Lines, OrderedPass, OrderedQueue, Pages, RingItem, SinkFault, Spent, ThreadEnding, put,
    receive, take,
};
use std::alloc::Global;
use std::hint;
use std::snapshot::Snapshot;
use std::sync::{Arc, Wait};
use std::thread::Promise;

/// The most bytes that are gathered for one write of the sink: 64 chunks.
pub(crate) const GATHERED: usize = 32768;

/// What the thread works with.
#[derive(Drop)]
pub(crate) struct WriterWork<K, W, R> {
    pub(crate) rt: R,
    pub(crate) lines: Arc<Lines<SinkFault>, Global>,
    pub(crate) outlet: Outlet<K>,
    pub(crate) wake: W,
    pub(crate) taker: OrderedPass<RingItem>,
    pub(crate) sender: OrderedPass<SinkFault>,
    pub(crate) spent: Spent,
    pub(crate) buffer: Vec<u8>,
}

/// What the thread gives back after the end mark.
#[derive(Drop)]
pub(crate) struct WriterDone<K> {
    pub(crate) outlet: Outlet<K>,
    pub(crate) taker: OrderedPass<RingItem>,
    pub(crate) sender: OrderedPass<SinkFault>,
}

/// The queues that the thread was started on, and its sink as it stood then.
#[derive(Drop)]
pub(crate) struct WriterPromise<K> {
    pub(crate) lines: Snapshot<Lines<SinkFault>>,
    pub(crate) begun: Snapshot<K>,
}

impl<K: Sink + Drop> Promise<ThreadEnding<WriterDone<K>>> for WriterPromise<K> {
    ghost kept_by = { λ promise ending. OnDone (ThreadEnded K.took K.faults K.finished promise.lines.value promise.begun.value) ending };
}

/// What came of a turn of the thread: it goes on, or the end mark was taken, or the port is gone.
#[derive(Clone, Copy)]
pub(crate) enum ThreadProgress {
    On,
    Ended,
    Gone,
}

impl<K: Sink + Drop, W: Wake + Drop, R: Wait + Copy> WriterWork<K, W, R> {
    /// Works until the end mark was taken, or until the port is gone and nothing of it is left to be taken.
    pub(crate) fn run(mut self) -> ThreadEnding<WriterDone<K>>
        requires { IsToBegin K.took K.faults self }
        ensures { OnDone (ThreadEnded K.took K.faults K.finished self.lines.value self.outlet.sink) result }
    {
        let rt = self.rt;
        for _ in rt.forever() {
            match self.turn() {
                ThreadProgress::On => continue,
                ThreadProgress::Ended => {
                    self.finish();
                    return ThreadEnding::Done(self.into_done());
                }
                ThreadProgress::Gone => return ThreadEnding::GaveUp,
            }
        }
        unreachable!()
    }

    /// Takes what lies ready, and gives it to the sink. Where the sink fails, what lies ready then is dropped.
    fn turn(&mut self) -> ThreadProgress
        requires { CanWork self.old }
        ensures can { CanWork self.new }
        ensures keeps { KeepsTrue K.took K.faults self.old self.new }
        ensures lines { self.new.lines ≡ self.old.lines }
        ensures ended { result ≡ steps.Ended → last_is is_end_mark (view self.new.taker).taken ≡ true }
    {
        let rt = self.rt;
        let gathered = gather(
            &rt,
            &self.lines,
            &mut self.taker,
            &mut self.spent,
            &mut self.buffer,
        );
        self.tell();
        if self.outlet.give(self.buffer.as_slice()) {
            return gathered;
        }
        match gathered {
            ThreadProgress::On => {
                let dropped = drop_ready(&rt, &self.lines, &mut self.taker, &mut self.spent);
                complain(&rt, &self.lines.back, &mut self.sender);
                self.tell();
                dropped
            }
            ThreadProgress::Ended | ThreadProgress::Gone => {
                complain(&rt, &self.lines.back, &mut self.sender);
                self.tell();
                gathered
            }
        }
    }

    /// Nothing comes after the end mark.
    fn finish(&mut self)
        requires { CanWork self.old }
        ensures can { CanWork self.new }
        ensures keeps { KeepsTrue K.took K.faults self.old self.new }
        ensures finished { IsFinished K.finished self.new.outlet }
        ensures kept { (self.new.taker ≡ self.old.taker) × (self.new.lines ≡ self.old.lines) }
    {
        if self.outlet.finish() {
            return;
        }
        let rt = self.rt;
        complain(&rt, &self.lines.back, &mut self.sender);
        self.tell();
    }

    fn into_done(self) -> WriterDone<K>
        ensures { result ≡ record { outlet = self.outlet; taker = self.taker; sender = self.sender } }
    {
        let WriterWork {
            rt: _,
            lines: _,
            outlet,
            wake: _,
            taker,
            sender,
            spent: _,
            buffer: _,
        } = self;
        WriterDone {
            outlet,
            taker,
            sender,
        }
    }

    /// There is something new for the port.
    fn tell(&self) {
        self.lines.port.ring();
        if self.lines.waits.fetch() {
            self.wake.wake();
        }
    }
}

/// Waits for an item, and gathers the bytes of all that lie ready then or come soon, up to 64. The end mark is the last
/// of them. Where the port is gone there may be none.
fn gather<R: Wait>(
    rt: &R,
    lines: &Lines<SinkFault>,
    taker: &mut OrderedPass<RingItem>,
    spent: &mut Spent,
    buffer: &mut Vec<u8>,
) -> ThreadProgress
    requires pass { IsPassOf lines.now.items taker.old }
    requires takes { (view taker.old).takes ≡ true }
    requires room { GATHERED ≤ vec_capacity buffer.old }
    ensures pass { IsPassOf lines.now.items taker.new }
    ensures takes { (view taker.new).takes ≡ true }
    ensures room { GATHERED ≤ vec_capacity buffer.new }
    ensures taken { bytes_of (view taker.new).taken ≡ bytes_of (view taker.old).taken ++ buffer.new.items }
    ensures short { vec_len buffer.new ≤ 32768 }
    ensures ended { result ≡ steps.Ended → last_is is_end_mark (view taker.new).taken ≡ true }
{
    buffer.clear();
    let Some(first) = receive(rt, &lines.items, &lines.thread, &lines.state, taker) else {
        return ThreadProgress::Gone;
    };
    if add(rt, &lines.pages, spent, buffer, first) {
        return ThreadProgress::Ended;
    }
    gather_ready(rt, lines, taker, spent, buffer)
}

/// Gathers the bytes of up to 63 items that lie ready or come soon, after those of one.
fn gather_ready<R: Wait>(
    rt: &R,
    lines: &Lines<SinkFault>,
    taker: &mut OrderedPass<RingItem>,
    spent: &mut Spent,
    buffer: &mut Vec<u8>,
) -> ThreadProgress
    requires pass { IsPassOf lines.now.items taker.old }
    requires takes { (view taker.old).takes ≡ true }
    requires room { GATHERED ≤ vec_capacity buffer.old }
    requires one { vec_len buffer.old ≤ 512 }
    ensures pass { IsPassOf lines.now.items taker.new }
    ensures takes { (view taker.new).takes ≡ true }
    ensures room { GATHERED ≤ vec_capacity buffer.new }
    ensures taken { (before : List ℕ) → bytes_of (view taker.old).taken ≡ before ++ buffer.old.items
        → bytes_of (view taker.new).taken ≡ before ++ buffer.new.items }
    ensures short { vec_len buffer.new ≤ 32768 }
    ensures ended { result ≡ steps.Ended → last_is is_end_mark (view taker.new).taken ≡ true }
{
    for i in 1..64usize {
        let Some(item) = take_soon(rt, &lines.items, taker, buffer.len()) else {
            return ThreadProgress::On;
        };
        if add(rt, &lines.pages, spent, buffer, item) {
            return ThreadProgress::Ended;
        }
    }
    ThreadProgress::On
}

/// Takes an item that lies ready. After whole chunks more is to come, so it waits a short time for that. Then items
/// are taken by many, and the two sides don't hinder each other at each.
fn take_soon<R: Wait>(
    rt: &R,
    items: &OrderedQueue<RingItem>,
    taker: &mut OrderedPass<RingItem>,
    gathered: usize,
) -> Option<RingItem>
    requires pass { IsPassOf items.now taker.old }
    requires takes { (view taker.old).takes ≡ true }
    ensures queue { IsSamePass taker.old taker.new }
    ensures taken { MatchOption result (view taker.new ≡ view taker.old)
        (λ item. (view taker.new
        ≡ view_of (view taker.old).sends (view taker.old).takes (view taker.old).sent ((view taker.old).taken ++ item ∷ []))
        × Follows (view taker.old).taken item) }
{
    if let Some(item) = take(rt, items, taker) {
        return Some(item);
    }
    if gathered % CHUNK != 0 {
        return None;
    }
    pause();
    take(rt, items, taker)
}

/// Waits some microseconds.
fn pause() {
    for _ in 0..400 {
        hint::spin_loop();
    }
}

/// Appends the bytes of the item, and hands back its page. True where it is the end mark.
fn add<R: Wait>(
    rt: &R,
    pages: &Pages,
    spent: &mut Spent,
    buffer: &mut Vec<u8>,
    item: RingItem,
) -> bool
    requires { vec_len buffer.old + 512 ≤ vec_capacity buffer.old }
    ensures bytes { buffer.new.items ≡ buffer.old.items ++ item_bytes item }
    ensures length { vec_len buffer.new ≤ vec_len buffer.old + 512 }
    ensures room { vec_capacity buffer.old ≤ vec_capacity buffer.new }
    ensures ended { result ≡ is_end_mark item }
{
    if let RingItem::Chunk(chunk) = &item {
        let Ok(()) = buffer.extend_from_slice(chunk.as_slice()) else {
            unreachable!()
        };
    }
    spent.take_item(rt, pages, item)
}

/// Drops what the queue holds, up to 64 items, but no end mark.
fn drop_ready<R: Wait>(
    rt: &R,
    lines: &Lines<SinkFault>,
    taker: &mut OrderedPass<RingItem>,
    spent: &mut Spent,
) -> ThreadProgress
    requires pass { IsPassOf lines.now.items taker.old }
    requires takes { (view taker.old).takes ≡ true }
    ensures pass { IsPassOf lines.now.items taker.new }
    ensures takes { (view taker.new).takes ≡ true }
    ensures taken { (more : List ℕ) × (bytes_of (view taker.new).taken ≡ bytes_of (view taker.old).taken ++ more) × (length more ≤ 32768) }
    ensures ended { result ≡ steps.Ended → last_is is_end_mark (view taker.new).taken ≡ true }
{
    for i in 0..64usize {
        let Some(item) = take(rt, &lines.items, taker) else {
            return ThreadProgress::On;
        };
        if spent.take_item(rt, &lines.pages, item) {
            return ThreadProgress::Ended;
        }
    }
    ThreadProgress::On
}

/// Tells the port that the sink failed. Where as many such marks lie untaken as the queue holds, they tell it
/// already.
fn complain<R: Wait>(rt: &R, back: &OrderedQueue<SinkFault>, sender: &mut OrderedPass<SinkFault>)
    requires pass { IsPassOf back.now sender.old }
    requires sends { (view sender.old).sends ≡ true }
    ensures pass { IsPassOf back.now sender.new }
    ensures sends { (view sender.new).sends ≡ true }
    ensures once { length (view sender.new).sent ≤ length (view sender.old).sent + 1 }
{
    let _ = put(rt, back, sender, SinkFault);
}
