// The thread of a reader: it reads its source and sends what came.
ghost use Rattle.std.specs.Prelude.{◌≡◌, ◌<◌, ◌≤◌, ◌+◌, ◌-◌, ◌^◌, ◌++◌, ◌∷◌, [], true, false, min, take, vec_len, IfSome};
ghost use Rattle.crossbeam_queue.specs.Passes.{view, IsPassOf, IsSamePass};
ghost use Rattle.ring_queue.specs.{view_of, Follows, AddsChunks, OnDone};
ghost use Rattle.ring_reader.specs.declared.reader_thread.ThreadTurn.TheVariants as turns;
ghost use Rattle.ring_reader.specs.Feeding.{Works, EndsMarked, SendsLost, SendsChunks, SendsMark, OnTurned, ahead_after};
ghost use Rattle.ring_reader.specs.Starting.{FedBy};

use crate::gate::Gate;
use port_trait::{Source, SourceGot, Wake};
use relay_model::NoMemory;
use ring_queue::{
    Lines, OrderedPass, Ready, RingItem, SendingSide, ThreadEnding, Word, receive, send_to_port,
};
use std::alloc::Global;
use std::snapshot::Snapshot;
use std::sync::{Arc, Wait};
use std::thread::Promise;

/// What the source reads into.
#[derive(Drop)]
pub(crate) struct Block {
    pub(crate) bytes: Vec<u8>,
    ghost some: { 0 < vec_len bytes },
}

impl Block {
    /// Room for a batch of chunks.
    pub(crate) fn new(alloc: Global) -> Result<Block, NoMemory> {
        Ok(Block {
            bytes: vec![in alloc; 0u8; 32_768]?,
        })
    }

    /// The first so many bytes.
    fn front(&self, count: usize) -> &[u8]
        requires { count ≤ vec_len self.now.bytes }
        ensures { result.now ≡ take count self.now.bytes.items }
    {
        &self.bytes.as_slice()[..count]
    }
}

/// What a reader's thread works with.
#[derive(Drop)]
pub(crate) struct Feeder<S, W, R> {
    pub(crate) rt: R,
    pub(crate) lines: Arc<Lines<Word>, Global>,
    pub(crate) source: Gate<S>,
    pub(crate) wake: W,
    pub(crate) items: OrderedPass<RingItem>,
    pub(crate) words: OrderedPass<Word>,
    pub(crate) block: Block,
    pub(crate) ready: Ready,
    pub(crate) count: u64,
}

/// What a reader's thread hands back.
#[derive(Drop)]
pub(crate) struct Fed<S> {
    pub(crate) source: S,
    pub(crate) items: OrderedPass<RingItem>,
    pub(crate) words: OrderedPass<Word>,
}

/// What a turn of a reader's thread came to: bytes were sent, or a mark was, or the port is gone.
#[derive(Clone, Copy)]
pub(crate) enum ThreadTurn {
    Sent,
    Marked,
    Gone,
}

/// Sends the item, and wakes the loop where it waits for one. False where the port is gone.
fn send_item<W: Wake, R: Wait>(
    rt: &R,
    lines: &Lines<Word>,
    wake: &W,
    pass: &mut OrderedPass<RingItem>,
    item: RingItem,
) -> bool
    requires queue { IsPassOf lines.now.items pass.old }
    requires sends { (view pass.old).sends ≡ true }
    requires follows { Follows (view pass.old).sent item }
    ensures queue { IsSamePass pass.old pass.new }
    ensures sent { result ≡ true
        → view pass.new ≡ view_of (view pass.old).sends (view pass.old).takes ((view pass.old).sent ++ item ∷
        []) (view pass.old).taken }
{
    if !send_to_port(rt, &lines.items, &lines.thread, &lines.state, pass, item) {
        return false;
    }
    if lines.waits.fetch() {
        wake.wake();
    }
    true
}

/// Sends the bytes in chunks. False where the port is gone.
fn send_chunks<W: Wake, R: Wait>(
    rt: &R,
    lines: &Lines<Word>,
    wake: &W,
    pass: &mut OrderedPass<RingItem>,
    ready: &mut Ready,
    bytes: &[u8],
) -> bool
    requires queue { IsPassOf lines.now.items pass.old }
    requires sends { (view pass.old).sends ≡ true }
    ensures queue { result ≡ true → IsSamePass pass.old pass.new }
    ensures view { result ≡ true
        → view pass.new ≡ view_of (view pass.old).sends (view pass.old).takes (view pass.new).sent (view
        pass.old).taken }
    ensures sent { result ≡ true → AddsChunks (view pass.old).sent (view pass.new).sent bytes.now }
{
    let mut at = 0;
    while at < bytes.len() {
        let (_, rest) = bytes.split_at(at);
        let chunk = ready.chunk_of(rt, &lines.pages, rest);
        let count = chunk.as_slice().len();
        if !send_item(rt, lines, wake, pass, RingItem::Chunk(chunk)) {
            return false;
        }
        at += count;
    }
    true
}

impl<S, W, R> Feeder<S, W, R>
where
    S: Source + Drop,
    W: Wake + Drop,
    R: Wait + Copy,
{
    /// Nothing was sent yet.
    pub(crate) fn new(
        rt: R,
        lines: Arc<Lines<Word>, Global>,
        source: S,
        wake: W,
        block: Block,
        side: SendingSide<Word>,
    ) -> Feeder<S, W, R>
        ensures { result
            ≡ record {
              rt = rt;
              lines = lines;
              source = record { source = source; begun = false };
              wake = wake;
              items = side.items;
              words = side.back;
              block = block;
              ready = side.ready;
              count = 0;
            } }
    {
        Feeder {
            rt,
            lines,
            source: Gate::new(source),
            wake,
            items: side.items,
            words: side.back,
            block,
            ready: side.ready,
            count: 0,
        }
    }

    /// Reads once, and sends what came. `start` is the source as it was when the thread began.
    fn turn(&mut self, start: &Snapshot<S>) -> ThreadTurn
        requires queues { IsPassOf self.old.lines.value.items self.old.items × IsPassOf self.old.lines.value.back self.old.words }
        requires works { Works (S.left start.now.value) (S.left self.old.source.source) (S.faults start.now.value)
            (S.faults self.old.source.source) (S.ends start.now.value) (S.ends self.old.source.source) self.old.count 0
            (view self.old.items) (view self.old.words) }
        requires begun { self.old.source.begun ≡ true }
        ensures begun { self.new.source.begun ≡ true }
        ensures kept { (self.new.lines.value ≡ self.old.lines.value) × (self.new.words ≡ self.old.words) }
        ensures queue { OnTurned result (λ _. IsSamePass self.old.items self.new.items) }
        ensures works { OnTurned result
            (λ ahead. Works (S.left start.now.value) (S.left self.new.source.source) (S.faults start.now.value)
            (S.faults self.new.source.source) (S.ends start.now.value) (S.ends self.new.source.source) self.new.count ahead
            (view self.new.items) (view self.new.words)) }
        ensures lost { OnTurned result
            (λ _. SendsLost (S.rest self.old.source.source) (S.rest self.new.source.source) (view self.old.items).sent
            (view self.new.items).sent) }
        ensures marked { result ≡ turns.Marked → EndsMarked (S.left self.new.source.source) (view self.new.items).sent }
    {
        if self.lines.state.is_gone() {
            return ThreadTurn::Gone;
        }
        match self.source.read(self.block.bytes.as_mut_slice()) {
            SourceGot::Bytes(count) => self.send_front(count),
            SourceGot::End => self.send_mark(RingItem::End(self.count)),
            SourceGot::Failed => self.send_mark(RingItem::Fault(self.count)),
        }
    }

    /// Sends the first `count` bytes of the block in chunks.
    fn send_front(&mut self, count: usize) -> ThreadTurn
        requires within { count ≤ vec_len self.old.block.bytes }
        requires queue { IsPassOf self.old.lines.value.items self.old.items }
        requires sends { (view self.old.items).sends ≡ true }
        ensures kept { self.new ≡ record self.old { items = self.new.items; ready = self.new.ready; count = self.new.count } }
        ensures counted { self.new.count ≡ min (self.old.count + count) (2 ^ 64 - 1) }
        ensures queue { OnTurned result (λ _. IsSamePass self.old.items self.new.items) }
        ensures sent { OnTurned result (SendsChunks (view self.old.items) (view self.new.items) (take count self.old.block.bytes.items)) }
    {
        self.count = self.count.saturating_add(count as u64);
        if send_chunks(
            &self.rt,
            &self.lines,
            &self.wake,
            &mut self.items,
            &mut self.ready,
            self.block.front(count),
        ) {
            return ThreadTurn::Sent;
        }
        ThreadTurn::Gone
    }

    /// Sends the mark.
    fn send_mark(&mut self, mark: RingItem) -> ThreadTurn
        requires queue { IsPassOf self.old.lines.value.items self.old.items }
        requires sends { (view self.old.items).sends ≡ true }
        requires follows { Follows (view self.old.items).sent mark }
        ensures kept { self.new ≡ record self.old { items = self.new.items } }
        ensures queue { IsSamePass self.old.items self.new.items }
        ensures sent { OnTurned result (SendsMark (view self.old.items) (view self.new.items) mark) }
    {
        if send_item(&self.rt, &self.lines, &self.wake, &mut self.items, mark) {
            return ThreadTurn::Marked;
        }
        ThreadTurn::Gone
    }

    /// Waits for the word that a mark asks for. None where the port is gone.
    fn hear(&mut self, start: &Snapshot<S>) -> Option<Word>
        requires queues { IsPassOf self.old.lines.value.items self.old.items × IsPassOf self.old.lines.value.back self.old.words }
        requires works { Works (S.left start.now.value) (S.left self.old.source.source) (S.faults start.now.value)
            (S.faults self.old.source.source) (S.ends start.now.value) (S.ends self.old.source.source) self.old.count 1
            (view self.old.items) (view self.old.words) }
        ensures kept { (self.new.lines.value ≡ self.old.lines.value) × (self.new.source ≡ self.old.source)
            × (self.new.items ≡ self.old.items) }
        ensures queue { IsSamePass self.old.words self.new.words }
        ensures works { IfSome result
            (λ word. Works (S.left start.now.value) (S.left self.new.source.source) (S.faults start.now.value)
            (S.faults self.new.source.source) (S.ends start.now.value) (S.ends self.new.source.source) self.new.count
            (ahead_after word) (view self.new.items) (view self.new.words)) }
    {
        receive(
            &self.rt,
            &self.lines.back,
            &self.lines.thread,
            &self.lines.state,
            &mut self.words,
        )
    }

    /// Waits until the port begins, and feeds it.
    pub(crate) fn run(self) -> ThreadEnding<Fed<S>>
        requires queues { IsPassOf self.lines.value.items self.items × IsPassOf self.lines.value.back self.words }
        requires works { Works (S.left self.source.source) (S.left self.source.source) (S.faults self.source.source) (S.faults self.source.source)
            (S.ends self.source.source) (S.ends self.source.source) self.count 0 (view self.items) (view self.words) }
        ensures { OnDone (FedBy S.left S.faults S.ends self.lines.value self.source.source) result }
    {
        let mut feeder = self;
        if !feeder.wait() {
            return ThreadEnding::GaveUp;
        }
        feeder.feed()
    }

    /// Waits until the port begins. False where it is gone.
    fn wait(&mut self) -> bool
        ensures { self.new ≡ record self.old { source = record self.old.source { begun = result } } }
    {
        let rt = self.rt;
        self.source.wait(&rt, &self.lines)
    }

    /// Reads to the next mark and beyond, as often as the port asks, until it says stop or is gone.
    fn feed(self) -> ThreadEnding<Fed<S>>
        requires queues { IsPassOf self.lines.value.items self.items × IsPassOf self.lines.value.back self.words }
        requires works { Works (S.left self.source.source) (S.left self.source.source) (S.faults self.source.source) (S.faults self.source.source)
            (S.ends self.source.source) (S.ends self.source.source) self.count 0 (view self.items) (view self.words) }
        requires begun { self.source.begun ≡ true }
        ensures { OnDone (FedBy S.left S.faults S.ends self.lines.value self.source.source) result }
    {
        let start = self.source.snapshot();
        let mut feeder = self;
        let rt = feeder.rt;
        for _ in rt.forever() {
            match feeder.turn(&start) {
                ThreadTurn::Sent => continue,
                ThreadTurn::Gone => return ThreadEnding::GaveUp,
                ThreadTurn::Marked => match feeder.hear(&start) {
                    Some(Word::Ask) => continue,
                    Some(Word::Stop) => return ThreadEnding::Done(feeder.end()),
                    None => return ThreadEnding::GaveUp,
                },
            }
        }
        unreachable!()
    }

    fn end(self) -> Fed<S>
        requires { self.source.begun ≡ true }
        ensures { (result.source ≡ self.source.source) × (result.items ≡ self.items) × (result.words ≡ self.words) }
    {
        let Feeder {
            source,
            items,
            words,
            ..
        } = self;
        Fed {
            source: source.into_source(),
            items,
            words,
        }
    }
}
