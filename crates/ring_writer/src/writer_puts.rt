// The port's side of a writer: it puts chunks and the end mark, and takes the marks of the sink's faults.
ghost use Rattle.std.specs.Prelude.{◌≡◌, ◌≢◌, ◌<◌, ◌≤◌, ◌+◌, ◌++◌, ◌∷◌, [], true, false, length, take, MatchOption, if◌then◌else◌};
ghost use Rattle.crossbeam_queue.specs.Passes.{view};
ghost use Rattle.port_trait.specs.declared.answers.Took.TheVariants as writes;
ghost use Rattle.ring_queue.specs.declared.items.RingItem.TheVariants as ring_items;
ghost use Rattle.ring_queue.specs.{bytes_of, told, AddsChunks};
ghost use Rattle.ring_writer.specs.WriterPuts.{IsPutting, CanPut, KeepsPutting, PutsChunk, FullWhereNoRoom, WasFull, marks_after};

use port_trait::Took;
use ring_queue::{
    Lines, OrderedPass, Ready, RingItem, SendingSide, SinkFault, is_empty, is_full, put, send,
    take as take_mark,
};
use std::alloc::Global;
use std::sync::{Arc, Wait};

/// The sides of the two queues that the port has, its pages, how many bytes it put, and whether it put the end mark.
#[derive(Drop)]
pub(crate) struct Putter {
    pub(crate) lines: Arc<Lines<SinkFault>, Global>,
    pub(crate) sender: OrderedPass<RingItem>,
    pub(crate) taker: OrderedPass<SinkFault>,
    pub(crate) ready: Ready,
    pub(crate) count: u64,
    pub(crate) ended: bool,
}

impl Putter {
    /// Nothing was put yet.
    pub(crate) fn new(lines: Arc<Lines<SinkFault>, Global>, side: SendingSide<SinkFault>) -> Putter
        ensures { result ≡ record { lines = lines; sender = side.items; taker = side.back; ready = side.ready; count = 0; ended = false } }
    {
        Putter {
            lines,
            sender: side.items,
            taker: side.back,
            ready: side.ready,
            count: 0,
            ended: false,
        }
    }

    /// Puts a chunk of the front of the bytes. It fails where the sink did, and waits for nobody.
    pub(crate) fn put<R: Wait>(&mut self, rt: &R, bytes: &[u8]) -> Took
        requires can { CanPut self.old }
        requires some { 0 < length bytes.now }
        ensures kept { KeepsPutting self.old self.new }
        ensures put { PutsChunk (view self.old.sender).sent (view self.new.sender).sent bytes.now result }
        ensures marks { length (view self.new.taker).taken ≡ marks_after (length (view self.old.taker).taken) result }
        ensures full { FullWhereNoRoom (view self.old.sender).sent result }
    {
        if let Some(_) = take_mark(rt, &self.lines.back, &mut self.taker) {
            return Took::Failed;
        }
        if let Some(count) = self.put_chunk(rt, bytes) {
            return Took::Took(count);
        }
        // Room that the thread made before it was set isn't told, so this looks again.
        self.lines.waits.set();
        match self.put_chunk(rt, bytes) {
            Some(count) => Took::Took(count),
            None => Took::NotYet,
        }
    }

    /// Puts a chunk of the front of the bytes, and answers how many. None where the queue was full at a moment of
    /// this call.
    fn put_chunk<R: Wait>(&mut self, rt: &R, bytes: &[u8]) -> Option<usize>
        requires can { CanPut self.old }
        requires some { 0 < length bytes.now }
        ensures kept { KeepsPutting self.old self.new }
        ensures taker { self.new.taker ≡ self.old.taker }
        ensures put { MatchOption result
            (((view self.new.sender).sent ≡ (view self.old.sender).sent) × WasFull (view self.old.sender).sent)
            (λ n. PutsChunk (view self.old.sender).sent (view self.new.sender).sent bytes.now (writes.Took n)) }
    {
        let chunk = self.ready.chunk_of(rt, &self.lines.pages, bytes);
        let count = chunk.as_slice().len();
        match put(
            rt,
            &self.lines.items,
            &mut self.sender,
            RingItem::Chunk(chunk),
        ) {
            Ok(()) => {
                self.count = self.count.saturating_add(count as u64);
                self.lines.thread.ring();
                Some(count)
            }
            Err(item) => {
                self.ready.take_back(item);
                None
            }
        }
    }

    /// Puts a chunk of the front of the bytes, and waits for room.
    fn put_waiting<R: Wait>(&mut self, rt: &R, bytes: &[u8]) -> Took
        requires can { CanPut self.old }
        requires some { 0 < length bytes.now }
        ensures kept { KeepsPutting self.old self.new }
        ensures put { PutsChunk (view self.old.sender).sent (view self.new.sender).sent bytes.now result }
        ensures marks { length (view self.new.taker).taken ≡ marks_after (length (view self.old.taker).taken) result }
        ensures waits { result ≢ writes.NotYet }
    {
        match self.put(rt, bytes) {
            Took::Took(count) => return Took::Took(count),
            Took::Failed => return Took::Failed,
            Took::NotYet => {}
        }
        for _ in rt.forever() {
            let seen = self.lines.port.watch();
            match self.put(rt, bytes) {
                Took::Took(count) => {
                    self.lines.port.leave();
                    return Took::Took(count);
                }
                Took::Failed => {
                    self.lines.port.leave();
                    return Took::Failed;
                }
                Took::NotYet => {}
            }
            self.lines.port.sleep(rt, seen);
        }
        unreachable!()
    }

    /// Puts all bytes, and waits for room, or as many as it could before the sink failed. The second is whether
    /// it did.
    pub(crate) fn put_all<R: Wait>(&mut self, rt: &R, bytes: &[u8]) -> (usize, bool)
        requires { CanPut self.old }
        ensures kept { KeepsPutting self.old self.new }
        ensures bound { result.0 ≤ length bytes.now }
        ensures all { result.1 ≡ false → result.0 ≡ length bytes.now }
        ensures put { AddsChunks (view self.old.sender).sent (view self.new.sender).sent (take result.0 bytes.now) }
        ensures marks { length (view self.new.taker).taken ≡ length (view self.old.taker).taken + (if result.1 then 1 else 0) }
    {
        let mut count = 0;
        while count < bytes.len() {
            let (_, rest) = bytes.split_at(count);
            match self.put_waiting(rt, rest) {
                Took::Took(more) => count += more,
                Took::NotYet => unreachable!(),
                Took::Failed => return (count, true),
            }
        }
        (count, false)
    }

    /// Puts the end mark, and waits for room.
    pub(crate) fn end<R: Wait>(&mut self, rt: &R)
        requires { CanPut self.old }
        ensures putting { IsPutting self.new }
        ensures kept { (self.new.lines ≡ self.old.lines) × (self.new.taker ≡ self.old.taker) }
        ensures ended { self.new.ended ≡ true }
        ensures sent { (view self.new.sender).sent
            ≡ (view self.old.sender).sent ++ ring_items.End (told (bytes_of (view self.old.sender).sent)) ∷ [] }
    {
        let mark = RingItem::End(self.count);
        send(
            rt,
            &self.lines.items,
            &self.lines.port,
            &mut self.sender,
            mark,
        );
        self.ended = true;
        self.lines.thread.ring();
    }

    /// Whether a `put` has something to say. Before it says no, it lets the thread know that the loop may sleep, and looks
    /// once more: what the thread was told before may have been used up by a wake for room that was taken long ago.
    pub(crate) fn is_ready(&mut self) -> bool
        requires { IsPutting self.old }
        ensures kept { KeepsPutting self.old self.new }
        ensures views { (view self.new.sender ≡ view self.old.sender) × (view self.new.taker ≡ view self.old.taker) }
    {
        if self.looks_ready() {
            return true;
        }
        self.lines.waits.set();
        self.looks_ready()
    }

    fn looks_ready(&mut self) -> bool
        requires { IsPutting self.old }
        ensures kept { KeepsPutting self.old self.new }
        ensures views { (view self.new.sender ≡ view self.old.sender) × (view self.new.taker ≡ view self.old.taker) }
    {
        let full = is_full(&self.lines.items, &mut self.sender);
        let sound = is_empty(&self.lines.back, &mut self.taker);
        !full || !sound
    }
}
