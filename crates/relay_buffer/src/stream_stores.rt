// Where a stream's bytes wait. No call after `new` takes memory.
ghost use Rattle.std.specs.Prelude.{◌≡◌, ◌*◌, ◌+◌, ◌≤◌, ◌++◌, [], true, length, take, drop, vec_len, IfOk};
ghost use Rattle.circular_buffer.specs.Buffer.{buffer};

use circular_buffer::HeapCircularBuffer;
use relay_model::NoMemory;
use std::alloc::Global;
use std::mem::swap;

/// A ring, and before it a block that was traded for the one that was read into.
#[derive(Drop)]
pub(crate) struct StreamStore {
    /// As long as the blocks that are read into, once it was traded. Until then its memory is only reserved.
    block: Vec<u8>,
    /// The part of the block that waits, before the ring's bytes.
    from: usize,
    to: usize,
    ring: HeapCircularBuffer<u8>,
    ghost ordered: { from ≤ to },
    ghost within: { to ≤ length block.items },
}

impl StreamStore {
    ghost use Rattle.relay_buffer.specs.StreamStores.{store_bytes, CanTrade};

    /// A block and a ring of two blocks, in which nothing waits.
    pub(crate) fn new(alloc: Global, block: u32) -> Result<StreamStore, NoMemory>
        ensures empty { IfOk result (λ store. store_bytes store ≡ []) }
        ensures capacity { IfOk result (λ store. store.ring.capacity ≡ 2 * block) }
    {
        let len = block as usize;
        Ok(StreamStore {
            block: Vec::with_capacity(alloc, len)?,
            from: 0,
            to: 0,
            ring: HeapCircularBuffer::with_capacity(alloc, 2 * len)?,
        })
    }

    pub(crate) fn len(&self) -> usize
        ensures { result ≡ length (store_bytes self.now) }
    {
        self.to - self.from + self.ring.len()
    }

    /// The first bytes, as many as lie together.
    pub(crate) fn first_piece(&self) -> &[u8]
        ensures front { result.now ≡ take (length result.now) (store_bytes self.now) }
        ensures some { result.now ≡ [] → store_bytes self.now ≡ [] }
    {
        if self.from < self.to {
            return &self.block.as_slice()[self.from..self.to];
        }
        let (front, back) = self.ring.as_slices();
        if front.is_empty() { back } else { front }
    }

    /// Lets the first `count` bytes go: the block's, then the ring's.
    pub(crate) fn drop_first(&mut self, count: usize)
        requires { count ≤ length (store_bytes self.old) }
        ensures bytes { store_bytes self.new ≡ drop count (store_bytes self.old) }
        ensures capacity { self.new.ring.capacity ≡ self.old.ring.capacity }
    {
        let in_block = self.to - self.from;
        if count < in_block {
            self.from += count;
        } else {
            self.from = 0;
            self.to = 0;
            drop_from_ring(&mut self.ring, count - in_block);
        }
    }

    /// Appends these bytes to the ring.
    pub(crate) fn append(&mut self, bytes: &[u8])
        requires { length (store_bytes self.old) + length bytes.now ≤ self.old.ring.capacity }
        ensures bytes { store_bytes self.new ≡ store_bytes self.old ++ bytes.now }
        ensures capacity { self.new.ring.capacity ≡ self.old.ring.capacity }
    {
        let _all = self.ring.fill_from_slice(bytes);
    }

    /// Whether the first `count` bytes of this block may wait where they are. The first trade writes the own block whole,
    /// so a few bytes are copied until then, and a session in which little passes uses little memory.
    pub(crate) fn can_trade(&self, block: &Vec<u8>, count: usize) -> bool
        ensures { result ≡ true → CanTrade self.now block.now.items count }
    {
        let empty = self.from == self.to && self.ring.is_empty();
        let fits = block.len() <= self.block.capacity();
        let worth_it = self.block.len() == block.len() || count >= block.len() / 2;
        empty && fits && worth_it && count > 0
    }

    /// Trades the own block, if none of its bytes wait and it is as long, for this one.
    pub(crate) fn trade_back(&mut self, block: &mut Vec<u8>)
        ensures bytes { store_bytes self.new ≡ store_bytes self.old }
        ensures capacity { self.new.ring.capacity ≡ self.old.ring.capacity }
        ensures block { vec_len block.new ≡ vec_len block.old }
    {
        if self.from == self.to && self.block.len() == block.len() {
            swap(&mut self.block, block);
        }
    }

    /// Trades this block for the own one. Its first `count` bytes wait from then on.
    pub(crate) fn trade(&mut self, block: &mut Vec<u8>, count: usize)
        requires within { count ≤ vec_len block.old }
        requires may { CanTrade self.old block.old.items count }
        ensures bytes { store_bytes self.new ≡ take count block.old.items }
        ensures capacity { self.new.ring.capacity ≡ self.old.ring.capacity }
        ensures block { vec_len block.new ≡ vec_len block.old }
    {
        match self.block.resize(block.len(), 0) {
            Ok(()) => {}
            Err(_no_memory) => unreachable!(),
        }
        swap(&mut self.block, block);
        self.from = 0;
        self.to = count;
    }
}

/// Lets the first `count` bytes go. An emptied ring begins where it did, so whole blocks don't wrap round in it.
fn drop_from_ring(ring: &mut HeapCircularBuffer<u8>, count: usize)
    requires { count ≤ length ring.old.items }
    ensures { ring.new ≡ buffer (drop count ring.old.items) ring.old.capacity }
{
    if count == ring.len() {
        ring.clear();
    } else {
        ring.truncate_front(ring.len() - count);
    }
}

/// A block of this many bytes to read into.
pub fn new_block(alloc: Global, block: u32) -> Result<Vec<u8>, NoMemory>
    ensures { IfOk result (λ bytes. vec_len bytes ≡ block) }
{
    Ok(vec![in alloc; 0; block as usize]?)
}
