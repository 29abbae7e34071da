// The rest of a chunk that a reader's port gave a part of.
ghost use Rattle.std.specs.Prelude.{◌≡◌, ◌<◌, ◌↔◌, [], length, min, take, drop, IsTrue};

use port_trait::copy_front;
use ring_queue::{Chunk, Pages, Spent};
use std::marker::Model;
use std::mem;
use std::sync::Wait;

/// A chunk, where the bytes of it begin that are still to be given, and the pages of those before it.
#[derive(Drop)]
pub(crate) struct HeldChunk {
    chunk: Option<Chunk>,
    from: usize,
    spent: Spent,
}

impl Model for HeldChunk {
    ghost use Rattle.std.specs.Prelude.{List, ℕ};
    ghost use Rattle.ring_queue.specs.{rest_of, Within};

    ghost Value = { List ℕ };

    ghost view = { λ held. rest_of held.chunk held.from };

    ghost invariant = { λ held. Within held.chunk held.from };
}

impl HeldChunk {
    /// Nothing.
    pub(crate) fn new(spent: Spent) -> HeldChunk
        ensures { result ≡ [] }
    {
        HeldChunk {
            chunk: None,
            from: 0,
            spent,
        }
    }

    pub(crate) fn is_empty(&self) -> bool
        ensures { IsTrue result ↔ (self.now ≡ []) }
    {
        let Some(chunk) = &self.chunk else {
            return true;
        };
        let (_, rest) = chunk.as_slice().split_at(self.from);
        rest.is_empty()
    }

    /// Holds this chunk, and hands back the page of the one before.
    pub(crate) fn put<R: Wait>(&mut self, rt: &R, pages: &Pages, chunk: Chunk)
        ensures { self.new ≡ chunk }
    {
        self.from = 0;
        if let Some(before) = mem::replace(&mut self.chunk, Some(chunk)) {
            self.spent.take_back(rt, pages, before);
        }
    }

    /// Gives as many bytes as fit.
    pub(crate) fn give(&mut self, into: &mut [u8]) -> usize
        ensures count { result ≡ min (length self.old) (length into.old) }
        ensures given { take result into.new ≡ take result self.old }
        ensures rest { self.new ≡ drop result self.old }
    {
        let Some(chunk) = &self.chunk else {
            return 0;
        };
        let (_, rest) = chunk.as_slice().split_at(self.from);
        let count = copy_front(rest, into);
        self.from += count;
        count
    }
}
