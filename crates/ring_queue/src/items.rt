// What the item queue of a ring carries.
ghost use Rattle.std.specs.Prelude.{◌≡◌, ◌<◌, ◌≤◌, length, IfOk};
ghost use Rattle.ring_queue.specs.Items.{Follows};

use crate::roles::Item;
use std::alloc::{AllocError, Global};
use std::marker::Model;

/// The most bytes of one chunk.
pub const CHUNK: usize = 512;

/// The most bytes of a chunk that takes no page.
pub const FEW: usize = 22;

/// A block of memory with room for the bytes of one chunk.
#[derive(Drop)]
pub struct ChunkPage {
    bytes: Vec<u8>,
}

impl Model for ChunkPage {
    ghost use Rattle.std.specs.Prelude.{List, ℕ, ◌≤◌, vec_capacity};

    ghost Value = { List ℕ };

    ghost view = { λ page. page.bytes.items };

    ghost invariant = { λ page. 512 ≤ vec_capacity page.bytes };
}

impl ChunkPage {
    pub fn new(alloc: Global) -> Result<ChunkPage, AllocError> {
        Ok(ChunkPage {
            bytes: Vec::with_capacity(alloc, CHUNK)?,
        })
    }

    /// Holds a copy of these bytes, and no others.
    fn fill(&mut self, bytes: &[u8])
        requires { length bytes.now ≤ 512 }
        ensures { self.new ≡ bytes.now }
    {
        self.bytes.clear();
        let Ok(()) = self.bytes.extend_from_slice(bytes) else {
            unreachable!()
        };
    }

    fn as_slice(&self) -> &[u8]
        ensures { result.now ≡ self.now }
    {
        self.bytes.as_slice()
    }
}

/// Up to 22 bytes.
#[derive(Drop)]
struct Few {
    bytes: [u8; 22],
    len: u8,
}

impl Model for Few {
    ghost use Rattle.std.specs.Prelude.{List, ℕ, ◌≤◌, take};

    ghost Value = { List ℕ };

    ghost view = { λ few. take few.len few.bytes };

    ghost invariant = { λ few. few.len ≤ 22 };
}

impl Few {
    /// A copy of these bytes.
    fn of(bytes: &[u8]) -> Few
        requires { length bytes.now ≤ 22 }
        ensures { result ≡ bytes.now }
    {
        let len = bytes.len();
        let mut held = [0u8; 22];
        held[..len].copy_from_slice(bytes);
        Few {
            bytes: held,
            len: len as u8,
        }
    }

    fn as_slice(&self) -> &[u8]
        ensures { result.now ≡ self.now }
    {
        &self.bytes[..self.len as usize]
    }
}

/// Where the bytes of a chunk lie.
#[derive(Drop)]
enum Store {
    Here(Few),
    There(ChunkPage),
}

/// 1 to 512 bytes. A few lie in the chunk itself, more of them in a page.
#[derive(Drop)]
pub struct Chunk {
    store: Store,
}

impl Model for Chunk {
    ghost use Rattle.std.specs.Prelude.{List, ℕ, ◌≤◌, length};

    ghost Value = { List ℕ };

    ghost use Rattle.ring_queue.specs.Stores.{stored};

    ghost view = { λ chunk. stored chunk.store };

    ghost invariant = { λ chunk. (1 ≤ length (stored chunk.store)) × (length (stored chunk.store) ≤ 512) };
}

impl Chunk {
    /// A copy of a few bytes.
    pub fn few(bytes: &[u8]) -> Chunk
        requires some { 0 < length bytes.now }
        requires few { length bytes.now ≤ 22 }
        ensures { result ≡ bytes.now }
    {
        Chunk {
            store: Store::Here(Few::of(bytes)),
        }
    }

    /// A copy of the bytes, in this page.
    pub fn in_page(page: ChunkPage, bytes: &[u8]) -> Chunk
        requires some { 0 < length bytes.now }
        requires fits { length bytes.now ≤ 512 }
        ensures { result ≡ bytes.now }
    {
        let mut page = page;
        page.fill(bytes);
        Chunk {
            store: Store::There(page),
        }
    }

    /// The bytes.
    pub fn as_slice(&self) -> &[u8]
        ensures bytes { result.now ≡ self.now }
        ensures bounds { (1 ≤ length self.now) × (length self.now ≤ 512) }
    {
        match &self.store {
            Store::Here(few) => few.as_slice(),
            Store::There(page) => page.as_slice(),
        }
    }

    /// Its page, where it has one.
    pub fn into_page(self) -> Option<ChunkPage> {
        match self.store {
            Store::Here(_) => None,
            Store::There(page) => Some(page),
        }
    }
}

/// A chunk, or a mark with the number of bytes that were sent before it, at most `u64::MAX`. The mark tells
/// that the stream ended, or that it failed.
#[derive(Drop)]
pub enum RingItem {
    Chunk(Chunk),
    End(u64),
    Fault(u64),
}

impl Item for RingItem {
    ghost follows = { Follows };
}
