// The memory for the bytes of chunks, which goes round between a port and its thread.
ghost use Rattle.std.specs.Prelude.{◌≡◌, ◌<◌, ◌≤◌, ◌++◌, ◌∷◌, [], length, take, nat_le, if◌then◌else◌};
ghost use Rattle.ring_queue.specs.Items.{is_end_mark};

use crate::items::{CHUNK, Chunk, ChunkPage, FEW, RingItem};
use crossbeam_queue::ArrayQueue;
use relay_model::NoMemory;
use std::alloc::Global;
use std::marker::Model;
use std::mem;
use std::sync::Wait;

/// The pages of a bundle.
const BUNDLE: usize = 16;

/// The bundles that are full at first. The queue holds 64 pages at most, those that the sides have in hand are no
/// more than 19, and so there is always a full bundle for the side that fills pages.
const FULL: usize = 6;

/// The bundles that are empty at first.
const EMPTY: usize = 2;

/// The pages that no chunk lies in, but for those in the hands of the sides. They go round by bundles, so that the two
/// sides don't hinder each other at each page.
#[derive(Drop)]
pub struct Pages {
    full: ArrayQueue<Bundle>,
    empty: ArrayQueue<Bundle>,
}

impl Pages {
    pub fn new(alloc: Global) -> Result<Pages, NoMemory> {
        let full = bundles(alloc, FULL, BUNDLE)?;
        let empty = bundles(alloc, EMPTY, 0)?;
        Ok(Pages { full, empty })
    }
}

/// A queue of so many bundles with so many pages each.
fn bundles(alloc: Global, count: usize, pages: usize) -> Result<ArrayQueue<Bundle>, NoMemory> {
    let mut queue = ArrayQueue::new(alloc, FULL + EMPTY + 2)?;
    for _ in 0..count {
        let _ = queue.push_mut(Bundle::new(alloc, pages)?);
    }
    Ok(queue)
}

/// Up to 16 pages, for which the room is taken at the start.
#[derive(Drop)]
struct Bundle {
    pages: Vec<ChunkPage>,
}

impl Model for Bundle {
    ghost use Rattle.std.specs.Prelude.{List, ℕ, ◌≤◌, vec_capacity};

    ghost Value = { List (List ℕ) };

    ghost view = { λ bundle. bundle.pages.items };

    ghost invariant = { λ bundle. 16 ≤ vec_capacity bundle.pages };
}

impl Bundle {
    /// With so many pages.
    fn new(alloc: Global, count: usize) -> Result<Bundle, NoMemory> {
        let mut bundle = Bundle {
            pages: Vec::with_capacity(alloc, BUNDLE)?,
        };
        for _ in 0..count {
            bundle.keep(ChunkPage::new(alloc)?);
        }
        Ok(bundle)
    }

    fn is_full(&self) -> bool
        ensures { result ≡ nat_le 16 (length self.now) }
    {
        self.pages.len() >= BUNDLE
    }

    /// Keeps the page where there is room, which takes no memory.
    fn keep(&mut self, page: ChunkPage)
        ensures { self.new ≡ (if nat_le 16 (length self.old) then self.old else self.old ++ page ∷ []) }
    {
        if self.pages.len() < BUNDLE {
            self.pages.push_reserved(page);
        }
    }

    fn pop(&mut self) -> Option<ChunkPage> {
        self.pages.pop()
    }
}

/// The pages in the hand of the side that fills them.
#[derive(Drop)]
pub struct Ready {
    pages: Bundle,
}

impl Ready {
    pub fn new(alloc: Global) -> Result<Ready, NoMemory> {
        Ok(Ready {
            pages: Bundle::new(alloc, 0)?,
        })
    }

    /// A chunk of the front of the bytes, of as many as fit. Where no page is free it is one of a few bytes, so it
    /// waits for nobody.
    pub fn chunk_of<R: Wait>(&mut self, rt: &R, pages: &Pages, bytes: &[u8]) -> Chunk
        requires { 0 < length bytes.now }
        ensures front { result ≡ take (length result) bytes.now }
        ensures some { 1 ≤ length result }
        ensures bounds { (length result ≤ 512) × (length result ≤ length bytes.now) }
    {
        if bytes.len() > FEW {
            if let Some(page) = self.take(rt, pages) {
                let (front, _) = bytes.split_at(bytes.len().min(CHUNK));
                return Chunk::in_page(page, front);
            }
        }
        let (front, _) = bytes.split_at(bytes.len().min(FEW));
        Chunk::few(front)
    }

    fn take<R: Wait>(&mut self, rt: &R, pages: &Pages) -> Option<ChunkPage> {
        if let Some(page) = self.pages.pop() {
            return Some(page);
        }
        if let Some(full) = pages.full.pop(rt) {
            let empty = mem::replace(&mut self.pages, full);
            let _ = pages.empty.push(rt, empty);
        }
        self.pages.pop()
    }

    /// Takes the page of an item that wasn't sent.
    pub fn take_back(&mut self, item: RingItem) {
        if let RingItem::Chunk(chunk) = item {
            if let Some(page) = chunk.into_page() {
                self.pages.keep(page);
            }
        }
    }
}

/// The pages in the hand of the side that uses them up.
#[derive(Drop)]
pub struct Spent {
    pages: Bundle,
}

impl Spent {
    pub fn new(alloc: Global) -> Result<Spent, NoMemory> {
        Ok(Spent {
            pages: Bundle::new(alloc, 0)?,
        })
    }

    /// Takes the page of a chunk that is used up.
    pub fn take_back<R: Wait>(&mut self, rt: &R, pages: &Pages, chunk: Chunk) {
        if let Some(page) = chunk.into_page() {
            if self.pages.is_full() {
                self.hand_over(rt, pages);
            }
            self.pages.keep(page);
        }
    }

    fn hand_over<R: Wait>(&mut self, rt: &R, pages: &Pages) {
        if let Some(empty) = pages.empty.pop(rt) {
            let full = mem::replace(&mut self.pages, empty);
            let _ = pages.full.push(rt, full);
        }
    }

    /// Takes the page of an item that is used up. True where it is the end mark.
    pub fn take_item<R: Wait>(&mut self, rt: &R, pages: &Pages, item: RingItem) -> bool
        ensures { result ≡ is_end_mark item }
    {
        match item {
            RingItem::Chunk(chunk) => {
                self.take_back(rt, pages, chunk);
                false
            }
            RingItem::End(_) => true,
            RingItem::Fault(_) => false,
        }
    }
}
