// The texts of what one session reads.
ghost use Rattle.std.specs.Prelude.{◌≡◌, ◌≢◌, ◌<◌, length, OnOk};
ghost use Rattle.relay_model.specs.{Side as End, way_from as begins_at, dump_of};

use command_places::way_from;
use dump_format::push_dump;
use relay_model::{Config, Dump, NoMemory, Place, Side};
use std::alloc::Global;

/// Makes the texts of what one session reads, one after the other in the same memory, and counts the bytes at its left
/// and at its right place. A count stays at `u64::MAX`.
#[derive(Drop)]
pub struct Dumper {
    text: Vec<u8>,
    left: u64,
    right: u64,
}

impl Dumper {
    ghost use Rattle.session_driver.specs.Dumpers.{Counts, counted_at, text_of};

    /// Nothing was read yet. It takes its memory with the first text, and more with a longer one.
    pub fn new(alloc: Global) -> Dumper
        ensures { (side : End) → counted_at result side ≡ 0 }
    {
        Dumper {
            text: Vec::new(alloc),
            left: 0,
            right: 0,
        }
    }

    /// Makes the text of bytes that were just read at a place of the session. They are counted whether there is memory
    /// for it or not.
    pub fn dump(&mut self, config: &Config, place: Place, bytes: &[u8]) -> Result<(), NoMemory>
        requires dumped { config.now.dump ≢ Dump.Off }
        requires some { 0 < length bytes.now }
        ensures text { OnOk result
            (text_of self.new
            ≡ dump_of config.now.dump (begins_at place.side) (counted_at self.old place.side) bytes.now) }
        ensures counts { Counts place.side (length bytes.now) self.old self.new }
    {
        let from = self.count(place.side, bytes.len());
        let way = way_from(place.side);
        self.text.clear();
        push_dump(&mut self.text, way, config.dump, from, bytes)
    }

    /// The text that was made last.
    pub fn text(&self) -> &[u8]
        ensures { result.now ≡ text_of self.now }
    {
        self.text.as_slice()
    }

    /// Counts so many bytes more at the place of this side, and gives the count before.
    fn count(&mut self, side: Side, n: usize) -> u64
        ensures before { result ≡ counted_at self.old side }
        ensures counts { Counts side n self.old self.new }
    {
        match side {
            Side::Left => {
                let before = self.left;
                self.left = before.saturating_add(n as u64);
                before
            }
            Side::Right => {
                let before = self.right;
                self.right = before.saturating_add(n as u64);
                before
            }
        }
    }
}
