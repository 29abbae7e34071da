// What a script gives to reads.
ghost use Rattle.std.specs.Prelude.{◌≡◌, ◌<◌, true, false, min, length, take, drop, remove, slice_index_or, slice_set, vec_len};
ghost use Rattle.scripted_world.specs.Lines.{next_of};
ghost use Rattle.scripted_world.specs.Reads.{GivenFits, GivesBytes, HasBytes, bytes_left, bytes_of, gives, has_more, line_left, next_bytes, read_given, reading_of, rest_of};

use crate::items::ReadItem;
use crate::lines::{PlacedItem, PlacedItems, index_of};
use relay_model::{Bytes, Place};
use std::marker::Model;

/// The bytes of an item that were not given yet: some are left.
#[derive(Drop)]
pub struct Remainder {
    bytes: Bytes,
    from: usize,
}

impl Model for Remainder {
    ghost use Rattle.std.specs.Prelude.{◌<◌, ℕ, List, length, drop};

    ghost Value = { List ℕ };

    ghost view = { λ rest. drop rest.from rest.bytes };

    ghost invariant = { λ rest. rest.from < length rest.bytes };
}

impl Remainder {
    /// All of these bytes.
    fn of(bytes: Bytes) -> Remainder
        requires { 0 < length bytes }
        ensures { result ≡ bytes }
    {
        Remainder { bytes, from: 0 }
    }

    /// Copies what is left into the front of `into`, and answers how many bytes that were.
    fn copy_front(&self, into: &mut [u8]) -> usize
        requires { 0 < length into.old }
        ensures count { result ≡ min (length self.now) (length into.old) }
        ensures some { 0 < result }
        ensures bytes { take result into.new ≡ take result self.now }
    {
        let rest = &self.bytes.as_slice()[self.from..];
        let count = rest.len().min(into.len());
        into[..count].copy_from_slice(&rest[..count]);
        count
    }

    /// The number of bytes that are left.
    fn len(&self) -> usize
        ensures { result ≡ length self.now }
    {
        self.bytes.len() - self.from
    }

    /// Leaves out so many bytes more.
    fn skip(&mut self, count: usize)
        requires { count < length self.old }
        ensures { self.new ≡ drop count self.old }
    {
        let left = self.len() - count;
        self.from = self.bytes.len() - left;
    }
}

/// What a read gives.
#[derive(Drop)]
pub enum Reading {
    Bytes(Remainder),
    Empty,
    End,
    Fault,
}

impl Reading {
    /// What this item gives.
    pub fn of(item: ReadItem) -> Reading
        requires { HasBytes item }
        ensures { result ≡ reading_of item }
    {
        match item {
            ReadItem::Bytes(bytes) => Reading::Bytes(Remainder::of(bytes)),
            ReadItem::Empty => Reading::Empty,
            ReadItem::End => Reading::End,
            ReadItem::Fault => Reading::Fault,
        }
    }

    /// Whether any bytes are left after so many more.
    fn has_more(&self, count: usize) -> bool
        ensures { result ≡ has_more self.now count }
    {
        match self {
            Reading::Bytes(remainder) => count < remainder.len(),
            Reading::Empty => false,
            Reading::End => false,
            Reading::Fault => false,
        }
    }

    /// Leaves out so many bytes more, after which some are left.
    fn skip(&mut self, count: usize)
        requires { has_more self.old count ≡ true }
        ensures { self.new ≡ rest_of self.old count }
    {
        match self {
            Reading::Bytes(remainder) => remainder.skip(count),
            Reading::Empty => {}
            Reading::End => {}
            Reading::Fault => {}
        }
    }
}

/// What a read gives, and from which moment on.
#[derive(Drop)]
pub struct DueRead {
    pub at: u64,
    pub reading: Reading,
}

/// What a read gives now.
#[derive(Clone, Copy, PartialEq, Eq)]
pub enum Given {
    Bytes(usize),
    Empty,
    End,
    NotYet,
    Fault,
}

impl DueRead {
    /// What this gives to a read at this moment, with its bytes put into `into`.
    fn give(&self, now: u64, into: &mut [u8]) -> Given
        requires { 0 < length into.old }
        ensures is { result ≡ gives self.now now (length into.old) }
        ensures fits { GivenFits (length into.old) result }
        ensures bytes { GivesBytes result into.new (bytes_of self.now.reading) }
    {
        if now < self.at {
            return Given::NotYet;
        }
        match &self.reading {
            Reading::Bytes(remainder) => Given::Bytes(remainder.copy_front(into)),
            Reading::Empty => Given::Empty,
            Reading::End => Given::End,
            Reading::Fault => Given::Fault,
        }
    }
}

/// What a read of the place gives at this moment, with its bytes put into `into`.
pub fn look(lines: &PlacedItems<DueRead>, place: Place, now: u64, into: &mut [u8]) -> Given
    requires { 0 < length into.old }
    ensures is { result ≡ read_given (next_of lines.now place) now (length into.old) }
    ensures fits { GivenFits (length into.old) result }
    ensures bytes { GivesBytes result into.new (next_bytes (next_of lines.now place)) }
{
    match lines.next(place) {
        Some(line) => line.give(now, into),
        None => Given::NotYet,
    }
}

/// Leaves out so many bytes more of the next item of the place, and the item itself where none are left then.
pub fn use_bytes(lines: &mut PlacedItems<DueRead>, place: Place, count: usize)
    ensures { lines.new ≡ bytes_left lines.old place count }
{
    match index_of(lines.entries.as_slice(), place) {
        None => {}
        Some(index) => cut(&mut lines.entries, index, count),
    }
}

/// Leaves out so many bytes more of the item at this index, and the item itself where none are left then.
fn cut(entries: &mut Vec<PlacedItem<DueRead>>, index: usize, count: usize)
    requires { index < vec_len entries.old }
    ensures kept { (d : PlacedItem DueRead) → has_more (slice_index_or entries.old.items index d).item.reading count ≡ true
        → entries.new.items ≡ slice_set entries.old.items index (line_left (slice_index_or entries.old.items index d)
        count) }
    ensures gone { (d : PlacedItem DueRead) → has_more (slice_index_or entries.old.items index d).item.reading count ≡ false
        → entries.new.items ≡ remove entries.old.items index }
{
    if entries[index].item.reading.has_more(count) {
        entries[index].item.reading.skip(count);
    } else {
        let _ = entries.remove(index);
    }
}
