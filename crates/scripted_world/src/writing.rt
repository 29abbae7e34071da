// What becomes of writes by a script.
ghost use Rattle.std.specs.Prelude.{◌≡◌, ◌<◌, ℕ, Some, min, option_copied};
ghost use Rattle.scripted_world.specs.Lines.{next_of};
ghost use Rattle.scripted_world.specs.Writes.{HasCount, TakenFits, is_due, write_taken, writes_left, writing_of};

use crate::items::WriteItem;
use crate::lines::PlacedItems;
use relay_model::Place;
use std::marker::Model;

/// How many bytes are taken at most: at least one.
#[derive(Clone, Copy)]
pub struct Limit {
    most: u32,
}

impl Model for Limit {
    ghost use Rattle.std.specs.Prelude.{◌<◌, ℕ};

    ghost Value = { ℕ };

    ghost view = { λ limit. limit.most };

    ghost invariant = { λ limit. 0 < limit.most };

    ghost inverse = { λ most. record { most = most } };
}

impl Limit {
    /// Of so many bytes those that are taken.
    fn of(self, count: usize) -> usize
        requires { 0 < count }
        ensures is { result ≡ min count self }
        ensures some { 0 < result }
    {
        count.min(self.most as usize)
    }
}

/// What becomes of a write.
#[derive(Clone, Copy)]
pub enum Writing {
    Upto(Limit),
    NotYet,
    Fault,
}

impl Writing {
    /// What this item makes of a write.
    pub fn of(item: WriteItem) -> Writing
        requires { HasCount item }
        ensures { result ≡ writing_of item }
    {
        match item {
            WriteItem::Upto(most) => Writing::Upto(Limit { most }),
            WriteItem::NotYet => Writing::NotYet,
            WriteItem::Fault => Writing::Fault,
        }
    }
}

/// What becomes of a write, and from which moment on.
#[derive(Clone, Copy)]
pub struct DueWrite {
    pub at: u64,
    pub writing: Writing,
}

/// What a write takes now.
#[derive(Clone, Copy, PartialEq, Eq)]
pub enum TakenNow {
    Upto(usize),
    NotYet,
    Fault,
}

/// What becomes of a write to the place at this moment.
pub fn room(lines: &PlacedItems<DueWrite>, place: Place, now: u64, count: usize) -> TakenNow
    requires { 0 < count }
    ensures is { result ≡ write_taken (next_of lines.now place) now count }
    ensures fits { TakenFits count result }
{
    match lines.next(place) {
        None => TakenNow::Upto(count),
        Some(line) => line.take(now, count),
    }
}

impl DueWrite {
    /// What becomes of a write at this moment.
    fn take(&self, now: u64, count: usize) -> TakenNow
        requires { 0 < count }
        ensures is { result ≡ write_taken (Some self.now) now count }
        ensures fits { TakenFits count result }
    {
        if now < self.at {
            return TakenNow::NotYet;
        }
        match self.writing {
            Writing::Upto(limit) => TakenNow::Upto(limit.of(count)),
            Writing::NotYet => TakenNow::NotYet,
            Writing::Fault => TakenNow::Fault,
        }
    }
}

/// Uses up the next item of the place, if its moment has come.
pub fn use_write(lines: &mut PlacedItems<DueWrite>, place: Place, now: u64)
    ensures { lines.new ≡ writes_left lines.old place now }
{
    if is_due(lines.next(place), now) {
        lines.use_up(place);
    }
}

/// Whether there is an item, and its moment has come.
fn is_due(next: Option<&DueWrite>, now: u64) -> bool
    ensures { result ≡ is_due (option_copied next.entry) now }
{
    match next {
        None => false,
        Some(line) => line.at <= now,
    }
}
