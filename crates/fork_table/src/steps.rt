// A count of looks at sessions.
ghost use Rattle.std.specs.Prelude.{◌≡◌, ◌+◌, ◌-◌, ◌^◌, min};

use std::sync::ledger::{Book, Ledger};

/// How many looks at sessions were made. A body that is generic over the ledger has no second book, so it can't count
/// elsewhere.
#[derive(Drop)]
pub struct Steps<L: Ledger> {
    book: Book<L>,
    ticks: u64,
}

impl<L: Ledger> Steps<L> {
    /// No look was made.
    pub fn new(book: Book<L>) -> Steps<L>
        ensures { result.ticks ≡ 0 }
    {
        Steps { book, ticks: 0 }
    }

    /// One more look. The count stays at its last value.
    pub fn tick(&mut self)
        ensures { self.new.ticks ≡ min (self.old.ticks + 1) (2 ^ 64 - 1) }
    {
        self.ticks = self.ticks.saturating_add(1);
    }

    pub fn ticks(&self) -> u64
        ensures { result ≡ self.now.ticks }
    {
        self.ticks
    }
}
