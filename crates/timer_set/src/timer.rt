// One timer of the heap.
ghost use Rattle.timer_set.specs.Order.{IsInOrder};

/// A key and the moment at which it falls due. `slot` is where the heap keeps the timer's place.
#[derive(Clone, Copy)]
pub(crate) struct Timer {
    pub(crate) at: u64,
    pub(crate) key: u32,
    pub(crate) slot: usize,
}

/// Whether `a` falls due before `b`: by the moment, and at one moment by the key.
pub(crate) fn is_before(a: Timer, b: Timer) -> bool
    ensures { IsInOrder result a b }
{
    a.at < b.at || (a.at == b.at && a.key < b.key)
}
