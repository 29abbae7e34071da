// A binary heap of timers, which finds a timer again by its slot.
ghost use Rattle.std.specs.Prelude.{◌≡◌, ◌≢◌, ℕ, ◌+◌, ◌-◌, ◌*◌, ◌<◌, ◌≤◌, max, OnOk, OnErr, IfSome, IfNone, vec_len, vec_capacity, slice_index, slice_set};
ghost use Rattle.std.specs.List.{SwappedAt};
ghost use Rattle.timer_set.specs.Order.{timer_at};
ghost use Rattle.timer_set.specs.Heaps.{HasPlaces, IsHeap, IsHeapBut, IsUnder, IsFirstChild, IsShuffled, IsWithout, with_moment};

use crate::timer::{Timer, is_before};
use relay_model::NoMemory;
use std::alloc::Global;

/// The first `live` timers are the heap, the first due at its top. Behind them stands room for more. Each timer's
/// slot is a number of its own that it keeps wherever it moves, and `places` has its place there.
#[derive(Drop)]
pub(crate) struct Heap {
    timers: Vec<Timer>,
    places: Vec<usize>,
    live: usize,
    ghost placed: { HasPlaces timers.items places.items },
    ghost within: { live ≤ vec_len timers },
}

impl Heap {
    /// No timers; takes no memory.
    pub(crate) fn new(alloc: Global) -> Heap
        ensures live { result.live ≡ 0 }
        ensures len { vec_len result.timers ≡ 0 }
    {
        Heap {
            timers: Vec::new(alloc),
            places: Vec::new(alloc),
            live: 0,
        }
    }

    /// Makes room for `n` further timers.
    pub(crate) fn reserve(&mut self, n: usize) -> Result<(), NoMemory>
        ensures room { OnOk result (n ≤ vec_len self.new.timers - self.new.live) }
        ensures refused { OnErr result (vec_len self.new.timers ≡ vec_len self.old.timers) }
        ensures len { vec_len self.old.timers ≤ vec_len self.new.timers }
        ensures more { vec_len self.new.timers ≤ max (vec_len self.old.timers) (self.old.live + n) }
        ensures live { self.new.live ≡ self.old.live }
        ensures timers { (place : ℕ) → place < vec_len self.old.timers
            → timer_at self.new.timers.items place ≡ timer_at self.old.timers.items place }
    {
        let more = n.saturating_sub(self.timers.len() - self.live);
        self.timers.reserve(more)?;
        self.places.reserve(more)?;
        let wanted = self.timers.len() + more;
        while self.timers.len() < wanted {
            self.add_room();
        }
        Ok(())
    }

    /// Adds room for one timer, with a slot of its own.
    fn add_room(&mut self)
        requires timers_room { vec_len self.old.timers < vec_capacity self.old.timers }
        requires places_room { vec_len self.old.places < vec_capacity self.old.places }
        ensures len { vec_len self.new.timers ≡ vec_len self.old.timers + 1 }
        ensures places_len { vec_len self.new.places ≡ vec_len self.old.places + 1 }
        ensures capacity { vec_capacity self.old.timers ≤ vec_capacity self.new.timers }
        ensures places_capacity { vec_capacity self.old.places ≤ vec_capacity self.new.places }
        ensures live { self.new.live ≡ self.old.live }
        ensures timers { (place : ℕ) → place < vec_len self.old.timers
            → timer_at self.new.timers.items place ≡ timer_at self.old.timers.items place }
    {
        let place = self.timers.len();
        let slot = self.places.len();
        let _ = self.timers.push(Timer {
            at: 0,
            key: 0,
            slot,
        });
        let _ = self.places.push(place);
    }

    /// The timer that falls due first.
    pub(crate) fn first(&self) -> Option<(u64, u32)>
        ensures none { IfNone result (self.now.live ≡ 0) }
        ensures some { IfSome result
            (λ first. (0 < self.now.live) × (first.0 ≡ (timer_at self.now.timers.items 0).at)
            × (first.1 ≡ (timer_at self.now.timers.items 0).key)) }
    {
        if self.live == 0 {
            return None;
        }
        let Timer { at, key, .. } = self.timers[0];
        Some((at, key))
    }

    /// Adds a timer, and answers its slot.
    pub(crate) fn insert(&mut self, at: u64, key: u32) -> usize
        requires room { self.old.live < vec_len self.old.timers }
        requires heap { IsHeap self.old.timers.items self.old.live }
        ensures slot { result ≡ (timer_at self.old.timers.items self.old.live).slot }
        ensures heap { IsHeap self.new.timers.items self.new.live }
        ensures timers { IsShuffled (slice_set self.old.timers.items self.old.live (record { at = at; key = key; slot = result }))
            self.new.timers.items (self.old.live + 1) }
        ensures len { vec_len self.new.timers ≡ vec_len self.old.timers }
        ensures live { self.new.live ≡ self.old.live + 1 }
    {
        let place = self.live;
        let slot = self.timers[place].slot;
        self.timers[place] = Timer { at, key, slot };
        self.live += 1;
        self.settle(place);
        slot
    }

    /// The timer of this slot falls due at this moment from now on.
    pub(crate) fn change(&mut self, slot: usize, at: u64)
        requires slot { slot < vec_len self.old.places }
        requires place { slice_index self.old.places.items slot < self.old.live }
        requires heap { IsHeap self.old.timers.items self.old.live }
        ensures heap { IsHeap self.new.timers.items self.new.live }
        ensures timers { IsShuffled (with_moment self.old.timers.items (slice_index self.old.places.items slot) at)
            self.new.timers.items self.old.live }
        ensures len { vec_len self.new.timers ≡ vec_len self.old.timers }
        ensures live { self.new.live ≡ self.old.live }
    {
        let place = self.places[slot];
        self.timers[place].at = at;
        self.settle(place);
    }

    /// Takes the timer of this slot out.
    pub(crate) fn remove(&mut self, slot: usize)
        requires slot { slot < vec_len self.old.places }
        requires place { slice_index self.old.places.items slot < self.old.live }
        requires heap { IsHeap self.old.timers.items self.old.live }
        ensures heap { IsHeap self.new.timers.items self.new.live }
        ensures timers { IsWithout self.old.timers.items self.new.timers.items self.old.live (slice_index self.old.places.items slot) }
        ensures len { vec_len self.new.timers ≡ vec_len self.old.timers }
        ensures live { self.new.live + 1 ≡ self.old.live }
    {
        let place = self.places[slot];
        let last = self.live - 1;
        self.live = last;
        if place < last {
            self.exchange(place, last);
            self.settle(place);
        }
    }

    /// The timers at these two places change places.
    fn exchange(&mut self, a: usize, b: usize)
        requires first_within { a < vec_len self.old.timers }
        requires second_within { b < vec_len self.old.timers }
        requires apart { a ≢ b }
        ensures swapped { SwappedAt self.old.timers.items self.new.timers.items a b }
        ensures len { vec_len self.new.timers ≡ vec_len self.old.timers }
        ensures live { self.new.live ≡ self.old.live }
    {
        self.timers.swap(a, b);
        let first = self.timers[a].slot;
        let second = self.timers[b].slot;
        self.places[first] = a;
        self.places[second] = b;
    }

    /// Moves the timer at `place` up past each that falls due after it, and answers where it stands then.
    fn rise(&mut self, mut place: usize) -> usize
        requires within { place < self.old.live }
        requires heap { IsHeapBut self.old.timers.items self.old.live place }
        ensures within { result < self.new.live }
        ensures heap { IsHeapBut self.new.timers.items self.new.live result }
        ensures under { IsUnder self.new.timers.items result }
        ensures timers { IsShuffled self.old.timers.items self.new.timers.items self.old.live }
        ensures len { vec_len self.new.timers ≡ vec_len self.old.timers }
        ensures live { self.new.live ≡ self.old.live }
    {
        while place > 0 {
            let above = (place - 1) / 2;
            if !is_before(self.timers[place], self.timers[above]) {
                break;
            }
            self.exchange(place, above);
            place = above;
        }
        place
    }

    /// The first due of the one or two timers right below `place`.
    fn first_child(&self, place: usize) -> usize
        requires { 2 * place + 1 < self.now.live }
        ensures { IsFirstChild self.now.timers.items self.now.live place result }
    {
        let left = 2 * place + 1;
        let right = left + 1;
        if right < self.live && is_before(self.timers[right], self.timers[left]) {
            right
        } else {
            left
        }
    }

    /// Moves the timer at `place` down past each that falls due before it.
    fn sink(&mut self, mut place: usize)
        requires within { place < self.old.live }
        requires heap { IsHeapBut self.old.timers.items self.old.live place }
        requires under { IsUnder self.old.timers.items place }
        ensures heap { IsHeap self.new.timers.items self.new.live }
        ensures timers { IsShuffled self.old.timers.items self.new.timers.items self.old.live }
        ensures len { vec_len self.new.timers ≡ vec_len self.old.timers }
        ensures live { self.new.live ≡ self.old.live }
    {
        while place < self.live / 2 {
            let child = self.first_child(place);
            if !is_before(self.timers[child], self.timers[place]) {
                break;
            }
            self.exchange(place, child);
            place = child;
        }
    }

    /// Moves the timer at `place` to where the heap wants it.
    fn settle(&mut self, place: usize)
        requires within { place < self.old.live }
        requires heap { IsHeapBut self.old.timers.items self.old.live place }
        ensures heap { IsHeap self.new.timers.items self.new.live }
        ensures timers { IsShuffled self.old.timers.items self.new.timers.items self.old.live }
        ensures len { vec_len self.new.timers ≡ vec_len self.old.timers }
        ensures live { self.new.live ≡ self.old.live }
    {
        let place = self.rise(place);
        self.sink(place);
    }
}
