// Timers by key, of which the first can be asked for. The keys stand in order with their slots, and a slot leads to
// its timer's place in the heap. So a call compares a number of keys and of moments that grows as the logarithm of
// how many are set, and asking for the first compares none.
ghost use Rattle.std.specs.Prelude.{◌≡◌, ℕ, ◌+◌, ◌-◌, ◌<◌, ◌≤◌, None, OnOk, OnErr, IfSome, IfNone, if◌then◌else◌};
ghost use Rattle.std.specs.FinMap as map;
ghost use Rattle.timer_set.specs.Timers.{IsFirst, IsDue, TakenOut};

use crate::heap::Heap;
use key_map::KeyMap;
use relay_model::NoMemory;
use std::alloc::Global;
use std::marker::Model;

/// The moments at which keys fall due. Contracts see the map from keys to moments, and the number of further
/// keys that there is room for.
#[derive(Drop)]
pub struct TimerSet {
    slots: KeyMap,
    heap: Heap,
}

impl Model for TimerSet {
    ghost use Rattle.timer_set.specs.Timers.{Timers, timers_code};

    ghost Value = { Timers };

    ghost coded = { timers_code };

    ghost use Rattle.std.specs.Prelude.{◌-◌, vec_len};
    ghost use Rattle.timer_set.specs.Moments.{moments_of, IsKeptHeap};

    ghost view = { λ t. record { moments = moments_of t.heap.timers.items t.heap.places.items t.slots.values; room = vec_len t.heap.timers - t.heap.live } };

    ghost invariant = { λ t. IsKeptHeap t.heap.timers.items (vec_len t.heap.timers) t.heap.live t.slots };
}

impl TimerSet {
    /// No key is set; takes no memory.
    pub fn new(alloc: Global) -> TimerSet
        ensures moments { result.moments ≡ map.empty }
        ensures room { result.room ≡ 0 }
    {
        TimerSet {
            slots: KeyMap::new(alloc),
            heap: Heap::new(alloc),
        }
    }

    /// Makes room for `n` further keys, or changes nothing.
    pub fn reserve(&mut self, n: usize) -> Result<(), NoMemory>
        ensures room { OnOk result (n ≤ self.new.room) }
        ensures kept { self.old.room ≤ self.new.room }
        ensures refused { OnErr result (self.new ≡ self.old) }
        ensures moments { self.new.moments ≡ self.old.moments }
    {
        self.slots.reserve(n)?;
        self.heap.reserve(n)
    }

    /// This key falls due at this moment, and at no other. A key that isn't set takes room for one.
    pub fn set(&mut self, key: u32, at: u64)
        requires { map.get self.old.moments key ≡ None → 0 < self.old.room }
        ensures moments { self.new.moments ≡ map.insert self.old.moments key at }
        ensures room { self.new.room ≡ (if map.contains_key self.old.moments key then self.old.room else self.old.room - 1) }
    {
        match self.slots.get(key) {
            Some(slot) => self.heap.change(slot, at),
            None => {
                let slot = self.heap.insert(at, key);
                self.slots.put(key, slot);
            }
        }
    }

    /// This key is no longer set; where it was, its room is free again.
    pub fn clear(&mut self, key: u32)
        ensures moments { self.new.moments ≡ map.remove self.old.moments key }
        ensures room { self.new.room ≡ (if map.contains_key self.old.moments key then self.old.room + 1 else self.old.room) }
    {
        if let Some(slot) = self.slots.remove(key) {
            self.heap.remove(slot);
        }
    }

    /// The least moment, and among the keys that fall due at it the least. None exactly where no key is set.
    pub fn first(&self) -> Option<(u64, u32)>
        ensures { IsFirst self.now.moments result }
    {
        self.heap.first()
    }

    /// Takes the first key out, where it falls due at `now` or before.
    pub fn due(&mut self, now: u64) -> Option<u32>
        ensures due { IsDue self.old.moments now result }
        ensures taken { TakenOut self.old self.new result }
    {
        let (at, key) = self.first()?;
        if at > now {
            return None;
        }
        self.clear(key);
        Some(key)
    }
}
