// A set of keys of which each is put in, taken out and found in the same time, however many there are.
ghost use Rattle.std.specs.Prelude.{◌≡◌, ◌≢◌, ◌<◌, ◌≤◌, ◌+◌, ◌==◌, ℕ, [], Some, length, slice_get, OnOk, if◌then◌else◌};
ghost use Rattle.desk_places.specs.Keys.{AreInverse, is_in};

use relay_model::NoMemory;
use std::alloc::Global;
use std::marker::Model;

/// All keys below a bound stand in one order, those of the set first; `places` tells where each stands. A key is put in
/// or taken out by an exchange with the one at the border.
#[derive(Drop)]
pub struct KeySet {
    order: Vec<usize>,
    places: Vec<usize>,
    count: usize,
}

impl Model for KeySet {
    ghost use Rattle.std.specs.Prelude.{◌≤◌, length, take};
    ghost use Rattle.desk_places.specs.Keys.{AreInverse, KeyTable};

    ghost Value = { KeyTable };

    ghost view = { λ set. record { keys = take set.count set.order.items; covered = length set.order.items } };

    ghost invariant = { λ set. AreInverse set.order.items set.places.items × (set.count ≤ length set.order.items) };
}

impl KeySet {
    /// No key, and none covered; takes no memory.
    pub fn new(alloc: Global) -> KeySet
        ensures keys { result.keys ≡ [] }
        ensures covered { result.covered ≡ 0 }
    {
        KeySet {
            order: Vec::new(alloc),
            places: Vec::new(alloc),
            count: 0,
        }
    }

    /// How many keys are in the set.
    pub fn len(&self) -> usize
        ensures { result ≡ length self.now.keys }
    {
        self.count
    }

    /// The key at `i`, counted from 0.
    pub fn get(&self, i: usize) -> usize
        requires { i < length self.now.keys }
        ensures { slice_get self.now.keys i ≡ Some result }
    {
        self.order[i]
    }

    /// Covers the key from now on, and all below it, so that they can be put in without memory.
    pub fn cover(&mut self, key: usize) -> Result<(), NoMemory>
        ensures covered { OnOk result (key < self.new.covered) }
        ensures longer { self.old.covered ≤ self.new.covered }
        ensures keys { self.new.keys ≡ self.old.keys }
    {
        while self.order.len() <= key {
            self.order.reserve(1)?;
            self.places.reserve(1)?;
            let next = self.order.len();
            self.order.push_reserved(next);
            self.places.push_reserved(next);
        }
        Ok(())
    }

    /// Has the key in the set or not, if it is covered.
    pub fn set(&mut self, key: usize, inside: bool)
        ensures here { key < self.old.covered → is_in key self.new.keys ≡ inside }
        ensures others { (other : ℕ) → other ≢ key → is_in other self.new.keys ≡ is_in other self.old.keys }
        ensures covered { self.new.covered ≡ self.old.covered }
    {
        if key >= self.order.len() {
            return;
        }
        let place = self.places[key];
        if inside == (place < self.count) {
            return;
        }
        if inside {
            exchange(&mut self.order, &mut self.places, place, self.count);
            self.count += 1;
        } else {
            self.count -= 1;
            exchange(&mut self.order, &mut self.places, place, self.count);
        }
    }
}

/// Has the keys at the two places stand in each other's.
fn exchange(order: &mut Vec<usize>, places: &mut Vec<usize>, one: usize, two: usize)
    requires inverse { AreInverse order.old.items places.old.items }
    requires one { one < length order.old.items }
    requires two { two < length order.old.items }
    ensures inverse { AreInverse order.new.items places.new.items }
    ensures exchanged { (i : ℕ)
        → slice_get order.new.items i ≡ (if i == two then slice_get order.old.items one else if i == one then
        slice_get order.old.items two else slice_get order.old.items i) }
    ensures len { length order.new.items ≡ length order.old.items }
{
    let first = order[one];
    let second = order[two];
    order[one] = second;
    order[two] = first;
    places[second] = one;
    places[first] = two;
}
