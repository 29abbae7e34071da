// A map from keys to numbers, in a vector in the order of the keys.
ghost use Rattle.std.specs.Prelude.{◌≡◌, ℕ, ◌+◌, ◌-◌, ◌<◌, ◌≤◌, length, None, OnOk, IfOk, IfErr, if◌then◌else◌, vec_len, vec_capacity, insert};
ghost use Rattle.std.specs.FinMap as map;
ghost use Rattle.key_map.specs.Entries.{IsFirstFrom, IsRising, IsAt, IsGap, key_at};

use relay_model::NoMemory;
use std::alloc::Global;
use std::marker::Model;

#[derive(Drop)]
pub struct KeyMap {
    pairs: Vec<(u32, usize)>,
}

impl Model for KeyMap {
    ghost use Rattle.std.specs.Prelude.{ℕ, ◌-◌, vec_len, vec_capacity};
    ghost use Rattle.std.specs.Ordering.{nat_cmp};
    ghost use Rattle.std.specs.Coded.{Coded, coded×, coded_ℕ};
    ghost use Rattle.std.specs.FinMap as map;
    ghost use Rattle.key_map.specs.Entries.{Keyed, keyed_code, IsRising};

    ghost Value = { Keyed };

    ghost coded = { keyed_code };

    ghost view = { λ a. record { values = map.from_entries a.pairs.items; room = vec_capacity a.pairs - vec_len a.pairs } };

    ghost invariant = { λ a. IsRising a.pairs.items };
}

impl KeyMap {
    /// No keys; takes no memory.
    pub fn new(alloc: Global) -> KeyMap
        ensures { result.values ≡ map.empty }
    {
        KeyMap {
            pairs: Vec::new(alloc),
        }
    }

    /// Makes room for `n` further keys.
    pub fn reserve(&mut self, n: usize) -> Result<(), NoMemory>
        ensures room { OnOk result (n ≤ self.new.room) }
        ensures kept { self.old.room ≤ self.new.room }
        ensures values { self.new.values ≡ self.old.values }
    {
        self.pairs.reserve(n)?;
        Ok(())
    }

    /// The value at this key.
    pub fn get(&self, key: u32) -> Option<usize>
        ensures { result ≡ map.get self.now.values key }
    {
        match search(&self.pairs, key) {
            Ok(place) => Some(self.pairs[place].1),
            Err(_) => None,
        }
    }

    /// The least key from this one on.
    pub fn first_from(&self, key: u32) -> Option<u32>
        ensures { IsFirstFrom self.now.values key result }
    {
        let place = place_of(&self.pairs, key);
        if place < self.pairs.len() {
            Some(self.pairs[place].0)
        } else {
            None
        }
    }

    /// Gives this key this value.
    pub fn put(&mut self, key: u32, value: usize)
        requires { map.get self.old.values key ≡ None → 0 < self.old.room }
        ensures values { self.new.values ≡ map.insert self.old.values key value }
        ensures room { self.new.room ≡ (if map.contains_key self.old.values key then self.old.room else self.old.room - 1) }
    {
        match search(&self.pairs, key) {
            Ok(place) => self.pairs[place].1 = value,
            Err(place) => insert_pair(&mut self.pairs, place, (key, value)),
        }
    }

    /// Takes this key out, where it is there, and answers its value.
    pub fn remove(&mut self, key: u32) -> Option<usize>
        ensures value { result ≡ map.get self.old.values key }
        ensures values { self.new.values ≡ map.remove self.old.values key }
        ensures room { self.new.room ≡ (if map.contains_key self.old.values key then self.old.room + 1 else self.old.room) }
    {
        match search(&self.pairs, key) {
            Ok(place) => Some(self.pairs.remove(place).1),
            Err(_) => None,
        }
    }
}

/// Inserts into the room that there is.
fn insert_pair(pairs: &mut Vec<(u32, usize)>, place: usize, pair: (u32, usize))
    requires place { place ≤ vec_len pairs.old }
    requires room { vec_len pairs.old < vec_capacity pairs.old }
    ensures items { pairs.new.items ≡ insert pairs.old.items place pair }
    ensures len { vec_len pairs.new ≡ vec_len pairs.old + 1 }
    ensures capacity { vec_capacity pairs.new ≡ vec_capacity pairs.old }
{
    let _ = pairs.insert(place, pair);
}

/// Where the key stands, or else where it belongs.
fn search(pairs: &[(u32, usize)], key: u32) -> Result<usize, usize>
    requires { IsRising pairs.now }
    ensures found { IfOk result (λ place. IsAt pairs.now key place) }
    ensures absent { IfErr result (λ place. IsGap pairs.now key place) }
{
    let place = place_of(pairs, key);
    if place < pairs.len() && pairs[place].0 == key {
        Ok(place)
    } else {
        Err(place)
    }
}

/// How many keys lie below this one.
fn place_of(pairs: &[(u32, usize)], key: u32) -> usize
    requires { IsRising pairs.now }
    ensures bound { result ≤ length pairs.now }
    ensures below { (i : ℕ) → i < result → key_at pairs.now i < key }
    ensures above { (i : ℕ) → result ≤ i → i < length pairs.now → key ≤ key_at pairs.now i }
{
    let mut low = 0;
    let mut high = pairs.len();
    while low < high {
        let middle = low + (high - low) / 2;
        if pairs[middle].0 < key {
            low = middle + 1;
        } else {
            high = middle;
        }
    }
    low
}
