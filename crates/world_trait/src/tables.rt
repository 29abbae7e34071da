// A table of what a world holds.
ghost use Rattle.std.specs.Prelude.{◌≡◌, ◌≤◌, ◌<◌, ◌+◌, ◌-◌, ◌^◌, [], false, length, find, option_map, OnOk};
ghost use Rattle.relay_model.specs.{same_place, Free, is_free};
ghost use Rattle.world_trait.specs.HoldTables.{SetsHold, hold_found, hold_of, lookup};

use relay_model::{NoMemory, Place};
use std::alloc::Global;
use std::marker::Model;

/// How something that is held stands: an opening is under way, it is open, or it is open and was shut.
#[derive(Clone, Copy, PartialEq, Eq)]
pub enum Standing {
    Settling,
    Open,
    ShutDown,
}

/// A place that is held, and how it stands.
#[derive(Clone, Copy, PartialEq, Eq)]
pub struct Held {
    pub place: Place,
    pub standing: Standing,
}

/// The places that are held. A place that isn't in the table is free.
#[derive(Drop)]
pub struct Holdings {
    entries: Vec<Held>,
}

impl Model for Holdings {
    ghost use Rattle.std.specs.Prelude.{◌-◌, vec_len, vec_capacity};
    ghost use Rattle.world_trait.specs.HoldTables.{HoldTable};

    ghost Value = { HoldTable };

    ghost view = { λ table. record { entries = table.entries.items; spare = vec_capacity table.entries - vec_len table.entries } };
}

impl Holdings {
    /// Nothing held; takes no memory.
    pub fn new(alloc: Global) -> Holdings
        ensures { result.entries ≡ [] }
    {
        Holdings {
            entries: Vec::new(alloc),
        }
    }

    /// How many things are held.
    pub fn len(&self) -> usize
        ensures len { result ≡ length self.now.entries }
        ensures small { result < 2 ^ 63 }
    {
        self.entries.len()
    }

    /// How the place stands; none where it is free.
    pub fn standing_at(&self, place: Place) -> Option<Standing>
        ensures { hold_found result ≡ lookup self.now.entries place }
    {
        standing_in(self.entries.as_slice(), place)
    }

    /// Makes room for `n` further things.
    pub fn reserve(&mut self, n: usize) -> Result<(), NoMemory>
        ensures room { OnOk result (n ≤ self.new.spare) }
        ensures kept { self.old.spare ≤ self.new.spare }
        ensures entries { self.new.entries ≡ self.old.entries }
    {
        self.entries.reserve(n)?;
        Ok(())
    }

    /// Holds the free place from now on. Takes no memory: the room was made before.
    pub fn add(&mut self, place: Place, standing: Standing)
        requires free { lookup self.old.entries place ≡ Free }
        requires room { 0 < self.old.spare }
        ensures held { SetsHold place (hold_of standing) (lookup self.old.entries) (lookup self.new.entries) }
        ensures one_more { length self.new.entries ≡ length self.old.entries + 1 }
        ensures spare { self.new.spare ≡ self.old.spare - 1 }
    {
        self.entries.push_reserved(Held { place, standing });
    }

    /// Holds the place no longer.
    pub fn remove(&mut self, place: Place)
        ensures held { SetsHold place Free (lookup self.old.entries) (lookup self.new.entries) }
        ensures fewer { is_free (lookup self.old.entries place) ≡ false → length self.new.entries + 1 ≤ length self.old.entries }
        ensures spare { is_free (lookup self.old.entries place) ≡ false → self.old.spare + 1 ≤ self.new.spare }
    {
        self.entries.retain(|held| !held.place.is(place));
    }

    /// Lets a place that is held stand otherwise, and takes no memory.
    pub fn change(&mut self, place: Place, standing: Standing)
        requires { is_free (lookup self.old.entries place) ≡ false }
        ensures held { SetsHold place (hold_of standing) (lookup self.old.entries) (lookup self.new.entries) }
        ensures no_more { length self.new.entries ≤ length self.old.entries }
        ensures spare { self.old.spare ≤ self.new.spare }
    {
        self.remove(place);
        self.add(place, standing);
    }
}

/// The standing of the first entry of the place.
fn standing_in(entries: &[Held], place: Place) -> Option<Standing>
    ensures { result ≡ option_map (λ held. held.standing) (find (λ held. same_place held.place place) entries.now) }
{
    let found = entries.iter().find(|held| held.place.is(place));
    found.map(|held| held.standing)
}
