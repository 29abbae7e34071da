// What each held place stands on.
ghost use Rattle.std.specs.Prelude.{◌≡◌, ◌<◌, ◌≤◌, ◌+◌, ◌^◌, [], None, Some, true, false, is_some, IfSome, length, position, OnOk, MatchOption};
ghost use Rattle.relay_model.specs.{same_place, is_free};
ghost use Rattle.desk_places.specs.PlaceTables.{AreInOrder, AreListed, IsFirstOf, IsStartOf, MarksEntry, PutsEntry, SameStanding};
ghost use Rattle.desk_places.specs.PlaceTables.{base_at, entry_at, half_disarmed, hold_at, is_armed, new_entry, with_half};

use port_table::Base;
use relay_model::{Half, NoMemory, Place};
use std::alloc::Global;
use std::marker::Model;
use world_trait::Standing;

/// So few entries are compared one after the other: their order would save nothing.
const FEW: usize = 8;

/// A held place: what it stands on and how it stands, whether it was shut so that its output is finished, and which of its
/// halves are disarmed, that is, answered last that there is nothing yet.
#[derive(Clone, Copy)]
pub struct PlaceEntry {
    pub place: Place,
    pub base: Base,
    pub standing: Standing,
    pub finished: bool,
    pub reading_disarmed: bool,
    pub writing_disarmed: bool,
}

impl PlaceEntry {
    /// A place on this base, whose opening is under way or not.
    pub fn new(place: Place, base: Base, settling: bool) -> PlaceEntry
        ensures { result ≡ new_entry place base settling }
    {
        PlaceEntry {
            place,
            base,
            standing: if settling {
                Standing::Settling
            } else {
                Standing::Open
            },
            finished: false,
            reading_disarmed: settling,
            writing_disarmed: settling,
        }
    }

    /// Whether both halves are armed.
    pub fn is_armed(&self) -> bool
        ensures { result ≡ is_armed self.now }
    {
        !self.reading_disarmed && !self.writing_disarmed
    }

    /// Whether the half is disarmed.
    fn is_disarmed(self, half: Half) -> bool
        ensures { result ≡ half_disarmed half (Some self) }
    {
        match half {
            Half::ToRead => self.reading_disarmed,
            Half::ToWrite => self.writing_disarmed,
        }
    }

    /// The same with this half disarmed or not.
    fn with_half(self, half: Half, disarmed: bool) -> PlaceEntry
        ensures { result ≡ with_half half disarmed self }
    {
        let mut marked = self;
        match half {
            Half::ToRead => marked.reading_disarmed = disarmed,
            Half::ToWrite => marked.writing_disarmed = disarmed,
        }
        marked
    }
}

/// The held places, in the order of their sessions, so that one is found by a few comparisons. A place that isn't in the
/// table is free. Those on standard streams are listed once more, since a wait asks them each time.
#[derive(Drop)]
pub struct PlaceTable {
    entries: Vec<PlaceEntry>,
    asked: Vec<Place>,
}

impl Model for PlaceTable {
    ghost use Rattle.std.specs.Prelude.{◌-◌, min, vec_len, vec_capacity};
    ghost use Rattle.desk_places.specs.PlaceTables.{AreInOrder, AreListed, PlaceTableSeen};

    ghost Value = { PlaceTableSeen };

    ghost view = { λ table. record {
      entries = table.entries.items;
      spare = min (vec_capacity table.entries - vec_len table.entries) (vec_capacity table.asked - vec_len table.asked);
    } };

    ghost invariant = { λ table. AreInOrder table.entries.items × AreListed table.entries.items table.asked.items };
}

impl PlaceTable {
    /// Nothing held; takes no memory.
    pub fn new(alloc: Global) -> PlaceTable
        ensures { result.entries ≡ [] }
    {
        PlaceTable {
            entries: Vec::new(alloc),
            asked: Vec::new(alloc),
        }
    }

    /// How many places are held.
    pub fn len(&self) -> usize
        ensures len { result ≡ length self.now.entries }
        ensures small { result < 2 ^ 63 }
    {
        self.entries.len()
    }

    /// The listed places, among them each held one on standard streams.
    pub fn listed(&self) -> &[Place]
        ensures { AreListed self.now.entries result.now }
    {
        self.asked.as_slice()
    }

    /// Where the first entry of the place is.
    fn index_of(&self, place: Place) -> Option<usize>
        ensures first { MatchOption result (entry_at self.now.entries place ≡ None) (λ i. IsFirstOf place self.now.entries i) }
        ensures below { IfSome result (λ i. i < length self.now.entries) }
    {
        let entries = self.entries.as_slice();
        if entries.len() <= FEW {
            return position_of(entries, place);
        }
        let start = start_of(entries, place.session);
        let i = position_of(&entries[start..], place)?;
        Some(start + i)
    }

    /// The entry of the place; none where it is free.
    pub fn find(&self, place: Place) -> Option<PlaceEntry>
        ensures value { result ≡ entry_at self.now.entries place }
        ensures here { IfSome result (λ s. s.place ≡ place) }
    {
        let i = self.index_of(place)?;
        Some(self.entries[i])
    }

    /// The entry of a place that is held.
    pub fn entry_of(&self, place: Place) -> PlaceEntry
        requires { is_free (hold_at self.now.entries place) ≡ false }
        ensures found { entry_at self.now.entries place ≡ Some result }
        ensures here { result.place ≡ place }
        ensures own { entry_at self.now.entries result.place ≡ Some result }
    {
        match self.find(place) {
            None => unreachable!(),
            Some(entry) => entry,
        }
    }

    /// Makes room for one further place.
    pub fn reserve(&mut self) -> Result<(), NoMemory>
        ensures room { OnOk result (0 < self.new.spare) }
        ensures entries { self.new.entries ≡ self.old.entries }
    {
        self.entries.reserve(1)?;
        self.asked.reserve(1)?;
        Ok(())
    }

    /// Holds the free place of the entry from now on. Takes no memory: the room was made before.
    pub fn add(&mut self, entry: PlaceEntry)
        requires free { entry_at self.old.entries entry.place ≡ None }
        requires room { 0 < self.old.spare }
        ensures put { PutsEntry entry.place (Some entry) self.old.entries self.new.entries }
        ensures one_more { length self.new.entries ≡ length self.old.entries + 1 }
    {
        let start = start_of(self.entries.as_slice(), entry.place.session);
        let Ok(()) = self.entries.insert(start, entry) else {
            unreachable!()
        };
        if entry.base.is_standard() {
            self.asked.push_reserved(entry.place);
        }
    }

    /// Holds the place no longer.
    pub fn remove(&mut self, place: Place)
        ensures put { PutsEntry place None self.old.entries self.new.entries }
        ensures fewer { is_some (entry_at self.old.entries place) ≡ true → length self.new.entries + 1 ≤ length self.old.entries }
    {
        self.entries.retain(|entry| !entry.place.is(place));
        self.asked.retain(|asked| !asked.is(place));
    }

    /// Puts the entry in the stead of the one of its place, which stands on the same.
    pub fn replace(&mut self, entry: PlaceEntry)
        requires { base_at self.old.entries entry.place ≡ Some entry.base }
        ensures put { PutsEntry entry.place (Some entry) self.old.entries self.new.entries }
        ensures standing { SameStanding self.old.entries self.new.entries }
        ensures len { length self.new.entries ≡ length self.old.entries }
    {
        if let Some(i) = self.index_of(entry.place) {
            self.entries[i] = entry;
        }
    }

    /// Disarms the half of a place that is held, or arms it; this is its entry then. Where the half stands so already, nothing
    /// is searched for.
    pub fn mark(&mut self, entry: PlaceEntry, half: Half, disarmed: bool) -> PlaceEntry
        requires { entry_at self.old.entries entry.place ≡ Some entry }
        ensures marked { result ≡ with_half half disarmed entry }
        ensures marks { MarksEntry entry.place half disarmed self.old.entries self.new.entries }
    {
        if entry.is_disarmed(half) == disarmed {
            return entry;
        }
        let marked = entry.with_half(half, disarmed);
        self.replace(marked);
        marked
    }
}

/// Where the entries of the session begin.
fn start_of(entries: &[PlaceEntry], session: u32) -> usize
    ensures bound { result ≤ length entries.now }
    ensures start { AreInOrder entries.now → IsStartOf session entries.now result }
{
    entries.partition_point(|entry| entry.place.session < session)
}

/// Where the first entry of the place is, as a position.
fn position_of(entries: &[PlaceEntry], place: Place) -> Option<usize>
    ensures is { result ≡ position (λ s. same_place s.place place) entries.now }
    ensures within { IfSome result (λ i. i < length entries.now) }
{
    entries.iter().position(|entry| entry.place.is(place))
}
