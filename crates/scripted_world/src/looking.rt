// What a wait looks at: halves and doors whose last answer was that there is nothing yet.
ghost use Rattle.std.specs.Prelude.{◌≡◌, ◌≤◌, ◌+◌, ◌&&◌, ◌++◌, ◌∷◌, [], vec_len, vec_capacity, OnOk, OnErr};
ghost use Rattle.relay_model.specs.{same_half, same_place, names};
ghost use Rattle.scripted_world.specs.Looks.{elsewhere, half_of, name_of, openings_at, same_watch, unnamed, without};

use relay_model::{Half, NoMemory, Part, Place, ReadyAt, ReadyList};
use std::alloc::Global;
use std::marker::Model;

/// What is looked at: whether there is something to read, room to write, a peer at a door, or whether an opening that is
/// under way has come to its end, by a half of its place.
#[derive(Clone, Copy, PartialEq, Eq)]
pub enum WatchKind {
    Read,
    Write,
    Peer,
    Opening(Half),
}

impl WatchKind {
    /// The half by which a turn names it.
    fn half(self) -> Half
        ensures { result ≡ half_of self }
    {
        match self {
            WatchKind::Read => Half::ToRead,
            WatchKind::Write => Half::ToWrite,
            WatchKind::Peer => Half::ToRead,
            WatchKind::Opening(half) => half,
        }
    }

    /// Whether both are the same.
    fn is(self, other: WatchKind) -> bool
        ensures { result ≡ same_watch self other }
    {
        self == other
    }
}

/// A place or door that is looked at.
#[derive(Clone, Copy, PartialEq, Eq)]
pub struct LookedAt {
    pub place: Place,
    pub watch: WatchKind,
}

impl LookedAt {
    /// The entry by which a turn names it.
    pub fn ready_entry(self) -> ReadyAt
        ensures { result ≡ name_of self }
    {
        ReadyAt {
            place: self.place,
            half: self.watch.half(),
        }
    }
}

/// All that is looked at, in the order in which it was asked.
#[derive(Drop)]
pub struct Lookout {
    entries: Vec<LookedAt>,
}

impl Model for Lookout {
    ghost use Rattle.std.specs.Prelude.{List};
    ghost use Rattle.scripted_world.specs.declared.looking.LookedAt.{LookedAt};

    ghost Value = { List LookedAt };

    ghost view = { λ lookout. lookout.entries.items };
}

impl Lookout {
    /// Looks at nothing; takes no memory.
    pub fn new(alloc: Global) -> Lookout
        ensures { result ≡ [] }
    {
        Lookout {
            entries: Vec::new(alloc),
        }
    }

    /// All that is looked at.
    pub fn as_slice(&self) -> &[LookedAt]
        ensures { result.now ≡ self.now }
    {
        self.entries.as_slice()
    }

    /// From now on looks at this, as the last of all.
    pub fn look_at(&mut self, place: Place, watch: WatchKind) -> Result<(), NoMemory>
        ensures looks { OnOk result (self.new ≡ without self.old place watch ++ record { place = place; watch = watch } ∷ []) }
        ensures kept { OnErr result (self.new ≡ self.old) }
    {
        self.entries.reserve(1)?;
        self.entries
            .retain(|entry| !(entry.place.is(place) && entry.watch.is(watch)));
        self.entries.push_reserved(LookedAt { place, watch });
        Ok(())
    }

    /// From now on looks at the opening of the place, which is under way, and at nothing else of the place.
    pub fn look_at_opening(&mut self, place: Place) -> Result<(), NoMemory>
        ensures looks { OnOk result (self.new ≡ elsewhere self.old place ++ openings_at place) }
        ensures kept { OnErr result (self.new ≡ self.old) }
    {
        self.entries.reserve(2)?;
        self.entries.retain(|entry| !entry.place.is(place));
        push_openings(&mut self.entries, place);
        Ok(())
    }

    /// From now on doesn't look at this.
    pub fn forget(&mut self, place: Place, watch: WatchKind)
        ensures { self.new ≡ without self.old place watch }
    {
        self.entries
            .retain(|entry| !(entry.place.is(place) && entry.watch.is(watch)));
    }

    /// From now on looks at nothing of the place or door.
    pub fn forget_place(&mut self, place: Place)
        ensures { self.new ≡ elsewhere self.old place }
    {
        self.entries.retain(|looked| !looked.place.is(place));
    }

    /// From now on looks at nothing that the list names.
    pub fn forget_named(&mut self, ready: &ReadyList)
        ensures { self.new ≡ unnamed ready.now.entries self.old }
    {
        self.entries
            .retain(|entry| !is_named(ready, entry.ready_entry()));
    }
}

/// Whether the list names this.
fn is_named(ready: &ReadyList, entry: ReadyAt) -> bool
    ensures { result ≡ names ready.now.entries entry.place entry.half }
{
    for i in 0..ready.len() {
        if is_same(ready.get(i), entry) {
            return true;
        }
    }
    false
}

/// Whether both name the same half of one place.
fn is_same(one: ReadyAt, other: ReadyAt) -> bool
    ensures { result ≡ (same_place one.place other.place && same_half one.half other.half) }
{
    one.place.is(other.place) && one.half == other.half
}

/// Appends the opening of the place, by each half that its part has, into the room that was made.
fn push_openings(entries: &mut Vec<LookedAt>, place: Place)
    requires { vec_len entries.old + 2 ≤ vec_capacity entries.old }
    ensures { entries.new.items ≡ entries.old.items ++ openings_at place }
{
    let to_read = LookedAt {
        place,
        watch: WatchKind::Opening(Half::ToRead),
    };
    let to_write = LookedAt {
        place,
        watch: WatchKind::Opening(Half::ToWrite),
    };
    match place.part {
        Part::Both => {
            entries.push_reserved(to_read);
            entries.push_reserved(to_write);
        }
        Part::Reading => entries.push_reserved(to_read),
        Part::Writing => entries.push_reserved(to_write),
    }
}
