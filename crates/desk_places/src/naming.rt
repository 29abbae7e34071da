// What a turn names: halves that hint so, and those whose key was named.
ghost use Rattle.std.specs.Prelude.{◌≡◌, ◌≤◌, ◌<◌, ◌+◌, ◌&&◌, ℕ, not, true, List, Option, Some, [], length, IfSome};
ghost use Rattle.slab.specs.Slab.{Slab};
ghost use Rattle.relay_model.specs.{names, Half, Place};
ghost use Rattle.world_trait.specs.{NamesHeld};
ghost use Rattle.port_trait.specs.{Hint};
ghost use Rattle.port_table.specs.{PortId, EntrySeen};
ghost use Rattle.port_table.specs.declared.bases.Base.TheVariants as bases;
ghost use Rattle.desk_places.specs.{CanName, HintNamed, HintsOnly, IsDue, IsNamed, IsSound, KeyTable, NamesAt, NamesHinting, NamesKeyed, NamesListed};
ghost use Rattle.desk_places.specs.{NamesMore, NamesOnly, NamesStandard, PlaceEntry, PlaceNamed, SameHold, SameStanding};
ghost use Rattle.desk_places.specs.{base_at, hold_at, is_disarmed, told_by};

use crate::places::{PlaceEntry, PlaceTable};
use crate::ports::Ports;
use port_trait::{Hint, KeyList, Maker, Port};
use relay_model::{Half, Place, ReadyAt, ReadyList};

/// Names the half, unless the list is full.
fn name(ready: &mut ReadyList, place: Place, half: Half)
    requires { 256 ≤ ready.old.room }
    ensures list { NamesAt place ready.old ready.new }
    ensures named { IsNamed ready.new.entries place half }
    ensures fits { length ready.old.entries < 256 → names ready.new.entries place half ≡ true }
    ensures most { length ready.new.entries ≤ length ready.old.entries + 1 }
    ensures only { (keys : List (ℕ × Half)) (told : PortId → Option Hint) (places : List PlaceEntry)
        → IsDue keys told places place half → NamesOnly keys told places ready.old.entries
        → NamesOnly keys told places ready.new.entries }
{
    ready.push(ReadyAt { place, half });
}

/// Names the halves of the entry that are disarmed and that the hint finds ready.
fn name_hinted(entry: PlaceEntry, hint: Hint, ready: &mut ReadyList)
    requires { 256 ≤ ready.old.room }
    ensures list { NamesAt entry.place ready.old ready.new }
    ensures named { HintNamed entry hint ready.new.entries }
    ensures only { HintsOnly entry hint ready.old.entries ready.new.entries }
{
    if entry.reading_disarmed && hint.readable {
        name(ready, entry.place, Half::ToRead);
    }
    if entry.writing_disarmed && hint.writable {
        name(ready, entry.place, Half::ToWrite);
    }
}

impl<M: Maker + Drop, I: Port, O: Port, E: Port> Ports<M, I, O, E> {
    /// Names the halves of the place that are disarmed and whose port hints that they are ready, if it is held. Without such
    /// halves no port is asked.
    fn name_place(&mut self, places: &PlaceTable, place: Place, ready: &mut ReadyList)
        requires { CanName places.now.entries ready.old }
        ensures named { PlaceNamed (told_by self.old.table) places.now.entries place ready.new.entries }
        ensures list { NamesMore places.now.entries self.old self.new ready.old ready.new }
    {
        let Some(entry) = places.find(place) else {
            return;
        };
        if entry.reading_disarmed || entry.writing_disarmed {
            let hint = self.table.hint(entry.base);
            name_hinted(entry, hint, ready);
        }
    }

    /// Names each disarmed half on a standard stream that hints that it is ready.
    fn name_standard(&mut self, places: &PlaceTable, ready: &mut ReadyList)
        requires { CanName places.now.entries ready.old }
        ensures named { NamesStandard (told_by self.old.table) places.now.entries ready.new.entries }
        ensures list { NamesMore places.now.entries self.old self.new ready.old ready.new }
    {
        let listed = places.listed();
        for i in 0..listed.len() {
            self.name_place(places, listed[i], ready);
        }
    }

    /// Names each disarmed half on a made port that is listed and that hints that it is ready.
    fn name_listed(&mut self, places: &PlaceTable, ready: &mut ReadyList)
        requires { CanName places.now.entries ready.old }
        ensures named { NamesListed (told_by self.old.table) places.now.entries self.old.table.made self.old.listed.keys
            ready.new.entries }
        ensures list { NamesMore places.now.entries self.old self.new ready.old ready.new }
    {
        for i in 0..self.listed.len() {
            let key = self.listed.get(i);
            if let Some(entry) = self.table.made.get(key) {
                let place = entry.place;
                self.name_place(places, place, ready);
            }
        }
    }

    /// The place that stands on the made port of the key; none where none does.
    fn place_on(&self, places: &PlaceTable, key: usize) -> Option<Place>
        requires { IsSound places.now.entries self.now.table.made self.now.listed }
        ensures on { IfSome result (λ place. base_at places.now.entries place ≡ Some (bases.Made key)) }
        ensures only { (p : Place) → base_at places.now.entries p ≡ Some (bases.Made key) → result ≡ Some p }
    {
        let place = self.table.made.get(key)?.place;
        let entry = places.find(place)?;
        if entry.base.is_keyed(key) {
            Some(place)
        } else {
            None
        }
    }
}

/// Names each half that is disarmed and whose port hints that it is ready. Made ports that aren't listed are passed over.
pub fn name_hinting<M: Maker + Drop, I: Port, O: Port, E: Port>(
    ports: &mut Ports<M, I, O, E>,
    places: &PlaceTable,
    ready: &mut ReadyList,
)
    requires list { CanName places.now.entries ready.old }
    requires sound { IsSound places.now.entries ports.old.table.made ports.old.listed }
    ensures named { NamesHinting (told_by ports.old.table) places.now.entries ready.new.entries }
    ensures list { NamesMore places.now.entries ports.old ports.new ready.old ready.new }
{
    ports.name_standard(places, ready);
    ports.name_listed(places, ready);
}

/// Names each half whose key a poller named, in an empty list, which they fit.
pub fn name_keyed<M: Maker + Drop, I: Port, O: Port, E: Port>(
    ports: &Ports<M, I, O, E>,
    places: &PlaceTable,
    keys: &KeyList,
    ready: &mut ReadyList,
)
    requires room { 256 ≤ ready.old.room }
    requires empty { ready.old.entries ≡ [] }
    requires sound { IsSound places.now.entries ports.now.table.made ports.now.listed }
    ensures room { ready.new.room ≡ ready.old.room }
    ensures named { NamesKeyed keys.now.entries places.now.entries ready.new.entries }
    ensures only { (told : PortId → Option Hint) → NamesOnly keys.now.entries told places.now.entries ready.new.entries }
    ensures held { NamesHeld (hold_at places.now.entries) ready.new.entries }
{
    for i in 0..keys.len() {
        let (key, half) = keys.get(i);
        if let Some(place) = ports.place_on(places, key) {
            name(ready, place, half);
        }
    }
}

/// Arms each half that is named.
pub fn arm_named(places: &mut PlaceTable, ready: &ReadyList)
    ensures armed { (p : Place) (half : Half)
        → is_disarmed places.new.entries p half ≡ (is_disarmed places.old.entries p half
        && not (names ready.now.entries p half)) }
    ensures held { SameHold (hold_at places.old.entries) (hold_at places.new.entries) }
    ensures standing { SameStanding places.old.entries places.new.entries }
    ensures sound { (made : Slab EntrySeen) (listed : KeyTable) → IsSound places.old.entries made listed
        → IsSound places.new.entries made listed }
    ensures len { length places.new.entries ≡ length places.old.entries }
{
    for i in 0..ready.len() {
        let named = ready.get(i);
        if let Some(entry) = places.find(named.place) {
            places.mark(entry, named.half, false);
        }
    }
}
