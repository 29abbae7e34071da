// The ports that held places stand on, and those that closed places left. Each call on a place is one call on its port,
// after which the port is listed where it may hint.
ghost use Rattle.std.specs.Prelude.{◌≡◌, ◌<◌, ◌≤◌, ◌+◌, ◌&&◌, List, None, [], Some, true, false, length, vec_len, vec_capacity, option_map, find, position, IfSome, IfNone, OnOk, MatchOption};
ghost use Rattle.slab.specs.Slab.{SameValues};
ghost use Rattle.relay_model.specs.{Free, Open, Settling, is_free, is_open, same_place, Place};
ghost use Rattle.relay_model.specs.declared.places.Half.TheVariants.{ToRead, ToWrite};
ghost use Rattle.world_trait.specs.{SetsHold, accept_act, close_act, is_open_fault, listen_act, open_act, shut_act};
ghost use Rattle.port_trait.specs.{Reads, Sends, Shuts, Writes, finishes};
ghost use Rattle.port_table.specs.{AtMade, CalledAt, EndsAt, FailsToBegin, GotFits, IsOf, SameStreams, StreamFailed, StreamsStay, TookFits};
ghost use Rattle.port_table.specs.{giving_port, is_got_not_yet, is_took_not_yet, key_of, standard_of, taking_port};
ghost use Rattle.desk_places.specs.{AcceptCause, AcceptMarks, AcceptsMade, AcceptsOn, AskedFor, CanTakeIn, DropsFirst, HasVacancy, HeldAfter};
ghost use Rattle.desk_places.specs.{IsSound, IsSoundBut, KeepsPlaces, KeptFor, Leaves, LeavesParent, LeavesPlace, ListenCause, ListenMarks};
ghost use Rattle.desk_places.specs.{ListensMade, ListensOn, MarksEntry, OpenCause, OpenMarks, OpensAt, OpensMade, OpensOn, OtherEntries, PlaceEntry};
ghost use Rattle.desk_places.specs.{ReapsKept, SameButListed, SameHold, SameMakerAndRoom, SetsEntry, SettleMarks, SettledAt, SettlesOn};
ghost use Rattle.desk_places.specs.{StandardCause, TakesOne, asking, base_at, entry_at, hold_at, is_disarmed, is_finished, joined_answer, made_at};
ghost use Rattle.desk_places.specs.{making_of, shut_answer, shut_down, with_half};

use crate::keys::KeySet;
use crate::places::{PlaceEntry, PlaceTable};
use port_table::{Base, PortEntry, PortTable, Standard, accept_at, is_final, standard_base};
use port_trait::{
    Begun, Got, Joining, MadePeer, Maker, Making, Port, PortReap, Settled, Shutting, Took,
};
use relay_model::{Half, NoMemory, Peer, Place, Shut, Single, Why};
use std::alloc::Global;
use world_trait::{AcceptAnswer, ListenAnswer, OpenAnswer, Standing};

/// All ports, the keys of those that may hint at a disarmed half, the maker of those that are made, and the ports with a
/// child that closed places left, the last one first.
#[derive(Drop)]
pub struct Ports<M: Maker + Drop, I: Port, O: Port, E: Port> {
    pub table: PortTable<M::Made, I, O, E>,
    pub listed: KeySet,
    pub maker: M,
    pub parents: Vec<PortEntry<M::Made>>,
}

impl<M: Maker + Drop, I: Port, O: Port, E: Port> Ports<M, I, O, E> {
    /// The standard ports, and no made one; takes no memory.
    pub fn new(alloc: Global, standard: Standard<I, O, E>, maker: M) -> Ports<M, I, O, E>
        ensures made { result.table.made.slots ≡ [] }
        ensures input { result.table.input ≡ record { port = I.seen standard.stdin; begun = false; finished = false } }
        ensures output { result.table.output ≡ record { port = O.seen standard.stdout; begun = false; finished = false } }
        ensures errors { result.table.errors ≡ record { port = E.seen standard.stderr; begun = false; finished = false } }
        ensures parents { result.parents.items ≡ [] }
        ensures maker { result.maker ≡ maker }
    {
        Ports {
            table: PortTable::new(alloc, standard),
            listed: KeySet::new(alloc),
            maker,
            parents: Vec::new(alloc),
        }
    }

    /// Makes room for one further port, and for keeping this many made ports after their places.
    #[tactic(auto, using(crate::proofs::SoundLemmas::sound_kept))]
    pub fn reserve(&mut self, kept: usize) -> Result<(), NoMemory>
        ensures made_room { OnOk result (HasVacancy self.new.table.made self.new.listed) }
        ensures parents_room { OnOk result (kept + vec_len self.new.parents ≤ vec_capacity self.new.parents) }
        ensures streams { SameStreams self.old.table self.new.table }
        ensures made { SameValues self.old.table.made self.new.table.made }
        ensures sound { (places : List PlaceEntry) → IsSound places self.old.table.made self.old.listed
            → IsSound places self.new.table.made self.new.listed }
        ensures parents { self.new.parents.items ≡ self.old.parents.items }
        ensures capacity { vec_capacity self.old.parents ≤ vec_capacity self.new.parents }
        ensures maker { self.new.maker ≡ self.old.maker }
    {
        self.table.made.reserve(1)?;
        self.listed.cover(self.table.made.vacant_key())?;
        self.parents.reserve(kept)?;
        Ok(())
    }

    /// Lists the made port of the entry where it may hint at a disarmed half, and lists it no longer where it may not.
    /// Where both halves are armed, the port isn't asked.
    fn list(&mut self, entry: PlaceEntry)
        ensures sound { (places : List PlaceEntry) → entry_at places entry.place ≡ Some entry
            → IsSoundBut entry.place places self.old.table.made self.old.listed
            → IsSound places self.new.table.made self.new.listed }
        ensures rest { SameButListed self.old self.new }
    {
        let Some(key) = entry.base.made_key() else {
            return;
        };
        if entry.is_armed() {
            self.listed.set(key, false);
            return;
        }
        let may = self.table.may_hint(key);
        let awaited = (entry.reading_disarmed && may.readable)
            || (entry.writing_disarmed && may.writable);
        self.listed.set(key, awaited);
    }

    /// Disarms the half of a place that is held, or arms it, and lists its port accordingly. Where both halves are armed and
    /// stay so, nothing is done.
    fn mark(&mut self, places: &mut PlaceTable, entry: PlaceEntry, half: Half, disarmed: bool)
        requires { entry_at places.old.entries entry.place ≡ Some entry }
        ensures sound { IsSoundBut entry.place places.new.entries self.old.table.made self.old.listed
            → IsSound places.new.entries self.new.table.made self.new.listed }
        ensures marks { MarksEntry entry.place half disarmed places.old.entries places.new.entries }
        ensures rest { SameButListed self.old self.new }
    {
        if entry.is_armed() && !disarmed {
            return;
        }
        let marked = places.mark(entry, half, disarmed);
        self.list(marked);
    }

    /// Begins the new port, which goes to its key, and holds the place. A port that doesn't begin is dropped.
    fn insert(
        &mut self,
        places: &mut PlaceTable,
        place: Place,
        port: M::Made,
        settling: bool,
    ) -> OpenAnswer
        requires { CanTakeIn place places.old self.old }
        ensures cause { is_open_fault result ≡ true → FailsToBegin M.Made.seen port }
        ensures made { OpensMade (λ making. making ≡ making_of settling port) M.Made.seen place (base_at places.new.entries place)
            result self.old.table.made self.new.table.made }
        ensures marks { OpenMarks place result (is_disarmed places.old.entries) (is_disarmed places.new.entries) }
        ensures streams { SameStreams self.old.table self.new.table }
        ensures bases { OpensOn None place (base_at places.old.entries) (base_at places.new.entries) result }
        ensures entries { OtherEntries place places.old.entries places.new.entries }
        ensures kept { TakesOne places.old.entries places.new.entries self.old self.new }
        ensures held { HeldAfter (open_act place result) (hold_at places.old.entries) (hold_at places.new.entries) }
        ensures maker { self.new.maker ≡ self.old.maker }
    {
        let mut port = port;
        match port.begin() {
            Begun::Begun => {}
            Begun::Failed => return OpenAnswer::Failed,
            Begun::Memory => return OpenAnswer::Memory,
        }
        let made = PortEntry { place, port };
        let key = self.table.made.insert_reserved(made);
        let entry = PlaceEntry::new(place, Base::Made(key), settling);
        places.add(entry);
        self.list(entry);
        if settling {
            OpenAnswer::Later
        } else {
            OpenAnswer::Opened
        }
    }

    /// Opens the place. The room was made before.
    pub fn open(
        &mut self,
        places: &mut PlaceTable,
        place: Place,
        single: &Single,
        behind: Option<Peer>,
    ) -> OpenAnswer
        requires { CanTakeIn place places.old self.old }
        ensures standard { IfSome (standard_of place single.now.target)
            (λ base. StandardCause (StreamFailed self.old.table self.new.table) result) }
        ensures made { IfNone (standard_of place single.now.target)
            (OpenCause (M.makes self.old.maker (asking place single.now behind) self.new.maker) M.Made.seen (M.seen self.old.maker)
            (M.seen self.new.maker) result) }
        ensures asked { IfNone (standard_of place single.now.target) (AskedFor place single.now behind (M.seen self.new.maker).asked) }
        ensures came { (M.seen self.new.maker).came ≡ (M.seen self.old.maker).came }
        ensures stay { StreamsStay self.old.table self.new.table }
        ensures begun { IfSome (standard_of place single.now.target) (λ base. OpensAt base self.old.table self.new.table result) }
        ensures streams { IfNone (standard_of place single.now.target) (SameStreams self.old.table self.new.table) }
        ensures ports { MatchOption (standard_of place single.now.target)
            (OpensMade (M.makes self.old.maker (asking place single.now behind) self.new.maker) M.Made.seen place
            (base_at places.new.entries place) result self.old.table.made self.new.table.made)
            (λ base. SameValues self.old.table.made self.new.table.made) }
        ensures marks { OpenMarks place result (is_disarmed places.old.entries) (is_disarmed places.new.entries) }
        ensures bases { OpensOn (standard_of place single.now.target) place (base_at places.old.entries)
            (base_at places.new.entries) result }
        ensures kept { TakesOne places.old.entries places.new.entries self.old self.new }
        ensures held { HeldAfter (open_act place result) (hold_at places.old.entries) (hold_at places.new.entries) }
    {
        match standard_base(place, single) {
            Some(base) => match self.table.begin(base) {
                Begun::Begun => {
                    places.add(PlaceEntry::new(place, base, false));
                    OpenAnswer::Opened
                }
                Begun::Failed => OpenAnswer::Failed,
                Begun::Memory => OpenAnswer::Memory,
            },
            None => {
                let key = self.table.made.vacant_key();
                match self.maker.make(key, place, single, behind) {
                    Making::Made(port) => self.insert(places, place, port, false),
                    Making::Later(port) => self.insert(places, place, port, true),
                    Making::Failed => OpenAnswer::Failed,
                    Making::Memory => OpenAnswer::Memory,
                }
            }
        }
    }

    /// Goes on with the opening of the place. A made port whose opening failed is dropped, unless it has a child.
    pub fn settle(&mut self, places: &mut PlaceTable, place: Place) -> OpenAnswer
        requires settling { hold_at places.old.entries place ≡ Settling }
        requires parents_room { vec_len self.old.parents < vec_capacity self.old.parents }
        ensures call { IfSome (base_at places.old.entries place)
            (λ base. SettledAt M.Made.seen (giving_port base) self.old.table self.new.table self.old.parents.items self.new.parents.items
            result) }
        ensures marks { SettleMarks place result (is_disarmed places.old.entries) (is_disarmed places.new.entries) }
        ensures bases { SettlesOn place (base_at places.old.entries) (base_at places.new.entries) result }
        ensures sound { IsSound places.old.entries self.old.table.made self.old.listed
            → IsSound places.new.entries self.new.table.made self.new.listed }
        ensures held { HeldAfter (open_act place result) (hold_at places.old.entries) (hold_at places.new.entries) }
        ensures no_more { length places.new.entries ≤ length places.old.entries }
        ensures room { length places.new.entries + vec_len self.new.parents ≤ length places.old.entries + vec_len self.old.parents }
        ensures rest { SameMakerAndRoom self.old self.new }
    {
        let entry = places.entry_of(place);
        match self.table.settle(entry.base) {
            Settled::Ready => {
                let opened = PlaceEntry::new(place, entry.base, false);
                places.replace(opened);
                self.list(opened);
                OpenAnswer::Opened
            }
            Settled::NotYet => {
                let settling = PlaceEntry::new(place, entry.base, true);
                places.replace(settling);
                self.list(settling);
                OpenAnswer::Later
            }
            Settled::Failed => {
                self.leave(places, entry, false);
                OpenAnswer::Failed
            }
        }
    }

    /// Listens at the door. The room was made before.
    pub fn listen(&mut self, places: &mut PlaceTable, door: Place, single: &Single) -> ListenAnswer
        requires { CanTakeIn door places.old self.old }
        ensures cause { ListenCause (M.listens self.old.maker single.now self.new.maker) M.Made.seen (M.seen self.old.maker)
            (M.seen self.new.maker) result }
        ensures came { (M.seen self.new.maker).came ≡ (M.seen self.old.maker).came }
        ensures streams { SameStreams self.old.table self.new.table }
        ensures ports { ListensMade (M.listens self.old.maker single.now self.new.maker) M.Made.seen door
            (base_at places.new.entries door) result self.old.table.made self.new.table.made }
        ensures marks { ListenMarks door result (is_disarmed places.old.entries) (is_disarmed places.new.entries) }
        ensures bases { ListensOn door (base_at places.old.entries) (base_at places.new.entries) result }
        ensures kept { TakesOne places.old.entries places.new.entries self.old self.new }
        ensures held { HeldAfter (listen_act door result) (hold_at places.old.entries) (hold_at places.new.entries) }
    {
        let key = self.table.made.vacant_key();
        match self.maker.listen(key, single) {
            Making::Made(port) => match self.insert(places, door, port, false) {
                OpenAnswer::Opened => ListenAnswer::Listening,
                OpenAnswer::Later => unreachable!(),
                OpenAnswer::Failed => ListenAnswer::Failed,
                OpenAnswer::Memory => ListenAnswer::Memory,
            },
            Making::Later(_) => unreachable!(),
            Making::Failed => ListenAnswer::Failed,
            Making::Memory => ListenAnswer::Memory,
        }
    }

    /// Takes one peer at the door, and opens the place for it. The room was made before. Only a made port is a door:
    /// on a standard stream there is no peer, and no memory for one either.
    pub fn accept(&mut self, places: &mut PlaceTable, door: Place, place: Place) -> AcceptAnswer
        requires door { hold_at places.old.entries door ≡ Open }
        requires room { CanTakeIn place places.old self.old }
        ensures cause { AcceptCause (M.accepts self.old.maker self.new.maker) M.Made.seen (M.seen self.old.maker)
            (M.seen self.new.maker) result }
        ensures streams { SameStreams self.old.table self.new.table }
        ensures ports { IfSome (base_at places.old.entries door)
            (λ base. AtMade (giving_port base) (λ key. AcceptsMade (M.accepts self.old.maker self.new.maker) M.Made.seen key place
            (base_at places.new.entries place) result self.old.table.made self.new.table.made)
            (SameValues self.old.table.made self.new.table.made)) }
        ensures marks { AcceptMarks door place result (is_disarmed places.old.entries) (is_disarmed places.new.entries) }
        ensures bases { AcceptsOn place (base_at places.old.entries) (base_at places.new.entries) result }
        ensures kept { TakesOne places.old.entries places.new.entries self.old self.new }
        ensures held { HeldAfter (accept_act door place result) (hold_at places.old.entries) (hold_at places.new.entries) }
    {
        let entry = places.entry_of(door);
        let Some(door_key) = entry.base.made_key() else {
            return AcceptAnswer::Memory;
        };
        let key = self.table.made.vacant_key();
        let taken = accept_at(&mut self.table, &mut self.maker, door_key, key);
        self.list(entry);
        match taken {
            MadePeer::Came(port, peer) => match self.insert(places, place, port, false) {
                OpenAnswer::Opened => {
                    self.mark(places, entry, Half::ToRead, false);
                    AcceptAnswer::Accepted(peer)
                }
                OpenAnswer::Later => unreachable!(),
                OpenAnswer::Failed => {
                    self.mark(places, entry, Half::ToRead, false);
                    AcceptAnswer::Failed
                }
                OpenAnswer::Memory => AcceptAnswer::Memory,
            },
            MadePeer::NoPeer => {
                self.mark(places, entry, Half::ToRead, true);
                AcceptAnswer::NoPeer
            }
            MadePeer::Failed => {
                self.mark(places, entry, Half::ToRead, false);
                AcceptAnswer::Failed
            }
            MadePeer::Memory => AcceptAnswer::Memory,
        }
    }

    /// Reads at the place.
    pub fn read(&mut self, places: &mut PlaceTable, place: Place, into: &mut [u8]) -> Got
        requires open { is_open (hold_at places.old.entries place) ≡ true }
        requires some { 0 < length into.old }
        ensures fits { GotFits (length into.new) result }
        ensures call { IfSome (base_at places.old.entries place)
            (λ base. CalledAt (giving_port base) self.old.table self.new.table
            (λ old new. Reads old new into.new result)) }
        ensures marks { SetsEntry place
            (option_map (with_half ToRead (is_got_not_yet result)) (entry_at places.old.entries place))
            (entry_at places.old.entries) (entry_at places.new.entries) }
        ensures kept { KeepsPlaces places.old.entries places.new.entries self.old self.new }
        ensures held { SameHold (hold_at places.old.entries) (hold_at places.new.entries) }
    {
        let entry = places.entry_of(place);
        let got = self.table.read(entry.base, into);
        self.mark(places, entry, Half::ToRead, matches!(got, Got::NotYet));
        got
    }

    /// Writes at the place.
    pub fn write(&mut self, places: &mut PlaceTable, place: Place, bytes: &[u8]) -> Took
        requires open { hold_at places.old.entries place ≡ Open }
        requires some { 0 < length bytes.now }
        ensures fits { TookFits (length bytes.now) result }
        ensures call { IfSome (base_at places.old.entries place)
            (λ base. CalledAt (taking_port base) self.old.table self.new.table
            (λ old new. Writes old new bytes.now result)) }
        ensures marks { SetsEntry place
            (option_map (with_half ToWrite (is_took_not_yet result)) (entry_at places.old.entries place))
            (entry_at places.old.entries) (entry_at places.new.entries) }
        ensures kept { KeepsPlaces places.old.entries places.new.entries self.old self.new }
        ensures held { SameHold (hold_at places.old.entries) (hold_at places.new.entries) }
    {
        let entry = places.entry_of(place);
        let took = self.table.write(entry.base, bytes);
        self.mark(places, entry, Half::ToWrite, matches!(took, Took::NotYet));
        took
    }

    /// Sends the bytes as one packet at the place.
    pub fn send(&mut self, places: &mut PlaceTable, place: Place, bytes: &[u8]) -> Took
        requires open { hold_at places.old.entries place ≡ Open }
        requires some { 0 < length bytes.now }
        ensures call { IfSome (base_at places.old.entries place)
            (λ base. CalledAt (taking_port base) self.old.table self.new.table
            (λ old new. Sends old new bytes.now result)) }
        ensures marks { SetsEntry place
            (option_map (with_half ToWrite (is_took_not_yet result)) (entry_at places.old.entries place))
            (entry_at places.old.entries) (entry_at places.new.entries) }
        ensures kept { KeepsPlaces places.old.entries places.new.entries self.old self.new }
        ensures held { SameHold (hold_at places.old.entries) (hold_at places.new.entries) }
    {
        let entry = places.entry_of(place);
        let took = self.table.send(entry.base, bytes);
        self.mark(places, entry, Half::ToWrite, matches!(took, Took::NotYet));
        took
    }

    /// Passes an end on at the place.
    pub fn shut(&mut self, places: &mut PlaceTable, place: Place, how: Shut) -> Shutting
        requires { hold_at places.old.entries place ≡ Open }
        ensures call { IfSome (base_at places.old.entries place)
            (λ base. EndsAt (finishes how) (taking_port base) self.old.table self.new.table
            (λ old new. Shuts old new how result)) }
        ensures kept { KeepsPlaces places.old.entries places.new.entries self.old self.new }
        ensures entry { SetsEntry place (option_map (shut_down (finishes how)) (entry_at places.old.entries place))
            (entry_at places.old.entries) (entry_at places.new.entries) }
        ensures held { HeldAfter (shut_act place how (shut_answer result)) (hold_at places.old.entries) (hold_at places.new.entries) }
    {
        let entry = places.entry_of(place);
        let answer = self.table.shut(entry.base, how);
        let shut = PlaceEntry {
            standing: Standing::ShutDown,
            finished: is_final(how),
            ..entry
        };
        places.replace(shut);
        self.list(shut);
        answer
    }

    /// Closes the place. A made port is joined first where its output was finished and the cause is `Finished`; this is
    /// what the join answered.
    pub fn close(&mut self, places: &mut PlaceTable, place: Place, why: Why) -> Option<Joining>
        requires held { is_free (hold_at places.old.entries place) ≡ false }
        requires parents_room { vec_len self.old.parents < vec_capacity self.old.parents }
        ensures streams { SameStreams self.old.table self.new.table }
        ensures bases { Leaves place (base_at places.old.entries) (base_at places.new.entries) }
        ensures left { LeavesPlace place places.old.entries places.new.entries self.old self.new }
        ensures sound { IsSound places.old.entries self.old.table.made self.old.listed
            → IsSound places.new.entries self.new.table.made self.new.listed }
        ensures joined { IfSome (entry_at places.old.entries place)
            (λ s. result ≡ joined_answer (s.finished && is_finished why) (made_at self.old.table.made s.base)) }
        ensures parents { IfSome (entry_at places.old.entries place)
            (λ s. LeavesParent (s.finished && is_finished why) (made_at self.old.table.made s.base)
            self.old.parents.items self.new.parents.items) }
        ensures held { HeldAfter (close_act place why) (hold_at places.old.entries) (hold_at places.new.entries) }
    {
        let entry = places.entry_of(place);
        let joined = entry.finished && matches!(why, Why::Finished);
        self.leave(places, entry, joined)
    }

    /// Frees the place of the entry. Its made port is dropped, but kept where it has a child.
    fn leave(&mut self, places: &mut PlaceTable, entry: PlaceEntry, joined: bool) -> Option<Joining>
        requires held { entry_at places.old.entries entry.place ≡ Some entry }
        requires parents_room { vec_len self.old.parents < vec_capacity self.old.parents }
        ensures streams { SameStreams self.old.table self.new.table }
        ensures bases { Leaves entry.place (base_at places.old.entries) (base_at places.new.entries) }
        ensures told { IfSome (made_at self.old.table.made entry.base) (λ made. IsOf M.Made.seen made.port) }
        ensures standard { key_of entry.base ≡ None → self.new.table.made ≡ self.old.table.made }
        ensures sound { IsSoundBut entry.place places.old.entries self.old.table.made self.old.listed
            → IsSound places.new.entries self.new.table.made self.new.listed }
        ensures joined { result ≡ joined_answer joined (made_at self.old.table.made entry.base) }
        ensures parents { LeavesParent joined (made_at self.old.table.made entry.base)
            self.old.parents.items self.new.parents.items }
        ensures held { SetsHold entry.place Free (hold_at places.old.entries) (hold_at places.new.entries) }
        ensures left { LeavesPlace entry.place places.old.entries places.new.entries self.old self.new }
    {
        places.remove(entry.place);
        let key = entry.base.made_key()?;
        self.listed.set(key, false);
        let port = self.table.made.try_remove(key)?;
        let_go(&mut self.parents, port, joined)
    }

    /// Asks the port that the closed place left, the last one, for its child, and drops the port. Without such a port
    /// there is no child.
    pub fn reap(&mut self, place: Place) -> PortReap
        ensures streams { (self.new.table ≡ self.old.table) × (self.new.maker ≡ self.old.maker) }
        ensures listed { self.new.listed ≡ self.old.listed }
        ensures reaped { ReapsKept (find (λ b. same_place b.place place) self.old.parents.items) result }
        ensures dropped { DropsFirst place self.old.parents.items self.new.parents.items }
        ensures room { vec_len self.new.parents ≤ vec_len self.old.parents }
        ensures capacity { vec_capacity self.new.parents ≡ vec_capacity self.old.parents }
    {
        match parent_of(self.parents.as_slice(), place) {
            None => PortReap::NoChild,
            Some(i) => self.parents.remove(i).port.reap(),
        }
    }
}

/// Joins the port where that is to be done, and tells what that answered. It is kept before all others where it has a
/// child, and dropped otherwise.
fn let_go<T: Port>(
    parents: &mut Vec<PortEntry<T>>,
    entry: PortEntry<T>,
    joined: bool,
) -> Option<Joining>
    requires { vec_len parents.old < vec_capacity parents.old }
    ensures told { IsOf T.seen entry.port }
    ensures joined { result ≡ joined_answer joined (Some entry) }
    ensures kept { KeptFor entry.port.child joined entry parents.old.items parents.new.items }
    ensures room { vec_len parents.new ≤ vec_len parents.old + 1 }
    ensures capacity { vec_capacity parents.new ≡ vec_capacity parents.old }
{
    let mut left = entry;
    let parent = left.port.has_child();
    let answer = if joined { Some(left.port.join()) } else { None };
    if parent {
        let Ok(()) = parents.insert(0, left) else {
            unreachable!()
        };
    }
    answer
}

/// The index of the first port of the place.
fn parent_of<T: Port>(parents: &[PortEntry<T>], place: Place) -> Option<usize>
    ensures is { result ≡ position (λ b. same_place b.place place) parents.now }
    ensures within { IfSome result (λ i. i < length parents.now) }
{
    parents.iter().position(|entry| entry.place.is(place))
}
