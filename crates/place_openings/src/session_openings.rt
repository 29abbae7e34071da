// The openings of a session, place by place in opening order.
ghost use Rattle.std.specs.Prelude.{◌≡◌, ◌<◌, ◌≤◌, ◌||◌, ◌∷◌, ◌++◌, [], ℕ, true, false, List, Option, length, Some, None, map};
ghost use Rattle.std.specs.List.{All};
ghost use Rattle.relay_model.specs.{Place, ReadyAt as Entry, Config as Command, Act, ChildEnd as Ending, only_if, or_else, same_place, places};
ghost use Rattle.relay_model.specs.{listens_at, is_of, is_place_of, is_program, medium_of, now as moment, held, was_closed, was_reaped};
ghost use Rattle.relay_model.specs.{asked_to_accept, holds, first_call, ready, listening_failed, opening_failed, Listed};
ghost use Rattle.relay_model.specs.declared.acts.Act.TheVariants as acts;
ghost use Rattle.relay_model.specs.declared.acts.Why.TheVariants as whys;
ghost use Rattle.relay_model.specs.declared.calls.Call.TheVariants as calls;
ghost use Rattle.place_openings.specs.Moves.{TookEach};
ghost use Rattle.place_openings.specs.Queries.{first_of, held_by, child_by, of_session, peer_of_first};
ghost use Rattle.place_openings.specs.Stands.{Each, AreOpenings, kept};
ghost use Rattle.place_openings.specs.Steps.{calls_among, has_asked, most_in, steps_in};
ghost use Rattle.place_openings.specs.Touching.{touches};

use crate::one_place::Opening;
use crate::steps::OpeningStep;
use crate::summaries::{OpeningSummary, first_unready};
use command_places::{place_at, places};
use relay_model::{Call, Config, Part, Peer, Place, ReadyAt, Side, Why};
use std::marker::Model;

/// The openings of the places of a session, which are at most four, in opening order. Contracts see them as a list of
/// states. What is asked before each call is worked out at the steps that may change it.
#[derive(Drop)]
pub struct Openings {
    items: [Opening; 4],
    count: usize,
    summary: OpeningSummary,
}

impl Model for Openings {
    ghost use Rattle.std.specs.Prelude.{List, take, map, ◌≤◌};
    ghost use Rattle.place_openings.specs.declared.one_place.Opening.{Opening};

    ghost Value = { List Opening };

    ghost use Rattle.place_openings.specs.Summaries.{Sums};

    ghost view = { λ openings. (take openings.count openings.items) };

    ghost invariant = { λ openings. (openings.count ≤ 4) × Sums openings.summary ((take openings.count openings.items)) };
}

impl Openings {
    /// The openings of the places of a session with this number, where nothing happened yet.
    pub fn new(config: &Config, number: u32) -> Openings
        ensures stands { AreOpenings config.now [] number result }
        ensures unasked { (p : Place) → has_asked result p ≡ false }
    {
        let list = places(config, number);
        of_places(config, list.as_slice())
    }

    /// No openings; what fills the room for them is never seen.
    fn none(config: &Config) -> Openings
        ensures { result ≡ [] }
    {
        let filler = Opening::new(config, place_at(0, Side::Left, Part::Both));
        Openings {
            items: [filler; 4],
            count: 0,
            summary: OpeningSummary::of(&[]),
        }
    }

    fn push(&mut self, opening: Opening)
        requires { length self.old < 4 }
        ensures { self.new ≡ self.old ++ opening ∷ [] }
    {
        self.items[self.count] = opening;
        self.count += 1;
        self.summary = OpeningSummary::of(&self.items[..self.count]);
    }

    /// How many calls the places take at most between two turns.
    pub fn most_calls(&self) -> usize
        ensures sum { (c : Command) (past : List Act) (s : ℕ) → AreOpenings c past s self.now
            → result ≡ calls_among c (places c s) }
        ensures within { result ≤ 28 }
    {
        most_calls(&self.items[..self.count])
    }

    /// What the first place that isn't ready calls for at this moment.
    pub fn call(&self, at: u64) -> Call
        ensures { (c : Command) (past : List Act) (s : ℕ) → AreOpenings c past s self.now → at ≡ moment past
            → result ≡ first_call c past (places c s) }
    {
        if self.summary.ready {
            return Call::Nothing;
        }
        match first_unready(self.as_slice()) {
            Some(opening) => opening.call(at),
            None => Call::Nothing,
        }
    }

    /// Where an accepting is called for, whether the door was asked since the last turn.
    pub fn has_asked(&self) -> bool
        ensures { (c : Command) (past : List Act) (s : ℕ) (door place : Place) → AreOpenings c past s self.now
            → first_call c past (places c s) ≡ calls.Accept door place → result ≡ asked_to_accept c past door }
    {
        match first_unready(self.as_slice()) {
            Some(opening) => opening.asked,
            None => false,
        }
    }

    /// Whether every place is ready.
    pub fn is_ready(&self) -> bool
        ensures { (c : Command) (past : List Act) (s : ℕ) → AreOpenings c past s self.now → result ≡ ready c past s }
    {
        self.summary.ready
    }

    /// Why the session ends, where no try is left at one of its places or doors.
    pub fn why_given_up(&self) -> Option<Why>
        ensures { (c : Command) (past : List Act) (s : ℕ) → AreOpenings c past s self.now
            → result ≡ or_else (only_if (listening_failed c past s) whys.ListenFailed) (only_if
            (opening_failed c past s) whys.OpenFailed) }
    {
        self.summary.given_up
    }

    /// A place or own door of the session that is held.
    pub fn held_thing(&self) -> Option<Place>
        ensures some { (c : Command) (past : List Act) (s : ℕ) (q : Place) → AreOpenings c past s self.now → result ≡ Some q
            → (held past q ≡ true) × (is_of c s q ≡ true) }
        ensures none { (c : Command) (past : List Act) (s : ℕ) → AreOpenings c past s self.now → result ≡ None → holds c past s ≡ false }
    {
        first_held(self.as_slice())
    }

    /// A child that was closed and wasn't asked for yet.
    pub fn child(&self) -> Option<Place>
        ensures some { (c : Command) (past : List Act) (s : ℕ) (p : Place) → AreOpenings c past s self.now → result ≡ Some p
            → (is_program (medium_of c p) ≡ true) × (was_closed past p ≡ true) × (was_reaped past p
            ≡ false) × (is_place_of c s p ≡ true) }
        ensures none { result ≡ None → first_of child_by self.now ≡ None }
        ensures state { result ≡ first_of child_by self.now }
    {
        first_child(self.as_slice())
    }

    /// The permitted peer of the first place, where that is held by one.
    pub fn peer_of_first(&self) -> Option<Peer>
        ensures { (c : Command) (past : List Act) (s : ℕ) → AreOpenings c past s self.now → result ≡ peer_of_first c past (places c s) }
    {
        let [opening, ..] = self.as_slice() else {
            return None;
        };
        opening.peer()
    }

    pub(crate) fn as_slice(&self) -> &[Opening]
        ensures { result.now ≡ self.now }
    {
        &self.items[..self.count]
    }

    // ---- steps

    /// The place was opened.
    pub fn hear_opening(&mut self, place: Place)
        ensures goes { (c : Command) (past : List Act) (s : ℕ) → AreOpenings c past s self.old
            → AreOpenings c (acts.Opened place ∷ past) s self.new }
        ensures fewer_opening { (c : Command) (past : List Act) (s : ℕ) → AreOpenings c past s self.old
            → first_call c past (places c s) ≡ calls.Open place → steps_in self.new < steps_in self.old }
        ensures fewer_settling { (c : Command) (past : List Act) (s : ℕ) → AreOpenings c past s self.old
            → first_call c past (places c s) ≡ calls.Settle place → steps_in self.new < steps_in self.old }
        ensures asked { (p : Place) → has_asked self.new p ≡ true → has_asked self.old p ≡ true }
    {
        self.take(OpeningStep::Opened(place));
    }

    /// The opening of the place is under way.
    pub fn hear_later(&mut self, place: Place)
        ensures goes { (c : Command) (past : List Act) (s : ℕ) → AreOpenings c past s self.old
            → AreOpenings c (acts.OpenLater place ∷ past) s self.new }
        ensures fewer_opening { (c : Command) (past : List Act) (s : ℕ) → AreOpenings c past s self.old
            → first_call c past (places c s) ≡ calls.Open place → steps_in self.new < steps_in self.old }
        ensures fewer_settling { (c : Command) (past : List Act) (s : ℕ) → AreOpenings c past s self.old
            → first_call c past (places c s) ≡ calls.Settle place → steps_in self.new < steps_in self.old }
        ensures asked { (p : Place) → has_asked self.new p ≡ true → has_asked self.old p ≡ true }
    {
        self.take(OpeningStep::OpenedLater(place));
    }

    /// The opening of a place that doesn't listen failed at this moment.
    pub fn hear_open_failure(&mut self, place: Place, at: u64)
        ensures goes { (c : Command) (past : List Act) (s : ℕ) → AreOpenings c past s self.old → listens_at c place ≡ false
            → at ≡ moment past → AreOpenings c (acts.OpenFailed place ∷ past) s self.new }
        ensures fewer_opening { (c : Command) (past : List Act) (s : ℕ) → AreOpenings c past s self.old
            → first_call c past (places c s) ≡ calls.Open place → steps_in self.new < steps_in self.old }
        ensures fewer_settling { (c : Command) (past : List Act) (s : ℕ) → AreOpenings c past s self.old
            → first_call c past (places c s) ≡ calls.Settle place → steps_in self.new < steps_in self.old }
        ensures asked { (p : Place) → has_asked self.new p ≡ true → has_asked self.old p ≡ true }
    {
        self.take(OpeningStep::OpenFailed { place, at });
    }

    /// A door listens.
    pub fn hear_listening(&mut self, door: Place)
        ensures goes { (c : Command) (past : List Act) (s : ℕ) → AreOpenings c past s self.old
            → AreOpenings c (acts.Listening door ∷ past) s self.new }
        ensures fewer { (c : Command) (past : List Act) (s : ℕ) → AreOpenings c past s self.old
            → first_call c past (places c s) ≡ calls.Listen door → steps_in self.new < steps_in self.old }
        ensures asked { (p : Place) → has_asked self.new p ≡ true → has_asked self.old p ≡ true }
    {
        self.take(OpeningStep::Listening(door));
    }

    /// The listening of a door failed at this moment.
    pub fn hear_listen_failure(&mut self, door: Place, at: u64)
        ensures goes { (c : Command) (past : List Act) (s : ℕ) → AreOpenings c past s self.old → door.door ≡ true
            → at ≡ moment past → AreOpenings c (acts.ListenFailed door ∷ past) s self.new }
        ensures fewer { (c : Command) (past : List Act) (s : ℕ) → AreOpenings c past s self.old
            → first_call c past (places c s) ≡ calls.Listen door → steps_in self.new < steps_in self.old }
        ensures asked { (p : Place) → has_asked self.new p ≡ true → has_asked self.old p ≡ true }
    {
        self.take(OpeningStep::ListenFailed { door, at });
    }

    /// A peer was accepted for the place.
    pub fn hear_peer(&mut self, place: Place, peer: Peer)
        ensures goes { (c : Command) (past : List Act) (s : ℕ) → AreOpenings c past s self.old → place.door ≡ false
            → AreOpenings c (acts.Accepted place peer ∷ past) s self.new }
        ensures fewer { (c : Command) (past : List Act) (s : ℕ) (door : Place) → AreOpenings c past s self.old
            → first_call c past (places c s) ≡ calls.Accept door place → asked_to_accept c past door ≡ false
            → steps_in self.new < steps_in self.old }
        ensures asked { (p : Place) → has_asked self.new p ≡ true → has_asked self.old p ≡ true }
    {
        self.take(OpeningStep::Accepted { place, peer });
    }

    /// No peer stood at the door.
    pub fn hear_no_peer(&mut self, door: Place)
        ensures goes { (c : Command) (past : List Act) (s : ℕ) → AreOpenings c past s self.old
            → AreOpenings c (acts.NoPeer door ∷ past) s self.new }
        ensures fewer { (c : Command) (past : List Act) (s : ℕ) (place : Place) → AreOpenings c past s self.old
            → first_call c past (places c s) ≡ calls.Accept door place → asked_to_accept c past door ≡ false
            → steps_in self.new < steps_in self.old }
        ensures asked { (p : Place) → has_asked self.new p ≡ true → has_asked self.old p ≡ true }
    {
        self.take(OpeningStep::NoPeer(door));
    }

    /// An accepting failed at the door.
    pub fn hear_accept_failure(&mut self, door: Place)
        ensures goes { (c : Command) (past : List Act) (s : ℕ) → AreOpenings c past s self.old
            → AreOpenings c (acts.AcceptFailed door ∷ past) s self.new }
        ensures fewer { (c : Command) (past : List Act) (s : ℕ) (place : Place) → AreOpenings c past s self.old
            → first_call c past (places c s) ≡ calls.Accept door place → asked_to_accept c past door ≡ false
            → steps_in self.new < steps_in self.old }
        ensures asked { (p : Place) → has_asked self.new p ≡ true → has_asked self.old p ≡ true }
    {
        self.take(OpeningStep::AcceptFailed(door));
    }

    /// The place or door was closed.
    pub fn hear_closing(&mut self, thing: Place, why: Why)
        ensures goes { (c : Command) (past : List Act) (s : ℕ) → AreOpenings c past s self.old
            → AreOpenings c (acts.Closed thing why ∷ past) s self.new }
        ensures fewer { (c : Command) (past : List Act) (s : ℕ) → AreOpenings c past s self.old → held past thing ≡ true
            → is_of c s thing ≡ true → steps_in self.new < steps_in self.old }
        ensures fewer_refusing { (c : Command) (past : List Act) (s : ℕ) → AreOpenings c past s self.old
            → first_call c past (places c s) ≡ calls.Refuse thing → steps_in self.new < steps_in self.old }
        ensures fewer_serving { (c : Command) (past : List Act) (s : ℕ) → AreOpenings c past s self.old
            → first_call c past (places c s) ≡ calls.Serve thing → steps_in self.new < steps_in self.old }
        ensures asked { (p : Place) → has_asked self.new p ≡ true → has_asked self.old p ≡ true }
    {
        self.take(OpeningStep::Closed { thing, why });
    }

    /// The child of the place was reaped, whatever became of it, or there was none. It isn't asked for again.
    pub fn hear_reaping(&mut self, place: Place)
        ensures goes { (c : Command) (past : List Act) (s : ℕ) (end : Ending) → AreOpenings c past s self.old
            → AreOpenings c (acts.Reaped place end ∷ past) s self.new }
        ensures childless { (c : Command) (past : List Act) (s : ℕ) → AreOpenings c past s self.old → AreOpenings c past s self.new }
        ensures fewer { first_of child_by self.old ≡ Some place → steps_in self.new < steps_in self.old }
        ensures asked { (p : Place) → has_asked self.new p ≡ true → (has_asked self.old p || same_place place p) ≡ true }
    {
        self.take(OpeningStep::Reaped(place));
    }

    /// A wait has returned that names nothing yet.
    pub fn wake(&mut self)
        ensures goes { (c : Command) (past : List Act) (s : ℕ) (until : Option ℕ) (at : ℕ) → AreOpenings c past s self.old
            → AreOpenings c (acts.Turn until at (kept []) false ∷ past) s self.new }
        ensures asked { (p : Place) → has_asked self.new p ≡ true → has_asked self.old p ≡ true }
    {
        self.take(OpeningStep::Woken);
    }

    /// The last turn names this half too.
    pub fn hear_entry(&mut self, entry: ReadyAt)
        ensures goes { (c : Command) (past : List Act) (s : ℕ) (until : Option ℕ) (at : ℕ) (names : List Entry)
            → AreOpenings c (acts.Turn until at (kept names) false ∷ past) s self.old
            → AreOpenings c (acts.Turn until at (kept (names ++ entry ∷ [])) false ∷ past) s self.new }
        ensures asked { (p : Place) → has_asked self.new p ≡ true → has_asked self.old p ≡ true }
    {
        if self.is_of_session(entry.place) {
            self.take(OpeningStep::Named(entry));
        }
    }

    /// Whether the thing has the number of their session.
    fn is_of_session(&self, thing: Place) -> bool
        ensures { result ≡ of_session thing self.now }
    {
        match self.as_slice() {
            [] => true,
            [first, ..] => thing.session == first.place.session,
        }
    }

    /// A law: an act that doesn't touch the openings leaves them, and so does a stop that a turn tells of.
    pub fn stay_unmoved(&self)
        ensures stopped { (c : Command) (past : List Act) (s : ℕ) (until : Option ℕ) (at : ℕ) (ready : Listed)
            → AreOpenings c (acts.Turn until at ready false ∷ past) s self.now
            → AreOpenings c (acts.Turn until at ready true ∷ past) s self.now }
        ensures elsewhere { (c : Command) (past : List Act) (s : ℕ) (act : Act) → AreOpenings c past s self.now
            → touches c s act ≡ false → AreOpenings c (act ∷ past) s self.now }
    {}

    /// One step of each.
    fn take(&mut self, step: OpeningStep)
        ensures { TookEach step self.old self.new }
    {
        take_each(&mut self.items[..self.count], step);
        self.summary = self.summary.after(step, &self.items[..self.count]);
    }
}

fn of_places(config: &Config, places: &[Place]) -> Openings
    requires few { length places.now ≤ 4 }
    requires no_doors { All (λ p. p.door ≡ false) places.now }
    ensures stands { Each config.now [] places.now result }
    ensures unasked { (p : Place) → has_asked result p ≡ false }
{
    let mut openings = Openings::none(config);
    for place in places {
        openings.push(Opening::new(config, *place));
    }
    openings
}

fn take_each(openings: &mut [Opening], step: OpeningStep)
    ensures { TookEach step openings.old openings.new }
{
    for opening in openings.iter_mut() {
        opening.take(step);
    }
}

fn most_calls(mut openings: &[Opening]) -> usize
    requires { length openings.now ≤ 4 }
    ensures sum { result ≡ most_in openings.entry.now }
    ensures within { result ≤ 28 }
{
    let mut calls = 0;
    while let [opening, rest @ ..] = openings {
        calls += opening.most_calls();
        openings = rest;
    }
    calls
}

fn first_held(mut openings: &[Opening]) -> Option<Place>
    ensures { result ≡ first_of held_by openings.entry.now }
{
    while let [opening, rest @ ..] = openings {
        if let Some(place) = opening.held_thing() {
            return Some(place);
        }
        openings = rest;
    }
    None
}

fn first_child(mut openings: &[Opening]) -> Option<Place>
    ensures { result ≡ first_of child_by openings.entry.now }
{
    while let [opening, rest @ ..] = openings {
        if let Some(place) = opening.child() {
            return Some(place);
        }
        openings = rest;
    }
    None
}
