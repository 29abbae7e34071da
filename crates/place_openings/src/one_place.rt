// The opening of one place: how far it and its own door have come, and what is called for there.
ghost use Rattle.std.specs.Prelude.{◌≡◌, ◌<◌, ◌||◌, ◌&&◌, ℕ, Bool, List, Option, ◌∷◌, ◌++◌, [], true, false};
ghost use Rattle.relay_model.specs.{Place, ReadyAt as Entry, Config as Command, Act, ChildEnd as Ending, listens_at, door_of, same_bool, same_half};
ghost use Rattle.relay_model.specs.{same_place, now as moment, stage, holds_at, is_out_of_tries, opening_call, listening_call, peer_call, place_call};
ghost use Rattle.relay_model.specs.declared.acts.Act.TheVariants as acts;
ghost use Rattle.relay_model.specs.declared.places.Half.TheVariants.{ToRead};
ghost use Rattle.retry_plan.specs.{PlanIs};
ghost use Rattle.place_openings.specs.Moves.{Alike};
ghost use Rattle.place_openings.specs.Queries.{ready_by, held_by, child_by, peer_by, gave_up};
ghost use Rattle.place_openings.specs.Stands.{IsOpening, IsTried, kept, tried_at};
ghost use Rattle.place_openings.specs.Steps.{stage_weight, steps_of, most_of, is_place, is_own_door, asks_child, asked_by};
ghost use Rattle.place_openings.specs.Tried.{try_call, call_by, is_end_of_tries};

use command_places::{has_own_door, is_program, listens_at, medium_of, options_of};
use peer_filter::Filter;
use relay_model::{Call, Config, Half, Peer, Place, ReadyAt, Stage, Why};
use retry_plan::{NextTry, Plan};

/// How far a place and its own door have come, and what was tried and asked there since the last turn. The tries are
/// the door's, where the place has one.
#[derive(Clone, Copy)]
pub struct Opening {
    pub place: Place,
    pub listens: bool,
    pub has_door: bool,
    pub is_child: bool,
    pub stage: Stage,
    pub door: Stage,
    pub woken: bool,
    pub armed: bool,
    pub asked: bool,
    pub tried: bool,
    pub closed: bool,
    pub asked_child: bool,
    pub plan: Plan,
    pub filter: Filter,
}

impl Opening {
    /// Nothing happened at the place yet.
    pub fn new(config: &Config, place: Place) -> Opening
        ensures stands { place.door ≡ false → IsOpening config.now [] place result }
        ensures unasked { result.asked_child ≡ false }
    {
        let options = options_of(config, place);
        let tries = options.tries;
        Opening {
            place,
            listens: listens_at(config, place),
            has_door: has_own_door(config, place),
            is_child: is_program(medium_of(config, place)),
            stage: Stage::Untried,
            door: Stage::Untried,
            woken: false,
            armed: false,
            asked: false,
            tried: false,
            closed: false,
            asked_child: false,
            plan: Plan::new(tries.retry, tries.forever, tries.interval),
            filter: Filter::new(options),
        }
    }

    /// How many calls the place and its own door take at most between two turns: an opening or a settling, a closing, and
    /// the question what became of a child; at the door a listening, a closing, and an accepting, after which the peer may
    /// be refused.
    pub fn most_calls(&self) -> usize
        ensures { result ≡ most_of self.now }
    {
        if self.has_door { 7 } else { 3 }
    }

    // ---- what is called for

    fn is_own_door(&self, thing: Place) -> bool
        ensures { result ≡ (self.now.has_door && same_place thing (door_of self.now.place)) }
    {
        self.has_door && thing.is(self.place.own_door())
    }

    /// Where tries are made: at the own door, or at the place itself.
    fn tried_place(&self) -> Place
        ensures { result ≡ tried_at self.now.has_door self.now.place }
    {
        if self.has_door {
            self.place.own_door()
        } else {
            self.place
        }
    }

    /// A further try, once it is due and while tries are left.
    fn try_again(&self, wanted: Call, at: u64) -> Call
        ensures { (retry : ℕ) (forever : Bool) (interval : ℕ) (failures : List ℕ)
            → PlanIs retry forever interval failures self.now.plan
            → result ≡ try_call retry forever interval failures at wanted }
    {
        once_due(self.plan.next(), wanted, at)
    }

    /// Whether the place has an own door, or has none, as it is asked for, and no try is left there.
    pub fn gave_up(&self, has_door: bool) -> bool
        ensures { (c : Command) (past : List Act) (p : Place) → IsTried c past p self.now → result ≡ gave_up c past has_door p }
    {
        (self.has_door == has_door) & self.gives_up()
    }

    /// Whether no try is left.
    fn gives_up(&self) -> bool
        ensures { (retry : ℕ) (forever : Bool) (interval : ℕ) (failures : List ℕ)
            → PlanIs retry forever interval failures self.now.plan → result ≡ is_out_of_tries retry forever failures }
    {
        is_end_of_tries(self.plan.next())
    }

    /// Whether the place is ready: one that doesn't listen where it was opened, another one where it is held by a
    /// permitted peer and its own door has served.
    pub fn is_ready(&self) -> bool
        ensures { result ≡ ready_by self.now }
    {
        match self.stage {
            Stage::Usable => !self.listens,
            Stage::Met(peer) => {
                self.listens
                    && self.filter.permits(peer)
                    && (!self.has_door || self.door.has_served())
            }
            _ => false,
        }
    }

    /// An opening, a settling once a turn named the place, or a further try.
    fn opening_call(&self, at: u64) -> Call
        ensures { (c : Command) (past : List Act) (p : Place) → IsOpening c past p self.now
            → self.now.has_door ≡ false → at ≡ moment past → result ≡ opening_call c past p (stage past p) }
    {
        match self.stage {
            Stage::Untried => Call::Open(self.place),
            Stage::Unsettled if self.woken => Call::Settle(self.place),
            Stage::Failed => self.try_again(Call::Open(self.place), at),
            _ => Call::Nothing,
        }
    }

    /// A listening, a further try of one, or an accepting where the door is armed.
    fn listening_call(&self, at: u64) -> Call
        ensures { (c : Command) (past : List Act) (p : Place) → IsOpening c past p self.now
            → self.now.has_door ≡ true → at ≡ moment past
            → result ≡ listening_call c past (door_of p) p (stage past (door_of p)) }
    {
        let door = self.place.own_door();
        match self.door {
            Stage::Untried => Call::Listen(door),
            Stage::Failed => self.try_again(Call::Listen(door), at),
            Stage::Waiting if self.armed => Call::Accept {
                door,
                place: self.place,
            },
            _ => Call::Nothing,
        }
    }

    /// A peer that isn't permitted is refused; after a permitted one the own door has served.
    fn peer_call(&self, at: u64) -> Call
        ensures { (c : Command) (past : List Act) (p : Place) → IsOpening c past p self.now
            → self.now.has_door ≡ true → at ≡ moment past → result ≡ peer_call c past p (stage past p) }
    {
        match self.stage {
            Stage::Met(peer) if !self.filter.permits(peer) => Call::Refuse(self.place),
            Stage::Met(_) if self.door.is_held() => Call::Serve(self.place.own_door()),
            Stage::Met(_) => Call::Nothing,
            _ => self.listening_call(at),
        }
    }

    /// What the place calls for at this moment. With `fork` a left place calls for nothing, since its peer comes by
    /// the program door.
    pub fn call(&self, at: u64) -> Call
        ensures { (c : Command) (past : List Act) (p : Place) → IsOpening c past p self.now → at ≡ moment past
            → result ≡ place_call c past p }
    {
        if self.has_door {
            self.peer_call(at)
        } else if self.listens {
            Call::Nothing
        } else {
            self.opening_call(at)
        }
    }

    /// The place, or else its own door, where it is held.
    pub fn held_thing(&self) -> Option<Place>
        ensures { result ≡ held_by self.now }
    {
        if self.stage.is_held() {
            return Some(self.place);
        }
        if self.has_door && self.door.is_held() {
            return Some(self.place.own_door());
        }
        None
    }

    /// The place, where it is a child that was closed and wasn't asked for yet.
    pub fn child(&self) -> Option<Place>
        ensures { result ≡ child_by self.now }
    {
        if self.is_child && self.closed && !self.asked_child {
            Some(self.place)
        } else {
            None
        }
    }

    /// The permitted peer that holds the place.
    pub fn peer(&self) -> Option<Peer>
        ensures { result ≡ peer_by self.now.filter self.now.stage }
    {
        match self.stage {
            Stage::Met(peer) if self.filter.permits(peer) => Some(peer),
            _ => None,
        }
    }

    // ---- steps

    /// The place was opened.
    pub fn hear_opening(&mut self, place: Place)
        ensures goes { (c : Command) (past : List Act) (p : Place) → IsOpening c past p self.old
            → IsOpening c (acts.Opened place ∷ past) p self.new }
        ensures apart { is_place place self.old ≡ false → is_own_door place self.old ≡ false
            → self.new ≡ self.old }
        ensures fewer { is_place place self.old ≡ true → is_own_door place self.old ≡ false
            → stage_weight self.old.stage self.old.woken self.old.tried ≡ 2
            → steps_of self.new < steps_of self.old }
        ensures asked { (p : Place) → asked_by p self.new ≡ asked_by p self.old }
    {
        self.stage = self.stage.after(place.is(self.place), Stage::Usable);
        self.door = self.door.after(self.is_own_door(place), Stage::Usable);
    }

    /// The opening of the place is under way.
    pub fn hear_later(&mut self, place: Place)
        ensures goes { (c : Command) (past : List Act) (p : Place) → IsOpening c past p self.old
            → IsOpening c (acts.OpenLater place ∷ past) p self.new }
        ensures apart { is_place place self.old ≡ false → is_own_door place self.old ≡ false
            → self.new ≡ self.old }
        ensures fewer { is_place place self.old ≡ true → is_own_door place self.old ≡ false
            → stage_weight self.old.stage self.old.woken self.old.tried ≡ 2
            → steps_of self.new < steps_of self.old }
        ensures asked { (p : Place) → asked_by p self.new ≡ asked_by p self.old }
    {
        self.stage = self.stage.after(place.is(self.place), Stage::Unsettled);
        self.door = self.door.after(self.is_own_door(place), Stage::Unsettled);
        self.woken = self.woken && !place.is(self.place);
    }

    /// The opening of a place that doesn't listen failed at this moment.
    pub fn hear_open_failure(&mut self, place: Place, at: u64)
        ensures goes { (c : Command) (past : List Act) (p : Place) → IsOpening c past p self.old
            → listens_at c place ≡ false → at ≡ moment past
            → IsOpening c (acts.OpenFailed place ∷ past) p self.new }
        ensures apart { is_place place self.old ≡ false → is_own_door place self.old ≡ false
            → self.new ≡ self.old }
        ensures fewer { is_place place self.old ≡ true → is_own_door place self.old ≡ false
            → self.old.has_door ≡ false → stage_weight self.old.stage self.old.woken self.old.tried ≡ 2
            → steps_of self.new < steps_of self.old }
        ensures asked { (p : Place) → asked_by p self.new ≡ asked_by p self.old }
    {
        self.stage = self.stage.after(place.is(self.place), Stage::Failed);
        self.door = self.door.after(self.is_own_door(place), Stage::Failed);
        if place.is(self.tried_place()) {
            self.plan.failed(at);
            self.tried = true;
        }
    }

    /// A door listens.
    pub fn hear_listening(&mut self, door: Place)
        ensures goes { (c : Command) (past : List Act) (p : Place) → IsOpening c past p self.old
            → IsOpening c (acts.Listening door ∷ past) p self.new }
        ensures apart { is_place door self.old ≡ false → is_own_door door self.old ≡ false
            → self.new ≡ self.old }
        ensures fewer { is_place door self.old ≡ false → is_own_door door self.old ≡ true
            → stage_weight self.old.door false self.old.tried ≡ 2
            → steps_of self.new < steps_of self.old }
        ensures asked { (p : Place) → asked_by p self.new ≡ asked_by p self.old }
    {
        self.stage = self.stage.after(door.is(self.place), Stage::Waiting);
        self.door = self.door.after(self.is_own_door(door), Stage::Waiting);
        self.armed = self.is_own_door(door) | self.armed;
    }

    /// The listening of a door failed at this moment.
    pub fn hear_listen_failure(&mut self, door: Place, at: u64)
        ensures goes { (c : Command) (past : List Act) (p : Place) → IsOpening c past p self.old → door.door ≡ true
            → at ≡ moment past → IsOpening c (acts.ListenFailed door ∷ past) p self.new }
        ensures apart { is_place door self.old ≡ false → is_own_door door self.old ≡ false
            → self.new ≡ self.old }
        ensures fewer { is_place door self.old ≡ false → is_own_door door self.old ≡ true
            → stage_weight self.old.door false self.old.tried ≡ 2
            → steps_of self.new < steps_of self.old }
        ensures asked { (p : Place) → asked_by p self.new ≡ asked_by p self.old }
    {
        self.stage = self.stage.after(door.is(self.place), Stage::Failed);
        self.door = self.door.after(self.is_own_door(door), Stage::Failed);
        if door.is(self.tried_place()) {
            self.plan.failed(at);
            self.tried = true;
        }
    }

    /// A peer was accepted for the place.
    #[tactic(auto, using(crate::proofs::PlaceLemmas::accepts_for))]
    pub fn hear_peer(&mut self, place: Place, peer: Peer)
        ensures goes { (c : Command) (past : List Act) (p : Place) → IsOpening c past p self.old → place.door ≡ false
            → IsOpening c (acts.Accepted place peer ∷ past) p self.new }
        ensures apart { is_place place self.old ≡ false → is_own_door place self.old ≡ false
            → self.new ≡ self.old }
        ensures fewer { is_place place self.old ≡ true → is_own_door place self.old ≡ false
            → self.old.has_door ≡ true → self.old.asked ≡ false → steps_of self.new < steps_of self.old }
        ensures asked { (p : Place) → asked_by p self.new ≡ asked_by p self.old }
    {
        self.stage = self.stage.after(place.is(self.place), Stage::Met(peer));
        self.door = self.door.after(self.is_own_door(place), Stage::Met(peer));
        self.asked = place.is(self.place) | self.asked;
    }

    /// No peer stood at the door.
    pub fn hear_no_peer(&mut self, door: Place)
        ensures goes { (c : Command) (past : List Act) (p : Place) → IsOpening c past p self.old
            → IsOpening c (acts.NoPeer door ∷ past) p self.new }
        ensures apart { is_place door self.old ≡ false → is_own_door door self.old ≡ false
            → self.new ≡ self.old }
        ensures fewer { is_place door self.old ≡ false → is_own_door door self.old ≡ true
            → self.old.asked ≡ false → steps_of self.new < steps_of self.old }
        ensures asked { (p : Place) → asked_by p self.new ≡ asked_by p self.old }
        ensures still { Alike self.old self.new }
    {
        let is_here = self.is_own_door(door);
        self.armed = self.armed && !is_here;
        self.asked = self.asked || is_here;
    }

    /// An accepting failed at the door.
    pub fn hear_accept_failure(&mut self, door: Place)
        ensures goes { (c : Command) (past : List Act) (p : Place) → IsOpening c past p self.old
            → IsOpening c (acts.AcceptFailed door ∷ past) p self.new }
        ensures apart { is_place door self.old ≡ false → is_own_door door self.old ≡ false
            → self.new ≡ self.old }
        ensures fewer { is_place door self.old ≡ false → is_own_door door self.old ≡ true
            → self.old.asked ≡ false → steps_of self.new < steps_of self.old }
        ensures asked { (p : Place) → asked_by p self.new ≡ asked_by p self.old }
        ensures still { Alike self.old self.new }
    {
        self.asked = self.is_own_door(door) | self.asked;
    }

    /// The place or door was closed.
    pub fn hear_closing(&mut self, thing: Place, why: Why)
        ensures goes { (c : Command) (past : List Act) (p : Place) → IsOpening c past p self.old
            → IsOpening c (acts.Closed thing why ∷ past) p self.new }
        ensures apart { is_place thing self.old ≡ false → is_own_door thing self.old ≡ false
            → self.new ≡ self.old }
        ensures fewer_places { is_place thing self.old ≡ true → is_own_door thing self.old ≡ false
            → holds_at self.old.stage ≡ true → steps_of self.new < steps_of self.old }
        ensures fewer_doors { is_place thing self.old ≡ false → is_own_door thing self.old ≡ true
            → holds_at self.old.door ≡ true → steps_of self.new < steps_of self.old }
        ensures asked { (p : Place) → asked_by p self.new ≡ asked_by p self.old }
    {
        self.stage = self.stage.after(thing.is(self.place), Stage::Gone(why));
        self.door = self.door.after(self.is_own_door(thing), Stage::Gone(why));
        self.closed = self.closed || thing.is(self.place);
    }

    /// The child of the place was reaped, or there was none.
    pub fn hear_reaping(&mut self, place: Place)
        ensures goes { (c : Command) (past : List Act) (p : Place) (end : Ending) → IsOpening c past p self.old
            → IsOpening c (acts.Reaped place end ∷ past) p self.new }
        ensures childless { (c : Command) (past : List Act) (p : Place) → IsOpening c past p self.old
            → IsOpening c past p self.new }
        ensures apart { asks_child place self.old ≡ false → self.new ≡ self.old }
        ensures fewer { asks_child place self.old ≡ true → steps_of self.new < steps_of self.old }
        ensures asked { (p : Place) → asked_by p self.new ≡ true → (asked_by p self.old || same_place place p) ≡ true }
        ensures still { Alike self.old self.new }
    {
        self.asked_child = self.asked_child || place.is(self.place);
    }

    /// A wait has returned that names nothing yet.
    pub fn wake(&mut self)
        ensures goes { (c : Command) (past : List Act) (p : Place) (until : Option ℕ) (at : ℕ)
            → IsOpening c past p self.old
            → IsOpening c (acts.Turn until at (kept []) false ∷ past) p self.new }
        ensures asked { (p : Place) → asked_by p self.new ≡ asked_by p self.old }
        ensures still { Alike self.old self.new }
    {
        self.asked = false;
        self.tried = false;
    }

    /// The last turn names this half too.
    pub fn hear_entry(&mut self, entry: ReadyAt)
        ensures goes { (c : Command) (past : List Act) (p : Place) (until : Option ℕ) (at : ℕ) (names : List Entry)
            → IsOpening c (acts.Turn until at (kept names) false ∷ past) p self.old
            → IsOpening c (acts.Turn until at (kept (names ++ entry ∷ [])) false ∷ past) p self.new }
        ensures asked { (p : Place) → asked_by p self.new ≡ asked_by p self.old }
        ensures still { Alike self.old self.new }
    {
        let is_armed = self.is_own_door(entry.place) & is_to_read(entry.half);
        self.woken |= entry.place.is(self.place);
        self.armed |= is_armed;
    }
}

/// The call, once it is due.
fn once_due(next: NextTry, wanted: Call, at: u64) -> Call
    ensures { result ≡ call_by at wanted next }
{
    match next {
        NextTry::Now => wanted,
        NextTry::At(due) => { if due <= at { wanted } else { Call::TryAt(due) } }
        NextTry::Never | NextTry::GiveUp { .. } => Call::Nothing,
    }
}

fn is_end_of_tries(next: NextTry) -> bool
    ensures { result ≡ is_end_of_tries next }
{
    match next {
        NextTry::GiveUp { .. } => true,
        _ => false,
    }
}

fn is_to_read(half: Half) -> bool
    ensures { result ≡ same_half half ToRead }
{
    match half {
        Half::ToRead => true,
        Half::ToWrite => false,
    }
}
