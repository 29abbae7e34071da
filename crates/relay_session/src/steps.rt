// What each answer makes of the state of a session.
ghost use Rattle.std.specs.Prelude.{◌≡◌, ℕ, ◌+◌, ◌<◌, ◌≤◌, ◌||◌, ◌∷◌, ◌++◌, [], List, Option, Some, None, is_some, take, true, false, vec_len};
ghost use Rattle.relay_model.specs.{Act, ChildEnd as Ending, Why as Cause, Place, same_place, cause, Config as Command, ReadyAt as Entry};
ghost use Rattle.relay_model.specs.declared.acts.Act.TheVariants as acts;
ghost use Rattle.relay_model.specs.declared.acts.Why.TheVariants as whys;
ghost use Rattle.session_direction.specs.{listed};
ghost use Rattle.relay_session.specs.declared.wishes.Wish.TheVariants as wishes;
ghost use Rattle.relay_session.specs.declared.wishes.Answer.TheVariants as answers;
ghost use Rattle.relay_session.specs.Wishes.{Fits, FitsRead, act_of, read_act, reaps_at};
ghost use Rattle.place_openings.specs.{has_asked};
ghost use Rattle.relay_session.specs.Lanes.{waiting_at};
ghost use Rattle.relay_session.specs.Transfers.{transfer_act};

use crate::states::State;
use crate::transfers::Transfer;
use crate::wishes::{Answer, Wish};
use relay_model::{Peer, Place, ReadyAt, ReadyList, Why};

impl State {
    ghost use Rattle.relay_session.specs.Endings.{Quiet, Ends};
    ghost use Rattle.relay_session.specs.States.{Ground, Fields, Allowed, steps_of};
    ghost use Rattle.relay_session.specs.Steps.{Absorbed, AbsorbedBy, Heeds, TakesIn, Transfers, waiting_for};

    // ---- answers

    /// Takes the answer to a wished call in.
    pub fn hear(&mut self, wish: Wish, answer: Answer<'_>)
        requires { Fits wish (waiting_for self.old wish) answer }
        ensures goes { (c : Command) (n : ℕ) (past : List Act) (s : ℕ) → Fields c n past s self.old
            → Allowed c n past s self.old wish
            → AbsorbedBy c n past s (act_of wish (waiting_for self.old wish) answer.entry) self.old self.new }
        ensures childless { (c : Command) (n : ℕ) (past : List Act) (s : ℕ) → Fields c n past s self.old
            → Allowed c n past s self.old wish → answer.entry ≡ answers.NoChild
            → Fields c n past s self.new × (steps_of self.new < steps_of self.old) }
        ensures over { (c : Command) (n : ℕ) (past : List Act) (s : ℕ) → Allowed c n past s self.old wish
            → is_some self.old.ending ≡ true → self.new.ending ≡ self.old.ending }
        ensures asked { (p : Place) → has_asked self.new.openings p ≡ true → (has_asked self.old.openings p || reaps_at wish p) ≡ true }
    {
        match (wish, answer) {
            (Wish::Open(place), Answer::Opened) => self.hear_opening(place),
            (Wish::Open(place), Answer::Later) => self.hear_later(place),
            (Wish::Open(place), Answer::Failed) => self.hear_open_failure(place),
            (Wish::Settle(place), Answer::Opened) => self.hear_opening(place),
            (Wish::Settle(place), Answer::Later) => self.hear_later(place),
            (Wish::Settle(place), Answer::Failed) => self.hear_open_failure(place),
            (Wish::Listen(door), Answer::Listening) => self.hear_listening(door),
            (Wish::Listen(door), Answer::Failed) => self.hear_listen_failure(door),
            (Wish::Accept { door, place }, Answer::Accepted(peer)) => {
                self.hear_accepting(door, place, peer);
            }
            (Wish::Accept { door, place }, Answer::NoPeer) => self.hear_no_peer(door, place),
            (Wish::Accept { door, place }, Answer::Failed) => self.hear_accept_failure(door, place),
            (Wish::Read { place, .. }, Answer::Bytes(bytes)) => {
                self.hear_transfer(place, Transfer::Read(bytes));
            }
            (Wish::Read { place, .. }, Answer::Empty) => self.hear_transfer(
                place,
                Transfer::ReadEmpty,
            ),
            (Wish::Read { place, .. }, Answer::End) => self.hear_transfer(place, Transfer::ReadEnd),
            (Wish::Read { place, .. }, Answer::NotYet) => {
                self.hear_transfer(place, Transfer::ReadNotYet);
            }
            (Wish::Read { place, .. }, Answer::Failed) => {
                self.hear_transfer(place, Transfer::ReadFailed);
            }
            (Wish::Write(place), Answer::Took(count)) => {
                self.hear_transfer(place, Transfer::Wrote(count));
            }
            (Wish::Write(place), Answer::NotYet) => self.hear_transfer(
                place,
                Transfer::WriteNotYet,
            ),
            (Wish::Write(place), Answer::Failed) => self.hear_transfer(
                place,
                Transfer::WriteFailed,
            ),
            (Wish::Send(place), Answer::Took(count)) => {
                self.hear_transfer(place, Transfer::Wrote(count));
            }
            (Wish::Send(place), Answer::NotYet) => self.hear_transfer(place, Transfer::WriteNotYet),
            (Wish::Send(place), Answer::Failed) => self.hear_transfer(place, Transfer::WriteFailed),
            (Wish::Shut(place, how), Answer::Done) => self.hear_transfer(
                place,
                Transfer::Shut(how),
            ),
            (Wish::Shut(place, how), Answer::Failed) => {
                self.hear_transfer(place, Transfer::ShutFailed(how));
            }
            (Wish::Close(thing, why), Answer::Done) => self.hear_closing(thing, why),
            (Wish::Reap(place), Answer::Reaped(_end)) => self.hear_reaping(place),
            (Wish::Reap(place), Answer::NoChild) => self.hear_childless(place),
            _ => {}
        }
    }

    /// Takes in that the first `count` bytes of this block answer a wished read. Where they may wait in it, the block is
    /// kept, and another takes the place of it.
    pub fn hear_block(&mut self, wish: Wish, block: &mut Vec<u8>, count: usize)
        requires within { count ≤ vec_len block.old }
        requires fits { FitsRead wish count }
        ensures goes { (c : Command) (n : ℕ) (past : List Act) (s : ℕ) → Fields c n past s self.old
            → Allowed c n past s self.old wish
            → AbsorbedBy c n past s (read_act wish (take count block.old.items)) self.old self.new }
        ensures over { (c : Command) (n : ℕ) (past : List Act) (s : ℕ) → Allowed c n past s self.old wish
            → is_some self.old.ending ≡ true → self.new.ending ≡ self.old.ending }
        ensures asked { (p : Place) → has_asked self.new.openings p ≡ true → has_asked self.old.openings p ≡ true }
        ensures block { vec_len block.new ≡ vec_len block.old }
    {
        if let Wish::Read { place, .. } = wish {
            self.lanes.hear_block(place, block, count);
            self.openings.stay_unmoved();
            // what passes ends nothing
            self.moved = self.clock;
        }
    }

    // ---- openings and closings

    /// The place was opened.
    pub fn hear_opening(&mut self, place: Place)
        ensures goes { TakesIn (wishes.Open place) (acts.Opened place) self.old self.new }
        ensures settles { TakesIn (wishes.Settle place) (acts.Opened place) self.old self.new }
        ensures asked { (p : Place) → has_asked self.new.openings p ≡ true → has_asked self.old.openings p ≡ true }
    {
        self.openings.hear_opening(place);
        self.lanes.hear_opening(place);
        self.moved = self.clock;
        self.ending = self.cause();
    }

    /// The opening of the place is under way.
    pub fn hear_later(&mut self, place: Place)
        ensures goes { TakesIn (wishes.Open place) (acts.OpenLater place) self.old self.new }
        ensures settles { TakesIn (wishes.Settle place) (acts.OpenLater place) self.old self.new }
        ensures asked { (p : Place) → has_asked self.new.openings p ≡ true → has_asked self.old.openings p ≡ true }
    {
        self.openings.hear_later(place);
        self.lanes.stay();
        self.ending = self.cause();
    }

    /// The opening of the place failed.
    pub fn hear_open_failure(&mut self, place: Place)
        ensures goes { TakesIn (wishes.Open place) (acts.OpenFailed place) self.old self.new }
        ensures settles { TakesIn (wishes.Settle place) (acts.OpenFailed place) self.old self.new }
        ensures asked { (p : Place) → has_asked self.new.openings p ≡ true → has_asked self.old.openings p ≡ true }
    {
        self.openings.hear_open_failure(place, self.clock);
        self.lanes.stay();
        self.ending = self.cause();
    }

    /// The door listens.
    pub fn hear_listening(&mut self, door: Place)
        ensures goes { TakesIn (wishes.Listen door) (acts.Listening door) self.old self.new }
        ensures asked { (p : Place) → has_asked self.new.openings p ≡ true → has_asked self.old.openings p ≡ true }
    {
        self.openings.hear_listening(door);
        self.lanes.stay();
        self.ending = self.cause();
    }

    /// The listening failed.
    pub fn hear_listen_failure(&mut self, door: Place)
        ensures goes { TakesIn (wishes.Listen door) (acts.ListenFailed door) self.old self.new }
        ensures asked { (p : Place) → has_asked self.new.openings p ≡ true → has_asked self.old.openings p ≡ true }
    {
        self.openings.hear_listen_failure(door, self.clock);
        self.lanes.stay();
        self.ending = self.cause();
    }

    /// A peer was accepted at the door; the place is its.
    pub fn hear_accepting(&mut self, door: Place, place: Place, peer: Peer)
        ensures goes { TakesIn (wishes.Accept door place) (acts.Accepted place peer) self.old self.new }
        ensures asked { (p : Place) → has_asked self.new.openings p ≡ true → has_asked self.old.openings p ≡ true }
    {
        self.openings.hear_peer(place, peer);
        self.lanes.hear_opening(place);
        self.moved = self.clock;
        self.ending = self.cause();
    }

    /// No peer has come to the door yet.
    pub fn hear_no_peer(&mut self, door: Place, place: Place)
        ensures goes { TakesIn (wishes.Accept door place) (acts.NoPeer door) self.old self.new }
        ensures asked { (p : Place) → has_asked self.new.openings p ≡ true → has_asked self.old.openings p ≡ true }
    {
        self.openings.hear_no_peer(door);
        self.lanes.stay();
        self.ending = self.cause();
    }

    /// The accepting failed, which ends the session.
    pub fn hear_accept_failure(&mut self, door: Place, place: Place)
        ensures goes { TakesIn (wishes.Accept door place) (acts.AcceptFailed door) self.old self.new }
        ensures asked { (p : Place) → has_asked self.new.openings p ≡ true → has_asked self.old.openings p ≡ true }
    {
        self.openings.hear_accept_failure(door);
        self.lanes.stay();
        self.ending = Some(Why::AcceptFailed);
    }

    /// A read, a write or a shut was answered at the place.
    pub fn hear_transfer(&mut self, place: Place, transfer: Transfer<'_>)
        ensures goes { (c : Command) (n : ℕ) (past : List Act) (s : ℕ) → Fields c n past s self.old → self.old.ending ≡ None
            → Transfers c past s self.old.lanes place transfer.entry
            → Absorbed c n past s (transfer_act place (waiting_at self.old.lanes place)
            transfer.entry) self.old self.new }
        ensures asked { (p : Place) → has_asked self.new.openings p ≡ true → has_asked self.old.openings p ≡ true }
    {
        self.lanes.hear(self.clock, place, transfer);
        self.openings.stay_unmoved();
        if transfer.moves_bytes() {
            // what passes ends nothing
            self.moved = self.clock;
        } else {
            self.faulted |= transfer.is_fault();
            self.ending = self.cause();
        }
    }

    /// What stood there was closed.
    pub fn hear_closing(&mut self, thing: Place, why: Why)
        ensures goes { TakesIn (wishes.Close thing why) (acts.Closed thing why) self.old self.new }
        ensures over { is_some self.old.ending ≡ true → self.new.ending ≡ self.old.ending }
        ensures asked { (p : Place) → has_asked self.new.openings p ≡ true → has_asked self.old.openings p ≡ true }
    {
        self.openings.hear_closing(thing, why);
        self.lanes.stay();
        self.ending = self.ending_after();
    }

    /// What has ended the session, or does so now.
    fn ending_after(&self) -> Option<Why>
        ensures ended { (why : Cause) → self.now.ending ≡ Some why → result ≡ Some why }
        ensures going { (c : Command) (past : List Act) (s : ℕ) → self.now.ending ≡ None → Ground c past s self.now
            → Quiet c past s → result ≡ cause c past s }
        ensures over { is_some self.now.ending ≡ true → result ≡ self.now.ending }
    {
        match self.ending {
            Some(why) => Some(why),
            None => self.cause(),
        }
    }

    /// What is known of the child of a closed place.
    pub fn hear_reaping(&mut self, place: Place)
        ensures goes { (c : Command) (n : ℕ) (past : List Act) (s : ℕ) (end : Ending) → Fields c n past s self.old
            → Allowed c n past s self.old (wishes.Reap place)
            → Absorbed c n past s (acts.Reaped place end) self.old self.new }
        ensures same { self.new.ending ≡ self.old.ending }
        ensures asked { (p : Place) → has_asked self.new.openings p ≡ true → (has_asked self.old.openings p || same_place place p) ≡ true }
    {
        self.openings.hear_reaping(place);
        self.lanes.stay();
    }

    /// The closed place has no child.
    pub fn hear_childless(&mut self, place: Place)
        ensures goes { (c : Command) (n : ℕ) (past : List Act) (s : ℕ) → Fields c n past s self.old
            → Allowed c n past s self.old (wishes.Reap place)
            → Fields c n past s self.new × (steps_of self.new < steps_of self.old) }
        ensures same { self.new.ending ≡ self.old.ending }
        ensures asked { (p : Place) → has_asked self.new.openings p ≡ true → (has_asked self.old.openings p || same_place place p) ≡ true }
    {
        self.openings.hear_reaping(place);
    }

    // ---- turns

    /// A wait has returned that names nothing yet.
    pub fn wake(&mut self, at: u64)
        ensures goes { (c : Command) (past : List Act) (s : ℕ) (until : Option ℕ) → Ground c past s self.old → Quiet c past s
            → Heeds c (acts.Turn until at (listed []) false ∷ past) s self.new }
        ensures asked { (p : Place) → has_asked self.new.openings p ≡ true → has_asked self.old.openings p ≡ true }
    {
        self.begin_turn(at);
        self.ending = self.cause();
    }

    /// The same, before it is worked out whether anything ends the session.
    fn begin_turn(&mut self, at: u64)
        ensures goes { (c : Command) (past : List Act) (s : ℕ) (until : Option ℕ) → Ground c past s self.old
            → Ground c (acts.Turn until at (listed []) false ∷ past) s self.new }
        ensures asked { (p : Place) → has_asked self.new.openings p ≡ true → has_asked self.old.openings p ≡ true }
    {
        self.openings.wake();
        self.lanes.wake();
        self.clock = at;
    }

    /// The last turn names this half too.
    pub fn hear_entry(&mut self, entry: ReadyAt)
        ensures goes { (c : Command) (past : List Act) (s : ℕ) (until : Option ℕ) (at : ℕ) (names : List Entry)
            → Heeds c (acts.Turn until at (listed names) false ∷ past) s self.old
            → Heeds c (acts.Turn until at (listed (names ++ entry ∷ [])) false ∷ past) s self.new }
        ensures asked { (p : Place) → has_asked self.new.openings p ≡ true → has_asked self.old.openings p ≡ true }
    {
        self.openings.hear_entry(entry);
        self.lanes.hear_entry(entry);
        self.ending = self.cause();
    }

    /// The last turn names these halves, and none before them.
    fn hear_names(&mut self, ready: &ReadyList)
        ensures goes { (c : Command) (past : List Act) (s : ℕ) (until : Option ℕ) (at : ℕ)
            → Ground c (acts.Turn until at (listed []) false ∷ past) s self.old
            → Ground c (acts.Turn until at (listed ready.now.entries) false ∷ past) s self.new }
        ensures asked { (p : Place) → has_asked self.new.openings p ≡ true → has_asked self.old.openings p ≡ true }
    {
        for i in 0..ready.len() {
            let entry = ready.get(i);
            self.openings.hear_entry(entry);
            self.lanes.hear_entry(entry);
        }
    }

    /// The turn that was slept to, with all that it names, and whether it says stop.
    pub fn hear_turn(&mut self, at: u64, ready: &ReadyList, stop: bool)
        ensures goes { (c : Command) (past : List Act) (s : ℕ) (until : Option ℕ) → Ground c past s self.old → Quiet c past s → stop ≡ false
            → Heeds c (acts.Turn until at (listed ready.now.entries) false ∷ past) s self.new }
        ensures stops { (c : Command) (n : ℕ) (past : List Act) (s : ℕ) (until : Option ℕ) → Ground c past s self.old → Quiet c past s
            → stop ≡ true → Fields c n (acts.Turn until at (listed ready.now.entries) true ∷ past) s self.new }
        ensures over { stop ≡ true → self.new.ending ≡ Some whys.Stopped }
        ensures asked { (p : Place) → has_asked self.new.openings p ≡ true → has_asked self.old.openings p ≡ true }
    {
        self.begin_turn(at);
        self.hear_names(ready);
        if stop {
            self.cut(Why::Stopped);
        } else {
            self.ending = self.cause();
        }
    }

    /// Ends the session early: at a stop, for want of memory or at the last turn.
    pub fn cut(&mut self, why: Why)
        ensures stop { (c : Command) (n : ℕ) (past : List Act) (s : ℕ) (until : Option ℕ) (at : ℕ) (names : List Entry)
            → Ground c (acts.Turn until at (listed names) false ∷ past) s self.old
            → Quiet c (acts.Turn until at (listed names) false ∷ past) s → why ≡ whys.Stopped
            → Fields c n (acts.Turn until at (listed names) true ∷ past) s self.new }
        ensures early { (c : Command) (n : ℕ) (past : List Act) (s : ℕ) → Ground c past s self.old → Ends c n past s why
            → Fields c n past s self.new }
        ensures over { self.new.ending ≡ Some why }
        ensures left { steps_of self.new ≡ steps_of self.old }
        ensures asked { (p : Place) → has_asked self.new.openings p ≡ true → has_asked self.old.openings p ≡ true }
    {
        self.openings.stay_unmoved();
        self.lanes.stay();
        self.ending = Some(why);
    }
}
