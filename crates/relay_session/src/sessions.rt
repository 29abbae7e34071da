// The session as the layers above see it: a state, and the one call that it wishes for next.
ghost use Rattle.std.specs.Prelude.{◌≡◌, ℕ, ◌+◌, ◌<◌, ◌≤◌, ◌||◌, ◌∷◌, ◌++◌, [], List, Option, Some, None, true, false, length, take, vec_len, IfOk};
ghost use Rattle.relay_model.specs.{Act, Why as Cause, Config as Command, Place, ReadyAt as Entry, longest_packet, Fit, has_fork, places, own_doors};
ghost use Rattle.relay_model.specs.{Free, standing, now as last_moment, turns, failed_listening, failed_opening};
ghost use Rattle.relay_model.specs.declared.acts.Act.TheVariants as acts;
ghost use Rattle.relay_model.specs.declared.acts.Why.TheVariants as whys;
ghost use Rattle.relay_model.specs.declared.commands.Dump.TheVariants as dumps;
ghost use Rattle.relay_model.specs.May.{Legal, May};
ghost use Rattle.relay_model.specs.Rest.{Rest, owed, until_of};
ghost use Rattle.place_openings.specs.{peer_at, peer_of_first};
ghost use Rattle.session_direction.specs.{listed};
ghost use Rattle.relay_session.specs.declared.wishes.Wish.TheVariants as wishes;
ghost use Rattle.relay_session.specs.declared.wishes.Answer.TheVariants as answers;
ghost use Rattle.relay_session.specs.Wishes.{Fits, FitsRead, act_of, read_act, reaps_at};
ghost use Rattle.relay_session.specs.States.{Wished, home};
ghost use Rattle.relay_session.specs.Births.{BeginsSession};
ghost use Rattle.relay_session.specs.Endings.{Ends};
ghost use Rattle.relay_session.specs.Conditions.{CanBeMade, is_course, is_writing, IsAtOwn};
ghost use Rattle.relay_session.specs.Told.{told_listening, told_opening};

use crate::first_places::home_of;
use crate::states::State;
use crate::wishes::{Answer, Wish};
use place_openings::GivenUp;
use relay_model::{Config, NoMemory, Peer, Place, ReadyAt, ReadyList, Why};
use std::alloc::Global;

/// The session of a peer of a command with `fork`, before that peer is asked for. It already has all its memory.
#[derive(Drop)]
pub struct PendingSession {
    state: State,
    home: Place,
}

impl PendingSession {
    ghost use Rattle.relay_session.specs.Sessions.{IsPendingSession, Hears, has_asked_at};

    /// The session with this number, before it begins. It takes all the memory that it will use.
    pub fn new(alloc: Global, config: &Config, number: u32) -> Result<PendingSession, NoMemory>
        requires { Fit config.now }
        ensures { IfOk result (λ pending_session. IsPendingSession config.now number pending_session) }
    {
        let state = State::pending_session(alloc, config, number)?;
        let home = home_of(config, number);
        Ok(PendingSession { state, home })
    }

    /// The place that its peer is accepted for.
    pub fn home(&self) -> Place
        ensures { (c : Command) (s : ℕ) → IsPendingSession c s self.now → result ≡ home c s }
    {
        self.home
    }

    /// The session begins: this peer was accepted for it. `now` is the moment of the last turn.
    pub fn accepted(self, now: u64, peer: Peer) -> Session
        ensures may { (c : Command) (n : ℕ) (past : List Act) (s : ℕ) → BeginsSession c n past s peer → owed c past ≡ None
            → May c n past (acts.Accepted (home c s) peer) }
        ensures met { (c : Command) (n : ℕ) (past : List Act) (s : ℕ) → BeginsSession c n past s peer
            → peer_at c (acts.Accepted (home c s) peer ∷ past) (home c s) ≡ Some peer }
        ensures hears { (c : Command) (n : ℕ) (past : List Act) (s : ℕ) → IsPendingSession c s self → BeginsSession c n past s peer
            → now ≡ last_moment past → Hears c n (acts.Accepted (home c s) peer ∷ past) s result }
        ensures unasked { (c : Command) (s : ℕ) (p : Place) → IsPendingSession c s self → has_asked_at result p ≡ false }
    {
        let PendingSession { mut state, home } = self;
        state.begin(now, home, peer);
        let wish = state.plan();
        Session { state, wish }
    }
}

/// One relay between two addresses, as a machine without ports. Each wish is answered before the next one.
#[derive(Drop)]
pub struct Session {
    state: State,
    wish: Wish,
}

impl Session {
    ghost use Rattle.relay_session.specs.Sessions.{Stands, Hears, HearsTurn, HeardBy, IsGrounded, AsksEach, KeepsEnding, StaysEnded, wish_of, waiting_of, left_of, ending_of, has_ended, has_asked_at};

    /// The session of a command without `fork`, at the beginning of its history. It takes all the memory that it
    /// will use.
    pub fn new(alloc: Global, config: &Config) -> Result<Session, NoMemory>
        requires fit { Fit config.now }
        requires alone { has_fork config.now ≡ false }
        ensures stands { IfOk result (λ session. (n : ℕ) → Stands config.now n [] 0 session) }
        ensures unasked { IfOk result (λ session. (p : Place) → has_asked_at session p ≡ false) }
    {
        let state = State::new(alloc, config)?;
        let wish = state.plan();
        Ok(Session { state, wish })
    }

    /// The next call that is wished for.
    pub fn wish(&self) -> Wish
        ensures wish { result ≡ wish_of self.now }
        ensures wished { (c : Command) (n : ℕ) (past : List Act) (s : ℕ) → Stands c n past s self.now → Wished c n past s result }
        ensures going { (c : Command) (n : ℕ) (past : List Act) (s : ℕ) → Stands c n past s self.now → is_course result ≡ true
            → has_ended self.now ≡ false }
        ensures own { (c : Command) (n : ℕ) (past : List Act) (s : ℕ) → Stands c n past s self.now → IsAtOwn c s result }
        ensures can { (c : Command) (n : ℕ) (past : List Act) (s : ℕ) → Stands c n past s self.now → Legal c n past
            → CanBeMade c s past result }
        ensures rests { (c : Command) (n : ℕ) (past : List Act) (s : ℕ) (until : Option ℕ) → Stands c n past s self.now
            → has_fork c ≡ false → s ≡ 0 → Legal c n past → c.dump ≡ dumps.Off → result ≡ wishes.Sleep until
            → Rest c past × (until ≡ until_of c past) }
        ensures free { (c : Command) (n : ℕ) (past : List Act) (s : ℕ) (why : Cause) → Stands c n past s self.now
            → has_fork c ≡ false → s ≡ 0 → Legal c n past → result ≡ wishes.Done why → (p : Place)
            → standing past p ≡ Free }
        ensures left { (c : Command) (n : ℕ) (past : List Act) (s : ℕ) → Stands c n past s self.now → left_of self.now ≤ 64 }
        ensures children { (c : Command) (n : ℕ) (past : List Act) (s : ℕ) (why : Cause) → Stands c n past s self.now
            → result ≡ wishes.Done why → AsksEach c past s self.now }
    {
        self.wish
    }

    /// The front of the bytes that the wished write offers, and all of them for one packet; none for another wish.
    pub fn pending(&self) -> &[u8]
        ensures front { result.now ≡ take (length result.now) (waiting_of self.now) }
        ensures some { result.now ≡ [] → waiting_of self.now ≡ [] }
        ensures offers { (c : Command) (n : ℕ) (past : List Act) (s : ℕ) → Stands c n past s self.now
            → is_writing (wish_of self.now) ≡ true → 0 < length result.now }
        ensures packet { (c : Command) (n : ℕ) (past : List Act) (s : ℕ) (p : Place) → Stands c n past s self.now
            → Legal c n past → wish_of self.now ≡ wishes.Send p
            → (result.now ≡ waiting_of self.now) × (length result.now ≤ longest_packet) }
    {
        self.state.offer(self.wish)
    }

    /// The answer to the wish. `now` is the moment of a turn that was slept to, in milliseconds.
    pub fn heard(&mut self, now: u64, answer: Answer<'_>)
        requires { Fits (wish_of self.old) (waiting_of self.old) answer }
        ensures act { (c : Command) (n : ℕ) (past : List Act) (s : ℕ) → Stands c n past s self.old
            → HeardBy c n past s (act_of (wish_of self.old) (waiting_of self.old) answer.entry) self.old self.new }
        ensures childless { (c : Command) (n : ℕ) (past : List Act) (s : ℕ) → Stands c n past s self.old
            → answer.entry ≡ answers.NoChild → Stands c n past s self.new × (left_of self.new < left_of self.old) }
        ensures woken { (c : Command) (n : ℕ) (past : List Act) (s : ℕ) (until : Option ℕ) → Stands c n past s self.old
            → wish_of self.old ≡ wishes.Sleep until → answer.entry ≡ answers.Woken
            → Hears c n (acts.Turn until now (listed []) false ∷ past) s self.new }
        ensures over { StaysEnded self.old self.new }
        ensures ending { KeepsEnding self.old self.new }
        ensures asked { (p : Place) → has_asked_at self.new p ≡ true
            → (has_asked_at self.old p || reaps_at (wish_of self.old) p) ≡ true }
    {
        match answer {
            Answer::Woken => self.wake(now),
            answer => self.hear(answer),
        }
    }

    /// The answer to a wished call.
    pub fn hear(&mut self, answer: Answer<'_>)
        requires { Fits (wish_of self.old) (waiting_of self.old) answer }
        ensures act { (c : Command) (n : ℕ) (past : List Act) (s : ℕ) → Stands c n past s self.old
            → HeardBy c n past s (act_of (wish_of self.old) (waiting_of self.old) answer.entry) self.old self.new }
        ensures childless { (c : Command) (n : ℕ) (past : List Act) (s : ℕ) → Stands c n past s self.old
            → answer.entry ≡ answers.NoChild → Stands c n past s self.new × (left_of self.new < left_of self.old) }
        ensures over { StaysEnded self.old self.new }
        ensures ending { KeepsEnding self.old self.new }
        ensures asked { (p : Place) → has_asked_at self.new p ≡ true
            → (has_asked_at self.old p || reaps_at (wish_of self.old) p) ≡ true }
    {
        self.state.hear(self.wish, answer);
        self.wish = self.state.plan();
    }

    /// Before a wished read: the block that was traded for last at this place comes back for this one, as long, where none
    /// of its bytes wait.
    pub fn trade_back(&mut self, place: Place, block: &mut Vec<u8>)
        ensures same { self.new ≡ self.old }
        ensures block { vec_len block.new ≡ vec_len block.old }
    {
        self.state.lanes.trade_back(place, block);
    }

    /// The answer to a wished read: the first `count` bytes of this block. It is heard as these bytes are. Where they may
    /// wait in it, the session keeps the block, and one of its own, as long, takes the place of it.
    pub fn hear_block(&mut self, block: &mut Vec<u8>, count: usize)
        requires within { count ≤ vec_len block.old }
        requires fits { FitsRead (wish_of self.old) count }
        ensures act { (c : Command) (n : ℕ) (past : List Act) (s : ℕ) → Stands c n past s self.old
            → HeardBy c n past s (read_act (wish_of self.old) (take count block.old.items)) self.old self.new }
        ensures over { StaysEnded self.old self.new }
        ensures ending { KeepsEnding self.old self.new }
        ensures asked { (p : Place) → has_asked_at self.new p ≡ true → has_asked_at self.old p ≡ true }
        ensures block { vec_len block.new ≡ vec_len block.old }
    {
        self.state.hear_block(self.wish, block, count);
        self.wish = self.state.plan();
    }

    /// The turn that was slept to has come, at this moment in milliseconds.
    pub fn wake(&mut self, now: u64)
        ensures woken { (c : Command) (n : ℕ) (past : List Act) (s : ℕ) (until : Option ℕ) → Stands c n past s self.old
            → wish_of self.old ≡ wishes.Sleep until → Hears c n (acts.Turn until now (listed []) false ∷ past) s self.new }
        ensures asked { (p : Place) → has_asked_at self.new p ≡ true → has_asked_at self.old p ≡ true }
    {
        self.state.wake(now);
        self.wish = self.state.plan();
    }

    /// The turn that was just heard names this half too.
    pub fn ready(&mut self, entry: ReadyAt)
        ensures goes { (c : Command) (n : ℕ) (past : List Act) (s : ℕ) (until : Option ℕ) (at : ℕ) (names : List Entry)
            → Hears c n (acts.Turn until at (listed names) false ∷ past) s self.old
            → Hears c n (acts.Turn until at (listed (names ++ entry ∷ [])) false ∷ past) s self.new }
        ensures asked { (p : Place) → has_asked_at self.new p ≡ true → has_asked_at self.old p ≡ true }
    {
        self.state.hear_entry(entry);
        self.wish = self.state.plan();
    }

    /// The turn that was slept to, at this moment in milliseconds, with all that it names. One that says stop ends the session.
    pub fn hear_turn(&mut self, now: u64, ready: &ReadyList, stop: bool)
        ensures hears { HearsTurn now ready.now stop self.old self.new }
        ensures asked { (p : Place) → has_asked_at self.new p ≡ true → has_asked_at self.old p ≡ true }
    {
        self.state.hear_turn(now, ready, stop);
        self.wish = self.state.plan();
    }

    /// Ends the session: because the turn that was just heard says stop (`Stopped`), because the turns are
    /// used up (`Stopped`), for want of memory (`Memory`), or since an act elsewhere gave it this cause. From then on it
    /// closes what it holds and asks for its children.
    pub fn cut(&mut self, why: Why)
        ensures stop { (c : Command) (n : ℕ) (past : List Act) (s : ℕ) (until : Option ℕ) (at : ℕ) (names : List Entry)
            → Hears c n (acts.Turn until at (listed names) false ∷ past) s self.old → why ≡ whys.Stopped
            → Stands c n (acts.Turn until at (listed names) true ∷ past) s self.new }
        ensures limit { (c : Command) (n : ℕ) (past : List Act) (s : ℕ) → Stands c n past s self.old → has_ended self.old ≡ false
            → turns past ≡ n → Rest c past → why ≡ whys.Stopped → Stands c n past s self.new }
        ensures memory { (c : Command) (n : ℕ) (past : List Act) (s : ℕ) → Stands c n past s self.old → has_ended self.old ≡ false
            → why ≡ whys.Memory → Stands c n past s self.new }
        ensures early { (c : Command) (n : ℕ) (past : List Act) (s : ℕ) → IsGrounded c past s self.old → Ends c n past s why
            → Stands c n past s self.new }
        ensures ending { ending_of self.new ≡ Some why }
        ensures over { has_ended self.new ≡ true }
        ensures left { left_of self.new ≡ left_of self.old }
        ensures asked { (p : Place) → has_asked_at self.new p ≡ true → has_asked_at self.old p ≡ true }
    {
        self.state.cut(why);
        self.wish = self.state.plan();
    }

    /// The permitted peer of its first place in opening order, while that is held by one. With `fork` it is the peer that
    /// the session was begun for.
    pub fn peer(&self) -> Option<Peer>
        ensures first { (c : Command) (n : ℕ) (past : List Act) (s : ℕ) → Stands c n past s self.now
            → result ≡ peer_of_first c past (places c s) }
        ensures home { (c : Command) (n : ℕ) (past : List Act) (s : ℕ) → Stands c n past s self.now → result ≡ peer_at c past (home c s) }
    {
        self.state.openings.peer_of_first()
    }

    // ---- what it tells at its end

    /// The first place, in opening order, at which no try is left.
    pub fn failed_opening(&self) -> Option<GivenUp>
        ensures { (c : Command) (n : ℕ) (past : List Act) (s : ℕ) → Stands c n past s self.now → Legal c n past
            → told_opening result ≡ failed_opening c past (places c s) }
    {
        self.state.openings.failed_opening()
    }

    /// How many listenings failed at the first door, in opening order, at which no try is left.
    pub fn failed_listening(&self) -> Option<u64>
        ensures { (c : Command) (n : ℕ) (past : List Act) (s : ℕ) → Stands c n past s self.now → Legal c n past
            → told_listening result ≡ failed_listening c past (own_doors c s) }
    {
        self.state.openings.failed_listening()
    }
}
