// The whole state of a session: how far its places have come, its two directions, its timers, and what ends it.
ghost use Rattle.std.specs.Prelude.{◌≡◌, ℕ, ◌<◌, ◌∷◌, [], List, Option, Some, None, length, take, true, false, IfOk};
ghost use Rattle.relay_model.specs.{Act, Config as Command, Place, Fit, has_fork, now as last_moment, closing_moment, idle_moment, cause, faulted};
ghost use Rattle.relay_model.specs.{running, call, holds, timer_moment};
ghost use Rattle.relay_model.specs.declared.acts.Act.TheVariants as acts;
ghost use Rattle.place_openings.specs.{has_asked};
ghost use Rattle.relay_model.specs.declared.calls.Call.TheVariants as calls;

use crate::lanes::Lanes;
use crate::moments::{ahead, earlier, is_reached, later_by};
use crate::wishes::Wish;
use place_openings::Openings;
use relay_model::{Call, Config, NoMemory, Peer, Place, Why};
use std::alloc::Global;

#[derive(Drop)]
pub struct State {
    pub closing: u64,
    pub idle: u64,
    pub sloppy: bool,
    pub openings: Openings,
    pub lanes: Lanes,
    /// The moment of the last turn.
    pub clock: u64,
    /// When a place was last opened, or bytes last passed.
    pub moved: u64,
    /// Whether a read or a write failed.
    pub faulted: bool,
    pub ending: Option<Why>,
}

impl State {
    ghost use Rattle.relay_session.specs.Endings.{Quiet, cause_when_ready, cause_when_tried};
    ghost use Rattle.relay_session.specs.States.{Ground, Fields, Allowed, home};
    ghost use Rattle.relay_session.specs.Births.{IsNew, BeginsSession};
    ghost use Rattle.relay_session.specs.Timers.{reachable, session_until};
    ghost use Rattle.relay_session.specs.Steps.{Heeds, waiting_for, keeps_for};

    /// A session at the beginning. It takes all the memory that it will use.
    pub fn new(alloc: Global, config: &Config) -> Result<State, NoMemory>
        requires fit { Fit config.now }
        requires alone { has_fork config.now ≡ false }
        ensures stands { IfOk result (λ st. (n : ℕ) → Fields config.now n [] 0 st) }
        ensures unasked { IfOk result (λ st. (p : Place) → has_asked st.openings p ≡ false) }
    {
        let mut state = State::pending_session(alloc, config, 0)?;
        state.ending = state.cause();
        Ok(state)
    }

    /// The session with this number, before anything happened. It takes all the memory that it will use.
    pub fn pending_session(alloc: Global, config: &Config, number: u32) -> Result<State, NoMemory>
        requires { Fit config.now }
        ensures { IfOk result (λ st. IsNew config.now number st) }
    {
        let openings = Openings::new(config, number);
        let lanes = Lanes::new(alloc, config, number, openings.most_calls())?;
        Ok(State {
            closing: config.closing,
            idle: config.idle,
            sloppy: config.sloppy,
            openings,
            lanes,
            clock: 0,
            moved: 0,
            faulted: false,
            ending: None,
        })
    }

    /// With `fork`: the peer that the session was made for was accepted for its first place.
    pub fn begin(&mut self, now: u64, place: Place, peer: Peer)
        ensures begun { (c : Command) (n : ℕ) (past : List Act) (s : ℕ) → IsNew c s self.old → BeginsSession c n past s peer
            → place ≡ home c s → now ≡ last_moment past → Heeds c (acts.Accepted place peer ∷ past) s self.new }
        ensures asked { (p : Place) → has_asked self.new.openings p ≡ true → has_asked self.old.openings p ≡ true }
    {
        self.openings.hear_peer(place, peer);
        self.lanes.hear_opening(place);
        self.clock = now;
        self.moved = now;
        self.ending = self.cause();
    }

    // ---- what ends it

    /// Why it ends by itself, where nothing from outside has ended it.
    pub fn cause(&self) -> Option<Why>
        ensures { (c : Command) (past : List Act) (s : ℕ) → Ground c past s self.now → Quiet c past s → result ≡ cause c past s }
    {
        match self.openings.why_given_up() {
            Some(why) => Some(why),
            None => self.cause_while_tried(),
        }
    }

    /// Why it ends by itself while no opening is given up.
    fn cause_while_tried(&self) -> Option<Why>
        ensures { (c : Command) (past : List Act) (s : ℕ) → Ground c past s self.now → result ≡ cause_when_tried c past s }
    {
        if self.is_faulted() {
            Some(Why::Faulted)
        } else if self.openings.is_ready() {
            self.cause_while_ready()
        } else {
            None
        }
    }

    /// Whether a fault ends it: any does; with `-s`, where each breaks its own direction alone, one does once all are done.
    fn is_faulted(&self) -> bool
        ensures { (c : Command) (past : List Act) (s : ℕ) → Ground c past s self.now → result ≡ faulted c past s }
    {
        if self.sloppy {
            let all_broken = self.lanes.are_done() & self.lanes.is_any_broken();
            self.openings.is_ready() & all_broken
        } else {
            self.faulted
        }
    }

    /// Why it ends once every place is ready.
    fn cause_while_ready(&self) -> Option<Why>
        ensures { (c : Command) (past : List Act) (s : ℕ) → Ground c past s self.now → result ≡ cause_when_ready c past s }
    {
        if self.lanes.have_passed() {
            Some(Why::Finished)
        } else if is_reached(self.closing_moment(), self.clock) {
            Some(Why::ClosingTime)
        } else if is_reached(self.idle_moment(), self.clock) {
            Some(Why::Idle)
        } else {
            None
        }
    }

    /// Where one of two directions is done, the moment of the closing time.
    fn closing_moment(&self) -> Option<u64>
        ensures { (c : Command) (past : List Act) (s : ℕ) → Ground c past s self.now → result ≡ reachable (closing_moment c past s) }
    {
        later_by(self.lanes.one_done_at(), self.closing)
    }

    /// With a limit of inactivity, the moment at which it is reached.
    fn idle_moment(&self) -> Option<u64>
        ensures { (c : Command) (past : List Act) (s : ℕ) → Ground c past s self.now → result ≡ reachable (idle_moment c past s) }
    {
        if (self.idle > 0) & !self.lanes.are_done() {
            later_by(Some(self.moved), self.idle)
        } else {
            None
        }
    }

    // ---- what is wished for

    /// The next call that is wished for.
    pub fn plan(&self) -> Wish
        ensures { (c : Command) (n : ℕ) (past : List Act) (s : ℕ) → Fields c n past s self.now → Allowed c n past s self.now result }
    {
        match self.ending {
            Some(why) => self.plan_end(why),
            None => self.plan_course(),
        }
    }

    /// What is held is closed, and then each child is reaped once.
    fn plan_end(&self, why: Why) -> Wish
        ensures { (c : Command) (n : ℕ) (past : List Act) (s : ℕ) → Fields c n past s self.now → self.now.ending ≡ Some why
            → Allowed c n past s self.now result }
    {
        match self.openings.held_thing() {
            Some(thing) => Wish::Close(thing, why),
            None => self.plan_last(why),
        }
    }

    /// Each child is asked for once.
    fn plan_last(&self, why: Why) -> Wish
        ensures { (c : Command) (n : ℕ) (past : List Act) (s : ℕ) → Fields c n past s self.now → self.now.ending ≡ Some why
            → holds c past s ≡ false → Allowed c n past s self.now result }
    {
        match self.openings.child() {
            Some(place) => Wish::Reap(place),
            None => Wish::Done(why),
        }
    }

    /// What is called for at the places, and then what the directions want.
    fn plan_course(&self) -> Wish
        ensures { (c : Command) (n : ℕ) (past : List Act) (s : ℕ) → Fields c n past s self.now → self.now.ending ≡ None
            → Allowed c n past s self.now result }
    {
        match self.openings.call(self.clock) {
            Call::Open(place) => Wish::Open(place),
            Call::Settle(place) => Wish::Settle(place),
            Call::Listen(door) => Wish::Listen(door),
            Call::Refuse(place) => Wish::Close(place, Why::Refused),
            Call::Serve(door) => Wish::Close(door, Why::Served),
            Call::Accept { door, place } => self.plan_accept(door, place),
            Call::TryAt(moment) => Wish::Sleep {
                until: ahead(self.clock, Some(moment)),
            },
            Call::Nothing => self.plan_transfer(),
        }
    }

    /// A peer is asked for once a turn.
    fn plan_accept(&self, door: Place, place: Place) -> Wish
        ensures { (c : Command) (n : ℕ) (past : List Act) (s : ℕ) → Fields c n past s self.now → self.now.ending ≡ None
            → call c past s ≡ calls.Accept door place → Allowed c n past s self.now result }
    {
        if self.openings.has_asked() {
            Wish::Sleep {
                until: Some(self.clock),
            }
        } else {
            Wish::Accept { door, place }
        }
    }

    /// What the directions want, once every place is ready.
    fn plan_transfer(&self) -> Wish
        ensures { (c : Command) (n : ℕ) (past : List Act) (s : ℕ) → Fields c n past s self.now → self.now.ending ≡ None
            → call c past s ≡ calls.Nothing → Allowed c n past s self.now result }
    {
        if !self.openings.is_ready() {
            return Wish::Sleep { until: None };
        }
        match self.lanes.wish(self.clock) {
            Some(wish) => wish,
            None => Wish::Sleep {
                until: self.until(),
            },
        }
    }

    /// Until when a session that runs may sleep.
    fn until(&self) -> Option<u64>
        ensures { (c : Command) (past : List Act) (s : ℕ) → Ground c past s self.now → running c past s ≡ true
            → call c past s ≡ calls.Nothing → result ≡ session_until c past s }
    {
        if self.lanes.work(self.clock) {
            return Some(self.clock);
        }
        earlier(self.timer(), self.lanes.moment(self.clock))
    }

    /// The moment, later than now, at which the closing time or the limit of inactivity is reached.
    fn timer(&self) -> Option<u64>
        ensures { (c : Command) (past : List Act) (s : ℕ) → Ground c past s self.now → running c past s ≡ true
            → result ≡ timer_moment c past s }
    {
        earlier(
            ahead(self.clock, self.closing_moment()),
            ahead(self.clock, self.idle_moment()),
        )
    }

    /// The front of what a wished write offers; nothing for another wish.
    pub fn offer(&self, wish: Wish) -> &[u8]
        ensures front { result.now ≡ take (length result.now) (waiting_for self.now wish) }
        ensures some { result.now ≡ [] → waiting_for self.now wish ≡ [] }
        ensures whole { keeps_for self.now wish ≡ true → result.now ≡ waiting_for self.now wish }
    {
        match wish {
            Wish::Write(place) => self.lanes.pending(place),
            Wish::Send(place) => self.lanes.pending(place),
            _ => &[],
        }
    }
}
