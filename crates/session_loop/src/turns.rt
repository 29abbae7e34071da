// The turns of a session that is driven: up to a sleep, the sleep, and so on until it is done.
ghost use Rattle.std.specs.Prelude.{◌≡◌, ℕ, ◌+◌, ◌<◌, ◌≤◌, List, Option, true, false, vec_len, IfSome, IfNone};
ghost use Rattle.relay_model.specs.{Act, Config as Command, Legal};
ghost use Rattle.relay_model.specs.declared.acts.Why.TheVariants as whys;
ghost use Rattle.exit_status.specs.declared.outcomes.Outcome.TheVariants as outcomes;
ghost use Rattle.relay_session.specs.{Stands, has_ended, IsDone};
ghost use Rattle.world_trait.specs.Seen.{Seen};
ghost use Rattle.session_loop.specs.Answers.{AnswerTells};
ghost use Rattle.session_loop.specs.Ended.{EndsWith};
ghost use Rattle.session_loop.specs.declared.drivers.DriverPause.TheVariants as pauses;

use crate::drivers::{Driver, DriverPause};
use crate::outcomes::outcome_for;
use exit_status::Outcome;
use relay_model::{Config, Why};
use session_laws::{cause_is_told, failure_is_blamed, held_is_own, stop_is_told};
use world_trait::{Turned, World};

impl Driver {
    ghost use Rattle.session_loop.specs.Courses.{DriverCourse, SomewhereFor, KeepsFor, TurnsFor, WaitsOnce, SomeDone, PauseIs, IsPause};

    /// Makes the calls that are wished for, up to a sleep or the end.
    fn drain<W: World>(
        &mut self,
        world: &mut W,
        config: &Config,
        scratch: &mut Vec<u8>,
    ) -> DriverPause
        requires block { config.now.block ≤ vec_len scratch.old }
        requires course { (n : ℕ) × SomewhereFor config.now n (W.seen world.old) self.old }
        ensures course { KeepsFor config.now (W.seen world.old) (W.seen world.new) self.old self.new }
        ensures pause { PauseIs self.new result }
        ensures paused { IsPause self.new result }
        ensures over { has_ended self.old.session ≡ true → has_ended self.new.session ≡ true }
        ensures made { self.new.made ≡ self.old.made }
        ensures scratch { vec_len scratch.new ≡ vec_len scratch.old }
    {
        loop {
            if let Some(pause) = self.step(world, config, scratch) {
                return pause;
            }
        }
    }

    /// Sleeps as it is wished for, and hears what the turn names. False where there was no memory for a turn, which ends the
    /// session.
    fn wait<W: World>(&mut self, world: &mut W, until: Option<u64>, turns: u64) -> bool
        requires few { self.old.made < turns }
        requires pause { PauseIs self.old (pauses.Sleep until) }
        requires paused { IsPause self.old (pauses.Sleep until) }
        ensures course { (c : Command) → TurnsFor c turns (W.seen world.old) (W.seen world.new) self.old self.new }
        ensures waited { result ≡ true → (c : Command) → WaitsOnce c turns (W.seen world.old) (W.seen world.new) self.old self.new }
        ensures goes { result ≡ true → self.new.made ≡ self.old.made + 1 }
        ensures ended { result ≡ false → has_ended self.new.session ≡ true }
        ensures short { result ≡ false → self.new.made ≡ self.old.made }
    {
        match world.wait(until, &mut self.ready) {
            Turned::Turned { at, stop } => {
                self.made += 1;
                self.session.hear_turn(at, &self.ready, stop);
                true
            }
            Turned::Memory => {
                self.session.cut(Why::Memory);
                false
            }
        }
    }

    /// Makes the calls that are wished for and then waits once. `None` where it goes on after that wait; else the session
    /// is done for this reason, and holds nothing: by itself, for want of memory, or since `turns` turns were made.
    pub fn turn<W: World>(
        &mut self,
        world: &mut W,
        config: &Config,
        scratch: &mut Vec<u8>,
        turns: u64,
    ) -> Option<Why>
        requires block { config.now.block ≤ vec_len scratch.old }
        requires course { SomewhereFor config.now turns (W.seen world.old) self.old }
        requires within { self.old.made ≤ turns }
        ensures course { TurnsFor config.now turns (W.seen world.old) (W.seen world.new) self.old self.new }
        ensures done { IfSome result (λ why. IsPause self.new (pauses.Done why)) }
        ensures waitless { IfSome result (λ why. self.new.made ≡ self.old.made) }
        ensures waited { IfNone result (WaitsOnce config.now turns (W.seen world.old) (W.seen world.new) self.old self.new) }
        ensures goes { IfNone result ((self.old.made < turns) × (self.new.made ≡ self.old.made + 1)) }
        ensures scratch { vec_len scratch.new ≡ vec_len scratch.old }
    {
        match self.drain(world, config, scratch) {
            DriverPause::Done(why) => Some(why),
            DriverPause::Sleep(until) => self.sleep(world, config, scratch, until, turns),
        }
    }

    /// Waits once, where a turn is left and there is memory for it, and else ends the relay.
    fn sleep<W: World>(
        &mut self,
        world: &mut W,
        config: &Config,
        scratch: &mut Vec<u8>,
        until: Option<u64>,
        turns: u64,
    ) -> Option<Why>
        requires block { config.now.block ≤ vec_len scratch.old }
        requires course { SomewhereFor config.now turns (W.seen world.old) self.old }
        requires pause { PauseIs self.old (pauses.Sleep until) }
        requires paused { IsPause self.old (pauses.Sleep until) }
        requires within { self.old.made ≤ turns }
        ensures course { TurnsFor config.now turns (W.seen world.old) (W.seen world.new) self.old self.new }
        ensures done { IfSome result (λ why. IsPause self.new (pauses.Done why)) }
        ensures waitless { IfSome result (λ why. self.new.made ≡ self.old.made) }
        ensures waited { IfNone result (WaitsOnce config.now turns (W.seen world.old) (W.seen world.new) self.old self.new) }
        ensures goes { IfNone result ((self.old.made < turns) × (self.new.made ≡ self.old.made + 1)) }
        ensures scratch { vec_len scratch.new ≡ vec_len scratch.old }
    {
        if self.made < turns {
            if self.wait(world, until, turns) {
                return None;
            }
            return Some(self.close_all(world, config, scratch));
        }
        self.session.cut(Why::Stopped);
        Some(self.close_all(world, config, scratch))
    }

    /// Closes what is held after the session has ended.
    fn close_all<W: World>(&mut self, world: &mut W, config: &Config, scratch: &mut Vec<u8>) -> Why
        requires block { config.now.block ≤ vec_len scratch.old }
        requires course { (n : ℕ) × SomewhereFor config.now n (W.seen world.old) self.old }
        requires over { has_ended self.old.session ≡ true }
        ensures course { KeepsFor config.now (W.seen world.old) (W.seen world.new) self.old self.new }
        ensures done { IsPause self.new (pauses.Done result) }
        ensures made { self.new.made ≡ self.old.made }
        ensures scratch { vec_len scratch.new ≡ vec_len scratch.old }
    {
        match self.drain(world, config, scratch) {
            DriverPause::Done(why) => why,
            DriverPause::Sleep(_) => unreachable!(),
        }
    }

    /// How the run ended, once the session is done for this reason.
    pub fn outcome(&self, why: Why) -> Outcome
        requires { SomeDone why self.now }
        ensures answer { (c : Command) (n : ℕ) (start now : Seen) (past : List Act) → DriverCourse c n start now self.now past
            → IsDone c n past 0 why → EndsWith c n past result }
        ensures memory { result ≡ outcomes.Memory → why ≡ whys.Memory }
    {
        cause_is_told();
        failure_is_blamed();
        held_is_own();
        stop_is_told();
        self.answer(why)
    }

    /// The answer that what the session tells at its end makes.
    fn answer(&self, why: Why) -> Outcome
        requires { SomeDone why self.now }
        ensures answer { (c : Command) (n : ℕ) (past : List Act) → Stands c n past 0 self.now.session → Legal c n past
            → AnswerTells c past why self.now.fault self.now.made result }
        ensures memory { result ≡ outcomes.Memory → why ≡ whys.Memory }
    {
        failure_is_blamed();
        let listening = self.session.failed_listening();
        let opening = self.session.failed_opening();
        outcome_for(why, listening, opening, self.fault, self.made)
    }
}
