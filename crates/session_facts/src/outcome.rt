// How a run ended, once nothing is held.
ghost use Rattle.std.specs.Prelude.{◌≡◌, ◌<◌, ◌^◌, option_map, is_some, Some};
ghost use Rattle.relay_model.specs.{or_else, some_below, admitted, holds, live, holds_something, program_doors, first_fault, failed_listening};
ghost use Rattle.relay_model.specs.{failed_opening, outcome_by, outcome_of_sessions, outcome};
ghost use Rattle.relay_model.specs.declared.outcomes.RunOutcome.TheVariants as outcomes;
ghost use Rattle.history_facts.specs.{acts};

use crate::causes::{any_accept_failed, cause};
use crate::openings::out_of_tries;
use crate::sessions::{holds, live, numbers};
use command_places::{PlaceList, has_fork, is_place_of, own_doors, places, program_door};
use history_facts::{Past, failure_count, has_served, is_held, memory_said, stop_said, turns};
use relay_model::{Act, Config, Half, Place, RunOutcome, Side, Why};

#[tactic(auto, using(crate::proofs::Below::some_below_more))]
fn some_holds(past: &Past, count: u32) -> bool
    ensures { result ≡ some_below (holds past.now.config past.now.acts) count }
{
    for session in 0..count {
        if holds(past, session) {
            return true;
        }
    }
    false
}

#[tactic(auto, using(crate::proofs::Below::some_below_more))]
fn some_lives(past: &Past, count: u32) -> bool
    requires { admitted past.now.config past.now.acts < 2 ^ 32 }
    ensures { result ≡ some_below (live past.now.config past.now.acts) count }
{
    for session in 0..count {
        if live(past, session) {
            return true;
        }
    }
    false
}

/// Some session that has begun, or the peer that may become the next, holds something, or the program door is held.
pub fn holds_something(past: &Past) -> bool
    requires { admitted past.now.config past.now.acts < 2 ^ 32 }
    ensures { result ≡ holds_something past.now.config past.now.acts }
{
    let config = past.config();
    let next = numbers(past);
    holds(past, next) || some_holds(past, next) || has_fork(config) && is_held(past, program_door())
}

/// The doors whose failures are the program's.
fn program_doors(config: &Config) -> PlaceList
    ensures { result ≡ program_doors config.now }
{
    if has_fork(config) {
        let mut doors = PlaceList::new();
        doors.push(program_door());
        doors
    } else {
        own_doors(config, 0)
    }
}

/// The first read or write of the session that failed.
#[tactic(auto, using(crate::proofs::Below::or_else_none, crate::proofs::Below::or_else_some))]
fn first_fault(config: &Config, mut past: &[&Act], session: u32) -> Option<RunOutcome>
    ensures { result ≡ first_fault config.now (acts past.entry.now) session }
{
    let mut found = None;
    while let [act, older @ ..] = past {
        match act {
            Act::ReadFault(at) if is_place_of(config, session, *at) => {
                found = Some(RunOutcome::Faulted(*at, Half::ToRead));
            }
            Act::WriteFault(at) if is_place_of(config, session, *at) => {
                found = Some(RunOutcome::Faulted(*at, Half::ToWrite));
            }
            _ => {}
        }
        past = older;
    }
    found
}

/// The first of these doors that is out of tries.
fn failed_listening(past: &Past, mut doors: &[Place]) -> Option<RunOutcome>
    ensures { result ≡ failed_listening past.now.config past.now.acts doors.entry.now }
{
    while let [door, rest @ ..] = doors {
        if out_of_tries(past, *door) {
            return Some(RunOutcome::ListenFailed(failure_count(past, *door)));
        }
        doors = rest;
    }
    None
}

/// The first of these places that is out of tries.
fn failed_opening(past: &Past, mut places: &[Place]) -> Option<RunOutcome>
    ensures { result ≡ failed_opening past.now.config past.now.acts places.entry.now }
{
    while let [place, rest @ ..] = places {
        if out_of_tries(past, *place) {
            return Some(RunOutcome::OpenFailed(place.side, failure_count(past, *place)));
        }
        places = rest;
    }
    None
}

/// The first fault, or the reason where there was none.
fn fault_or(past: &Past, why: Why) -> Option<RunOutcome>
    ensures { result ≡ or_else (first_fault past.now.config past.now.acts 0) (Some (outcomes.Ended why)) }
{
    let config = past.config();
    match first_fault(config, past.acts(), 0) {
        None => Some(RunOutcome::Ended(why)),
        Some(fault) => Some(fault),
    }
}

/// The outcome of a program of one session, by its cause.
fn outcome_by(past: &Past, cause: Option<Why>) -> Option<RunOutcome>
    ensures { result ≡ outcome_by past.now.config past.now.acts cause }
{
    let config = past.config();
    match cause {
        None => None,
        Some(why) => match why {
            Why::OpenFailed => failed_opening(past, places(config, 0).as_slice()),
            Why::Faulted | Why::ClosingTime | Why::Idle => fault_or(past, why),
            _ => Some(RunOutcome::Ended(why)),
        },
    }
}

/// The outcome of a program of many: the door has served and no session lives.
fn outcome_of_sessions(past: &Past) -> Option<RunOutcome>
    requires { admitted past.now.config past.now.acts < 2 ^ 32 }
    ensures { result ≡ outcome_of_sessions past.now.config past.now.acts }
{
    if has_served(past, program_door()) && !some_lives(past, numbers(past)) {
        Some(RunOutcome::Ended(Why::Served))
    } else {
        None
    }
}

/// The outcome, but for that of turns that are used up.
pub fn outcome_of(past: &Past) -> Option<RunOutcome>
    requires { admitted past.now.config past.now.acts < 2 ^ 32 }
    ensures { result ≡ outcome past.now.config past.now.acts }
{
    let config = past.config();
    if holds_something(past) {
        return None;
    }
    if memory_said(past) {
        return Some(RunOutcome::Memory);
    }
    if stop_said(past) {
        return Some(RunOutcome::Stopped(turns(past)));
    }
    if any_accept_failed(past, program_doors(config).as_slice()) {
        return Some(RunOutcome::AcceptFailed);
    }
    if let Some(failed) = failed_listening(past, program_doors(config).as_slice()) {
        return Some(failed);
    }
    if has_fork(config) {
        outcome_of_sessions(past)
    } else {
        outcome_by(past, cause(past, 0))
    }
}

/// Whether the run has an outcome.
pub fn has_outcome(past: &Past) -> bool
    requires { admitted past.now.config past.now.acts < 2 ^ 32 }
    ensures { result ≡ is_some (outcome past.now.config past.now.acts) }
{
    match outcome_of(past) {
        None => false,
        Some(_) => true,
    }
}
