// What the opening of a session and the program door call for.
ghost use Rattle.std.specs.Prelude.{◌≡◌, ◌<◌, ◌^◌};
ghost use Rattle.relay_model.specs.{admitted, live, cause, call, door_cut, enough, full, program_door_call, door_call, called_at};

use crate::causes::cause;
use crate::openings::{first_call, listening_call};
use crate::sessions::{live, live_count, next_place};
use command_places::{has_fork, is_left, options_of, places, program_door};
use history_facts::{
    Past, accept_failed, admitted_count, is_held, memory_said, stage_of, stop_said,
};
use relay_model::{Call, Place, Stage, Why};

/// What the opening of a session calls for, where it is known whether the session lives and why it has to end.
pub fn known_call(past: &Past, session: u32, lives: bool, why: Option<Why>) -> Call
    requires lives { lives ≡ live past.now.config past.now.acts session }
    requires why { why ≡ cause past.now.config past.now.acts session }
    ensures { result ≡ call past.now.config past.now.acts session }
{
    let config = past.config();
    if lives && why.is_none() {
        first_call(past, places(config, session).as_slice())
    } else {
        Call::Nothing
    }
}

/// What the opening of a session calls for.
pub fn opening_of(past: &Past, session: u32) -> Call
    requires { admitted past.now.config past.now.acts < 2 ^ 32 }
    ensures { result ≡ call past.now.config past.now.acts session }
{
    let lives = live(past, session);
    let why = cause(past, session);
    known_call(past, session, lives, why)
}

/// A stop, want of memory or a failed accepting ends the program door.
pub fn door_cut(past: &Past) -> bool
    ensures { result ≡ door_cut past.now.acts }
{
    memory_said(past) || stop_said(past) || accept_failed(past, program_door())
}

/// As many peers were permitted as are to be served.
fn enough(past: &Past) -> bool
    requires { admitted past.now.config past.now.acts < 2 ^ 32 }
    ensures { result ≡ enough past.now.config past.now.acts }
{
    let config = past.config();
    options_of(config, program_door()).sessions.stop_after <= admitted_count(past)
}

/// As many sessions live as may.
fn full(past: &Past) -> bool
    requires { admitted past.now.config past.now.acts < 2 ^ 32 }
    ensures { result ≡ full past.now.config past.now.acts }
{
    let config = past.config();
    options_of(config, program_door()).sessions.max_children <= live_count(past)
}

/// A door that is held has served, or accepts the next peer while there is room for its session.
fn program_door_call(past: &Past, stage: Stage) -> Call
    requires { admitted past.now.config past.now.acts < 2 ^ 32 }
    ensures { result ≡ program_door_call past.now.config past.now.acts stage }
{
    let door = program_door();
    let place = next_place(past);
    match stage {
        Stage::Waiting => {
            if enough(past) {
                Call::Serve(door)
            } else if full(past) {
                Call::Nothing
            } else {
                listening_call(past, door, place, stage)
            }
        }
        _ => listening_call(past, door, place, stage),
    }
}

/// What the program door of `fork` calls for; a peer that isn't permitted stands at the place of the next session.
pub fn door_call(past: &Past) -> Call
    requires { admitted past.now.config past.now.acts < 2 ^ 32 }
    ensures { result ≡ door_call past.now.config past.now.acts }
{
    let config = past.config();
    if !has_fork(config) || door_cut(past) {
        return Call::Nothing;
    }
    let place = next_place(past);
    if is_held(past, place) {
        Call::Refuse(place)
    } else {
        program_door_call(past, stage_of(past, program_door()))
    }
}

/// What is called for at a place or door: with `fork` the left side is the program door's.
pub fn call_at(past: &Past, place: Place) -> Call
    requires { admitted past.now.config past.now.acts < 2 ^ 32 }
    ensures { result ≡ called_at past.now.config past.now.acts place }
{
    let config = past.config();
    if is_left(place) && has_fork(config) {
        door_call(past)
    } else {
        opening_of(past, place.session)
    }
}
