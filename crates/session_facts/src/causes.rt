// Why a session has to end, if it has to.
ghost use Rattle.std.specs.Prelude.{◌≡◌, ◌<◌, ◌^◌};
ghost use Rattle.std.specs.List.{list_any};
ghost use Rattle.relay_model.specs.{accept_failed, admitted, out_of_tries, passed, broken, done, accept_failed_for, listening_failed, opening_failed};
ghost use Rattle.relay_model.specs.{fault_at, fault_stands, each_formed, some_formed, faulted, finished, cause, running};

use crate::moments::{closing_moment, has_passed, idle_moment, is_broken, is_done, is_reached};
use crate::openings::{out_of_tries, ready};
use crate::sessions::live;
use command_places::{has_fork, is_formed, own_doors, places, program_door};
use history_facts::{
    Past, accept_failed, closed_why, memory_said, now, read_fault_at, stop_said, write_fault_at,
};
use relay_model::{Place, Way, Why};

/// Whether an accepting failed at one of these doors.
pub fn any_accept_failed(past: &Past, doors: &[Place]) -> bool
    ensures { result ≡ list_any (accept_failed past.now.acts) doors.now }
{
    doors.iter().any(|door| accept_failed(past, *door))
}

/// Whether one of these places or doors failed as often as it may be tried.
pub fn any_out_of_tries(past: &Past, places: &[Place]) -> bool
    ensures { result ≡ list_any (out_of_tries past.now.config past.now.acts) places.now }
{
    places.iter().any(|place| out_of_tries(past, *place))
}

/// An accepting failed at the program door or at a door of the session.
fn accept_failed_for(past: &Past, session: u32) -> bool
    ensures { result ≡ accept_failed_for past.now.config past.now.acts session }
{
    let config = past.config();
    has_fork(config) && accept_failed(past, program_door())
        || any_accept_failed(past, own_doors(config, session).as_slice())
}

fn listening_failed(past: &Past, session: u32) -> bool
    ensures { result ≡ listening_failed past.now.config past.now.acts session }
{
    let config = past.config();
    any_out_of_tries(past, own_doors(config, session).as_slice())
}

fn opening_failed(past: &Past, session: u32) -> bool
    ensures { result ≡ opening_failed past.now.config past.now.acts session }
{
    let config = past.config();
    any_out_of_tries(past, places(config, session).as_slice())
}

fn fault_at(past: &Past, place: Place) -> bool
    ensures { result ≡ fault_at past.now.acts place }
{
    read_fault_at(past, place).is_some() || write_fault_at(past, place).is_some()
}

fn any_fault_at(past: &Past, places: &[Place]) -> bool
    ensures { result ≡ list_any (fault_at past.now.acts) places.now }
{
    places.iter().any(|place| fault_at(past, *place))
}

/// A read or a write of the session failed.
fn fault_stands(past: &Past, session: u32) -> bool
    ensures { result ≡ fault_stands past.now.config past.now.acts session }
{
    let config = past.config();
    any_fault_at(past, places(config, session).as_slice())
}

fn all_done(past: &Past, session: u32) -> bool
    ensures { result ≡ each_formed past.now.config (done past.now.config past.now.acts session) }
{
    let config = past.config();
    (!is_formed(config, Way::LeftToRight) || is_done(past, session, Way::LeftToRight))
        && (!is_formed(config, Way::RightToLeft) || is_done(past, session, Way::RightToLeft))
}

fn all_passed(past: &Past, session: u32) -> bool
    ensures { result ≡ each_formed past.now.config (passed past.now.config past.now.acts session) }
{
    let config = past.config();
    (!is_formed(config, Way::LeftToRight) || has_passed(past, session, Way::LeftToRight))
        && (!is_formed(config, Way::RightToLeft) || has_passed(past, session, Way::RightToLeft))
}

fn some_broken(past: &Past, session: u32) -> bool
    ensures { result ≡ some_formed past.now.config (broken past.now.config past.now.acts session) }
{
    let config = past.config();
    is_formed(config, Way::LeftToRight) && is_broken(past, session, Way::LeftToRight)
        || is_formed(config, Way::RightToLeft) && is_broken(past, session, Way::RightToLeft)
}

/// A fault ends the session at once, or with `-s` where every direction is done.
fn is_faulted(past: &Past, session: u32) -> bool
    ensures { result ≡ faulted past.now.config past.now.acts session }
{
    let config = past.config();
    if config.sloppy {
        ready(past, session) && all_done(past, session) && some_broken(past, session)
    } else {
        fault_stands(past, session)
    }
}

fn is_finished(past: &Past, session: u32) -> bool
    ensures { result ≡ finished past.now.config past.now.acts session }
{
    ready(past, session) && all_passed(past, session)
}

/// Why the session has to end, the first of the reasons that stand.
pub fn cause(past: &Past, session: u32) -> Option<Why>
    ensures { result ≡ cause past.now.config past.now.acts session }
{
    if let Some(why) = closed_why(past, session) {
        return Some(why);
    }
    if memory_said(past) {
        return Some(Why::Memory);
    }
    if stop_said(past) {
        return Some(Why::Stopped);
    }
    if accept_failed_for(past, session) {
        return Some(Why::AcceptFailed);
    }
    if listening_failed(past, session) {
        return Some(Why::ListenFailed);
    }
    if opening_failed(past, session) {
        return Some(Why::OpenFailed);
    }
    if is_faulted(past, session) {
        return Some(Why::Faulted);
    }
    if is_finished(past, session) {
        return Some(Why::Finished);
    }
    if !ready(past, session) {
        return None;
    }
    if is_reached(closing_moment(past, session), now(past)) {
        return Some(Why::ClosingTime);
    }
    if is_reached(idle_moment(past, session), now(past)) {
        return Some(Why::Idle);
    }
    None
}

/// Whether a session lives, is ready and has no cause.
pub fn is_running(past: &Past, session: u32) -> bool
    requires { admitted past.now.config past.now.acts < 2 ^ 32 }
    ensures { result ≡ running past.now.config past.now.acts session }
{
    live(past, session) && ready(past, session) && cause(past, session).is_none()
}
