// Which sessions there are. Without `fork` there is session 0 alone; with it each permitted peer is one, numbered
// from 0 in order.
ghost use Rattle.std.specs.Prelude.{◌≡◌, ◌<◌, ◌^◌};
ghost use Rattle.std.specs.List.{list_any};
ghost use Rattle.relay_model.specs.{count, held, admitted, holds, live, live_count, numbers, first_part, next_place};

use command_places::{has_fork, parts, place_at, things};
use history_facts::{Past, admitted_count, is_held};
use relay_model::{Part, Place, Side};

/// Whether one of these places or doors is held.
pub fn any_held(past: &Past, places: &[Place]) -> bool
    ensures { result ≡ list_any (held past.now.acts) places.now }
{
    places.iter().any(|place| is_held(past, *place))
}

/// Whether the session holds a place or a door of its own.
pub fn holds(past: &Past, session: u32) -> bool
    ensures { result ≡ holds past.now.config past.now.acts session }
{
    let config = past.config();
    any_held(past, things(config, session).as_slice())
}

/// Whether the session lives: without `fork` session 0 always does, with it each one that has begun and holds something.
pub fn live(past: &Past, session: u32) -> bool
    requires { admitted past.now.config past.now.acts < 2 ^ 32 }
    ensures { result ≡ live past.now.config past.now.acts session }
{
    let config = past.config();
    if has_fork(config) {
        session < admitted_count(past) && holds(past, session)
    } else {
        session == 0
    }
}

/// How many sessions live.
pub fn live_count(past: &Past) -> u32
    requires { admitted past.now.config past.now.acts < 2 ^ 32 }
    ensures { result ≡ live_count past.now.config past.now.acts }
{
    let mut living: u32 = 0;
    for session in 0..admitted_count(past) {
        if live(past, session) {
            living += 1;
        }
    }
    living
}

/// The sessions that have begun are those with numbers below this.
pub fn numbers(past: &Past) -> u32
    requires { admitted past.now.config past.now.acts < 2 ^ 32 }
    ensures { result ≡ numbers past.now.config past.now.acts }
{
    let config = past.config();
    if has_fork(config) {
        admitted_count(past)
    } else {
        1
    }
}

fn first_part(parts: &[Part]) -> Part
    ensures { result ≡ first_part parts.now }
{
    match parts {
        [] => Part::Both,
        [part, ..] => *part,
    }
}

/// The place that the next peer of the program door gets.
pub fn next_place(past: &Past) -> Place
    requires { admitted past.now.config past.now.acts < 2 ^ 32 }
    ensures { result ≡ next_place past.now.config past.now.acts }
{
    let config = past.config();
    place_at(
        admitted_count(past),
        Side::Left,
        first_part(parts(config, Side::Left)),
    )
}
