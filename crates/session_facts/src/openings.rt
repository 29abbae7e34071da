// Which places are ready, and what the opening of one that isn't calls for.
ghost use Rattle.std.specs.Prelude.{◌≡◌};
ghost use Rattle.std.specs.List.{list_any, list_all};
ghost use Rattle.relay_model.specs.{out_of_tries, when_due, try_again, is_ready, ready, opening_call, listening_call, peer_call, place_call};
ghost use Rattle.relay_model.specs.{first_call};

use command_places::{has_own_door, listens_at, options_of, places};
use history_facts::{
    Past, armed_to_accept, failure_count, has_served, is_held, next_due, now, permits, stage_of,
    was_woken,
};
use relay_model::{Call, Place, Stage};

// ---- tries

/// Whether more openings or listenings failed at the place or door than `retry` makes good.
pub fn out_of_tries(past: &Past, place: Place) -> bool
    ensures { result ≡ out_of_tries past.now.config past.now.acts place }
{
    let config = past.config();
    let options = options_of(config, place);
    !options.tries.forever
        && options.tries.retry != u64::MAX
        && failure_count(past, place) as u64 > options.tries.retry
}

/// The call, from the moment on at which it is due.
fn when_due(at: u64, moment: Option<u64>, wanted: Call) -> Call
    ensures { result ≡ when_due at moment wanted }
{
    match moment {
        None => Call::Nothing,
        Some(m) => { if m <= at { wanted } else { Call::TryAt(m) } }
    }
}

/// A further try, while tries are left.
fn try_again(past: &Past, place: Place, wanted: Call) -> Call
    ensures { result ≡ try_again past.now.config past.now.acts place wanted }
{
    let config = past.config();
    if out_of_tries(past, place) {
        Call::Nothing
    } else {
        let due = next_due(past, place, options_of(config, place).tries.interval);
        when_due(now(past), due, wanted)
    }
}

// ---- ready places

/// A place that doesn't listen is ready where it was opened, another one where it is held by a permitted peer and its
/// own door has served.
pub fn is_ready(past: &Past, place: Place) -> bool
    ensures { result ≡ is_ready past.now.config past.now.acts place }
{
    let config = past.config();
    match stage_of(past, place) {
        Stage::Usable => !listens_at(config, place),
        Stage::Met(peer) => {
            listens_at(config, place)
                && permits(config, place, peer)
                && (!has_own_door(config, place) || has_served(past, place.own_door()))
        }
        _ => false,
    }
}

fn all_ready(past: &Past, places: &[Place]) -> bool
    ensures { result ≡ list_all (is_ready past.now.config past.now.acts) places.now }
{
    places.iter().all(|place| is_ready(past, *place))
}

/// Whether every place of the session is ready.
pub fn ready(past: &Past, session: u32) -> bool
    ensures { result ≡ ready past.now.config past.now.acts session }
{
    let config = past.config();
    all_ready(past, places(config, session).as_slice())
}

// ---- calls

/// An opening, a settling once a turn named the place, or a further try.
fn opening_call(past: &Past, place: Place, stage: Stage) -> Call
    ensures { result ≡ opening_call past.now.config past.now.acts place stage }
{
    match stage {
        Stage::Untried => Call::Open(place),
        Stage::Unsettled => {
            if was_woken(past, place) {
                Call::Settle(place)
            } else {
                Call::Nothing
            }
        }
        Stage::Failed => try_again(past, place, Call::Open(place)),
        _ => Call::Nothing,
    }
}

/// A listening, a further try of one, or an accepting where the door is armed.
pub fn listening_call(past: &Past, door: Place, place: Place, stage: Stage) -> Call
    ensures { result ≡ listening_call past.now.config past.now.acts door place stage }
{
    match stage {
        Stage::Untried => Call::Listen(door),
        Stage::Failed => try_again(past, door, Call::Listen(door)),
        Stage::Waiting => {
            if armed_to_accept(past, door) {
                Call::Accept { door, place }
            } else {
                Call::Nothing
            }
        }
        _ => Call::Nothing,
    }
}

/// A peer that isn't permitted is refused; after a permitted one the own door has served.
fn peer_call(past: &Past, place: Place, stage: Stage) -> Call
    ensures { result ≡ peer_call past.now.config past.now.acts place stage }
{
    let config = past.config();
    let door = place.own_door();
    match stage {
        Stage::Met(peer) => {
            if !permits(config, place, peer) {
                Call::Refuse(place)
            } else if is_held(past, door) {
                Call::Serve(door)
            } else {
                Call::Nothing
            }
        }
        _ => listening_call(past, door, place, stage_of(past, door)),
    }
}

/// What a place calls for by itself; with `fork` a left place calls for nothing, since its peer comes by the program
/// door.
fn place_call(past: &Past, place: Place) -> Call
    ensures { result ≡ place_call past.now.config past.now.acts place }
{
    let config = past.config();
    if has_own_door(config, place) {
        peer_call(past, place, stage_of(past, place))
    } else if listens_at(config, place) {
        Call::Nothing
    } else {
        opening_call(past, place, stage_of(past, place))
    }
}

/// What the first of these places that isn't ready calls for.
pub fn first_call(past: &Past, mut places: &[Place]) -> Call
    ensures { result ≡ first_call past.now.config past.now.acts places.entry.now }
{
    while let [place, rest @ ..] = places {
        if !is_ready(past, *place) {
            return place_call(past, *place);
        }
        places = rest;
    }
    Call::Nothing
}
