// What the acts so far say of a place or door, and of the whole.
ghost use Rattle.std.specs.Prelude.{◌≡◌, ◌<◌, ◌^◌, length};
ghost use Rattle.relay_model.specs.{next_due, now, turns, stop_said, memory_said, stage, held, served, failures, woken, accept_failed, was_closed};
ghost use Rattle.relay_model.specs.{was_reaped, got, put, met_end, met_empty, shut_at, read_fault_at, write_fault_at, admitted, moved_at, closed_why};

use crate::past::Past;
use relay_model::{Place, Stage, Why};

// ---- turns

/// The moment of the last turn.
pub fn now(past: &Past) -> u64
    ensures { result ≡ now past.now.acts }
{
    past.clock.now
}

/// How many turns there were.
pub fn turns(past: &Past) -> usize
    ensures { result ≡ turns past.now.acts }
{
    (past.clock.turn - 1) as usize
}

/// Whether a turn said stop, or something was closed for that.
pub fn stop_said(past: &Past) -> bool
    ensures { result ≡ stop_said past.now.acts }
{
    past.clock.stop_said
}

/// Whether something was closed for want of memory.
pub fn memory_said(past: &Past) -> bool
    ensures { result ≡ memory_said past.now.acts }
{
    past.clock.memory_said
}

// ---- opening and closing

/// The last act of opening, accepting, listening or closing at a place or door, or that there was none.
pub fn stage_of(past: &Past, place: Place) -> Stage
    ensures { result ≡ stage past.now.acts place }
{
    past.openings.stages.at(place)
}

/// Whether a place or door is held.
pub fn is_held(past: &Past, place: Place) -> bool
    ensures { result ≡ held past.now.acts place }
{
    stage_of(past, place).is_held()
}

/// Whether a door was closed since it had served.
pub fn has_served(past: &Past, door: Place) -> bool
    ensures { result ≡ served past.now.acts door }
{
    stage_of(past, door).has_served()
}

/// How many openings or listenings of a place or door failed.
pub fn failure_count(past: &Past, place: Place) -> usize
    ensures { result ≡ length (failures past.now.acts place) }
{
    past.openings.failure_counts.at(place) as usize
}

/// The moment of the next try, counted from the last failure.
#[tactic(auto, using(crate::proofs::Failures::due_after_none, crate::proofs::Failures::due_after_some))]
pub fn next_due(past: &Past, place: Place, interval: u64) -> Option<u64>
    ensures { result ≡ next_due interval (failures past.now.acts place) }
{
    match past.openings.last_failures.at(place) {
        None => Some(0),
        Some(failed) => failed.checked_add(interval.max(1)),
    }
}

/// Whether a turn named the place after its last opening act, which left it unsettled.
pub fn was_woken(past: &Past, place: Place) -> bool
    ensures { result ≡ woken past.now.acts place }
{
    past.openings.woken.at(place)
}

/// Whether an accepting failed at the door.
pub fn accept_failed(past: &Past, door: Place) -> bool
    ensures { result ≡ accept_failed past.now.acts door }
{
    past.openings.accepts_failed.at(door)
}

/// Whether the place was ever closed, whatever came after that.
pub fn was_closed(past: &Past, place: Place) -> bool
    ensures { result ≡ was_closed past.now.acts place }
{
    past.openings.closed.at(place)
}

/// Whether the child of the place was reaped, also where it was still running.
pub fn was_reaped(past: &Past, place: Place) -> bool
    ensures { result ≡ was_reaped past.now.acts place }
{
    past.openings.reaped.at(place)
}

// ---- bytes

/// How many bytes were read at a place.
pub fn got_length(past: &Past, place: Place) -> usize
    ensures { result ≡ length (got past.now.acts place) }
{
    past.traffic.read.at(place)
}

/// How many bytes were written at a place.
pub fn put_length(past: &Past, place: Place) -> usize
    ensures { result ≡ length (put past.now.acts place) }
{
    past.traffic.written.at(place)
}

// ---- ends, faults and passed ends

/// Whether a read of the place met the end of its input.
pub fn met_end(past: &Past, place: Place) -> bool
    ensures { result ≡ met_end past.now.acts place }
{
    past.traffic.ends.at(place)
}

/// Whether a read of the place brought an empty packet.
pub fn met_empty(past: &Past, place: Place) -> bool
    ensures { result ≡ met_empty past.now.acts place }
{
    past.traffic.empties.at(place)
}

/// The moment at which the end was passed on at a place; a shut that failed counts too.
pub fn shut_at(past: &Past, place: Place) -> Option<u64>
    ensures { result ≡ shut_at past.now.acts place }
{
    past.traffic.shuts.at(place)
}

/// The moment, in milliseconds, at which a read of the place last failed.
pub fn read_fault_at(past: &Past, place: Place) -> Option<u64>
    ensures { result ≡ read_fault_at past.now.acts place }
{
    past.traffic.read_faults.at(place)
}

/// The moment, in milliseconds, at which a write to the place last failed.
pub fn write_fault_at(past: &Past, place: Place) -> Option<u64>
    ensures { result ≡ write_fault_at past.now.acts place }
{
    past.traffic.write_faults.at(place)
}

// ---- sessions

/// The moment at which a place of the session was last opened or accepted, or bytes were last read or written
/// at one.
pub fn moved_at(past: &Past, session: u32) -> u64
    ensures { result ≡ moved_at past.now.config past.now.acts session }
{
    past.sessions.moved.at(u64::from(session))
}

/// The reason of a closing that ended the session.
pub fn closed_why(past: &Past, session: u32) -> Option<Why>
    ensures { result ≡ closed_why past.now.config past.now.acts session }
{
    past.sessions.closed.at(u64::from(session))
}

/// How many permitted peers there were, which is the number of the next session.
pub fn admitted_count(past: &Past) -> u32
    requires { admitted past.now.config past.now.acts < 2 ^ 32 }
    ensures { result ≡ admitted past.now.config past.now.acts }
{
    past.sessions.admitted as u32
}
