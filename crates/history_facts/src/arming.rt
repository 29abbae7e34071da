// Which halves and doors are armed, which is to say worth asking, and which were asked since the last turn.
ghost use Rattle.std.specs.Prelude.{◌≡◌};
ghost use Rattle.relay_model.specs.{pause_after_end, read_arming, armed_to_read, arming_moment, armed_to_write, armed_to_accept, asked_to_read};
ghost use Rattle.relay_model.specs.{asked_to_write, asked_to_accept, input, output};

use crate::history::now;
use crate::past::Past;
use command_places::output;
use relay_model::{Arming, Place, Way};

/// How long after an end an input is asked again, in milliseconds (socat(1), `ignoreeof`).
const PAUSE_AFTER_END: u128 = 1000;

/// How an input stands after these acts: what the last act that arms or disarms it says.
pub fn read_arming(past: &Past, place: Place) -> Arming
    ensures { result ≡ read_arming past.now.acts place }
{
    past.armings.reads.at(place)
}

/// Whether a place is worth reading at the moment of the last turn.
pub fn armed_to_read(past: &Past, place: Place) -> bool
    ensures { result ≡ armed_to_read past.now.acts place }
{
    read_arming(past, place).is_armed(now(past))
}

/// The moment at which an input that met an end is armed again.
pub fn arming_moment(arming: Arming) -> Option<u128>
    ensures { result ≡ arming_moment arming }
{
    match arming {
        Arming::Disarmed | Arming::Armed => None,
        Arming::AtEnd(met) => Some(met as u128 + PAUSE_AFTER_END),
    }
}

/// Whether a place is worth writing: it was opened, accepted or named, and hasn't answered `NotYet` since.
pub fn armed_to_write(past: &Past, place: Place) -> bool
    ensures { result ≡ armed_to_write past.now.acts place }
{
    past.armings.writes.at(place)
}

/// Whether a door is worth asking for a peer: it listens or was named, and hasn't answered `NoPeer` since.
pub fn armed_to_accept(past: &Past, door: Place) -> bool
    ensures { result ≡ armed_to_accept past.now.acts door }
{
    past.armings.accepts.at(door)
}

/// A read act of the place since the last turn.
pub fn asked_to_read(past: &Past, place: Place) -> bool
    ensures { result ≡ asked_to_read past.now.acts place }
{
    past.armings.reads_asked.at(place) == past.clock.turn
}

/// A write act of a direction's output since the last turn and since bytes were last read from its input.
pub fn asked_to_write(past: &Past, session: u32, way: Way) -> bool
    ensures { result ≡ asked_to_write past.now.acts (input past.now.config session way) (output past.now.config session way) }
{
    let place = output(past.config(), session, way);
    past.armings.writes_asked.at(place) == past.clock.turn
}

/// An accept act of the door since the last turn; an accepting names the place that was met there.
pub fn asked_to_accept(past: &Past, door: Place) -> bool
    ensures { result ≡ asked_to_accept past.now.config past.now.acts door }
{
    past.armings.accepts_asked.at(door) == past.clock.turn
}
