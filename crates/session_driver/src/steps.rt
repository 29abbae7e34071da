// The next step of a session.
ghost use Rattle.std.specs.Prelude.{◌≡◌, ◌≤◌, vec_len};
ghost use Rattle.session_driver.specs.Steps.{Meets, StepIs};

use crate::calls::{accept, close, listen, open, read, reap, send, settle, shut, write};
use crate::stepped::Stepped;
use relay_model::Config;
use relay_session::{Session, Wish};
use world_trait::World;

/// Makes the next call that the session wishes for, and has it hear the answer.
pub fn step<W: World>(
    session: &mut Session,
    world: &mut W,
    config: &Config,
    scratch: &mut Vec<u8>,
) -> Stepped
    requires block { config.now.block ≤ vec_len scratch.old }
    requires meets { Meets config.now (W.seen world.old) session.old }
    ensures step { StepIs config.now (W.seen world.old) (W.seen world.new) session.old session.new result }
    ensures scratch { vec_len scratch.new ≡ vec_len scratch.old }
{
    match session.wish() {
        Wish::Read { place, at_most } => read(session, world, config, scratch, place, at_most),
        Wish::Write(place) => write(session, world, config, place),
        Wish::Sleep { until } => Stepped::Sleep(until),
        _ => any_step(session, world, config, scratch),
    }
}

/// The same, whatever the call is. It stands by itself, so that the calls which pass bytes don't carry the room that it takes.
pub fn any_step<W: World>(
    session: &mut Session,
    world: &mut W,
    config: &Config,
    scratch: &mut Vec<u8>,
) -> Stepped
    requires block { config.now.block ≤ vec_len scratch.old }
    requires meets { Meets config.now (W.seen world.old) session.old }
    ensures step { StepIs config.now (W.seen world.old) (W.seen world.new) session.old session.new result }
    ensures scratch { vec_len scratch.new ≡ vec_len scratch.old }
{
    match session.wish() {
        Wish::Open(place) => open(session, world, config, place),
        Wish::Settle(place) => settle(session, world, config, place),
        Wish::Listen(door) => listen(session, world, config, door),
        Wish::Accept { door, place } => accept(session, world, config, door, place),
        Wish::Read { place, at_most } => read(session, world, config, scratch, place, at_most),
        Wish::Write(place) => write(session, world, config, place),
        Wish::Send(place) => send(session, world, config, place),
        Wish::Shut(place, how) => shut(session, world, config, place, how),
        Wish::Close(place, why) => close(session, world, config, place, why),
        Wish::Reap(place) => reap(session, world, config, place),
        Wish::Sleep { until } => Stepped::Sleep(until),
        Wish::Done(why) => Stepped::Done(why),
    }
}
