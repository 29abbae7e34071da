// The closings of one session that was cut, while the program door hears of them.
ghost use Rattle.std.specs.Prelude.{◌≡◌, ◌<◌, ◌≤◌, true, false, vec_len};
ghost use Rattle.relay_session.specs.{left_of};
ghost use Rattle.event_loop.specs.Closings.{IsOver, LeavesOn, SomeLeaves, closes};

use program_door::Door;
use relay_model::{Config, Why};
use relay_session::{Session, Wish};
use session_driver::{Stepped, step};
use world_trait::World;

/// Closes all that the session holds, which was cut for this reason, and asks for its children.
pub fn close_all<W: World>(
    session: &mut Session,
    door: &mut Door,
    world: &mut W,
    config: &Config,
    scratch: &mut Vec<u8>,
    why: Why,
)
    requires block { config.now.block ≤ vec_len scratch.old }
    requires leaves { SomeLeaves config.now (W.seen world.old) why session.old door.old }
    ensures leaves { LeavesOn config.now (W.seen world.old) (W.seen world.new) why session.old session.new door.old door.new }
    ensures over { IsOver session.new }
    ensures scratch { vec_len scratch.new ≡ vec_len scratch.old }
{
    loop {
        if close_next(session, door, world, config, scratch, why) {
            return;
        }
    }
}

/// Closes the next thing or asks for the next child. Answers whether none is left.
fn close_next<W: World>(
    session: &mut Session,
    door: &mut Door,
    world: &mut W,
    config: &Config,
    scratch: &mut Vec<u8>,
    why: Why,
) -> bool
    requires block { config.now.block ≤ vec_len scratch.old }
    requires leaves { SomeLeaves config.now (W.seen world.old) why session.old door.old }
    ensures leaves { LeavesOn config.now (W.seen world.old) (W.seen world.new) why session.old session.new door.old door.new }
    ensures over { result ≡ true → IsOver session.new }
    ensures fewer { result ≡ false → left_of session.new < left_of session.old }
    ensures scratch { vec_len scratch.new ≡ vec_len scratch.old }
{
    let is_closing = closes(session.wish());
    match step(session, world, config, scratch) {
        Stepped::Acted => {
            if is_closing {
                door.cut(why);
            }
            false
        }
        Stepped::ReadFailed(_place) => false,
        Stepped::WriteFailed(_place) => false,
        Stepped::Childless => false,
        Stepped::Memory => unreachable!(),
        Stepped::Sleep(_until) => unreachable!(),
        Stepped::Done(_why) => true,
    }
}

/// The wish is a closing.
fn closes(wish: Wish) -> bool
    ensures { result ≡ closes wish }
{
    match wish {
        Wish::Close(_place, _why) => true,
        _ => false,
    }
}
