// The next step of the program door.
ghost use Rattle.session_driver.specs.DoorSteps.{DoorFor, DoorMeets, DoorStepIs};

use crate::door_calls::{accept, close, listen};
use crate::door_stepped::DoorStepped;
use command_places::program_door;
use program_door::{Door, DoorWish};
use relay_model::{Config, Why};
use world_trait::World;

/// Makes the next call that the door wishes for, at this moment and while so many sessions live, and has it hear the
/// answer. `now` is the moment of the last turn, in milliseconds.
pub fn step_door<W: World>(
    door: &mut Door,
    world: &mut W,
    config: &Config,
    now: u64,
    live: u32,
) -> DoorStepped
    requires { DoorMeets config.now (W.seen world.old) now live door.old }
    ensures { DoorStepIs config.now (λ n past. DoorFor config.now n past now live door.old) (W.seen world.old)
        (W.seen world.new) door.old door.new result }
{
    match door.wish(now, live) {
        DoorWish::Listen => listen(door, world, config, now),
        DoorWish::Accept { place } => accept(door, world, config, now, place),
        DoorWish::Refuse(place) => {
            let wish = DoorWish::Refuse(place);
            close(door, world, config, now, wish, place, Why::Refused)
        }
        DoorWish::Serve => {
            let wish = DoorWish::Serve;
            close(door, world, config, now, wish, program_door(), Why::Served)
        }
        DoorWish::End(place, why) => {
            let wish = DoorWish::End(place, why);
            close(door, world, config, now, wish, place, why)
        }
        DoorWish::Sleep { until } => DoorStepped::Sleep(until),
        DoorWish::Done => DoorStepped::Done,
    }
}
