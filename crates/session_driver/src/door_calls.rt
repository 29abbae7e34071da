// The calls that the program door wishes for, each made on a world.
ghost use Rattle.std.specs.Prelude.{◌≡◌, Some, false};
ghost use Rattle.relay_model.specs.declared.acts.Act.TheVariants as acts;
ghost use Rattle.relay_model.specs.{program_door as the_door, Free, Open, is_free};
ghost use Rattle.program_door.specs.declared.wishes.DoorWish.TheVariants as wishes;
ghost use Rattle.program_door.specs.declared.wishes.DoorAnswer.TheVariants as answers;
ghost use Rattle.program_door.specs.{act_of};
ghost use Rattle.session_driver.specs.DoorSteps.{DoorStepIs, WishFor};

use crate::door_stepped::DoorStepped;
use command_places::{program_door, single};
use program_door::{Door, DoorAnswer, DoorWish};
use relay_model::{Config, Place, Why};
use world_trait::{AcceptAnswer, ListenAnswer, World};

/// Listens at the door.
pub fn listen<W: World>(door: &mut Door, world: &mut W, config: &Config, now: u64) -> DoorStepped
    requires { (W.seen world.old).held the_door ≡ Free }
    ensures { DoorStepIs config.now (λ n past. WishFor config.now n past now wishes.Listen door.old) (W.seen world.old)
        (W.seen world.new) door.old door.new result }
{
    let place = program_door();
    match world.listen(place, single(config, place)) {
        ListenAnswer::Listening => {
            door.hear(now, DoorWish::Listen, DoorAnswer::Listening);
            DoorStepped::Acted
        }
        ListenAnswer::Failed => {
            door.hear(now, DoorWish::Listen, DoorAnswer::Failed);
            DoorStepped::Acted
        }
        ListenAnswer::Memory => DoorStepped::Memory,
    }
}

/// Asks for the next peer, which gets this place.
pub fn accept<W: World>(
    door: &mut Door,
    world: &mut W,
    config: &Config,
    now: u64,
    place: Place,
) -> DoorStepped
    requires door { (W.seen world.old).held the_door ≡ Open }
    requires place { (W.seen world.old).held place ≡ Free }
    ensures { DoorStepIs config.now (λ n past. WishFor config.now n past now (wishes.Accept place) door.old)
        (W.seen world.old) (W.seen world.new) door.old door.new result }
{
    let wish = DoorWish::Accept { place };
    match world.accept(program_door(), place) {
        AcceptAnswer::Accepted(peer) => {
            let before = door.admitted_count();
            door.hear(now, wish, DoorAnswer::Accepted(peer));
            if door.admitted_count() == before {
                DoorStepped::Acted
            } else {
                DoorStepped::Admitted(peer)
            }
        }
        AcceptAnswer::NoPeer => {
            door.hear(now, wish, DoorAnswer::NoPeer);
            DoorStepped::Acted
        }
        AcceptAnswer::Failed => {
            door.hear(now, wish, DoorAnswer::Failed);
            DoorStepped::AcceptFailed
        }
        AcceptAnswer::Memory => DoorStepped::Memory,
    }
}

/// Closes what the wish names: the place of a refused peer, or the door.
pub fn close<W: World>(
    door: &mut Door,
    world: &mut W,
    config: &Config,
    now: u64,
    wish: DoorWish,
    place: Place,
    why: Why,
) -> DoorStepped
    requires act { act_of wish answers.Closed ≡ Some (acts.Closed place why) }
    requires held { is_free ((W.seen world.old).held place) ≡ false }
    ensures { DoorStepIs config.now (λ n past. WishFor config.now n past now wish door.old) (W.seen world.old)
        (W.seen world.new) door.old door.new result }
{
    world.close(place, why);
    door.hear(now, wish, DoorAnswer::Closed);
    DoorStepped::Acted
}
