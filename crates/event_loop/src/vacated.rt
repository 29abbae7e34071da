// The closings of the program door, once no session lives.
ghost use Rattle.std.specs.Prelude.{◌≡◌};

use crate::all_sessions::Sessions;
use relay_model::Why;
use world_trait::World;

impl Sessions {
    ghost use Rattle.event_loop.specs.Vacated.{ClosesDoor, ClosesFirst, SomeVacated};

    /// Closes the place of a refused peer and then the door, as far as they are held.
    pub fn close_door<W: World>(&mut self, world: &mut W, why: Why)
        requires { SomeVacated (W.seen world.old) why self.old }
        ensures closes { ClosesDoor (W.seen world.old) (W.seen world.new) why self.old self.new }
        ensures made { self.new.made ≡ self.old.made }
    {
        self.close_first(world, why);
        self.close_first(world, why);
    }

    /// Closes what is to be closed first of what the door holds, if it holds anything.
    fn close_first<W: World>(&mut self, world: &mut W, why: Why)
        requires { SomeVacated (W.seen world.old) why self.old }
        ensures closes { ClosesFirst (W.seen world.old) (W.seen world.new) why self.old self.new }
        ensures made { self.new.made ≡ self.old.made }
    {
        if let Some(thing) = self.door.held_thing() {
            world.close(thing, why);
            self.door.hear_closing(why);
        }
    }
}
