// With `fork`, where the peer of a session is accepted.
ghost use Rattle.std.specs.Prelude.{◌≡◌};
ghost use Rattle.relay_model.specs.{first_part};
ghost use Rattle.relay_session.specs.States.{home};

use command_places::{parts, place_at};
use relay_model::{Config, Part, Place, Side};

/// The first place of the session with this number, on the left side.
pub fn home_of(config: &Config, number: u32) -> Place
    ensures { result ≡ home config.now number }
{
    place_at(number, Side::Left, first_part(parts(config, Side::Left)))
}

fn first_part(parts: &[Part]) -> Part
    ensures { result ≡ first_part parts.now }
{
    match parts.first() {
        Some(part) => *part,
        None => Part::Both,
    }
}
