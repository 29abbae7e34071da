// A short list of places, as a session has: it takes no memory.
ghost use Rattle.std.specs.Prelude.{◌≡◌, ◌<◌, ◌∷◌, ◌++◌, [], length};

use relay_model::{Part, Place, Side};
use std::marker::Model;

/// A session has at most four places, and each at most one door.
const MOST: usize = 8;

const FREE: Place = Place {
    session: 0,
    side: Side::Left,
    part: Part::Both,
    door: false,
};

/// Up to eight places or doors, in order. Contracts see them as a list.
#[derive(Drop)]
pub struct PlaceList {
    items: [Place; 8],
    count: usize,
}

impl Model for PlaceList {
    ghost use Rattle.std.specs.Prelude.{List, take, ◌≤◌};
    ghost use Rattle.relay_model.specs.{Place};

    ghost Value = { List Place };

    ghost view = { λ list. take list.count list.items };

    ghost invariant = { λ list. list.count ≤ 8 };
}

impl PlaceList {
    /// No places.
    pub fn new() -> PlaceList
        ensures { result ≡ [] }
    {
        PlaceList {
            items: [FREE; 8],
            count: 0,
        }
    }

    /// One more place, at the end.
    pub fn push(&mut self, place: Place)
        requires { length self.old < 8 }
        ensures { self.new ≡ self.old ++ place ∷ [] }
    {
        self.items[self.count] = place;
        self.count += 1;
    }

    /// The places, in order.
    pub fn as_slice(&self) -> &[Place]
        ensures { result.now ≡ self.now }
    {
        &self.items[..self.count]
    }
}
