// Where bytes come from and go to: sides of the command, halves of an opened thing, directions.
ghost use Rattle.std.specs.Prelude.{◌≡◌};
ghost use Rattle.relay_model.specs.Places.{same_place, door_of};

/// The first or the second address of the command line.
#[derive(Clone, Copy, PartialEq, Eq, Hash)]
pub enum Side {
    Left,
    Right,
}

/// What an opened thing serves for: both halves, or one half of a dual or one-way address.
#[derive(Clone, Copy, PartialEq, Eq, Hash)]
pub enum Part {
    Both,
    Reading,
    Writing,
}

/// One of the two halves of an opened thing.
#[derive(Clone, Copy, PartialEq, Eq)]
pub enum Half {
    ToRead,
    ToWrite,
}

/// A direction of transfer.
#[derive(Clone, Copy, PartialEq, Eq)]
pub enum Way {
    LeftToRight,
    RightToLeft,
}

/// One opened thing, or with `door` the listener behind it.
#[derive(Clone, Copy, PartialEq, Eq, Hash)]
pub struct Place {
    pub session: u32,
    pub side: Side,
    pub part: Part,
    pub door: bool,
}

impl Place {
    /// Whether both name the same thing.
    pub fn is(&self, other: Place) -> bool
        ensures { result ≡ same_place self.now other }
    {
        *self == other
    }

    /// The listener behind this place.
    pub fn own_door(&self) -> Place
        ensures { result ≡ door_of self.now }
    {
        Place {
            session: self.session,
            side: self.side,
            part: self.part,
            door: true,
        }
    }
}
