// What an opening calls for.
use crate::places::Place;

/// What is called for.
#[derive(Clone, Copy, PartialEq, Eq)]
pub enum Call {
    /// Nothing is called for.
    Nothing,
    /// A further try, and nothing before this moment, in milliseconds since the run began.
    TryAt(u64),
    /// The opening of a place.
    Open(Place),
    /// The further opening of a place whose opening is under way.
    Settle(Place),
    /// The listening of a door.
    Listen(Place),
    /// An accepting at the door, for the place.
    Accept { door: Place, place: Place },
    /// The closing of a place whose peer isn't permitted.
    Refuse(Place),
    /// The closing of a door that has served.
    Serve(Place),
}
