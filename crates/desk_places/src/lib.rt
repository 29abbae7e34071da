// The held places of a desk, and what they stand on. Each call on a place is one call on its port.
#![tactic(auto)]

mod keys;
mod naming;
mod places;
mod ports;

pub use keys::KeySet;
pub use naming::{arm_named, name_hinting, name_keyed};
pub use places::{PlaceEntry, PlaceTable};
pub use ports::Ports;
