// Makes sockets: connects them, listens and accepts.
#![tactic(auto)]

mod aims;
mod entries;
mod local;
mod looking;
mod maker;
mod making;
mod port;
mod reaching;
mod reserve;
mod tally;
mod unlinking;

pub use aims::{Aim, SocketWay};
pub use local::door_address;
pub use looking::LookingPort;
pub use maker::{SocketMaker, is_starved};
pub use making::bind_door;
pub use port::{HostPort, PlainPort};
pub use reserve::{Reserve, can_have};
pub use tally::MakerTally;
