// Ports, sources, sinks, makers, pollers and spawners in memory. But for the echo pipe each answers what its script says.
#![tactic(auto)]

mod echo;
mod intake;
mod makers;
mod pollers;
mod ports;
mod scripts;
mod sinks;
mod sources;
mod spawners;

pub use echo::EchoPort;
pub use intake::Tap;
pub use makers::{MakeItem, MemMaker};
pub use pollers::MemPoller;
pub use ports::MemPort;
pub use scripts::PortItem;
pub use sinks::MemSink;
pub use sources::MemSource;
pub use spawners::{ListSpawner, SureSpawner};
