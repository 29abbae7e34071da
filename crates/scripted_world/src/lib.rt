// A world for tests, which answers from a script and keeps its history.
#![tactic(auto)]

mod accepting;
mod items;
mod lines;
mod looking;
mod marks;
mod mem_world;
mod reading;
mod script;
mod writing;

pub use accepting::{Coming, DuePeer, who_comes};
pub use items::{OpenItem, PeerItem, ReadItem, WriteItem};
pub use lines::{PlacedItem, PlacedItems};
pub use looking::{LookedAt, Lookout, WatchKind};
pub use marks::Marks;
pub use mem_world::MemWorld;
pub use reading::{DueRead, Given, Reading, look, use_bytes};
pub use script::Script;
pub use writing::{DueWrite, TakenNow, Writing, room, use_write};
