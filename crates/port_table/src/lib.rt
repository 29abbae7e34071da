// The ports of a desk: the three standard streams, and those that a maker makes. Each call on a base is one call on one
// of them.
#![tactic(auto)]

mod bases;
mod endings;
mod entries;
mod streams;
mod table;

pub use bases::{Base, standard_base};
pub use endings::Back;
pub use entries::PortEntry;
pub use streams::{Standard, StandardPort, is_final};
pub use table::{PortTable, accept_at};
