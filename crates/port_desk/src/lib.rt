// A world over ports: the three standard streams, and what a maker opens.
#![tactic(auto)]

mod beginnings;
mod desk;
mod endings;
mod models;
mod records;
mod worlds;

pub use beginnings::{Beginning, Unfollowed};
pub use desk::Desk;
pub use endings::{Backs, Counts, Ended};
pub use models::Modelled;
pub use port_table::{Back, Standard};
