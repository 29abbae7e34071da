// The core of a relay without ports: it wishes for one call at a time, hears the answer, and keeps what is
// read and not yet written. No call after `new` takes memory.
#![tactic(auto)]

mod first_places;
mod lanes;
mod moments;
mod sessions;
mod states;
mod steps;
mod transfers;
mod wishes;

pub use moments::earlier;
pub use place_openings::GivenUp;
pub use relay_buffer::new_block;
pub use sessions::{PendingSession, Session};
pub use wishes::{Answer, Wish};
