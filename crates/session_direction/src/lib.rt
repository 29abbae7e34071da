//! One direction of a session: what it has read, owes and has written, what of it is armed and was asked, and when it
//! was done. No call after `new` takes memory.
#![tactic(auto)]

mod directions;

pub use directions::{Direction, Want};
