//! The bytes that wait in one direction of a relay: converted, cut off at their end, and in order.
#![tactic(auto)]

mod backlogs;
mod flows;
mod lanes;
mod stream_stores;

pub use flows::Flow;
pub use lanes::Lane;
pub use stream_stores::new_block;
