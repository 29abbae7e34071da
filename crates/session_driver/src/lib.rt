// One session over a world: each call that it wishes for is made, and the answer heard. What a call keeps is said for
// every number that the session has, and of no loop. Where the command dumps what it reads, the text is noted after each
// read.
#![tactic(auto)]

mod calls;
mod door_calls;
mod door_stepped;
mod door_steps;
mod dumpers;
mod noted_steps;
mod stepped;
mod steps;

pub use door_stepped::DoorStepped;
pub use door_steps::step_door;
pub use dumpers::Dumper;
pub use noted_steps::{step_noted, step_owing};
pub use stepped::Stepped;
pub use steps::step;
