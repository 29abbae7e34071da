// The loop of any command: one session, or the program door and the session of each peer, over one world.
#![tactic(auto)]

mod all_sessions;
mod asked;
mod births;
mod courses;
mod departures;
mod ended;
mod endings;
mod leaving;
mod loops;
mod many;
mod one;
mod relays;
mod rows;
mod steps;
mod turned;
mod turns;
mod vacated;
mod waited;
mod waits;

pub use all_sessions::Sessions;
pub use loops::Loop;
pub use relays::relay;
pub use steps::Step;
pub use turned::RunEnd;
