// The opening of a session: how far each of its places has come, and what is called for next.
#![tactic(auto)]

mod given_up;
mod one_place;
mod session_openings;
mod steps;
mod summaries;

pub use given_up::GivenUp;
pub use session_openings::Openings;
