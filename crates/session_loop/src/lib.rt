// The loop that drives one session over a world: it makes the call that the session wishes for and hands
// the answer back, until the session is done.
#![tactic(auto)]

mod drains;
mod drivers;
mod faults;
mod members;
mod outcomes;
mod pauses;
mod turns;

pub use drains::drain;
pub use drivers::Driver;
pub use faults::Fault;
pub use members::Member;
pub use outcomes::outcome_for;
pub use pauses::Pause;
