// What a list of acts says of a session: whether it lives, what its opening calls for, its moments, and why it ends.
#![tactic(auto)]

mod calls;
mod causes;
mod conversions;
mod ledger;
mod listed;
mod moments;
mod openings;
mod outcome;
mod owings;
mod sessions;
mod transfers;

pub use calls::{call_at, door_call, door_cut, known_call};
pub use causes::{cause, is_running};
pub use ledger::Ledger;
pub use moments::{closing_moment, has_passed, idle_moment, is_broken};
pub use openings::ready;
pub use outcome::{has_outcome, outcome_of};
pub use sessions::{holds, live, numbers};
pub use transfers::{backlog, due_after, greatest_read, is_spent, over};
