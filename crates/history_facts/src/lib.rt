// What the acts of a history say of its places and sessions: how they stand, what they took and gave, what is armed,
// and which bytes are due. The answers are kept beside the acts.
#![tactic(auto)]

mod arming;
mod armings;
mod choices;
mod clock;
mod history;
mod naming;
mod numbered;
mod openings;
mod past;
mod placed;
mod sessions;
mod traffic;

pub use arming::{
    armed_to_accept, armed_to_read, armed_to_write, arming_moment, asked_to_accept, asked_to_read,
    asked_to_write, read_arming,
};
pub use armings::Armings;
pub use choices::{earlier, later, or_else};
pub use clock::TurnFacts;
pub use history::{
    accept_failed, admitted_count, closed_why, failure_count, got_length, has_served, is_held,
    memory_said, met_empty, met_end, moved_at, next_due, now, put_length, read_fault_at, shut_at,
    stage_of, stop_said, turns, was_closed, was_reaped, was_woken, write_fault_at,
};
pub use numbered::Numbered;
pub use openings::OpeningFacts;
pub use past::Past;
pub use placed::Placed;
pub use sessions::{SessionFacts, permits};
pub use traffic::Traffic;
