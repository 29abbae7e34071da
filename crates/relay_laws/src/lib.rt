// Laws of legal histories, each as the contract of a function that does nothing: whoever calls it knows the law. The
// lemmas on lists of acts below them serve the proofs of the core too.
#![tactic(auto)]

mod births;
mod doors;
mod frames;
mod histories;
mod packets;
mod sleepers;
mod waits;

pub use births::{unbegun_is_unnamed, unbegun_is_untouched, untouched_is_new};
pub use doors::{
    admitted_is_bounded, caused_begins_nothing, ended_stays_ended, live_is_bounded,
    program_door_tells, served_door_stays_closed, served_door_stays_served,
};
pub use frames::{
    elsewhere_is_untouched, moves_alike, output_is_own, session_is_its_own, sessions_are_apart,
    steps_change_their_own, steps_leave_the_rest,
};
pub use histories::{
    backlog_is_bounded, calls_tell, closed_is_for_good, closed_is_over, end_is_last,
    examples_are_judged, finished_is_whole, held_has_begun, holdings_end_once, one_test_is_right,
    outputs_agree, passed_is_whole, prefixes_are_legal, standing_is_held, tests_are_right,
    used_is_held, written_is_due,
};
pub use packets::{packets_are_due, packets_keep_borders};
pub use sleepers::{gone_rests, rests_through, slept_is_tick, slept_through, wakes_alike};
pub use waits::{rest_is_of_parts, until_is_least};
