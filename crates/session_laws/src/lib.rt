// Laws of sessions, each as the contract of a function that does nothing: what one stands for while others act and while
// it sleeps, and what the histories of one alone keep.
#![tactic(auto)]

mod among_others;
mod kept;
mod one_session;
mod work;

pub use among_others::{
    acts_leave_leavers, all_rest_is_rest, closings_leave_leavers, door_tells_outcome,
    early_sleepers_wake, failed_accept_ends_all, falls_asleep, hearers_are_awake,
    late_sleepers_wake, least_wait_is_until, names_of_others_pass, sleepers_rest, sleepers_wake,
    sleeps_through_acts, sleeps_through_turns, wakers_stay,
};
pub use kept::{
    begins_after_refusal, end_spreads, ground_is_kept, memory_is_cause, next_begins, sleeps_rest,
    stands_is_kept, stop_is_cause, woken_hears, woken_late, woken_stands,
};
pub use one_session::{
    cause_is_told, failure_is_blamed, held_is_own, rest_is_of_one, stages_tell, stop_is_told,
    tries_are_counted, unshut_is_open, until_is_of_one,
};
pub use work::{ended_must_act, must_act_stays, waited_for_now};
