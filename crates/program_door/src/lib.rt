// The program door of `fork`: what it calls for, and what each answer makes of it.
#![tactic(auto)]

mod calls;
mod doors;
mod laws;
mod stages;
mod wishes;

pub use doors::Door;
pub use laws::{
    acts_of_sessions_pass, door_is_apart, held_is_known, next_rests, others_pass, quiet_turns_pass,
    wishes_tell,
};
pub use wishes::{DoorAnswer, DoorWish};
