// Timers by key: which falls due first, and when.
#![tactic(auto)]

mod heap;
mod timer;
mod timers;

pub use timers::TimerSet;
