// The sessions of a command with `fork`, by number, and a count of the looks at them.
#![tactic(auto)]

mod steps;
mod tables;

pub use steps::Steps;
pub use tables::ForkTable;
