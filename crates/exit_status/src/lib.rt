// How a run ended: the exit status it gives, and what is said of it on standard error.
#![tactic(auto)]

mod lines;
mod outcomes;

pub use lines::{line_of, usage_text, version_text};
pub use outcomes::{EndWhy, Op, Outcome, one_answer_fits, status};
