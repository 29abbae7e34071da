// Whether a written history is one that its command may have.
#![tactic(auto)]

mod judging;
mod laws;
mod may;
mod reports;
mod rest;
mod verdicts;

pub use judging::{Judgement, judge};
pub use laws::one_verdict;
pub use reports::audit_run;
pub use verdicts::{Verdict, audit};
