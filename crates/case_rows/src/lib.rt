// Cases as rows of text. A row is a line: a name, a part, what the part is asked, and after `=` what it must answer.
#![tactic(auto)]

mod answers;
mod inputs;
mod rows;
mod tries;

pub use answers::Answers;
pub use inputs::{Inputs, bytes_of, step_parts};
pub use rows::{Answered, CaseFault, CaseRow, Tally};
pub use tries::{try_files, try_named};
