// What a command line does, in plain words, or why it is refused.
#![tactic(auto)]

mod commands;
mod reasons;
mod refusals;
mod runs;
mod sections;
mod settings;

pub use commands::explanation;
pub use refusals::refusal_report;
pub use runs::explain_run;
