// The top call: it reads the words, relays, and answers how the run ended.
#![tactic(auto)]

mod calls;
mod commands;
mod creating;
mod creations;
mod disk;
mod ends;
mod files;
mod generated;
mod load_worlds;
mod notes;
mod numbered_worlds;
mod programs;
mod runs;
mod streams;
mod summaries;
mod words;
mod written;

pub use calls::socat;
pub use commands::load_command;
pub use creating::{Disk, FileCreator};
pub use disk::DiskJournal;
pub use ends::{behind_is_due, passed_ends};
pub use files::JournalFile;
pub use generated::generated_run;
pub use load_worlds::load_world;
pub use numbered_worlds::NumberedWorld;
pub use programs::{NO_MEMORY, asks_for_relay, carry_out, end_status};
pub use runs::{Shipped, run};
pub use streams::Generator;
pub use summaries::Summary;
pub use words::command_is_of_words;
pub use written::{Saving, Written, journal_flag, run_written};
