// Streams whose calls wait for the system, whatever their descriptors are set to, and the words that a program was started
// with.
#![tactic(auto)]

mod arguments;
mod calls;
mod streams;
mod terminals;

pub use arguments::program_words;
pub use calls::{read_blocking, write_blocking};
pub use streams::Blocking;
pub use terminals::InputSource;
