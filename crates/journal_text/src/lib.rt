// A journal written as text, one line an act, and read back. No two journals have one text: each number, byte and
// word has one spelling, and any other makes a bad line.
#![tactic(auto)]

mod faults;
mod fields;
mod kinds;
mod laws;
mod lines;
mod reading;
mod sources;
mod writing;

pub use faults::JournalFault;
pub use laws::{one_bad_line, one_journal};
pub use reading::read_journal;
pub use sources::{LONGEST_TEXT, Unread, read_text};
pub use writing::{write_front, write_journal};
