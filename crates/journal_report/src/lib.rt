// A journal as people read it: what is asked of it, and the text that shows it. The sessions stand along the time of the
// run as rows of signs or as a picture.
#![tactic(auto)]

mod charts;
mod elements;
mod pictures;
mod runs;
mod shown;
mod timelines;
mod views;

pub use runs::journal_run;
pub use shown::{Unshown, ViewFault, view_of_text};
pub use views::{View, ViewedStream, asked_view};
