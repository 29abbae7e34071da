// One place of a command in plain words: its kind with each parameter, its use, and its options; and pages, which hold
// what a terminal may be shown.
#![tactic(auto)]

mod laws;
mod naming;
mod opening;
mod pages;
mod passing;
mod places;
mod values;

pub use laws::shown_tells;
pub use pages::{Page, line};
pub use places::{Use, place_told};
pub use values::say_time;
