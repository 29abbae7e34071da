// What an address asks for: its kind with the parameters, and its options. `specs/Resolving.antt` says which
// address of words it is, or what is wrong with it.
#![tactic(auto)]

mod effects;
mod faults;
mod kinds;
mod laws;
mod options;
mod resolving;
mod rules;
mod table;
mod targets;
mod uses;

pub use faults::KindFault;
pub use laws::resolutions_are_told;
pub use resolving::resolve;
pub use targets::report_number;
pub use uses::Asked;
