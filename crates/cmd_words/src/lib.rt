// The words of a command line: the flags, the two addresses, and what is wrong with words that make no
// command. `specs/Commands.antt` says which command a list of words makes.
#![tactic(auto)]

mod addresses;
mod commands;
mod faults;
mod flags;
mod laws;
mod leading;
mod settings;

pub use commands::{Command, command_of, relay_of};
pub use faults::CommandFault;
pub use laws::command_is_told;
