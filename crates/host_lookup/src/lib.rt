// Hosts: what their text writes, and names that are looked up beside the loop.
#![tactic(auto)]

mod hosts;
mod lookups;

pub use hosts::{HostAddresses, WrittenHost, written_host};
pub use lookups::{HostLookup, Looked, Lookups};
