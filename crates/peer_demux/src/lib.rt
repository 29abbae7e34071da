// Packets of one socket of datagrams, sorted by their senders.
#![tactic(auto)]

mod answers;
mod hubs;
mod laws;
mod links;
mod mem_link;
mod rows;
mod senders;
mod tables;

pub use answers::{Lost, Mode, Put, Taken};
pub use hubs::{Hub, RowPeer};
pub use laws::{nobody_waits_in_vain, nothing_is_lost, one_row_a_sender, packets_are_the_senders};
pub use links::{Link, Received};
pub use mem_link::{LinkItem, MemLink};
pub use tables::Demux;
