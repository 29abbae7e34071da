// Sockets as ports, the listeners that accept them, and the sessions that share one UDP socket.
#![tactic(auto)]

mod accepting;
mod crowd;
mod crowds;
mod peer_port;
mod poller;
mod port;
mod removal;
mod seat;
mod socket;

pub use crowds::Gathering;
pub use peer_port::PeerPort;
pub use poller::PeerPoller;
pub use port::SocketPort;
pub use removal::Removal;
