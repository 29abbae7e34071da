// Sockets of each kind: connections, partners of datagrams, and doors that accept them.
#![tactic(auto)]

mod accepting;
mod answering;
mod any_socket;
mod datagram;
mod door;
mod enrolled;
mod packet;
mod peers;
mod socket;
mod stream;

pub use accepting::SocketAt;
pub use answering::{receive_answer, send_answer};
pub use any_socket::AnySocket;
pub use datagram::DatagramSocket;
pub use door::{Accepts, Listener, SocketDoor};
pub use enrolled::{EnrolledUdp, PacketWire};
pub use peers::{address_of, peer_of};
pub use socket::Socket;
pub use stream::{SocketStream, StreamSocket, Wire};
