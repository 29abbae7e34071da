// The maker of the program's ports: the echo pipe, sockets, files, programs and proxies.
#![tactic(auto)]

mod kinds;
mod made;
mod maker;
mod opening;
mod ports;
mod proxied;
mod socks;

pub use made::MadePort;
pub use maker::RealMaker;
pub use opening::OfSocket;
pub use ports::RealPort;
pub use socks::{AskedLater, SocksOpening, SocksStage};
