// A port whose first bytes are a talk with what is behind it: a request that is written and a reply that is
// read, byte by byte, with nothing behind it. Then it is the port beneath.
#![tactic(auto)]

mod connect_head;
mod connect_port;
mod connect_refusal;
mod connect_request;
mod connect_talk;
mod port;
mod progress;
mod socks_port;
mod socks_refusal;
mod socks_request;
mod socks_talk;
mod stage;
mod talk;

pub use connect_port::ConnectPort;
pub use connect_refusal::ConnectEnd;
pub use connect_talk::ConnectTalk;
pub use port::TunnelPort;
pub use socks_port::SocksPort;
pub use socks_refusal::SocksEnd;
pub use socks_request::{Request, request4, request4a};
pub use socks_talk::SocksTalk;
pub use stage::TalkStage;
pub use talk::{HeardReply, Talk};
