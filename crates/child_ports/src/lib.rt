// Programs behind an address: their ports, how they are started, and those that outlive their ports.
#![tactic(auto)]

mod calls;
mod peers;
mod port;
mod start;
mod unreaped;

pub use calls::ProgramCalls;
pub use peers::PeerTexts;
pub use port::{ChildPort, ProgramPipes};
pub use start::make_child;
pub use unreaped::{EmptyWard, UnreapedChildren, Ward};
