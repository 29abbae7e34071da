// The poller that waits for sockets and wakes, and one that only keeps time.
#![tactic(auto)]

mod poller;
mod reserved;
mod system;
mod ticking;
mod watches;

pub use poller::{MioPoller, MioWake, SystemPoller};
pub use reserved::{FIRST_RESERVED, INPUT, OUTPUT, PROBE, SHARED, WAKE, is_reserved};
pub use system::{Readiness, System};
pub use ticking::TickPoller;
pub use watches::Watch;
