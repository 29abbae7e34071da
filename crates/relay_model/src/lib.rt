// The plain data of the relay: places, acts, commands and the small lists that hold them. The definitions
// of a legal history stand in `specs/`, in terms of these types.
#![tactic(auto)]

mod acts;
mod armings;
mod calls;
mod commands;
mod contents;
mod journals;
mod media;
mod outcomes;
mod places;
mod plain;
mod readiness;
mod refusals;
mod stages;

pub use acts::{Act, ChildEnd, Peer, Shut, Why};
pub use armings::Arming;
pub use calls::Call;
pub use commands::{
    Address, Admission, Bind, Config, Conv, Dump, EntryOptions, Family, FileFlags, InputOptions,
    LONGEST_PACKET, Options, ProxyOptions, Range, SessionOptions, Single, SocketOptions, Target,
    TryOptions, Ways,
};
pub use contents::{Bytes, NoMemory, Text, Texts};
pub use journals::{Askings, Journal, Kept};
pub use media::Medium;
pub use outcomes::RunOutcome;
pub use places::{Half, Part, Place, Side, Way};
pub use readiness::{MOST_READY, ReadyAt, ReadyList, TurnList};
pub use refusals::{Refusal, Refused};
pub use stages::Stage;
