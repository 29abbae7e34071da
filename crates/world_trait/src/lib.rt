// The outside of the relay as a trait. Each call is one act of the history.
#![tactic(auto)]

mod answers;
mod recorders;
mod tables;
mod worlds;

pub use answers::{
    AcceptAnswer, ListenAnswer, NoteAnswer, OpenAnswer, ReadAnswer, ReapAnswer, SendAnswer,
    ShutAnswer, Turned, WriteAnswer,
};
pub use recorders::{Recorder, Recording};
pub use tables::{Held, Holdings, Standing};
pub use worlds::World;
