// The reading ring: a source that blocks is read by a thread of its own, and a queue joins that thread to a loop that
// never waits for it.
#![tactic(auto)]

mod gate;
mod held;
mod reader;
mod reader_port;
mod reader_stage;
mod reader_start;
mod reader_steps;
mod reader_thread;

pub use reader::RingReader;
