// The writing ring: a sink that blocks is written by a thread of its own, and a queue joins that thread to a loop that
// never waits for it.
#![tactic(auto)]

mod fresh_writer;
mod writer;
mod writer_outlet;
mod writer_puts;
mod writer_stages;
mod writer_thread;

pub use fresh_writer::FreshWriter;
pub use writer::RingWriter;
