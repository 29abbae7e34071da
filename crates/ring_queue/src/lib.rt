// A bounded queue between one sender and one taker, and the items of a ring: what was sent is what was taken and then
// what the queue holds, in order, and each item fits those that were sent before it.
#![tactic(auto)]

mod ending;
mod items;
mod lines;
mod pages;
mod queues;
mod roles;
mod tallies;
mod words;

pub use ending::ThreadEnding;
pub use items::{CHUNK, Chunk, ChunkPage, RingItem};
pub use lines::{
    KnownPort, LineEnds, Lines, LoopWaits, SendingSide, TakingSide, ThreadHold, WakeSignal,
    make_lines, receive, send, send_to_port, take_in,
};
pub use pages::{Pages, Ready, Spent};
pub use queues::{OrderedPass, OrderedQueue, is_empty, is_full, ordered_queue, put, settle, take};
pub use roles::{Item, OrderRule, PassView};
pub use tallies::RingTally;
pub use words::{SinkFault, Word};
