// What the outer layer stands on: ports, the sources and sinks behind them, what starts threads, makes
// ports, waits and wakes. The words of their contracts stand in `specs/`.
#![tactic(auto)]

mod account;
mod answers;
mod call;
mod counts;
mod direct;
mod keys;
mod makers;
mod pollers;
mod ports;
mod spawning;
mod streams;
mod tallies;
mod texts;

pub use account::Account;
pub use answers::{
    Begun, Got, Hint, Joining, PortReap, Settled, Shutting, SinkTook, SourceGot, Took,
};
pub use call::PortCall;
pub use counts::PortCounts;
pub use direct::{DirectReader, DirectWriter};
pub use keys::KeyList;
pub use makers::{AskedPlace, MadePeer, Maker, Making};
pub use pollers::{Polled, Poller};
pub use ports::Port;
pub use spawning::{Spawner, StdSpawner, Task, Wake};
pub use streams::{Sink, Source, StdSink, StdSource, copy_front};
pub use tallies::{
    count_beginning, count_reading, count_settling, count_shutting, count_writing, is_end,
};
pub use texts::{write_front, write_whole};
