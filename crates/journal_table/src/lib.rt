// What a journal tells of a run: a row for each session and the table of them, the bytes of a direction as they are or as a
// dump would have shown them, and the acts in plain words.
#![tactic(auto)]

mod acts;
mod cells;
mod laws;
mod newest;
mod overviews;
mod rows;
mod streams;
mod tables;
mod visits;

pub use acts::acts_told;
pub use cells::{moment, number, say_left, say_right};
pub use newest::newest_first;
pub use overviews::{Overview, overview_of};
pub use rows::{SessionRow, WayEnding, WayTraffic};
pub use streams::{bytes_read, bytes_written, dump_stream};
pub use tables::{peers_cell, say_why, table};
