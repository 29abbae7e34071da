// Rows of worked runs: how they are spelt, what they ask of a run and of its journal, and the report of all.
#![tactic(auto)]

mod checks;
mod desk_rows;
mod faults;
mod files;
mod lines;
mod outcomes;
mod rows;
mod runs;
mod scripts;
mod seen;
mod settings;
mod spelling;
mod told;
mod wants;
mod worlds;

pub use desk_rows::{DeskRun, ROOM, Streams, carry_out};
pub use faults::RowFault;
pub use files::check_files;
pub use rows::{Line, WorkedRow};
pub use runs::{Parted, RunResult, part};
pub use scripts::{port_of, source_of};
pub use seen::{Look, taken_line};
pub use settings::{Input, Output, RowSystem, Setting};
pub use worlds::world_of;
