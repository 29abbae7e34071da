// Ports of files.
#![tactic(auto)]

mod access;
mod ends;
mod halves;
mod input;
mod open;
mod opening;
mod pipes;
mod port;
mod stream;
mod waiting;

pub use access::{Access, FileAddress};
pub use ends::{ReadEnd, WriteEnd};
pub use halves::{HalfReadiness, Halves};
pub use input::FileInput;
pub use open::{FileEnds, NamedPipe, OpenedFile, PipeEntry, open_file};
pub use opening::FileCalls;
pub use pipes::PipeOpenings;
pub use port::{FilePort, make_file};
pub use stream::FileStream;
pub use waiting::WaitingPipe;
