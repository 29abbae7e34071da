// The ports of the standard streams: in the loop where the system lets a call on them answer at once, and behind rings
// elsewhere.
#![tactic(auto)]

mod direct;
mod error_rings;
mod errors;
mod fresh;
mod input;
mod opening;
mod output;
mod piped;
mod prompt;
mod told;
mod told_sink;

pub use direct::{DirectPort, SharedPort};
pub use error_rings::{ErrorParts, ErrorSink, FreshErrors, RingMaker, make_errors};
pub use errors::{ErrorPort, ErrorRing, ErrorStart, PlainErrors};
pub use fresh::{FreshDirect, FreshInput, FreshOutput};
pub use input::{InputPort, InputRing};
pub use opening::{direct_input, direct_output, open_errors};
pub use output::{OutputPort, OutputRing};
pub use piped::PipePort;
pub use prompt::Prompt;
pub use told::ToldSocket;
pub use told_sink::{Failures, ToldSink};
