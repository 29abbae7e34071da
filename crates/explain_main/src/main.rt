// The explainer: says what the words of a command line make, and opens nothing. Its arguments are those words.
#![tactic(auto)]

use blocking_streams::{Blocking, program_words};
use command_report::explain_run;
use port_trait::StdSink;
use std::process::ExitCode;

/// The status where there is no memory for the arguments.
const NO_MEMORY: u8 = 2;

fn main(rt: HostRuntime) -> ExitCode {
    let alloc = rt.alloc();
    let Ok(words) = program_words(alloc, &rt) else {
        return ExitCode::from(NO_MEMORY);
    };
    let mut sink = StdSink::new(Blocking::new(rt.stdout()));
    ExitCode::from(explain_run(alloc, &mut sink, words.as_slice()))
}
