// The auditor: says whether a file is the journal of a run that the words of a command may have. Its arguments are
// the file and the words.
#![tactic(auto)]

use blocking_streams::{Blocking, program_words};
use port_trait::{StdSink, StdSource};
use relay_audit::audit_run;
use std::io::Write;
use std::process::ExitCode;
use std::{fs, str};

/// The status where there is no memory for the arguments.
const NO_MEMORY: u8 = 2;

/// The status where no file is named or it can't be opened.
const NO_FILE: u8 = 3;

/// What is said where no file is named.
const USAGE: &[u8] =
    b"usage: socat-audit <journal> <word>..  (the words that the run was started with)\n";

fn main(rt: HostRuntime) -> ExitCode {
    let alloc = rt.alloc();
    let mut errors = Blocking::new(rt.stderr());
    let Ok(arguments) = program_words(alloc, &rt) else {
        return ExitCode::from(NO_MEMORY);
    };
    let [name, words @ ..] = arguments.as_slice() else {
        let _ = errors.write_all(USAGE);
        return ExitCode::from(NO_FILE);
    };
    let Ok(name) = str::from_utf8(name.as_slice()) else {
        let _ = errors.write_all(b"socat-audit: the name of the journal isn't UTF-8\n");
        return ExitCode::from(NO_FILE);
    };
    let Ok(file) = fs::open(&rt, name) else {
        let _ = errors.write_all(b"socat-audit: the journal can't be opened\n");
        return ExitCode::from(NO_FILE);
    };
    let mut source = StdSource::new(Blocking::new(file));
    let mut sink = StdSink::new(Blocking::new(rt.stdout()));
    ExitCode::from(audit_run(alloc, &mut source, &mut sink, words, u64::MAX))
}
