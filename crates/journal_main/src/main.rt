// The journal's reader: shows what a written journal tells of a run. Its arguments are the view, the file, and the words
// that the run was started with.
#![tactic(auto)]

use blocking_streams::{Blocking, program_words};
use journal_report::{View, asked_view, journal_run};
use port_trait::{StdSink, StdSource};
use relay_model::Text;
use std::io::Write;
use std::process::ExitCode;
use std::{fs, str};

/// The status where there is no memory for the arguments.
const NO_MEMORY: u8 = 2;

/// The status where no file is named or it can't be opened.
const NO_FILE: u8 = 3;

/// What is said where no view and no file are named.
const USAGE: &[u8] =
    b"usage: socat-journal [view] <journal> <word>..  (the words that the run was started with)
views: --timeline | --svg | --acts | --text <session> <way> | --hex <session> <way> | [--read] --bytes <session> <way>
a way is right, from the first address to the second, or left; without a view a table is shown
";

fn main(rt: HostRuntime) -> ExitCode {
    let alloc = rt.alloc();
    let mut errors = Blocking::new(rt.stderr());
    let Ok(arguments) = program_words(alloc, &rt) else {
        return ExitCode::from(NO_MEMORY);
    };
    let Some((view, [name, words @ ..])) = asked_view(arguments.as_slice()) else {
        let _ = errors.write_all(USAGE);
        return ExitCode::from(NO_FILE);
    };
    let Ok(name) = str::from_utf8(name.as_slice()) else {
        let _ = errors.write_all(b"socat-journal: the name of the journal isn't UTF-8\n");
        return ExitCode::from(NO_FILE);
    };
    let Ok(file) = fs::open(&rt, name) else {
        let _ = errors.write_all(b"socat-journal: the journal can't be opened\n");
        return ExitCode::from(NO_FILE);
    };
    let mut source = StdSource::new(Blocking::new(file));
    let mut sink = StdSink::new(Blocking::new(rt.stdout()));
    let mut told = StdSink::new(errors);
    ExitCode::from(journal_run(alloc, &mut source, &mut sink, &mut told, view, words))
}
