//! Tries sessions, whole runs and the ends of connections on rows. Arguments: files, each in the folder that says what its
//! rows are: `scripted`, runs over a scripted world; `desk`, runs over a desk of ports; `cases`, a case in each line. The
//! program prints a line for each row and at the end of each kind how many there were, and ends with 1 where one differs.
#![tactic(auto)]

mod desks;
mod ends;
mod files;
mod gates;
mod looks;
mod meetings;
mod pollers;
mod replays;
mod replies;
mod scripted;
mod servers;
mod systems;
mod talks;
mod waits;

use case_rows::{Answered, Answers, Inputs, try_named};
use relay_model::Text;
use scripted::run_scripted;
use std::alloc::Global;
use std::env::Env;
use std::process::ExitCode;
use std::{env, io};
use worked_rows::{WorkedRow, check_files};

/// The files of rows, by the folder that they stand in.
#[derive(Drop)]
struct RowFiles {
    scripted: Vec<String>,
    desk: Vec<String>,
    cases: Vec<String>,
}

impl RowFiles {
    /// No files.
    fn new(alloc: Global) -> RowFiles {
        RowFiles {
            scripted: Vec::new(alloc),
            desk: Vec::new(alloc),
            cases: Vec::new(alloc),
        }
    }

    /// Takes the file with this name.
    fn take(&mut self, name: String) -> io::Result<()> {
        let files = match name.as_str().split_once('/') {
            Some(("scripted", _)) => &mut self.scripted,
            Some(("desk", _)) => &mut self.desk,
            Some(("cases", _)) => &mut self.cases,
            _ => return Err(io::Error::from(io::ErrorKind::NotFound)),
        };
        Ok(files.push(name)?)
    }
}

/// The files that the arguments name.
fn row_files<R: Env + AllocGlobal>(rt: &R) -> io::Result<RowFiles> {
    let mut files = RowFiles::new(rt.alloc());
    for name in env::args(rt)?.skip(1) {
        files.take(name)?;
    }
    Ok(files)
}

fn main(rt: HostRuntime) -> io::Result<ExitCode> {
    let files = row_files(&rt)?;
    let over_desk = |alloc: Global, row: &WorkedRow<'_>, words: &[Text]| desks::run_row(
        rt, rt, alloc, row, words,
    );
    let ask = |alloc: Global, part: &str, inputs: &mut Inputs<
        '_,
    >, answers: &mut Answers| match part {
        "replay" => replays::ask(alloc, inputs, answers),
        _ => ends::ask(rt, rt, alloc, part, inputs, answers),
    };
    let scripted = check_files(&rt, files.scripted.as_slice(), &run_scripted)?;
    let desk = check_files(&rt, files.desk.as_slice(), &over_desk)?;
    let cases = try_named(&rt, files.cases.as_slice(), &ask)?;
    Ok(if scripted && desk && cases {
        ExitCode::SUCCESS
    } else {
        ExitCode::FAILURE
    })
}
