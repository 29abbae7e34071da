// Rows of files are tried, and each is told.
use crate::answers::Answers;
use crate::inputs::Inputs;
use crate::rows::{Answered, CaseFault, CaseRow, Tally};
use std::alloc::Global;
use std::env::Env;
use std::process::ExitCode;
use std::rt::Files;
use std::{env, fs, io};

/// Asks what stands in the rows of each file that the arguments name, and prints a line for each and at the end how many there were.
/// The program ends with 1 where one differs. An empty line is no row, and one that begins with `#` isn't either.
pub fn try_files<R, F>(rt: &R, ask: &F) -> io::Result<ExitCode>
where
    R: Env + Files + Print + AllocGlobal,
    F: Fn(Global, &str, &mut Inputs<'_>, &mut Answers) -> Answered,
    requires { F.IsAlwaysCallable ask.now }
{
    let mut names = Vec::new(rt.alloc());
    for name in env::args(rt)?.skip(1) {
        names.push(name)?;
    }
    let all_fit = try_named(rt, names.as_slice(), ask)?;
    Ok(ExitCode::from(if all_fit { 0 } else { 1 }))
}

/// The same for the files with these names. Nothing is printed where there are none. False where a row differs.
pub fn try_named<R, F>(rt: &R, names: &[String], ask: &F) -> io::Result<bool>
where
    R: Files + Print + AllocGlobal,
    F: Fn(Global, &str, &mut Inputs<'_>, &mut Answers) -> Answered,
    requires { F.IsAlwaysCallable ask.now }
{
    if names.is_empty() {
        return Ok(true);
    }
    let mut tally = Tally::default();
    for name in names {
        try_file(rt, ask, name.as_str(), &mut tally)?;
    }
    let (good, differing) = (tally.good, tally.differing);
    println!(rt; "{good} ok, {differing} differ")?;
    Ok(differing == 0)
}

fn try_file<R, F>(rt: &R, ask: &F, path: &str, tally: &mut Tally) -> io::Result<()>
where
    R: Files + Print + AllocGlobal,
    F: Fn(Global, &str, &mut Inputs<'_>, &mut Answers) -> Answered,
    requires { F.IsAlwaysCallable ask.now }
{
    let text = fs::read_to_string(rt, path)?;
    for line in text.as_str().lines() {
        if !line.is_empty() && !line.starts_with('#') {
            tally.add(try_row(rt, ask, line)?);
        }
    }
    Ok(())
}

/// Tries one row, and prints how it went. False where it differs.
fn try_row<R, F>(rt: &R, ask: &F, line: &str) -> io::Result<bool>
where
    R: Print + AllocGlobal,
    F: Fn(Global, &str, &mut Inputs<'_>, &mut Answers) -> Answered,
    requires { F.IsAlwaysCallable ask.now }
{
    let Some(row) = CaseRow::of(line) else {
        println!(rt; "DIFFERS {line}: no row")?;
        return Ok(false);
    };
    let (name, want) = (row.name, row.want);
    match answer(rt.alloc(), ask, &row) {
        Ok(have) if have.as_str() == want => {
            println!(rt; "ok {name}")?;
            return Ok(true);
        }
        Ok(have) => {
            let have = have.as_str();
            println!(rt; "DIFFERS {name}: got {have}")?;
        }
        Err(fault) => println!(rt; "DIFFERS {name}: got {fault:?}")?,
    }
    Ok(false)
}

/// What the part answers, in the spelling of the rows. No word may be left.
fn answer<F>(alloc: Global, ask: &F, row: &CaseRow<'_>) -> Result<String, CaseFault>
where
    F: Fn(Global, &str, &mut Inputs<'_>, &mut Answers) -> Answered,
    requires { F.IsAlwaysCallable ask.now }
{
    let mut inputs = Inputs::new(row.inputs);
    let mut answers = Answers::new(alloc);
    ask(alloc, row.part, &mut inputs, &mut answers)?;
    inputs.end()?;
    answers.into_text()
}
