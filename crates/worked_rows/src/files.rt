// Files of rows are checked, and what was found is printed.
use crate::checks::{CheckReport, check_file};
use crate::faults::RowFault;
use crate::rows::WorkedRow;
use crate::runs::RunResult;
use relay_model::Text;
use std::alloc::Global;
use std::rt::Files;
use std::{fs, io};

/// Checks the rows of the files with these names, and prints what was found, unless there are none. False where a row
/// doesn't fit or isn't understood. `run` runs the words of a row, once or more often.
pub fn check_files<R, F>(rt: &R, names: &[String], run: &F) -> io::Result<bool>
where
    R: Files + Print + AllocGlobal,
    F: Fn(Global, &WorkedRow<'_>, &[Text]) -> Result<Vec<RunResult>, RowFault>,
    requires { F.IsAlwaysCallable run.now }
{
    if names.is_empty() {
        return Ok(true);
    }
    let alloc = rt.alloc();
    let mut report = CheckReport::new(alloc);
    for name in names {
        let text = fs::read_to_string(rt, name.as_str())?;
        check_file(alloc, &mut report, run, name.as_str(), text.as_str())?;
    }
    report.conclude()?;
    rt.print(report.text())?;
    Ok(report.is_good())
}
