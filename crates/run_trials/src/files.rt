// The file that a run is to leave.
use std::fs;
use std::fs::Files;
use worked_rows::{RowFault, RunResult, taken_line};

/// Removes it, so that no earlier run's is found.
pub(crate) fn remove<R: Files>(rt: &R, name: Option<&str>) {
    if let Some(name) = name {
        let _ = fs::remove_file(rt, name);
    }
}

/// Adds what stands in it to what is seen after the run. Where it can't be read nothing is seen.
pub(crate) fn add_left<R: Files + AllocGlobal>(
    rt: &R,
    name: Option<&str>,
    ran: &mut RunResult,
) -> Result<(), RowFault> {
    let Some(name) = name else {
        return Ok(());
    };
    match fs::read(rt, name) {
        Ok(bytes) => ran
            .ports
            .push(taken_line(rt.alloc(), name, bytes.as_slice())?)?,
        Err(_) => {}
    }
    Ok(())
}
