// Rows that tell a journal: what the auditor says of it, and its status.
use crate::checks::CheckReport;
use crate::faults::RowFault;
use crate::rows::{Line, WorkedRow};
use crate::spelling::unquote;
use crate::wants::one_line;
use port_objects::{MemSink, MemSource};
use relay_audit::audit_run;
use relay_model::{Bytes, Text};
use std::alloc::{AllocError, Global};
use std::str;

/// What the auditor said of a journal.
#[derive(Drop)]
struct Audited {
    status: u8,
    said: Bytes,
}

/// The text of a journal that is told.
fn text_of(alloc: Global, past: &[Line<'_>]) -> Result<String, RowFault> {
    let mut text = String::new(alloc);
    for line in past {
        let act = unquote(alloc, line.text)?.ok_or(line.fault())?;
        text.push_str(act.as_str())?;
        text.push('\n')?;
    }
    Ok(text)
}

/// Audits the journal that a row tells, from a source in memory to a sink in memory.
fn audit_told(alloc: Global, row: &WorkedRow<'_>, words: &[Text]) -> Result<Audited, RowFault> {
    let text = text_of(alloc, row.past.as_slice())?;
    let mut source = MemSource::new(Bytes::of(alloc, text.as_bytes())?, row.unbroken);
    let mut sink = MemSink::new(alloc, row.room)?;
    let tap = sink.tap();
    let status = audit_run(alloc, &mut source, &mut sink, words, row.turns);
    Ok(Audited {
        status,
        said: tap.bytes()?,
    })
}

/// What was said and the status, where a row asks for them: there is nothing else to ask.
fn answer(alloc: Global, audited: &Audited, line: Line<'_>) -> Result<Option<String>, AllocError> {
    let status = audited.status;
    match (line.parts().0, str::from_utf8(audited.said.as_slice())) {
        ("audit", Ok(said)) => Ok(Some(one_line(alloc, said)?)),
        ("status", Ok(_said)) => Ok(Some(format!(in alloc; "{status}")?)),
        _ => Ok(None),
    }
}

/// Whether the auditor says of the journal what the row says.
pub(crate) fn check_told(
    alloc: Global,
    report: &mut CheckReport,
    row: &WorkedRow<'_>,
    words: &[Text],
) -> Result<bool, RowFault> {
    if row.wants.is_empty() || !row.script.is_empty() {
        return Err(row.head.fault());
    }
    let audited = audit_told(alloc, row, words)?;
    let mut fits = true;
    for line in row.wants.as_slice() {
        let have = answer(alloc, &audited, *line)?.ok_or(line.fault())?;
        if have.as_str() != line.parts().1 {
            report.differ(*line, have.as_str())?;
            fits = false;
        }
    }
    Ok(fits)
}
