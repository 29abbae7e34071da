// The program's work: what a source gives is audited, and one line says what was found.
ghost use Rattle.std.specs.Prelude.{◌≡◌, ◌<◌, ◌⊎◌, true, IfOk, IfErr, string_bytes};
ghost use Rattle.port_trait.specs.{Rose};
ghost use Rattle.relay_audit.specs.Reports.{IsReportOf, yes_line, line_of_verdict, line_of, status_of_verdict, status_of, Reported, ReportedBeneath};

use crate::verdicts::{Verdict, audit};
use journal_text::{LONGEST_TEXT, Unread, read_text};
use port_trait::{Sink, Source, write_whole};
use relay_model::{NoMemory, Text};
use std::alloc::Global;

/// What the auditor reports of what a source gives.
#[derive(Clone, Copy)]
pub enum Report {
    /// More than 16,777,216 bytes were given; the rest isn't read.
    TooLong,
    /// The verdict on all that was given.
    Found(Verdict),
}

/// The status where memory is wanting.
const NO_MEMORY: u8 = 2;

/// The status where the source or the sink fails.
const FAILED: u8 = 3;

/// The report on a text.
fn report_on(alloc: Global, text: &[u8], words: &[Text], turns: u64) -> Result<Report, NoMemory>
    ensures { IfOk result (IsReportOf words.now turns text.now) }
{
    if text.len() > LONGEST_TEXT {
        return Ok(Report::TooLong);
    }
    let verdict = audit(alloc, text, words, turns)?;
    Ok(Report::Found(verdict))
}

fn yes_line(alloc: Global, acts: u64, held: u64) -> Result<String, NoMemory>
    ensures { IfOk result (λ line. string_bytes line ≡ yes_line acts held) }
{
    Ok(format!(in alloc; "yes: {acts} acts, {held} held\n")?)
}

fn line_of_verdict(alloc: Global, verdict: Verdict) -> Result<String, NoMemory>
    ensures { IfOk result (λ line. string_bytes line ≡ line_of_verdict verdict) }
{
    match verdict {
        Verdict::Yes { acts, held } => yes_line(alloc, acts, held),
        Verdict::BadLine { number } => Ok(format!(in alloc; "no: line {number}\n")?),
        Verdict::BadWords => Ok(format!(in alloc; "no: words\n")?),
        Verdict::Illegal { act } => Ok(format!(in alloc; "no: act {act}\n")?),
    }
}

fn line_of(alloc: Global, report: Report) -> Result<String, NoMemory>
    ensures { IfOk result (λ line. string_bytes line ≡ line_of report) }
{
    match report {
        Report::TooLong => Ok(format!(in alloc; "no: too long\n")?),
        Report::Found(verdict) => line_of_verdict(alloc, verdict),
    }
}

fn status_of(report: Report) -> u8
    ensures value { result ≡ status_of report }
    ensures known { result < 2 }
{
    match report {
        Report::TooLong => 1,
        Report::Found(verdict) => match verdict {
            Verdict::Yes { .. } => 0,
            Verdict::BadLine { .. } | Verdict::BadWords | Verdict::Illegal { .. } => 1,
        },
    }
}

/// Audits what the source gives until its end, and writes one line of what was found. The status is 0 where the text
/// is the journal of a legal run, 1 where it isn't or is too long, 2 where memory is wanting, and 3 where the source
/// or the sink fails.
pub fn audit_run<S: Source, K: Sink>(
    alloc: Global,
    source: &mut S,
    sink: &mut K,
    words: &[Text],
    turns: u64,
) -> u8
    ensures known { result < 4 }
    ensures reported { result < 2
        → Reported words.now turns (S.left source.old) (S.left source.new) (S.ends source.old) (S.ends
        source.new) (K.took sink.old) (K.took sink.new) result }
    ensures beneath { result < 2
        → ReportedBeneath words.now turns (S.rest source.old) (S.rest source.new) (K.holds sink.old) (K.holds
        sink.new) result }
    ensures finished { result < 2 → K.finished sink.new ≡ true }
    ensures failed { result ≡ 3 → (Rose (S.faults source.old) (S.faults source.new)) ⊎ (Rose (K.faults sink.old) (K.faults sink.new)) }
{
    let text = match read_text(alloc, source) {
        Ok(text) => text,
        Err(Unread::Memory) => return NO_MEMORY,
        Err(Unread::Failed) => return FAILED,
    };
    let Ok(report) = report_on(alloc, text.as_slice(), words, turns) else {
        return NO_MEMORY;
    };
    let Ok(line) = line_of(alloc, report) else {
        return NO_MEMORY;
    };
    if write_whole(sink, line.as_bytes()) {
        status_of(report)
    } else {
        FAILED
    }
}
