// What rows ask of a run, beside what is seen of it.
use crate::lines::{
    back, begins, count, join_bytes, line_at, list_pieces, moment, port_line, search, within,
};
use crate::outcomes::outcome_text;
use exit_status::Outcome;
use relay_audit::Verdict;
use socat_top::Saving;
use std::alloc::{AllocError, Global};

/// What is seen of a run.
#[derive(Drop)]
pub(crate) struct SeenRun<'a> {
    pub(crate) outcome: Outcome,
    pub(crate) status: u8,
    pub(crate) said: &'a str,
    pub(crate) verdict: Verdict,
    pub(crate) saving: Saving,
    /// What the file of the journal took, and the journal.
    pub(crate) saved: &'a [u8],
    pub(crate) journal: &'a [u8],
    /// The lines of the journal.
    pub(crate) lines: Vec<&'a str>,
    /// What is seen of ports and files.
    pub(crate) ports: &'a [String],
}

/// The answer to a row that asks for this: it fits exactly where it is the same text. None where rows can't ask so.
/// `from` is the first line of the journal at which `then` looks.
pub(crate) fn answer(
    alloc: Global,
    seen: &SeenRun<'_>,
    key: &str,
    asked: &str,
    from: &mut usize,
) -> Result<Option<String>, AllocError> {
    let text = match key {
        "ends" => ending(alloc, &seen.outcome, asked)?,
        "status" => {
            let status = seen.status;
            format!(in alloc; "{status}")?
        }
        "says" => one_line(alloc, seen.said)?,
        "audit" => verdict_text(alloc, seen.verdict)?,
        "saving" => String::from_str(alloc, saving_word(seen.saving))?,
        "file" => String::from_str(alloc, part_word(seen.saved, seen.journal))?,
        "then" => search(alloc, seen.lines.as_slice(), asked, from)?,
        "port" => port_line(alloc, seen.ports, asked)?,
        _ => return answer_of_acts(alloc, seen.lines.as_slice(), key, asked),
    };
    Ok(Some(text))
}

fn answer_of_acts(
    alloc: Global,
    lines: &[&str],
    key: &str,
    asked: &str,
) -> Result<Option<String>, AllocError> {
    match key {
        "took" => join_bytes(alloc, lines, "wrote ", asked),
        "gave" => join_bytes(alloc, lines, "read ", asked),
        "within" => within(alloc, lines, asked),
        "pieces" => list_pieces(alloc, lines, asked),
        "count" => count(alloc, lines, asked),
        "line" => line_at(alloc, lines, asked),
        "back" => back(alloc, lines, asked),
        "when" => moment(alloc, lines, asked),
        _ => Ok(None),
    }
}

fn saving_word(saving: Saving) -> &'static str {
    match saving {
        Saving::NotAsked => "notasked",
        Saving::Saved => "saved",
        Saving::Failed => "failed",
        Saving::Memory => "memory",
    }
}

/// How much of the journal a file took.
fn part_word(saved: &[u8], journal: &[u8]) -> &'static str {
    if saved.is_empty() {
        "empty"
    } else if saved == journal {
        "whole"
    } else if journal.starts_with(saved) {
        "front"
    } else {
        "other"
    }
}

/// What was asked for where the run ended so, as far as it says how; else how it ended.
fn ending(alloc: Global, outcome: &Outcome, asked: &str) -> Result<String, AllocError> {
    let text = outcome_text(alloc, outcome)?;
    if begins(text.as_str(), asked) {
        return String::from_str(alloc, asked);
    }
    Ok(text)
}

/// The lines of a text in one, without the last newline.
pub(crate) fn one_line(alloc: Global, text: &str) -> Result<String, AllocError> {
    let mut line = String::new(alloc);
    for part in text.lines() {
        if !line.is_empty() {
            line.push_str("\\n")?;
        }
        line.push_str(part)?;
    }
    Ok(line)
}

/// What the auditor says.
pub(crate) fn verdict_text(alloc: Global, verdict: Verdict) -> Result<String, AllocError> {
    match verdict {
        Verdict::Yes { acts, held } => format!(in alloc; "yes: {acts} acts, {held} held"),
        Verdict::BadLine { number } => format!(in alloc; "no: line {number}"),
        Verdict::BadWords => String::from_str(alloc, "no: words"),
        Verdict::Illegal { act } => format!(in alloc; "no: act {act}"),
    }
}
