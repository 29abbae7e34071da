// The check of each row, and the report of all.
use crate::faults::RowFault;
use crate::rows::{Line, WorkedRow, read_rows};
use crate::runs::RunResult;
use crate::spelling::unquote;
use crate::told::check_told;
use crate::wants::{SeenRun, answer, verdict_text};
use relay_audit::{Verdict, audit};
use relay_model::Text;
use socat_top::Saving;
use std::alloc::{AllocError, Global};
use std::str;

/// What was found so far.
#[derive(Drop)]
pub(crate) struct CheckReport {
    text: String,
    rows: u32,
    failed: u32,
}

impl CheckReport {
    /// No rows yet; takes no memory.
    pub(crate) fn new(alloc: Global) -> CheckReport {
        CheckReport {
            text: String::new(alloc),
            rows: 0,
            failed: 0,
        }
    }

    pub(crate) fn text(&self) -> &str {
        self.text.as_str()
    }

    /// Whether there are rows and each fits.
    pub(crate) fn is_good(&self) -> bool {
        self.rows > 0 && self.failed == 0
    }

    /// Says how many rows there are.
    pub(crate) fn conclude(&mut self) -> Result<(), AllocError> {
        let rows = self.rows;
        let failed = self.failed;
        writeln!(self.text, "{rows} rows, {failed} failed")
    }

    fn count(&mut self, fits: bool) {
        self.rows = self.rows.saturating_add(1);
        if !fits {
            self.failed = self.failed.saturating_add(1);
        }
    }

    /// Says whether a row fits.
    fn conclude_row(&mut self, row: &WorkedRow<'_>, fits: bool) -> Result<(), AllocError> {
        self.count(fits);
        let (_row, name) = row.head.parts();
        let word = if fits { "ok" } else { "FAILED" };
        writeln!(self.text, "{name} {word}")
    }

    /// Says that what a row asks for is otherwise.
    pub(crate) fn differ(&mut self, line: Line<'_>, have: &str) -> Result<(), AllocError> {
        let number = line.number;
        let want = line.text;
        writeln!(self.text, "FAILED line {number}: want {want}, have {have}")
    }
}

/// Checks the rows of a file. Those behind a line that isn't understood aren't checked.
pub(crate) fn check_file<F>(
    alloc: Global,
    report: &mut CheckReport,
    run: &F,
    name: &str,
    text: &str,
) -> Result<(), AllocError>
where
    F: Fn(Global, &WorkedRow<'_>, &[Text]) -> Result<Vec<RunResult>, RowFault>,
    requires { F.IsAlwaysCallable run.now }
{
    match check_rows(alloc, report, run, text) {
        Ok(()) => Ok(()),
        Err(RowFault::Memory) => Err(AllocError),
        Err(RowFault::Line(number)) => {
            report.count(false);
            writeln!(report.text, "FAILED {name}: line {number} isn't understood")
        }
    }
}

fn check_rows<F>(
    alloc: Global,
    report: &mut CheckReport,
    run: &F,
    text: &str,
) -> Result<(), RowFault>
where
    F: Fn(Global, &WorkedRow<'_>, &[Text]) -> Result<Vec<RunResult>, RowFault>,
    requires { F.IsAlwaysCallable run.now }
{
    let rows = read_rows(alloc, text)?;
    for row in rows.as_slice() {
        check_row(alloc, report, run, row)?;
    }
    Ok(())
}

fn check_row<F>(
    alloc: Global,
    report: &mut CheckReport,
    run: &F,
    row: &WorkedRow<'_>,
) -> Result<(), RowFault>
where
    F: Fn(Global, &WorkedRow<'_>, &[Text]) -> Result<Vec<RunResult>, RowFault>,
    requires { F.IsAlwaysCallable run.now }
{
    let words = row.words(alloc)?;
    let fits = if row.past.is_empty() {
        check_run(alloc, report, run, row, words.as_slice())?
    } else {
        check_told(alloc, report, row, words.as_slice())?
    };
    report.conclude_row(row, fits)?;
    Ok(())
}

/// Whether each run of the words is as the row says.
fn check_run<F>(
    alloc: Global,
    report: &mut CheckReport,
    run: &F,
    row: &WorkedRow<'_>,
    words: &[Text],
) -> Result<bool, RowFault>
where
    F: Fn(Global, &WorkedRow<'_>, &[Text]) -> Result<Vec<RunResult>, RowFault>,
    requires { F.IsAlwaysCallable run.now }
{
    if !has_end(row) {
        return Err(row.head.fault());
    }
    let runs = run(alloc, row, words)?;
    let mut fits = true;
    for ran in runs.as_slice() {
        let relayed = match ran.saving {
            Saving::NotAsked => words,
            Saving::Saved | Saving::Failed | Saving::Memory => behind_first(words),
        };
        let verdict = audit(alloc, ran.journal.as_slice(), relayed, row.turns)?;
        fits = compare(alloc, report, row, ran, verdict)? && fits;
    }
    Ok(fits)
}

fn behind_first(words: &[Text]) -> &[Text] {
    match words {
        [_flag, others @ ..] => others,
        [] => words,
    }
}

/// Whether the row says how its run ends.
fn has_end(row: &WorkedRow<'_>) -> bool {
    row.wants.iter().any(|line| line.text.starts_with("ends "))
}

/// Whether all is as the row asks for, and the journal is legal.
fn compare(
    alloc: Global,
    report: &mut CheckReport,
    row: &WorkedRow<'_>,
    ran: &RunResult,
    verdict: Verdict,
) -> Result<bool, RowFault> {
    let (Ok(said), Ok(journal)) = (
        str::from_utf8(ran.said.as_slice()),
        str::from_utf8(ran.journal.as_slice()),
    ) else {
        return Err(row.head.fault());
    };
    let seen = SeenRun {
        outcome: ran.outcome,
        status: ran.status,
        said: said.trim_end(),
        saving: ran.saving,
        saved: ran.saved.as_slice(),
        journal: ran.journal.as_slice(),
        verdict,
        lines: journal.lines().collect(alloc)?,
        ports: ran.ports.as_slice(),
    };
    let mut fits = is_legal(&seen);
    if !fits {
        let have = verdict_text(alloc, verdict)?;
        report.differ(row.head, have.as_str())?;
    }
    let mut from = 0;
    for line in row.wants.as_slice() {
        fits = fits_line(alloc, report, &seen, *line, &mut from)? && fits;
    }
    Ok(fits)
}

/// Whether the auditor finds nothing wrong with a run that closed all; words that make no relay have no journal.
fn is_legal(seen: &SeenRun<'_>) -> bool {
    match seen.verdict {
        Verdict::Yes { held, .. } => held == 0,
        Verdict::BadWords => seen.lines.is_empty(),
        Verdict::BadLine { .. } | Verdict::Illegal { .. } => false,
    }
}

/// Whether one line of the row fits, or one of the answers that it leaves open, with ` | ` between.
fn fits_line(
    alloc: Global,
    report: &mut CheckReport,
    seen: &SeenRun<'_>,
    line: Line<'_>,
    from: &mut usize,
) -> Result<bool, RowFault> {
    let (key, asked) = line.parts();
    let asked = unquote(alloc, asked)?.ok_or(line.fault())?;
    let mut have = String::new(alloc);
    for asked in asked.split(" | ") {
        have = answer(alloc, seen, key, asked, from)?.ok_or(line.fault())?;
        if have.as_str() == asked {
            return Ok(true);
        }
    }
    report.differ(line, have.as_str())?;
    Ok(false)
}
