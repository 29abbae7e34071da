// The timeline: a row for each session, with time to the right.
ghost use Rattle.std.specs.Prelude.{◌≡◌, ◌<◌, ◌≤◌, ◌++◌, ◌*◌, [], length, codes, decimal, string_bytes, IfOk, OnOk};
ghost use Rattle.place_report.specs.{shown, said};
ghost use Rattle.relay_model.specs.{newline, numbers};
ghost use Rattle.history_facts.specs.{acts};
ghost use Rattle.journal_report.specs.Timelines.{AddsCells, AddsRow, AddsRows, TimelineTold, legend, scale_line};

use crate::charts::{Chart, ChartMark, chart_of};
use history_facts::now;
use journal_table::{
    Overview, SessionRow, moment, number, peers_cell, say_left, say_right, say_why,
};
use place_report::Page;
use relay_model::{Act, NoMemory, Way};
use std::alloc::Global;

/// How many columns the time has.
const COLUMNS: usize = 60;

/// The sign of a mark.
fn sign(mark: ChartMark) -> &'static str
    ensures { length (shown result.now) ≡ 1 }
{
    match mark {
        ChartMark::Quiet => "-",
        ChartMark::Opened => "o",
        ChartMark::Tried => "?",
        ChartMark::Passed(Way::LeftToRight) => ">",
        ChartMark::Passed(Way::RightToLeft) => "<",
        ChartMark::PassedBoth => "=",
        ChartMark::PassedEnd(Way::LeftToRight) => ")",
        ChartMark::PassedEnd(Way::RightToLeft) => "(",
        ChartMark::Failed => "!",
        ChartMark::Finished => "|",
        ChartMark::Cut => "x",
    }
}

/// Whether a column lies in the life of a session.
fn lives(chart: &Chart, row: &SessionRow, column: usize) -> bool
    requires { 0 < chart.now.columns }
{
    let begins = match row.began {
        Some(began) => chart.column_of(began) <= column,
        None => false,
    };
    let ended = match row.ended {
        Some(ended) => chart.column_of(ended) < column,
        None => false,
    };
    begins && !ended
}

/// The sign in this column of the row.
fn sign_at(chart: &Chart, row: &SessionRow, column: usize) -> &'static str
    requires { 0 < chart.now.columns }
    ensures { length (shown result.now) ≡ 1 }
{
    let place = (row.session as usize)
        .saturating_mul(chart.columns)
        .saturating_add(column);
    let mark = chart.at(place);
    if matches!(mark, ChartMark::Quiet) && !lives(chart, row, column) {
        " "
    } else {
        sign(mark)
    }
}

/// The signs of the row, a column each.
#[tactic(auto, using(crate::proofs::Drawn::no_cells, crate::proofs::Drawn::cells_more))]
fn say_signs(page: &mut Page, chart: &Chart, row: &SessionRow) -> Result<(), NoMemory>
    requires { 0 < chart.now.columns }
    ensures { OnOk result (AddsCells chart.now.columns page.old page.new) }
{
    for column in 0..chart.columns {
        page.say(sign_at(chart, row, column))?;
    }
    Ok(())
}

/// The row of a session: its number, its signs, its peers, and why it was closed.
fn say_line(
    alloc: Global,
    page: &mut Page,
    overview: &Overview,
    chart: &Chart,
    session: u32,
) -> Result<(), NoMemory>
    requires { chart.now.columns ≡ 60 }
    ensures { OnOk result (AddsRow overview.now.config overview.now.acts session page.old page.new) }
{
    let row = overview.row(session);
    say_right(page, 7, &number(alloc, u64::from(session))?)?;
    page.say("|")?;
    say_signs(page, chart, &row)?;
    page.say("| ")?;
    say_left(page, 22, &peers_cell(alloc, overview, session)?)?;
    say_why(page, row.why)?;
    page.end_line()?;
    Ok(())
}

/// The rows of all sessions that have begun.
#[tactic(auto, using(crate::proofs::Drawn::rows_more))]
fn say_lines(
    alloc: Global,
    page: &mut Page,
    overview: &Overview,
    chart: &Chart,
) -> Result<(), NoMemory>
    requires { chart.now.columns ≡ 60 }
    ensures { OnOk result (AddsRows overview.now.config overview.now.acts (numbers overview.now.config overview.now.acts) page.old page.new) }
{
    for session in 0..overview.sessions() {
        say_line(alloc, page, overview, chart, session)?;
    }
    Ok(())
}

/// What the signs stand for.
const LEGEND: &str =
    "o opened  ? an opening failed  > < = bytes passed  ) ( an end passed on  ! failed  | finished  x cut  - nothing";

/// The first line: when the run began, and when its last turn was made.
fn say_scale(alloc: Global, page: &mut Page, span: u64) -> Result<(), NoMemory>
    ensures { OnOk result (page.new ≡ page.old ++ scale_line span) }
{
    page.say("session |0 s")?;
    say_right(page, 55, &moment(alloc, Some(span))?)?;
    page.say("s|")?;
    page.end_line()
}

/// A row for each session that has begun, with time to the right, and what the signs stand for.
pub fn timeline(alloc: Global, overview: &Overview, all: &[&Act]) -> Result<Page, NoMemory>
    requires { overview.now.acts ≡ acts all.now }
    ensures { IfOk result (TimelineTold overview.now.config overview.now.acts) }
{
    let chart = chart_of(alloc, overview, all, COLUMNS)?;
    let mut page = Page::new(alloc);
    say_scale(alloc, &mut page, now(overview.facts()))?;
    say_lines(alloc, &mut page, overview, &chart)?;
    page.say(LEGEND)?;
    page.end_line()?;
    Ok(page)
}
