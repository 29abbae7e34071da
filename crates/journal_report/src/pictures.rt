// The timeline as a picture: lines and words alone, in the markup of SVG.
ghost use Rattle.std.specs.Prelude.{◌≡◌, ◌<◌, ◌++◌, ◌+◌, ◌*◌, [], length, codes, decimal, string_bytes, IfOk, OnOk};
ghost use Rattle.place_report.specs.{shown, said};
ghost use Rattle.relay_model.specs.{newline, numbers};
ghost use Rattle.history_facts.specs.{acts};
ghost use Rattle.journal_report.specs.Elements.{AddsElements};
ghost use Rattle.journal_report.specs.Pictures.{label, AddsPictureRow, AddsPictureRows, head_text, IsPicture};

use crate::charts::{Chart, ChartMark, chart_of};
use crate::elements::{Ink, Stroke, say_stroke, say_words};
use history_facts::now;
use journal_table::{Overview, SessionRow, moment, number, peers_cell, say_why};
use place_report::Page;
use relay_model::{Act, NoMemory, Way};
use std::alloc::Global;

/// How many columns the time has.
const COLUMNS: usize = 160;

/// Where the first column begins.
const LEFT: u64 = 240;

/// How wide a column is.
const STEP: u64 = 5;

/// Where the words behind the last column begin.
const BEHIND: u64 = 1050;

/// How wide the picture is.
const WIDTH: u64 = 1280;

/// How high each row is, and each of the two of the head.
const ROW: u64 = 20;

/// How far the line of the scale lies from the top.
const SCALE: u64 = 24;

/// How far the middle of a row lies from the top.
fn middle_of(session: u32) -> u64 {
    (u64::from(session) + 2) * ROW + ROW / 2
}

fn left_of(column: usize) -> u64 {
    (column as u64).saturating_mul(STEP).saturating_add(LEFT)
}

/// A line along the row, so far above or below its middle.
fn along(from: usize, to: usize, y: u64, width: u64, ink: Ink) -> Stroke {
    Stroke {
        x1: left_of(from),
        y1: y,
        x2: left_of(to),
        y2: y,
        width,
        ink,
    }
}

/// A line across the row.
fn across(column: usize, y: u64, width: u64, ink: Ink) -> Stroke {
    let x = left_of(column).saturating_add(STEP / 2);
    Stroke {
        x1: x,
        y1: y.saturating_sub(7),
        x2: x,
        y2: y.saturating_add(7),
        width,
        ink,
    }
}

/// How a mark is drawn in its column: at most two lines.
fn strokes_of(mark: ChartMark, column: usize, y: u64) -> (Option<Stroke>, Option<Stroke>) {
    let next = column.saturating_add(1);
    let above = y.saturating_sub(3);
    let below = y.saturating_add(3);
    let right = along(column, next, above, 5, Ink::Blue);
    let left = along(column, next, below, 5, Ink::Orange);
    match mark {
        ChartMark::Quiet => (None, None),
        ChartMark::Opened => (Some(across(column, y, 1, Ink::Grey)), None),
        ChartMark::Tried => (Some(across(column, y, 3, Ink::Purple)), None),
        ChartMark::Passed(Way::LeftToRight) => (Some(right), None),
        ChartMark::Passed(Way::RightToLeft) => (Some(left), None),
        ChartMark::PassedBoth => (Some(right), Some(left)),
        ChartMark::PassedEnd(Way::LeftToRight) => (
            Some(across(column, above, 2, Ink::Green)),
            None,
        ),
        ChartMark::PassedEnd(Way::RightToLeft) => (
            Some(across(column, below, 2, Ink::Green)),
            None,
        ),
        ChartMark::Failed => (Some(across(column, y, 4, Ink::Red)), None),
        ChartMark::Finished => (Some(across(column, y, 3, Ink::Black)), None),
        ChartMark::Cut => (Some(across(column, y, 5, Ink::Red)), None),
    }
}

#[tactic(auto, using(crate::proofs::Pictured::no_elements, crate::proofs::Pictured::line_added))]
fn say_if_any(alloc: Global, page: &mut Page, stroke: Option<Stroke>) -> Result<(), NoMemory>
    ensures { OnOk result (AddsElements page.old page.new) }
{
    match stroke {
        None => Ok(()),
        Some(stroke) => say_stroke(alloc, page, &stroke),
    }
}

/// Adds words that begin at this point.
#[tactic(auto, using(crate::proofs::Pictured::words_added))]
fn say_note(alloc: Global, page: &mut Page, x: u64, y: u64, words: &[u8]) -> Result<(), NoMemory>
    ensures { OnOk result (AddsElements page.old page.new) }
{
    say_words(alloc, page, x, y, words)
}

#[tactic(auto, using(crate::proofs::Pictured::elements_added))]
fn say_mark(
    alloc: Global,
    page: &mut Page,
    mark: ChartMark,
    column: usize,
    y: u64,
) -> Result<(), NoMemory>
    ensures { OnOk result (AddsElements page.old page.new) }
{
    let (one, other) = strokes_of(mark, column, y);
    say_if_any(alloc, page, one)?;
    say_if_any(alloc, page, other)
}

/// The marks of the row.
#[tactic(auto, using(crate::proofs::Pictured::no_elements, crate::proofs::Pictured::elements_added))]
fn say_marks(
    alloc: Global,
    page: &mut Page,
    chart: &Chart,
    row: &SessionRow,
) -> Result<(), NoMemory>
    ensures { OnOk result (AddsElements page.old page.new) }
{
    let first = (row.session as usize).saturating_mul(chart.columns);
    for column in 0..chart.columns {
        let mark = chart.at(first.saturating_add(column));
        say_mark(alloc, page, mark, column, middle_of(row.session))?;
    }
    Ok(())
}

/// The life of the session, as a thin line.
fn life_of(chart: &Chart, row: &SessionRow) -> Option<Stroke>
    requires { 0 < chart.now.columns }
{
    let from = chart.column_of(row.began?);
    let to = match row.ended {
        Some(ended) => chart.column_of(ended),
        None => chart.columns,
    };
    Some(along(from, to.max(from), middle_of(row.session), 1, Ink::Grey))
}

/// What is drawn of a session behind its label: its life, its marks, and why it was closed.
fn say_drawing(
    alloc: Global,
    page: &mut Page,
    chart: &Chart,
    row: &SessionRow,
) -> Result<(), NoMemory>
    requires { 0 < chart.now.columns }
    ensures { OnOk result (AddsElements page.old page.new) }
{
    say_if_any(alloc, page, life_of(chart, row))?;
    say_marks(alloc, page, chart, row)?;
    let mut why = Page::new(alloc);
    say_why(&mut why, row.why)?;
    let y = middle_of(row.session).saturating_add(4);
    say_note(alloc, page, BEHIND, y, why.as_slice())?;
    Ok(())
}

/// The number of a session and its peers.
fn label(alloc: Global, overview: &Overview, session: u32) -> Result<Page, NoMemory>
    ensures { IfOk result (λ page. page ≡ label overview.now.config overview.now.acts session) }
{
    let mut page = number(alloc, u64::from(session))?;
    page.say(" ")?;
    page.append(&peers_cell(alloc, overview, session)?)?;
    Ok(page)
}

fn say_row(
    alloc: Global,
    page: &mut Page,
    overview: &Overview,
    chart: &Chart,
    session: u32,
) -> Result<(), NoMemory>
    requires { 0 < chart.now.columns }
    ensures { OnOk result (AddsPictureRow overview.now.config overview.now.acts session page.old page.new) }
{
    let row = overview.row(session);
    let name = label(alloc, overview, session)?;
    let y = middle_of(session).saturating_add(4);
    say_words(alloc, page, 4, y, name.as_slice())?;
    say_drawing(alloc, page, chart, &row)?;
    Ok(())
}

#[tactic(auto, using(crate::proofs::Pictured::rows_more))]
fn say_rows(
    alloc: Global,
    page: &mut Page,
    overview: &Overview,
    chart: &Chart,
) -> Result<(), NoMemory>
    requires { 0 < chart.now.columns }
    ensures { OnOk result (AddsPictureRows overview.now.config overview.now.acts (numbers overview.now.config overview.now.acts) page.old page.new) }
{
    for session in 0..overview.sessions() {
        say_row(alloc, page, overview, chart, session)?;
    }
    Ok(())
}

/// What the lines stand for.
const LEGEND: &[u8] =
    b"blue: bytes to the right, orange: bytes to the left, green: an end passed on, black: finished, purple: an opening failed, red: a failure or a cut";

/// Into how many parts the scale of time is divided.
const PARTS: u64 = 4;

/// A mark of the scale, and its moment.
fn say_tick(alloc: Global, page: &mut Page, part: u64, span: u64) -> Result<(), NoMemory>
    ensures { OnOk result (AddsElements page.old page.new) }
{
    let column = (COLUMNS as u64 / PARTS).saturating_mul(part) as usize;
    let mut words = moment(alloc, Some(span.saturating_mul(part) / PARTS))?;
    words.say(" s")?;
    say_note(alloc, page, left_of(column), 14, words.as_slice())?;
    let tick = across(column, SCALE, 1, Ink::Black);
    say_if_any(alloc, page, Some(tick))?;
    Ok(())
}

/// The scale of time above the rows.
#[tactic(auto, using(crate::proofs::Pictured::no_elements, crate::proofs::Pictured::elements_added))]
fn say_scale(alloc: Global, page: &mut Page, span: u64) -> Result<(), NoMemory>
    ensures { OnOk result (AddsElements page.old page.new) }
{
    for part in 0..PARTS + 1 {
        say_tick(alloc, page, part, span)?;
    }
    let line = along(0, COLUMNS, SCALE, 1, Ink::Black);
    say_if_any(alloc, page, Some(line))?;
    Ok(())
}

/// The scale of time above the rows, and below them what the lines stand for.
fn say_notes(alloc: Global, page: &mut Page, sessions: u32, span: u64) -> Result<(), NoMemory>
    ensures { OnOk result (AddsElements page.old page.new) }
{
    say_scale(alloc, page, span)?;
    let y = middle_of(sessions).saturating_add(4);
    say_note(alloc, page, 4, y, LEGEND)?;
    Ok(())
}

/// How high a picture of so many sessions is.
fn height_of(sessions: u32) -> u64
    ensures { result ≡ (sessions + 4) * 20 }
{
    (u64::from(sessions) + 4) * ROW
}

/// A white ground, as one thick line.
fn say_ground(alloc: Global, page: &mut Page, sessions: u32) -> Result<(), NoMemory>
    ensures { OnOk result (AddsElements page.old page.new) }
{
    let height = height_of(sessions);
    let ground = Stroke {
        x1: 0,
        y1: height / 2,
        x2: WIDTH,
        y2: height / 2,
        width: height,
        ink: Ink::White,
    };
    say_if_any(alloc, page, Some(ground))
}

/// The markup before all elements.
fn head(alloc: Global, sessions: u32) -> Result<String, NoMemory>
    ensures { IfOk result (λ text. string_bytes text ≡ head_text sessions) }
{
    let height = height_of(sessions);
    Ok(format!(in alloc;
        "<svg xmlns='http://www.w3.org/2000/svg' width='1280' height='{height}' font-family='monospace' font-size='12'>"
    )?)
}

/// The timeline as a picture that a browser shows.
pub fn picture(alloc: Global, overview: &Overview, all: &[&Act]) -> Result<Page, NoMemory>
    requires { overview.now.acts ≡ acts all.now }
    ensures { IfOk result (IsPicture overview.now.config overview.now.acts) }
{
    let chart = chart_of(alloc, overview, all, COLUMNS)?;
    let mut page = Page::new(alloc);
    page.say(head(alloc, overview.sessions())?.as_str())?;
    page.end_line()?;
    say_ground(alloc, &mut page, overview.sessions())?;
    say_rows(alloc, &mut page, overview, &chart)?;
    say_notes(alloc, &mut page, overview.sessions(), now(overview.facts()))?;
    page.say("</svg>")?;
    page.end_line()?;
    Ok(page)
}
