// The table: a row for each session that has begun, and the outcome.
ghost use Rattle.std.specs.Prelude.{◌≡◌, ◌++◌, ◌<◌, [], None, Some, decimal, string_bytes, length, option_map, IfOk, OnOk};
ghost use Rattle.place_report.specs.{shown};
ghost use Rattle.relay_model.specs.{places, newline};
ghost use Rattle.journal_table.specs.Cells.{to_left, to_right, ending_text};
ghost use Rattle.journal_table.specs.Tables.{peers_beside, peers_cell, children_beside, children_cell, visit_cells, passage_cells, why_cell, row_line, session_line, heading, rows_below, side_words, half_words, outcome_words, outcome_line, TableTold};

use crate::cells::{
    child, ending_words, moment, number, peer, say_beside, say_left, say_right, why_words, words,
};
use crate::laws::a_session_begins_once;
use crate::overviews::Overview;
use crate::rows::{SessionRow, WayEnding, WayTraffic};
use command_places::places;
use place_report::Page;
use relay_model::{Half, NoMemory, Place, RunOutcome, Side, Why};
use std::alloc::Global;

/// The peers that came to these places, in their order.
fn say_peers(
    alloc: Global,
    page: &mut Page,
    overview: &Overview,
    mut places: &[Place],
) -> Result<(), NoMemory>
    ensures { OnOk result (page.new ≡ peers_beside overview.now.config overview.now.acts page.old places.entry.now) }
{
    while let [place, rest @ ..] = places {
        say_beside(page, &peer(alloc, overview.peer(*place))?)?;
        places = rest;
    }
    Ok(())
}

/// What became of the children of these places, in their order.
fn say_children(
    alloc: Global,
    page: &mut Page,
    overview: &Overview,
    mut places: &[Place],
) -> Result<(), NoMemory>
    ensures { OnOk result (page.new ≡ children_beside overview.now.acts page.old places.entry.now) }
{
    while let [place, rest @ ..] = places {
        say_beside(page, &child(alloc, overview.child(*place))?)?;
        places = rest;
    }
    Ok(())
}

/// The peers of the session, or a dash.
pub fn peers_cell(alloc: Global, overview: &Overview, session: u32) -> Result<Page, NoMemory>
    ensures { IfOk result (λ page. page ≡ peers_cell overview.now.config overview.now.acts session) }
{
    let mut page = Page::new(alloc);
    let all = places(overview.config(), session);
    say_peers(alloc, &mut page, overview, all.as_slice())?;
    if page.as_slice().is_empty() {
        page.say("-")?;
    }
    Ok(page)
}

/// What became of the children of the session, or a dash.
fn children_cell(alloc: Global, overview: &Overview, session: u32) -> Result<Page, NoMemory>
    ensures { IfOk result (λ page. page ≡ children_cell overview.now.config overview.now.acts session) }
{
    let mut page = Page::new(alloc);
    let all = places(overview.config(), session);
    say_children(alloc, &mut page, overview, all.as_slice())?;
    if page.as_slice().is_empty() {
        page.say("-")?;
    }
    Ok(page)
}

/// The session, its peers, when it began and ended, and how long nothing had moved then.
fn say_visit(alloc: Global, page: &mut Page, row: &SessionRow, peers: &Page) -> Result<(), NoMemory>
    ensures { OnOk result (page.new ≡ page.old ++ visit_cells row.now peers.now) }
{
    say_right(page, 7, &number(alloc, u64::from(row.session))?)?;
    say_left(page, 22, peers)?;
    say_right(page, 10, &moment(alloc, row.began)?)?;
    say_right(page, 10, &moment(alloc, row.ended)?)?;
    say_right(page, 10, &moment(alloc, Some(row.idle))?)
}

/// A number at the right of its column.
fn say_number(alloc: Global, page: &mut Page, value: usize) -> Result<(), NoMemory>
    ensures { OnOk result (page.new ≡ page.old ++ to_right 10 (decimal value)) }
{
    let cell = number(alloc, value as u64)?;
    say_right(page, 10, &cell)
}

/// How a direction ended.
fn say_ending(alloc: Global, page: &mut Page, ending: WayEnding) -> Result<(), NoMemory>
    ensures { OnOk result (page.new ≡ page.old ++ to_left 6 (shown (ending_text ending))) }
{
    let cell = words(alloc, ending_words(ending))?;
    say_left(page, 6, &cell)
}

fn say_counts(alloc: Global, page: &mut Page, passage: WayTraffic) -> Result<(), NoMemory>
    ensures { OnOk result (page.new ≡ page.old ++ passage_cells (Some passage)) }
{
    say_number(alloc, page, passage.read)?;
    say_number(alloc, page, passage.written)?;
    say_ending(alloc, page, passage.ending)
}

fn say_dashes(alloc: Global, page: &mut Page) -> Result<(), NoMemory>
    ensures { OnOk result (page.new ≡ page.old ++ passage_cells None) }
{
    let dash = words(alloc, "-")?;
    say_right(page, 10, &dash)?;
    say_right(page, 10, &dash)?;
    say_left(page, 6, &dash)
}

/// What went through a direction, or dashes where the command doesn't form it.
fn say_passage(alloc: Global, page: &mut Page, passage: Option<WayTraffic>) -> Result<(), NoMemory>
    ensures { OnOk result (page.new ≡ page.old ++ passage_cells passage) }
{
    match passage {
        None => say_dashes(alloc, page),
        Some(passage) => say_counts(alloc, page, passage),
    }
}

/// Why the session was closed, or a dash.
pub fn say_why(page: &mut Page, why: Option<Why>) -> Result<(), NoMemory>
    ensures { OnOk result (page.new ≡ page.old ++ why_cell why) }
{
    match why {
        None => page.say("-"),
        Some(why) => page.say(why_words(why)),
    }
}

fn say_row(
    alloc: Global,
    page: &mut Page,
    row: &SessionRow,
    peers: &Page,
    children: &Page,
) -> Result<(), NoMemory>
    ensures { OnOk result (page.new ≡ page.old ++ row_line row.now peers.now children.now) }
{
    say_visit(alloc, page, row, peers)?;
    say_passage(alloc, page, row.right)?;
    say_passage(alloc, page, row.left)?;
    say_left(page, 8, children)?;
    say_why(page, row.why)?;
    page.end_line()?;
    Ok(())
}

fn say_session(
    alloc: Global,
    page: &mut Page,
    overview: &Overview,
    session: u32,
) -> Result<(), NoMemory>
    ensures { OnOk result (page.new ≡ page.old ++ session_line overview.now.config overview.now.acts session) }
{
    let row = overview.row(session);
    let peers = peers_cell(alloc, overview, session)?;
    let children = children_cell(alloc, overview, session)?;
    say_row(alloc, page, &row, &peers, &children)
}

/// The lines of the first sessions, so many.
#[tactic(auto, using(crate::proofs::Below::rows_below_more))]
fn say_sessions(
    alloc: Global,
    page: &mut Page,
    overview: &Overview,
    count: u32,
) -> Result<(), NoMemory>
    ensures { OnOk result (page.new ≡ page.old ++ rows_below overview.now.config overview.now.acts count) }
{
    for session in 0..count {
        say_session(alloc, page, overview, session)?;
    }
    Ok(())
}

pub(crate) fn side_words(side: Side) -> &'static str
    ensures { result.now ≡ side_words side }
{
    match side {
        Side::Left => "first",
        Side::Right => "second",
    }
}

fn half_words(half: Half) -> &'static str
    ensures { result.now ≡ half_words half }
{
    match half {
        Half::ToRead => "read",
        Half::ToWrite => "write",
    }
}

/// How the run ended, in words.
fn outcome_string(alloc: Global, outcome: Option<RunOutcome>) -> Result<String, NoMemory>
    ensures { IfOk result (λ text. string_bytes text ≡ outcome_words outcome) }
{
    match outcome {
        None => Ok(format!(in alloc; "none yet")?),
        Some(RunOutcome::Memory) => Ok(format!(in alloc; "memory was wanting")?),
        Some(RunOutcome::Stopped(turns)) => {
            Ok(format!(in alloc; "stopped after {turns} turns")?)
        }
        Some(RunOutcome::AcceptFailed) => Ok(format!(in alloc; "an accepting failed")?),
        Some(RunOutcome::ListenFailed(tries)) => {
            Ok(format!(in alloc; "no listening succeeded in {tries} tries")?)
        }
        Some(RunOutcome::OpenFailed(side, tries)) => {
            let side = side_words(side);
            Ok(format!(in alloc; "no opening of the {side} address succeeded in {tries} tries")?)
        }
        Some(RunOutcome::Faulted(place, half)) => {
            let side = side_words(place.side);
            let half = half_words(half);
            Ok(format!(in alloc; "a {half} failed at the {side} address")?)
        }
        Some(RunOutcome::Ended(why)) => {
            let why = why_words(why);
            Ok(format!(in alloc; "{why}")?)
        }
    }
}

fn say_ended(alloc: Global, page: &mut Page, outcome: Option<RunOutcome>) -> Result<(), NoMemory>
    ensures { OnOk result (page.new ≡ page.old ++ shown (outcome_words outcome)) }
{
    let text = outcome_string(alloc, outcome)?;
    page.say(text.as_str())
}

fn say_outcome(alloc: Global, page: &mut Page, outcome: Option<RunOutcome>) -> Result<(), NoMemory>
    ensures { OnOk result (page.new ≡ page.old ++ outcome_line outcome) }
{
    page.say("outcome: ")?;
    say_ended(alloc, page, outcome)?;
    page.end_line()
}

/// The first line.
const HEADING: &str =
    "session peer                        began      ended       idle     > read  > written > end      < read  < written < end  child    closed by";

/// A line for each session that has begun, and how the run ended.
pub fn table(alloc: Global, overview: &Overview) -> Result<Page, NoMemory>
    ensures { IfOk result (TableTold overview.now.config overview.now.acts) }
{
    a_session_begins_once();
    let mut page = Page::new(alloc);
    page.say(HEADING)?;
    page.end_line()?;
    say_sessions(alloc, &mut page, overview, overview.sessions())?;
    say_outcome(alloc, &mut page, overview.outcome())?;
    Ok(page)
}
