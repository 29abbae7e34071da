// A chart of a run: a row for each session, and in each column what happened in that part of the time.
ghost use Rattle.std.specs.Prelude.{◌≡◌, ◌<◌, ◌≤◌, ◌*◌, length, IfOk};
ghost use Rattle.relay_model.specs.{numbers};

use command_places::{way_from, way_to};
use history_facts::now;
use journal_table::Overview;
use relay_model::{Act, NoMemory, Place, Way, Why};
use std::alloc::Global;

/// What happened in a part of the time, from the weakest sign to the strongest. Of several the strongest is shown.
#[derive(Clone, Copy)]
pub enum ChartMark {
    /// Nothing.
    Quiet,
    /// Something was opened, or a peer came.
    Opened,
    /// An opening failed, or is under way.
    Tried,
    /// Bytes passed one way.
    Passed(Way),
    /// Bytes passed both ways.
    PassedBoth,
    /// The end of a direction was passed on.
    PassedEnd(Way),
    /// A read or a write failed.
    Failed,
    /// Something was closed as finished.
    Finished,
    /// Something was closed for another reason.
    Cut,
}

/// The marks of all sessions, row by row.
#[derive(Drop)]
pub struct Chart {
    /// How many columns a row has.
    pub columns: usize,
    /// The moment of the last turn, which is the end of the last column.
    pub span: u64,
    /// The rows, one behind the other.
    pub marks: Vec<ChartMark>,
}

fn mark_of_closing(why: Why) -> ChartMark {
    match why {
        Why::Finished => ChartMark::Finished,
        Why::Refused | Why::Served => ChartMark::Quiet,
        _ => ChartMark::Cut,
    }
}

/// Where an act leaves a mark, and which.
fn mark_of(act: &Act) -> Option<(Place, ChartMark)> {
    match act {
        Act::Opened(place) | Act::Accepted(place, _) => Some((*place, ChartMark::Opened)),
        Act::OpenLater(place) | Act::OpenFailed(place) => Some((*place, ChartMark::Tried)),
        Act::ListenFailed(place) | Act::AcceptFailed(place) => Some((*place, ChartMark::Tried)),
        Act::Read(place, _) => Some((*place, ChartMark::Passed(way_from(place.side)))),
        Act::Wrote(place, _) => Some((*place, ChartMark::Passed(way_to(place.side)))),
        Act::ReadFault(place) | Act::WriteFault(place) => Some((*place, ChartMark::Failed)),
        Act::Shut(place, _) => Some((*place, ChartMark::PassedEnd(way_to(place.side)))),
        Act::ShutFault(place, _) => Some((*place, ChartMark::Failed)),
        Act::Closed(place, why) => Some((*place, mark_of_closing(*why))),
        _ => None,
    }
}

fn strength(mark: ChartMark) -> u8 {
    match mark {
        ChartMark::Quiet => 0,
        ChartMark::Opened => 1,
        ChartMark::Tried => 2,
        ChartMark::Passed(_) => 3,
        ChartMark::PassedBoth => 4,
        ChartMark::PassedEnd(_) => 5,
        ChartMark::Finished => 6,
        ChartMark::Failed => 7,
        ChartMark::Cut => 8,
    }
}

/// The sign of two things in one part of the time.
fn join_marks(one: ChartMark, other: ChartMark) -> ChartMark {
    match (one, other) {
        (ChartMark::Passed(way), ChartMark::Passed(back)) if way != back => ChartMark::PassedBoth,
        _ => {
            if strength(one) < strength(other) {
                other
            } else {
                one
            }
        }
    }
}

impl Chart {
    /// A chart of nothing.
    fn new(alloc: Global, span: u64, sessions: u32, columns: usize) -> Result<Chart, NoMemory>
        ensures columns { IfOk result (λ chart. chart.columns ≡ columns) }
        ensures rows { IfOk result (λ chart. length chart.marks.items ≡ sessions * columns) }
    {
        let count = (sessions as usize).checked_mul(columns).ok_or(NoMemory)?;
        let mut marks = Vec::new(alloc);
        marks.resize(count, ChartMark::Quiet)?;
        Ok(Chart {
            columns,
            span,
            marks,
        })
    }

    /// The column of a moment.
    pub fn column_of(&self, at: u64) -> usize
        requires { 0 < self.now.columns }
        ensures { result < self.now.columns }
    {
        let column = at as u128 * self.columns as u128 / (self.span as u128 + 1);
        column.min((self.columns - 1) as u128) as usize
    }

    /// The mark at this place of all, counted row by row; none stands behind the last.
    pub fn at(&self, place: usize) -> ChartMark {
        match self.marks.get(place) {
            Some(mark) => *mark,
            None => ChartMark::Quiet,
        }
    }

    fn put(&mut self, place: usize, mark: ChartMark)
        ensures columns { self.new.columns ≡ self.old.columns }
        ensures rows { length self.new.marks.items ≡ length self.old.marks.items }
    {
        let before = self.at(place);
        if let Some(there) = self.marks.get_mut(place) {
            *there = join_marks(before, mark);
        }
    }

    /// Takes in an act that came at this moment.
    fn note(&mut self, at: u64, act: &Act)
        requires { 0 < self.old.columns }
        ensures columns { self.new.columns ≡ self.old.columns }
        ensures rows { length self.new.marks.items ≡ length self.old.marks.items }
    {
        if let Some((place, mark)) = mark_of(act) {
            let column = self.column_of(at);
            let row = (place.session as usize).saturating_mul(self.columns);
            self.put(row.saturating_add(column), mark);
        }
    }
}

fn moment_after(at: u64, act: &Act) -> u64 {
    match act {
        Act::Turn { at, .. } => *at,
        _ => at,
    }
}

/// The chart of these acts, the newest first, in so many columns.
pub fn chart_of(
    alloc: Global,
    overview: &Overview,
    all: &[&Act],
    columns: usize,
) -> Result<Chart, NoMemory>
    requires { 0 < columns }
    ensures columns { IfOk result (λ chart. chart.columns ≡ columns) }
    ensures rows { IfOk result (λ chart. length chart.marks.items ≡ numbers overview.now.config overview.now.acts * columns) }
{
    let span = now(overview.facts());
    let mut chart = Chart::new(alloc, span, overview.sessions(), columns)?;
    let mut at = 0;
    let mut k = all.len();
    while k > 0 {
        k -= 1;
        let act: &Act = all[k];
        at = moment_after(at, act);
        chart.note(at, act);
    }
    Ok(chart)
}
