// The text of a view of a journal, or why there is none.
ghost use Rattle.std.specs.Prelude.{◌≡◌, ◌≢◌, ◌<◌, ◌≤◌, ◌^◌, length, IfOk, IfErr, Ok};
ghost use Rattle.std.specs.List.{AllByRecursion};
ghost use Rattle.journal_text.specs.{IsAct, longest_text};
ghost use Rattle.history_facts.specs.{acts};
ghost use Rattle.place_report.specs.{IsPrintable};
ghost use Rattle.relay_model.specs.{input, output, got, put};
ghost use Rattle.journal_table.specs.{dumped};
ghost use Rattle.journal_report.specs.declared.shown.ViewFault.TheVariants as fault;
ghost use Rattle.journal_report.specs.Shown.{stream_of, has_session, ViewTold, IsPlain, ViewShown, Reads, IsViewOf, OnFault, WhyUnshownOf, WhyNoJournal, IsViewBy, WhyUnshownBy, WhyUnshown};

use crate::pictures::picture;
use crate::timelines::timeline;
use crate::views::{View, ViewedStream};
use cmd_words::relay_of;
use command_places::{input, output};
use journal_table::{
    Overview, acts_told, bytes_read, bytes_written, dump_stream, newest_first, overview_of, table,
};
use journal_text::{JournalFault, LONGEST_TEXT, read_journal};
use place_report::Page;
use relay_model::{Act, Config, Dump, Journal, NoMemory, Text};
use std::alloc::Global;

/// Why a journal isn't shown.
#[derive(Clone, Copy)]
pub enum Unshown {
    /// More than 16,777,216 bytes were given; the rest isn't read.
    TooLong,
    /// The words make no relay.
    BadWords,
    /// The first line, counted from 1, that spells no act.
    BadLine { number: u64 },
    /// The session that is asked for hasn't begun.
    NoSession,
}

/// Why a view isn't made.
#[derive(Clone, Copy)]
pub enum ViewFault {
    /// There is nothing to be shown.
    Unshown(Unshown),
    /// Memory was wanting.
    Memory,
}

impl From<NoMemory> for ViewFault {
    ghost from_gives = { λ _ found. found ≡ fault.Memory };

    fn from(_error: NoMemory) -> ViewFault {
        ViewFault::Memory
    }
}

/// What a page holds, as bytes.
fn page_bytes(alloc: Global, page: &Page) -> Result<Vec<u8>, NoMemory>
    ensures text { IfOk result (λ text. text.items ≡ page.now) }
    ensures printable { IfOk result (λ text. IsPrintable text.items) }
{
    Ok(Vec::from_slice(alloc, page.as_slice())?)
}

/// How a dump in this style shows what was read in a direction.
#[tactic(auto, using(crate::proofs::Dumped::dumped_printable))]
fn dumped_stream(
    alloc: Global,
    config: &Config,
    all: &[&Act],
    stream: ViewedStream,
    style: Dump,
) -> Result<Vec<u8>, NoMemory>
    requires style { style ≢ Dump.Off }
    requires sound { AllByRecursion IsAct (acts all.now) }
    ensures text { IfOk result (λ text. text.items ≡ dumped style stream.way (acts all.now) (input config.now stream.session stream.way)) }
    ensures printable { IfOk result (λ text. IsPrintable text.items) }
{
    let place = input(config, stream.session, stream.way);
    dump_stream(alloc, all, place, stream.way, style)
}

/// The direction that is asked for, if one is.
fn stream_of(view: View) -> Option<ViewedStream>
    ensures { result ≡ stream_of view }
{
    match view {
        View::Table | View::Timeline | View::Picture | View::Acts => None,
        View::Written(stream) | View::Read(stream) => Some(stream),
        View::Text(stream) | View::Hex(stream) => Some(stream),
    }
}

/// Whether the session that is asked for, if one is, has begun.
fn has_session(overview: &Overview, view: View) -> bool
    ensures { result ≡ has_session overview.now.config overview.now.acts view }
{
    match stream_of(view) {
        None => true,
        Some(stream) => stream.session < overview.sessions(),
    }
}

/// The text of a view on what these acts say, the newest first.
fn view_on(
    alloc: Global,
    view: View,
    overview: &Overview,
    all: &[&Act],
) -> Result<Vec<u8>, NoMemory>
    requires acts { overview.now.acts ≡ acts all.now }
    requires sound { AllByRecursion IsAct (acts all.now) }
    ensures told { IfOk result (λ text. ViewTold overview.now.config overview.now.acts view text.items) }
    ensures printable { IfOk result (λ text. IsPlain view text.items) }
{
    let config = overview.config();
    match view {
        View::Table => page_bytes(alloc, &table(alloc, overview)?),
        View::Timeline => page_bytes(alloc, &timeline(alloc, overview, all)?),
        View::Picture => page_bytes(alloc, &picture(alloc, overview, all)?),
        View::Acts => page_bytes(alloc, &acts_told(alloc, all)?),
        View::Written(stream) => {
            bytes_written(alloc, all, output(config, stream.session, stream.way))
        }
        View::Read(stream) => bytes_read(alloc, all, input(config, stream.session, stream.way)),
        View::Text(stream) => dumped_stream(alloc, config, all, stream, Dump::Text),
        View::Hex(stream) => dumped_stream(alloc, config, all, stream, Dump::Hex),
    }
}

/// The text of a view of a journal.
fn view_of_acts(
    alloc: Global,
    view: View,
    config: &Config,
    journal: &Journal,
) -> Result<Vec<u8>, ViewFault>
    requires few { length journal.now.acts < 2 ^ 32 }
    requires sound { AllByRecursion IsAct journal.now.acts }
    ensures shown { IfOk result (λ text. ViewShown config.now journal.now.acts view text.items) }
    ensures unshown { IfErr result (OnFault (WhyUnshownOf config.now journal.now.acts view)) }
{
    let all = newest_first(alloc, journal)?;
    let overview = overview_of(alloc, config, all.as_slice())?;
    if !has_session(&overview, view) {
        return Err(ViewFault::Unshown(Unshown::NoSession));
    }
    Ok(view_on(alloc, view, &overview, all.as_slice())?)
}

/// The journal that the text spells.
fn journal_of(alloc: Global, text: &[u8]) -> Result<Journal, ViewFault>
    ensures read { IfOk result (λ journal. Reads text.now journal.acts) }
    ensures unread { IfErr result (OnFault (WhyNoJournal text.now)) }
{
    match read_journal(alloc, text) {
        Ok(journal) => Ok(journal),
        Err(JournalFault::Line { number }) => Err(ViewFault::Unshown(Unshown::BadLine { number })),
        Err(JournalFault::Memory) => Err(ViewFault::Memory),
    }
}

/// The text of a view of the journal that a text spells, of a run of this command.
#[tactic(auto, using(crate::proofs::Lines::acts_fit))]
fn view_by(alloc: Global, view: View, config: &Config, text: &[u8]) -> Result<Vec<u8>, ViewFault>
    requires { length text.now ≤ longest_text }
    ensures shown { IfOk result (λ shown. IsViewBy config.now text.now view shown.items) }
    ensures unshown { IfErr result (OnFault (WhyUnshownBy config.now text.now view)) }
{
    let journal = journal_of(alloc, text)?;
    view_of_acts(alloc, view, config, &journal)
}

/// The text of a view of the journal that a text spells, of a run that was started with these words.
pub fn view_of_text(
    alloc: Global,
    view: View,
    words: &[Text],
    text: &[u8],
) -> Result<Vec<u8>, ViewFault>
    ensures shown { IfOk result (λ shown. IsViewOf view words.now text.now shown.items) }
    ensures unshown { IfErr result (OnFault (WhyUnshown view words.now text.now)) }
{
    if text.len() > LONGEST_TEXT {
        return Err(ViewFault::Unshown(Unshown::TooLong));
    }
    match relay_of(alloc, words)? {
        None => Err(ViewFault::Unshown(Unshown::BadWords)),
        Some(config) => {
            let shown = view_by(alloc, view, &config, text);
            // (a call of its own, since the prover reads the end of a large value at each branch)
            drop(config);
            shown
        }
    }
}
