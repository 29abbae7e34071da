// Cells of a table: moments, peers, children and reasons in a few words, and blanks beside them.
ghost use Rattle.std.specs.Prelude.{◌≡◌, ◌++◌, ◌-◌, string_bytes, decimal, IfOk, OnOk};
ghost use Rattle.std.specs.Net.Text.{ipv4_text};
ghost use Rattle.place_report.specs.{shown};
ghost use Rattle.journal_table.specs.Cells.{blanks, to_left, to_right, seconds, moment_text, peer_text, peer_cell, child_text, child_cell, why_text, ending_text, beside};

use crate::rows::WayEnding;
use place_report::Page;
use relay_model::{ChildEnd, NoMemory, Peer, Why};
use std::alloc::Global;
use std::net::Ipv6Addr;

/// So many blanks.
#[tactic(auto, using(crate::proofs::Below::blanks_more))]
fn say_blanks(page: &mut Page, count: usize) -> Result<(), NoMemory>
    ensures { OnOk result (page.new ≡ page.old ++ blanks count) }
{
    for blank in 0..count {
        page.say(" ")?;
    }
    Ok(())
}

/// The cell at the left of a column that is so wide, and a blank.
pub fn say_left(page: &mut Page, width: usize, cell: &Page) -> Result<(), NoMemory>
    ensures { OnOk result (page.new ≡ page.old ++ to_left width cell.now) }
{
    page.append(cell)?;
    say_blanks(page, width.saturating_sub(cell.as_slice().len()))?;
    page.say(" ")
}

/// The cell at the right of a column that is so wide, and a blank.
pub fn say_right(page: &mut Page, width: usize, cell: &Page) -> Result<(), NoMemory>
    ensures { OnOk result (page.new ≡ page.old ++ to_right width cell.now) }
{
    say_blanks(page, width.saturating_sub(cell.as_slice().len()))?;
    page.append(cell)?;
    page.say(" ")
}

/// A cell of these words.
pub(crate) fn words(alloc: Global, words: &str) -> Result<Page, NoMemory>
    ensures { IfOk result (λ page. page ≡ shown words.now) }
{
    let mut page = Page::new(alloc);
    page.say(words)?;
    Ok(page)
}

/// A cell of this number.
pub fn number(alloc: Global, number: u64) -> Result<Page, NoMemory>
    ensures { IfOk result (λ page. page ≡ decimal number) }
{
    let mut page = Page::new(alloc);
    page.number(number)?;
    Ok(page)
}

/// A moment in seconds, with three digits behind the point.
pub(crate) fn seconds(alloc: Global, milliseconds: u64) -> Result<String, NoMemory>
    ensures { IfOk result (λ text. string_bytes text ≡ seconds milliseconds) }
{
    let whole = milliseconds / 1000;
    let tenths = milliseconds / 100 % 10;
    let hundredths = milliseconds / 10 % 10;
    let thousandths = milliseconds % 10;
    Ok(format!(in alloc; "{whole}.{tenths}{hundredths}{thousandths}")?)
}

/// A moment, or a dash where there is none.
pub fn moment(alloc: Global, at: Option<u64>) -> Result<Page, NoMemory>
    ensures { IfOk result (λ page. page ≡ moment_text at) }
{
    match at {
        None => words(alloc, "-"),
        Some(milliseconds) => words(alloc, seconds(alloc, milliseconds)?.as_str()),
    }
}

fn v4_string(alloc: Global, addr: [u8; 4]) -> Result<String, NoMemory>
    ensures { IfOk result (λ text. string_bytes text ≡ ipv4_text addr) }
{
    let [a, b, c, d] = addr;
    Ok(format!(in alloc; "{a}.{b}.{c}.{d}")?)
}

/// The address and the port of a peer.
pub(crate) fn peer_string(alloc: Global, peer: Peer) -> Result<String, NoMemory>
    ensures { IfOk result (λ text. string_bytes text ≡ peer_text peer) }
{
    match peer {
        Peer::V4 { addr, port } => {
            let addr = v4_string(alloc, addr)?;
            Ok(format!(in alloc; "{addr}:{port}")?)
        }
        Peer::V6 { addr, port } => {
            let addr = Ipv6Addr::from(addr);
            Ok(format!(in alloc; "[{addr}]:{port}")?)
        }
        Peer::Local => Ok(format!(in alloc; "local")?),
    }
}

/// A peer, or nothing where there is none.
pub(crate) fn peer(alloc: Global, peer: Option<Peer>) -> Result<Page, NoMemory>
    ensures { IfOk result (λ page. page ≡ peer_cell peer) }
{
    match peer {
        None => Ok(Page::new(alloc)),
        Some(peer) => words(alloc, peer_string(alloc, peer)?.as_str()),
    }
}

pub(crate) fn child_string(alloc: Global, end: ChildEnd) -> Result<String, NoMemory>
    ensures { IfOk result (λ text. string_bytes text ≡ child_text end) }
{
    match end {
        ChildEnd::Running => Ok(format!(in alloc; "running")?),
        ChildEnd::Ended(status) => Ok(format!(in alloc; "{status}")?),
        ChildEnd::Killed => Ok(format!(in alloc; "killed")?),
    }
}

/// What became of a child, or nothing where that isn't known.
pub(crate) fn child(alloc: Global, end: Option<ChildEnd>) -> Result<Page, NoMemory>
    ensures { IfOk result (λ page. page ≡ child_cell end) }
{
    match end {
        None => Ok(Page::new(alloc)),
        Some(end) => words(alloc, child_string(alloc, end)?.as_str()),
    }
}

/// The cell behind those before it, with a comma between; an empty one changes nothing.
pub(crate) fn say_beside(page: &mut Page, cell: &Page) -> Result<(), NoMemory>
    ensures { OnOk result (page.new ≡ beside page.old cell.now) }
{
    if cell.as_slice().is_empty() {
        return Ok(());
    }
    if !page.as_slice().is_empty() {
        page.say(",")?;
    }
    page.append(cell)
}

/// Why something was closed.
pub(crate) fn why_words(why: Why) -> &'static str
    ensures { result.now ≡ why_text why }
{
    match why {
        Why::Finished => "finished",
        Why::ClosingTime => "closing time",
        Why::Idle => "inactivity",
        Why::Faulted => "a failed read or write",
        Why::OpenFailed => "a failed opening",
        Why::ListenFailed => "a failed listening",
        Why::AcceptFailed => "a failed accepting",
        Why::Refused => "refused",
        Why::Served => "served",
        Why::Stopped => "a stop",
        Why::Memory => "want of memory",
    }
}

/// How far a direction came, in a word.
pub(crate) fn ending_words(ending: WayEnding) -> &'static str
    ensures { result.now ≡ ending_text ending }
{
    match ending {
        WayEnding::Open => "open",
        WayEnding::Passed => "passed",
        WayEnding::Failed => "failed",
        WayEnding::Cut => "cut",
    }
}
