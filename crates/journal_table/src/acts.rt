// The acts of a run in plain words, a line each, with the moment of each.
ghost use Rattle.std.specs.Prelude.{◌≡◌, ◌++◌, ◌∷◌, List, Some, string_bytes, decimal, codes, length, IfOk, OnOk};
ghost use Rattle.relay_model.specs.{Act, newline, now};
ghost use Rattle.history_facts.specs.{acts};
ghost use Rattle.place_report.specs.{shown};
ghost use Rattle.journal_table.specs.Cells.{to_right, moment_text};
ghost use Rattle.journal_table.specs.Acts.{part_text, door_text, place_of, address_text, subject, verb, shut_text, turn_detail, detail, act_line, acts_text};

use crate::cells::{child_string, moment, peer_string, say_right, why_words};
use crate::tables::side_words;
use place_report::Page;
use relay_model::{Act, NoMemory, Part, Place, ReadyList, Shut};
use std::alloc::Global;

fn part_words(part: Part) -> &'static str
    ensures { result.now ≡ part_text part }
{
    match part {
        Part::Both => "",
        Part::Reading => ", reading",
        Part::Writing => ", writing",
    }
}

fn door_words(door: bool) -> &'static str
    ensures { result.now ≡ door_text door }
{
    if door { ", its door" } else { "" }
}

/// The place or door that the act is at.
fn place_of(act: &Act) -> Option<Place>
    ensures { result ≡ place_of act.now }
{
    match act {
        Act::Turn { .. } | Act::Note(_) | Act::NoteFault(_) => None,
        Act::Opened(place) | Act::OpenLater(place) | Act::OpenFailed(place) => Some(*place),
        Act::Listening(place) | Act::ListenFailed(place) => Some(*place),
        Act::Accepted(place, _) | Act::NoPeer(place) | Act::AcceptFailed(place) => Some(*place),
        Act::Read(place, _) | Act::ReadEmpty(place) | Act::ReadEnd(place) => Some(*place),
        Act::ReadNotYet(place) | Act::ReadFault(place) => Some(*place),
        Act::Wrote(place, _) | Act::WriteNotYet(place) | Act::WriteFault(place) => Some(*place),
        Act::Shut(place, _) | Act::ShutFault(place, _) => Some(*place),
        Act::Closed(place, _) | Act::Reaped(place, _) => Some(*place),
    }
}

/// An address of a session.
fn address_string(alloc: Global, place: Place) -> Result<String, NoMemory>
    ensures { IfOk result (λ text. string_bytes text ≡ address_text place) }
{
    let session = place.session;
    let side = side_words(place.side);
    Ok(format!(in alloc; "session {session}, {side} address")?)
}

/// What the act is of.
fn subject(alloc: Global, place: Option<Place>) -> Result<String, NoMemory>
    ensures { IfOk result (λ text. string_bytes text ≡ subject place) }
{
    match place {
        None => Ok(format!(in alloc; "run")?),
        Some(place) => {
            let address = address_string(alloc, place)?;
            let part = part_words(place.part);
            let door = door_words(place.door);
            Ok(format!(in alloc; "{address}{part}{door}")?)
        }
    }
}

/// What happened, in words.
fn verb(act: &Act) -> &'static str
    ensures { result.now ≡ verb act.now }
{
    match act {
        Act::Turn { .. } => "waited, ready: ",
        Act::Opened(_) => "opened",
        Act::OpenLater(_) => "its opening is under way",
        Act::OpenFailed(_) => "its opening failed",
        Act::Listening(_) => "listens",
        Act::ListenFailed(_) => "its listening failed",
        Act::Accepted(..) => "a peer came: ",
        Act::NoPeer(_) => "no peer yet",
        Act::AcceptFailed(_) => "an accepting failed",
        Act::Read(..) => "bytes read: ",
        Act::ReadEmpty(_) => "an empty datagram read",
        Act::ReadEnd(_) => "the end read",
        Act::ReadNotYet(_) => "nothing to read yet",
        Act::ReadFault(_) => "a read failed",
        Act::Wrote(..) => "bytes written: ",
        Act::WriteNotYet(_) => "no room to write yet",
        Act::WriteFault(_) => "a write failed",
        Act::Shut(..) => "the end passed on by ",
        Act::ShutFault(..) => "the end couldn't be passed on by ",
        Act::Closed(..) => "closed: ",
        Act::Reaped(..) => "its child: ",
        Act::Note(_) => "bytes noted: ",
        Act::NoteFault(_) => "bytes that couldn't be noted: ",
    }
}

fn shut_words(how: Shut) -> &'static str
    ensures { result.now ≡ shut_text how }
{
    match how {
        Shut::Nothing => "nothing",
        Shut::Down => "ending the writing half",
        Shut::Close => "closing",
        Shut::Null => "an empty datagram",
    }
}

/// How many entries a turn named, and whether it said stop.
fn turn_detail(alloc: Global, ready: &ReadyList, stop: bool) -> Result<String, NoMemory>
    ensures { IfOk result (λ text. string_bytes text ≡ turn_detail (length ready.now.entries) stop) }
{
    let count = ready.len();
    if stop {
        Ok(format!(in alloc; "{count}, and a stop")?)
    } else {
        Ok(format!(in alloc; "{count}")?)
    }
}

fn count_detail(alloc: Global, count: usize) -> Result<String, NoMemory>
    ensures { IfOk result (λ text. string_bytes text ≡ decimal count) }
{
    Ok(format!(in alloc; "{count}")?)
}

fn words_detail(alloc: Global, words: &str) -> Result<String, NoMemory>
    ensures { IfOk result (λ text. string_bytes text ≡ words.now) }
{
    Ok(format!(in alloc; "{words}")?)
}

/// What more is known of it.
fn detail(alloc: Global, act: &Act) -> Result<String, NoMemory>
    ensures { IfOk result (λ text. string_bytes text ≡ detail act.now) }
{
    match act {
        Act::Turn { ready, stop, .. } => turn_detail(alloc, ready, *stop),
        Act::Accepted(_, peer) => peer_string(alloc, *peer),
        Act::Read(_, bytes) | Act::Wrote(_, bytes) => count_detail(alloc, bytes.len()),
        Act::Note(bytes) | Act::NoteFault(bytes) => count_detail(alloc, bytes.len()),
        Act::Shut(_, how) | Act::ShutFault(_, how) => words_detail(alloc, shut_words(*how)),
        Act::Closed(_, why) => words_detail(alloc, why_words(*why)),
        Act::Reaped(_, end) => child_string(alloc, *end),
        _ => words_detail(alloc, ""),
    }
}

fn say_moment(alloc: Global, page: &mut Page, at: u64) -> Result<(), NoMemory>
    ensures { OnOk result (page.new ≡ page.old ++ to_right 10 (moment_text (Some at))) }
{
    let cell = moment(alloc, Some(at))?;
    say_right(page, 10, &cell)
}

fn say_subject(alloc: Global, page: &mut Page, act: &Act) -> Result<(), NoMemory>
    ensures { OnOk result (page.new ≡ page.old ++ shown (subject (place_of act.now))) }
{
    let text = subject(alloc, place_of(act))?;
    page.say(text.as_str())
}

fn say_verb(page: &mut Page, act: &Act) -> Result<(), NoMemory>
    ensures { OnOk result (page.new ≡ page.old ++ shown (verb act.now)) }
{
    page.say(verb(act))
}

fn say_detail(alloc: Global, page: &mut Page, act: &Act) -> Result<(), NoMemory>
    ensures { OnOk result (page.new ≡ page.old ++ shown (detail act.now)) }
{
    let text = detail(alloc, act)?;
    page.say(text.as_str())
}

/// The line of an act that came at this moment.
fn say_act(alloc: Global, page: &mut Page, at: u64, act: &Act) -> Result<(), NoMemory>
    ensures { OnOk result (page.new ≡ page.old ++ act_line at act.now) }
{
    say_moment(alloc, page, at)?;
    say_subject(alloc, page, act)?;
    page.say(": ")?;
    say_verb(page, act)?;
    say_detail(alloc, page, act)?;
    page.end_line()
}

/// The moment of the last turn, once the act has come.
fn moment_after(at: u64, act: &Act) -> u64
    ensures { (past : List Act) → at ≡ now past → result ≡ now (act.now ∷ past) }
{
    match act {
        Act::Turn { at, .. } => *at,
        _ => at,
    }
}

/// A line for each act, the oldest first. The acts that are given stand newest first.
pub fn acts_told(alloc: Global, all: &[&Act]) -> Result<Page, NoMemory>
    ensures { IfOk result (λ page. page ≡ acts_text (acts all.now)) }
{
    let mut page = Page::new(alloc);
    let mut at = 0;
    let mut k = all.len();
    while k > 0 {
        k -= 1;
        let act: &Act = all[k];
        at = moment_after(at, act);
        say_act(alloc, &mut page, at, act)?;
    }
    Ok(page)
}
