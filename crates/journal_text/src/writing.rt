// The text of a journal.
ghost use Rattle.std.specs.Prelude.{◌≡◌, ◌<◌, ◌≤◌, ◌++◌, ◌∷◌, ◌-◌, [], drop, length, IfOk, OnOk};
ghost use Rattle.std.specs.Fmt.{decimal, signed_decimal};
ghost use Rattle.std.specs.List.{join_with_byte, flat_map};
ghost use Rattle.std.specs.Str.{byte};
ghost use Rattle.relay_model.specs.{hex_digit, hex_byte};
ghost use Rattle.journal_text.specs.Fields.{optional_text, side_letter, part_letter, door_letter, half_letter, flag_text, place_text, entry_text, ready_text, digits_text, bytes_text, peer_text, child_text};
ghost use Rattle.journal_text.specs.Kinds.{fields_of};
ghost use Rattle.journal_text.specs.Lines.{line_of};
ghost use Rattle.journal_text.specs.Ranges.{IsMoment, IsOptionalMoment, IsPlace, IsReady, IsBytes, IsPeer, IsChildEnd, IsAct};
ghost use Rattle.journal_text.specs.Texts.{IsTextOf};

use crate::fields::{shut_word, why_word};
use crate::kinds::ActKind;
use itoa::{Buffer, Integer};
use relay_model::{
    Act, Bytes, ChildEnd, Half, Journal, NoMemory, Part, Peer, Place, ReadyAt, ReadyList, Shut,
    Side, Why,
};
use std::alloc::Global;

fn push_number<I: Integer>(text: &mut Vec<u8>, number: I) -> Result<(), NoMemory>
    ensures { OnOk result (text.new.items ≡ text.old.items ++ I.text number) }
{
    let mut digits = Buffer::new();
    text.extend_from_slice(digits.format(number).as_bytes())?;
    Ok(())
}

fn push_optional(text: &mut Vec<u8>, number: Option<u64>) -> Result<(), NoMemory>
    ensures { OnOk result (text.new.items ≡ text.old.items ++ optional_text number) }
{
    match number {
        None => text.push(b'-')?,
        Some(number) => push_number(text, number)?,
    }
    Ok(())
}

fn side_letter(side: Side) -> u8
    ensures { result ≡ side_letter side }
{
    match side {
        Side::Left => b'L',
        Side::Right => b'R',
    }
}

fn part_letter(part: Part) -> u8
    ensures { result ≡ part_letter part }
{
    match part {
        Part::Both => b'B',
        Part::Reading => b'I',
        Part::Writing => b'O',
    }
}

fn half_letter(half: Half) -> u8
    ensures { result ≡ half_letter half }
{
    match half {
        Half::ToRead => b'r',
        Half::ToWrite => b'w',
    }
}

fn push_place(text: &mut Vec<u8>, place: Place) -> Result<(), NoMemory>
    ensures text { OnOk result (text.new.items ≡ text.old.items ++ place_text place) }
    ensures range { IsPlace place }
{
    push_number(text, place.session)?;
    text.push(side_letter(place.side))?;
    text.push(part_letter(place.part))?;
    text.push(if place.door { b'd' } else { b'-' })?;
    Ok(())
}

fn push_entry(text: &mut Vec<u8>, entry: ReadyAt) -> Result<(), NoMemory>
    ensures text { OnOk result (text.new.items ≡ text.old.items ++ entry_text entry) }
    ensures range { IsPlace entry.place }
{
    push_place(text, entry.place)?;
    text.push(half_letter(entry.half))?;
    Ok(())
}

#[tactic(auto, using(crate::proofs::WritingLemmas::ready_at_first, crate::proofs::WritingLemmas::ready_at, crate::proofs::WritingLemmas::ready_done))]
fn push_ready(text: &mut Vec<u8>, ready: &ReadyList) -> Result<(), NoMemory>
    ensures text { OnOk result (text.new.items ≡ text.old.items ++ ready_text ready.now.entries) }
    ensures range { OnOk result (IsReady ready.now.entries) }
{
    if ready.len() == 0 {
        text.push(b'-')?;
        return Ok(());
    }
    push_entry(text, ready.get(0))?;
    for i in 1..ready.len() {
        text.push(b',')?;
        push_entry(text, ready.get(i))?;
    }
    Ok(())
}

fn hex_digit_of(value: u8) -> u8
    requires { value < 16 }
    ensures { result ≡ hex_digit value }
{
    if value < 10 {
        b'0' + value
    } else {
        b'a' + (value - 10)
    }
}

fn push_digits(text: &mut Vec<u8>, bytes: &[u8]) -> Result<(), NoMemory>
    ensures text { OnOk result (text.new.items ≡ text.old.items ++ digits_text bytes.now) }
    ensures range { OnOk result (IsBytes bytes.now) }
{
    for byte in bytes {
        text.push(hex_digit_of(*byte / 16))?;
        text.push(hex_digit_of(*byte % 16))?;
    }
    Ok(())
}

fn push_bytes(text: &mut Vec<u8>, bytes: &Bytes) -> Result<(), NoMemory>
    ensures text { OnOk result (text.new.items ≡ text.old.items ++ bytes_text bytes.now) }
    ensures range { OnOk result (IsBytes bytes.now) }
{
    text.push(b'x')?;
    push_digits(text, bytes.as_slice())
}

fn push_peer(text: &mut Vec<u8>, peer: Peer) -> Result<(), NoMemory>
    ensures text { OnOk result (text.new.items ≡ text.old.items ++ peer_text peer) }
    ensures range { OnOk result (IsPeer peer) }
{
    match peer {
        Peer::V4 { addr, port } => {
            text.extend_from_slice(b"4:")?;
            push_digits(text, &addr)?;
            text.push(b':')?;
            push_number(text, port)?;
        }
        Peer::V6 { addr, port } => {
            text.extend_from_slice(b"6:")?;
            push_digits(text, &addr)?;
            text.push(b':')?;
            push_number(text, port)?;
        }
        Peer::Local => text.push(b'l')?,
    }
    Ok(())
}

fn push_child(text: &mut Vec<u8>, end: ChildEnd) -> Result<(), NoMemory>
    ensures text { OnOk result (text.new.items ≡ text.old.items ++ child_text end) }
    ensures range { IsChildEnd end }
{
    match end {
        ChildEnd::Running => text.extend_from_slice(b"running")?,
        ChildEnd::Killed => text.extend_from_slice(b"killed")?,
        ChildEnd::Ended(status) => {
            text.extend_from_slice(b"ended ")?;
            push_number(text, status)?;
        }
    }
    Ok(())
}

fn push_fields(text: &mut Vec<u8>, act: &Act) -> Result<(), NoMemory>
    ensures text { OnOk result (text.new.items ≡ text.old.items ++ fields_of act.now) }
    ensures range { OnOk result (IsAct act.now) }
{
    match act {
        Act::Turn {
            until,
            at,
            ready,
            stop,
        } => push_turn(text, *until, *at, ready, *stop),
        Act::Opened(place)
        | Act::OpenLater(place)
        | Act::OpenFailed(place)
        | Act::Listening(place)
        | Act::ListenFailed(place)
        | Act::NoPeer(place)
        | Act::AcceptFailed(place)
        | Act::ReadEmpty(place)
        | Act::ReadEnd(place)
        | Act::ReadNotYet(place)
        | Act::ReadFault(place)
        | Act::WriteNotYet(place)
        | Act::WriteFault(place) => push_place(text, *place),
        Act::Accepted(place, peer) => push_met_peer(text, *place, *peer),
        Act::Read(place, bytes) | Act::Wrote(place, bytes) => push_moved(text, *place, bytes),
        Act::Shut(place, how) | Act::ShutFault(place, how) => push_shut(text, *place, *how),
        Act::Closed(place, why) => push_closing(text, *place, *why),
        Act::Reaped(place, end) => push_reaping(text, *place, *end),
        Act::Note(bytes) | Act::NoteFault(bytes) => push_bytes(text, bytes),
    }
}

fn push_slice(text: &mut Vec<u8>, bytes: &[u8]) -> Result<(), NoMemory>
    ensures { OnOk result (text.new.items ≡ text.old.items ++ bytes.now) }
{
    text.extend_from_slice(bytes)?;
    Ok(())
}

fn push_place_and_space(text: &mut Vec<u8>, place: Place) -> Result<(), NoMemory>
    ensures text { OnOk result (text.new.items ≡ text.old.items ++ place_text place ++ byte " " ∷ []) }
    ensures range { IsPlace place }
{
    push_place(text, place)?;
    text.push(b' ')?;
    Ok(())
}

fn push_met_peer(text: &mut Vec<u8>, place: Place, peer: Peer) -> Result<(), NoMemory>
    ensures text { OnOk result (text.new.items ≡ text.old.items ++ fields_of (Act.Accepted place peer)) }
    ensures range { OnOk result (IsPlace place × IsPeer peer) }
{
    push_place_and_space(text, place)?;
    push_peer(text, peer)
}

/// Bytes that were read or written at a place.
fn push_moved(text: &mut Vec<u8>, place: Place, bytes: &Bytes) -> Result<(), NoMemory>
    ensures text { OnOk result (text.new.items ≡ text.old.items ++ fields_of (Act.Read place bytes.now)) }
    ensures range { OnOk result (IsPlace place × IsBytes bytes.now) }
{
    push_place_and_space(text, place)?;
    push_bytes(text, bytes)
}

fn push_shut(text: &mut Vec<u8>, place: Place, how: Shut) -> Result<(), NoMemory>
    ensures text { OnOk result (text.new.items ≡ text.old.items ++ fields_of (Act.Shut place how)) }
    ensures range { IsPlace place }
{
    push_place_and_space(text, place)?;
    push_slice(text, shut_word(how))
}

fn push_closing(text: &mut Vec<u8>, place: Place, why: Why) -> Result<(), NoMemory>
    ensures text { OnOk result (text.new.items ≡ text.old.items ++ fields_of (Act.Closed place why)) }
    ensures range { IsPlace place }
{
    push_place_and_space(text, place)?;
    push_slice(text, why_word(why))
}

fn push_reaping(text: &mut Vec<u8>, place: Place, end: ChildEnd) -> Result<(), NoMemory>
    ensures text { OnOk result (text.new.items ≡ text.old.items ++ fields_of (Act.Reaped place end)) }
    ensures range { IsPlace place × IsChildEnd end }
{
    push_place_and_space(text, place)?;
    push_child(text, end)
}

fn push_turn(
    text: &mut Vec<u8>,
    until: Option<u64>,
    at: u64,
    ready: &ReadyList,
    stop: bool,
) -> Result<(), NoMemory>
    ensures text { OnOk result (text.new.items ≡ text.old.items ++ fields_of (Act.Turn until at ready.now stop)) }
    ensures range { OnOk result (IsOptionalMoment until × IsMoment at × IsReady ready.now.entries) }
{
    push_optional(text, until)?;
    text.push(b' ')?;
    push_number(text, at)?;
    text.push(b' ')?;
    push_ready(text, ready)?;
    text.push(b' ')?;
    text.push(if stop { b'1' } else { b'0' })?;
    Ok(())
}

fn push_line(text: &mut Vec<u8>, act: &Act) -> Result<(), NoMemory>
    ensures text { OnOk result (text.new.items ≡ text.old.items ++ line_of act.now) }
    ensures range { OnOk result (IsAct act.now) }
{
    text.extend_from_slice(ActKind::of(act).word())?;
    text.push(b' ')?;
    push_fields(text, act)?;
    text.push(b'\n')?;
    Ok(())
}

/// The text of the first `count` acts of the journal, one line an act, the oldest first: a word and its fields with one
/// space between, and a newline. Bytes are written as `x` and two hexadecimal digits each, in lower case. Of this text
/// `read_journal` makes the same acts again.
#[tactic(auto, using(crate::proofs::WritingLemmas::spelt_in_order, crate::proofs::WritingLemmas::line_at, crate::proofs::WritingLemmas::lines_done))]
pub fn write_front(alloc: Global, journal: &Journal, count: usize) -> Result<Bytes, NoMemory>
    requires { count ≤ length journal.now.acts }
    // Whatever these acts are, this is what clause `acts` of `read_journal` asks of a text.
    ensures { IfOk result (λ text. IsTextOf text (drop (length journal.now.acts - count) journal.now.acts)) }
{
    let mut text = Vec::new(alloc);
    for i in 0..count {
        push_line(&mut text, journal.get(i))?;
    }
    Bytes::of(alloc, text.as_slice())
}

/// The text of the whole journal.
#[tactic(auto, using(crate::proofs::WritingLemmas::all_oldest))]
pub fn write_journal(alloc: Global, journal: &Journal) -> Result<Bytes, NoMemory>
    ensures { IfOk result (λ text. IsTextOf text journal.now.acts) }
{
    write_front(alloc, journal, journal.len())
}
