// The act of a line.
ghost use Rattle.std.specs.Prelude.{◌≡◌, ◌≤◌, ◌∷◌, [], MatchBool, IfSome, Some, None, IfOk};
ghost use Rattle.journal_text.specs.Reading.{Gives, GivesSeen, ready_in, hex_in, byte_in, digits_in, bytes_in, octets_in, addressed_in, peer_in, child_in, place_in, front_in, turn_in, fields_in, act_in, line_in};
ghost use Rattle.relay_model.specs.declared.acts.Peer.TheVariants as peer;
ghost use Rattle.journal_text.specs.declared.kinds.ActKind.TheVariants as kinds;

use crate::faults::LineFault;
use crate::fields::{
    read_entry, read_flag, read_moment, read_number, read_optional, read_place, read_shut,
    read_status, read_why, split_around,
};
use crate::kinds::ActKind;
use relay_model::{Act, Bytes, ChildEnd, Peer, Place, ReadyList};
use std::alloc::Global;

/// Lists that are filled again for each line.
#[derive(Drop)]
pub(crate) struct Scratch {
    pub(crate) bytes: Vec<u8>,
    pub(crate) ready: ReadyList,
}

/// The entries of a turn. False where the field is none; then the list holds any.
#[tactic(auto, unfolding(crate::specs::Reading::ready_in))]
fn read_ready(field: &[u8], ready: &mut ReadyList) -> bool
    requires { 256 ≤ ready.old.room }
    ensures found { MatchBool result (ready_in field.now ≡ Some ready.new.entries) (ready_in field.now ≡ None) }
    ensures room { ready.new.room ≡ ready.old.room }
{
    ready.clear();
    if field == b"-".as_slice() {
        return true;
    }
    for piece in field.split(|byte| *byte == b',') {
        let Some(entry) = read_entry(piece) else {
            return false;
        };
        if !ready.push(entry) {
            return false;
        }
    }
    true
}

fn hex_value(digit: u8) -> Option<u8>
    ensures value { result ≡ hex_in digit }
    ensures below { IfSome result (λ value. value ≤ 15) }
{
    match digit {
        b'0'..=b'9' => Some(digit - b'0'),
        b'a'..=b'f' => Some(digit - b'a' + 10),
        _ => None,
    }
}

fn byte_of(high: u8, low: u8) -> Option<u8>
    ensures { result ≡ byte_in high low }
{
    let high = hex_value(high)?;
    let low = hex_value(low)?;
    Some(16 * high + low)
}

/// Fills the list with the bytes of two digits each. After an `Err` it holds any.
#[tactic(auto, using(crate::proofs::LoopLemmas::digits_more, crate::proofs::LoopLemmas::digits_stop, crate::proofs::LoopLemmas::digits_end, crate::proofs::LoopLemmas::digits_odd))]
fn read_digits(mut digits: &[u8], bytes: &mut Vec<u8>) -> Result<(), LineFault>
    ensures { GivesSeen (λ _. bytes.new.items) result (digits_in digits.entry.now) }
{
    bytes.clear();
    while let [high, low, rest @ ..] = digits {
        let byte = byte_of(*high, *low).ok_or(LineFault::NoAct)?;
        bytes.push(byte)?;
        digits = rest;
    }
    if !digits.is_empty() {
        return Err(LineFault::NoAct);
    }
    Ok(())
}

#[tactic(auto, unfolding(crate::specs::Reading::bytes_in))]
fn read_bytes(alloc: Global, field: &[u8], bytes: &mut Vec<u8>) -> Result<Bytes, LineFault>
    ensures { Gives result (bytes_in field.now) }
{
    let [b'x', digits @ ..] = field else {
        return Err(LineFault::NoAct);
    };
    read_digits(digits, bytes)?;
    Ok(Bytes::of(alloc, bytes.as_slice())?)
}

/// So many bytes.
fn read_octets<const N: usize>(digits: &[u8], bytes: &mut Vec<u8>) -> Result<[u8; N], LineFault>
    ensures { Gives result (octets_in N digits.now) }
{
    read_digits(digits, bytes)?;
    match <[u8; N]>::try_from(bytes.as_slice()) {
        Ok(octets) => Ok(octets),
        Err(_) => Err(LineFault::NoAct),
    }
}

fn read_v4(text: &[u8], bytes: &mut Vec<u8>) -> Result<Peer, LineFault>
    ensures { Gives result (addressed_in 4 peer.V4 text.now) }
{
    let (digits, port) = split_around(text, b':').ok_or(LineFault::NoAct)?;
    let addr = read_octets(digits, bytes)?;
    let port = read_number(port, 0xffff).ok_or(LineFault::NoAct)? as u16;
    Ok(Peer::V4 { addr, port })
}

fn read_v6(text: &[u8], bytes: &mut Vec<u8>) -> Result<Peer, LineFault>
    ensures { Gives result (addressed_in 16 peer.V6 text.now) }
{
    let (digits, port) = split_around(text, b':').ok_or(LineFault::NoAct)?;
    let addr = read_octets(digits, bytes)?;
    let port = read_number(port, 0xffff).ok_or(LineFault::NoAct)? as u16;
    Ok(Peer::V6 { addr, port })
}

#[tactic(auto, unfolding(crate::specs::Reading::peer_in))]
fn read_peer(field: &[u8], bytes: &mut Vec<u8>) -> Result<Peer, LineFault>
    ensures { Gives result (peer_in field.now) }
{
    if field == b"l".as_slice() {
        return Ok(Peer::Local);
    }
    match field {
        [b'4', b':', text @ ..] => read_v4(text, bytes),
        [b'6', b':', text @ ..] => read_v6(text, bytes),
        _ => Err(LineFault::NoAct),
    }
}

#[tactic(auto, unfolding(crate::specs::Reading::child_in))]
fn read_child(field: &[u8]) -> Option<ChildEnd>
    ensures { result ≡ child_in field.now }
{
    if field == b"running".as_slice() {
        return Some(ChildEnd::Running);
    }
    if field == b"killed".as_slice() {
        return Some(ChildEnd::Killed);
    }
    let (word, status) = split_around(field, b' ')?;
    if word != b"ended".as_slice() {
        return None;
    }
    Some(ChildEnd::Ended(read_status(status)?))
}

fn read_at_place(fields: &[u8]) -> Result<Place, LineFault>
    ensures { Gives result (place_in fields.now) }
{
    read_place(fields).ok_or(LineFault::NoAct)
}

/// A place, and what stands after the space behind it.
#[tactic(auto, unfolding(crate::specs::Reading::front_in))]
fn read_front(text: &[u8]) -> Result<(Place, &[u8]), LineFault>
    ensures { GivesSeen (λ front. (front.0, front.1.now)) result (front_in text.now) }
{
    let (place, rest) = split_around(text, b' ').ok_or(LineFault::NoAct)?;
    Ok((read_at_place(place)?, rest))
}

#[tactic(auto, unfolding(crate::specs::Reading::turn_in))]
fn read_turn(fields: &[u8], ready: &mut ReadyList) -> Result<Act, LineFault>
    requires { 256 ≤ ready.old.room }
    ensures turn { Gives result (turn_in fields.now) }
    ensures room { ready.new.room ≡ ready.old.room }
{
    let (until, rest) = split_around(fields, b' ').ok_or(LineFault::NoAct)?;
    let until = read_optional(until).ok_or(LineFault::NoAct)?;
    let (at, rest) = split_around(rest, b' ').ok_or(LineFault::NoAct)?;
    let at = read_moment(at).ok_or(LineFault::NoAct)?;
    let (named, stop) = split_around(rest, b' ').ok_or(LineFault::NoAct)?;
    if !read_ready(named, ready) {
        return Err(LineFault::NoAct);
    }
    let stop = read_flag(stop).ok_or(LineFault::NoAct)?;
    Ok(Act::Turn {
        until,
        at,
        ready: ready.copy()?,
        stop,
    })
}

#[tactic(auto, unfolding(crate::specs::Reading::fields_in))]
fn read_accepting(fields: &[u8], bytes: &mut Vec<u8>) -> Result<Act, LineFault>
    ensures { Gives result (fields_in kinds.Accepted fields.now) }
{
    let (place, peer) = read_front(fields)?;
    Ok(Act::Accepted(place, read_peer(peer, bytes)?))
}

/// Bytes that were read.
#[tactic(auto, unfolding(crate::specs::Reading::fields_in))]
fn read_input(alloc: Global, fields: &[u8], bytes: &mut Vec<u8>) -> Result<Act, LineFault>
    ensures { Gives result (fields_in kinds.Read fields.now) }
{
    let (place, digits) = read_front(fields)?;
    Ok(Act::Read(place, read_bytes(alloc, digits, bytes)?))
}

/// Bytes that were written.
#[tactic(auto, unfolding(crate::specs::Reading::fields_in))]
fn read_output(alloc: Global, fields: &[u8], bytes: &mut Vec<u8>) -> Result<Act, LineFault>
    ensures { Gives result (fields_in kinds.Wrote fields.now) }
{
    let (place, digits) = read_front(fields)?;
    Ok(Act::Wrote(place, read_bytes(alloc, digits, bytes)?))
}

/// An end that was passed on.
#[tactic(auto, unfolding(crate::specs::Reading::fields_in))]
fn read_passed_end(fields: &[u8]) -> Result<Act, LineFault>
    ensures { Gives result (fields_in kinds.Shut fields.now) }
{
    let (place, how) = read_front(fields)?;
    Ok(Act::Shut(place, read_shut(how).ok_or(LineFault::NoAct)?))
}

/// An end that couldn't be passed on.
#[tactic(auto, unfolding(crate::specs::Reading::fields_in))]
fn read_failed_end(fields: &[u8]) -> Result<Act, LineFault>
    ensures { Gives result (fields_in kinds.ShutFault fields.now) }
{
    let (place, how) = read_front(fields)?;
    Ok(Act::ShutFault(place, read_shut(how).ok_or(LineFault::NoAct)?))
}

#[tactic(auto, unfolding(crate::specs::Reading::fields_in))]
fn read_closing(fields: &[u8]) -> Result<Act, LineFault>
    ensures { Gives result (fields_in kinds.Closed fields.now) }
{
    let (place, why) = read_front(fields)?;
    Ok(Act::Closed(place, read_why(why).ok_or(LineFault::NoAct)?))
}

#[tactic(auto, unfolding(crate::specs::Reading::fields_in))]
fn read_reaping(fields: &[u8]) -> Result<Act, LineFault>
    ensures { Gives result (fields_in kinds.Reaped fields.now) }
{
    let (place, end) = read_front(fields)?;
    Ok(Act::Reaped(place, read_child(end).ok_or(LineFault::NoAct)?))
}

#[tactic(auto, unfolding(crate::specs::Reading::fields_in))]
fn read_fields(
    alloc: Global,
    kind: ActKind,
    fields: &[u8],
    scratch: &mut Scratch,
) -> Result<Act, LineFault>
    requires { 256 ≤ scratch.old.ready.room }
    ensures act { Gives result (fields_in kind fields.now) }
    ensures room { scratch.new.ready.room ≡ scratch.old.ready.room }
{
    match kind {
        ActKind::Turn => read_turn(fields, &mut scratch.ready),
        ActKind::Opened => Ok(Act::Opened(read_at_place(fields)?)),
        ActKind::OpenLater => Ok(Act::OpenLater(read_at_place(fields)?)),
        ActKind::OpenFailed => Ok(Act::OpenFailed(read_at_place(fields)?)),
        ActKind::Listening => Ok(Act::Listening(read_at_place(fields)?)),
        ActKind::ListenFailed => Ok(Act::ListenFailed(read_at_place(fields)?)),
        ActKind::NoPeer => Ok(Act::NoPeer(read_at_place(fields)?)),
        ActKind::AcceptFailed => Ok(Act::AcceptFailed(read_at_place(fields)?)),
        ActKind::ReadEmpty => Ok(Act::ReadEmpty(read_at_place(fields)?)),
        ActKind::ReadEnd => Ok(Act::ReadEnd(read_at_place(fields)?)),
        ActKind::ReadNotYet => Ok(Act::ReadNotYet(read_at_place(fields)?)),
        ActKind::ReadFault => Ok(Act::ReadFault(read_at_place(fields)?)),
        ActKind::WriteNotYet => Ok(Act::WriteNotYet(read_at_place(fields)?)),
        ActKind::WriteFault => Ok(Act::WriteFault(read_at_place(fields)?)),
        ActKind::Note => Ok(Act::Note(read_bytes(alloc, fields, &mut scratch.bytes)?)),
        ActKind::NoteFault => Ok(Act::NoteFault(read_bytes(alloc, fields, &mut scratch.bytes)?)),
        ActKind::Accepted => read_accepting(fields, &mut scratch.bytes),
        ActKind::Read => read_input(alloc, fields, &mut scratch.bytes),
        ActKind::Wrote => read_output(alloc, fields, &mut scratch.bytes),
        ActKind::Shut => read_passed_end(fields),
        ActKind::ShutFault => read_failed_end(fields),
        ActKind::Closed => read_closing(fields),
        ActKind::Reaped => read_reaping(fields),
    }
}

/// The act of a line without its newline.
#[tactic(auto, unfolding(crate::specs::Reading::act_in))]
fn read_act(alloc: Global, line: &[u8], scratch: &mut Scratch) -> Result<Act, LineFault>
    requires { 256 ≤ scratch.old.ready.room }
    ensures act { Gives result (act_in line.now) }
    ensures room { scratch.new.ready.room ≡ scratch.old.ready.room }
{
    let (word, fields) = split_around(line, b' ').ok_or(LineFault::NoAct)?;
    let kind = ActKind::of_word(word).ok_or(LineFault::NoAct)?;
    read_fields(alloc, kind, fields, scratch)
}

/// The act of the first line, and what stands after that line.
#[tactic(auto, unfolding(crate::specs::Reading::line_in))]
pub(crate) fn read_line<'a>(
    alloc: Global,
    text: &'a [u8],
    scratch: &mut Scratch,
) -> Result<(Act, &'a [u8]), LineFault>
    requires { 256 ≤ scratch.old.ready.room }
    ensures line { GivesSeen (λ line. (line.0, line.1.now)) result (line_in text.now) }
    ensures room { scratch.new.ready.room ≡ scratch.old.ready.room }
{
    let (line, rest) = split_around(text, b'\n').ok_or(LineFault::NoAct)?;
    Ok((read_act(alloc, line, scratch)?, rest))
}
