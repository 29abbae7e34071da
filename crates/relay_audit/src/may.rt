// What may come and what rests, as tests that compute.
ghost use Rattle.std.specs.Prelude.{List, ◌≡◌, ◌≢◌, ◌<◌, ◌≤◌, ◌^◌, ◌&&◌, ◌||◌, ◌==◌, not, nat_lt, nat_le, [], ◌∷◌, ◌++◌, length, drop, IfOk, is_none, true};
ghost use Rattle.relay_model.specs.{Act, dump_of, each_below, same_place, passed, turns, got, put, sent, was_closed, was_reaped, same_why};
ghost use Rattle.relay_model.specs.{asked_to_read, asked_to_write, admitted, live, cause, running, input, output, way_to, medium_of, is_program};
ghost use Rattle.relay_model.specs.{keeps_borders, due, due_pieces, backlog, is_spent, owed, is_going, owes_read, owes_write, until_of, implies};
ghost use Rattle.relay_model.specs.{accept_tried, way_rests, session_rests, door_rests, rests, same_number, same_list, same_text, begins};
ghost use Rattle.relay_model.specs.{begins_pieces, same_shut, opens, listens_to, accepts_for, accepts_at, closes, may_ask, may_take, may_offer};
ghost use Rattle.relay_model.specs.{may_put, may_shut, door_ends, is_cause, may_close, may_come};
ghost use Rattle.relay_model.specs.declared.acts.Act.TheVariants.{Read};
ghost use Rattle.relay_audit.specs.Pasts.{reads_some, awaits_dump, may_end, WrittenStands, OnePieceWaits};

use crate::rest::{
    is_going, known_running, must_pass, owes_nothing, owes_read, owes_write, presses, until_of,
};
use command_places::{
    has_fork, how, input, is_program, is_program_door, keeps_borders, medium_of, output,
    program_door, way_from, way_to,
};
use dump_format::dump_text;
use history_facts::{
    accept_failed, armed_to_read, armed_to_write, asked_to_accept, asked_to_read, asked_to_write,
    closed_why, got_length, is_held, memory_said, put_length, stop_said, turns, was_closed,
    was_reaped,
};
use relay_model::{Act, Call, Dump, NoMemory, Place, Shut, Way, Why};
use session_facts::{
    Ledger, backlog, call_at, cause, door_call, door_cut, due_after, greatest_read, has_outcome,
    has_passed, holds, is_running, is_spent, known_call, live, numbers, over,
};
use std::alloc::Global;

// ---- rest

fn accept_tried(past: &Ledger, call: Call) -> bool
    ensures { result ≡ accept_tried past.now.config past.now.acts call }
{
    match call {
        Call::Accept { door, .. } => asked_to_accept(past.facts(), door),
        _ => true,
    }
}

/// Whether a read that may come was tried since the last turn.
#[tactic(auto, using(crate::proofs::Implied::implies_met, crate::proofs::Implied::implies_unmet))]
fn reading_rests(past: &Ledger, session: u32, way: Way, runs: bool) -> bool
    requires { runs ≡ running past.now.config past.now.acts session }
    ensures { result
        ≡ implies (owes_read past.now.config past.now.acts session way) (asked_to_read past.now.acts
        (input past.now.config session way)) }
{
    let config = past.facts().config();
    if asked_to_read(past.facts(), input(config, session, way)) {
        return true;
    }
    !owes_read(past, session, way, runs)
}

/// Whether a write that may come was tried since the last turn and the last read.
#[tactic(auto, using(crate::proofs::Implied::implies_met, crate::proofs::Implied::implies_unmet))]
fn writing_rests(past: &Ledger, session: u32, way: Way, runs: bool) -> bool
    requires { runs ≡ running past.now.config past.now.acts session }
    ensures { result
        ≡ implies (owes_write past.now.config past.now.acts session way) (asked_to_write past.now.acts
        (input past.now.config session way) (output past.now.config session way)) }
{
    let config = past.facts().config();
    if asked_to_write(past.facts(), session, way) {
        return true;
    }
    !owes_write(past, session, way, runs)
}

fn way_rests(past: &Ledger, session: u32, way: Way, runs: bool) -> bool
    requires { runs ≡ running past.now.config past.now.acts session }
    ensures { result ≡ way_rests past.now.config past.now.acts session way }
{
    if !reading_rests(past, session, way, runs) {
        return false;
    }
    if !writing_rests(past, session, way, runs) {
        return false;
    }
    !must_pass(past, session, way, runs)
}

fn session_rests(past: &Ledger, session: u32) -> bool
    requires { admitted past.now.config past.now.acts < 2 ^ 32 }
    ensures { result ≡ session_rests past.now.config past.now.acts session }
{
    let lives = live(past.facts(), session);
    let why = cause(past.facts(), session);
    let call = known_call(past.facts(), session, lives, why);
    if why.is_some() && holds(past.facts(), session) {
        return false;
    }
    if presses(call) {
        return false;
    }
    let runs = known_running(past, session, lives, why);
    if !way_rests(past, session, Way::LeftToRight, runs) {
        return false;
    }
    if !way_rests(past, session, Way::RightToLeft, runs) {
        return false;
    }
    accept_tried(past, call)
}

fn door_rests(past: &Ledger) -> bool
    requires { admitted past.now.config past.now.acts < 2 ^ 32 }
    ensures { result ≡ door_rests past.now.config past.now.acts }
{
    let config = past.facts().config();
    let call = door_call(past.facts());
    (!(has_fork(config) && door_cut(past.facts())) || !is_held(past.facts(), program_door()))
        && !presses(call)
        && accept_tried(past, call)
}

#[tactic(auto, using(session_facts::proofs::Below::each_below_more))]
fn all_sessions_rest(past: &Ledger, count: u32) -> bool
    requires { admitted past.now.config past.now.acts < 2 ^ 32 }
    ensures { result ≡ each_below (session_rests past.now.config past.now.acts) count }
{
    for session in 0..count {
        let quiet = session_rests(past, session);
        if !quiet {
            return false;
        }
    }
    true
}

/// Whether a wait is in order.
pub fn rests(past: &Ledger) -> bool
    requires { admitted past.now.config past.now.acts < 2 ^ 32 }
    ensures { result ≡ rests past.now.config past.now.acts }
{
    if has_outcome(past.facts()) || !owes_nothing(past) || !door_rests(past) {
        return false;
    }
    let next = numbers(past.facts());
    if !session_rests(past, next) {
        return false;
    }
    all_sessions_rest(past, next)
}

// ---- small tests

fn same_number(one: Option<u64>, other: Option<u64>) -> bool
    ensures { result ≡ same_number one other }
{
    match one {
        None => other.is_none(),
        Some(m) => match other {
            None => false,
            Some(n) => m == n,
        },
    }
}

#[tactic(auto, using(crate::proofs::Lists::equal_as_same))]
fn same_list(one: &[u8], other: &[u8]) -> bool
    ensures { result ≡ same_list one.now other.now }
{
    one == other
}

/// Whether the list begins with the first bytes.
fn begins(first: &[u8], list: &[u8]) -> bool
    ensures { result ≡ begins first.now list.now }
{
    list.starts_with(first)
}

/// What follows the first so many bytes.
#[tactic(auto, using(crate::proofs::Pieces::all_dropped))]
fn after_first(bytes: &[u8], count: usize) -> &[u8]
    ensures { result.now ≡ drop count bytes.now }
{
    if count < bytes.len() {
        &bytes[count..]
    } else {
        &[]
    }
}

fn same_shut(one: Shut, other: Shut) -> bool
    ensures { result ≡ same_shut one other }
{
    match one {
        Shut::Nothing => other == Shut::Nothing,
        Shut::Down => other == Shut::Down,
        Shut::Close => other == Shut::Close,
        Shut::Null => other == Shut::Null,
    }
}

fn same_why(one: Why, other: Why) -> bool
    ensures { result ≡ same_why one other }
{
    match one {
        Why::Finished => other == Why::Finished,
        Why::ClosingTime => other == Why::ClosingTime,
        Why::Idle => other == Why::Idle,
        Why::Faulted => other == Why::Faulted,
        Why::OpenFailed => other == Why::OpenFailed,
        Why::ListenFailed => other == Why::ListenFailed,
        Why::AcceptFailed => other == Why::AcceptFailed,
        Why::Refused => other == Why::Refused,
        Why::Served => other == Why::Served,
        Why::Stopped => other == Why::Stopped,
        Why::Memory => other == Why::Memory,
    }
}

// ---- calls

fn opens(call: Call, place: Place) -> bool
    ensures { result ≡ opens call place }
{
    match call {
        Call::Open(at) | Call::Settle(at) => at.is(place),
        _ => false,
    }
}

fn listens_to(call: Call, door: Place) -> bool
    ensures { result ≡ listens_to call door }
{
    match call {
        Call::Listen(at) => at.is(door),
        _ => false,
    }
}

fn accepts_for(call: Call, place: Place) -> bool
    ensures { result ≡ accepts_for call place }
{
    match call {
        Call::Accept { place: met, .. } => met.is(place),
        _ => false,
    }
}

fn accepts_at(call: Call, door: Place) -> bool
    ensures { result ≡ accepts_at call door }
{
    match call {
        Call::Accept { door: at, .. } => at.is(door),
        _ => false,
    }
}

fn closes(call: Call, place: Place, why: Why) -> bool
    ensures { result ≡ closes call place why }
{
    match call {
        Call::Refuse(at) => why == Why::Refused && at.is(place),
        Call::Serve(at) => why == Why::Served && at.is(place),
        _ => false,
    }
}

// ---- reads and writes

fn may_ask(past: &Ledger, place: Place) -> bool
    requires { admitted past.now.config past.now.acts < 2 ^ 32 }
    ensures { result ≡ may_ask past.now.config past.now.acts place }
{
    let config = past.facts().config();
    let session = place.session;
    let way = way_from(place.side);
    if !place.is(input(config, session, way)) {
        return false;
    }
    let runs = is_running(past.facts(), session);
    if !is_going(past, session, way, runs) || has_passed(past.facts(), session, way) {
        return false;
    }
    if over(past, place) {
        return false;
    }
    armed_to_read(past.facts(), place)
}

/// Whether so many bytes may be read there, of as many as there is room for.
fn may_take(past: &Ledger, place: Place, count: usize) -> bool
    requires { admitted past.now.config past.now.acts < 2 ^ 32 }
    ensures { result ≡ may_take past.now.config past.now.acts place count }
{
    if !may_ask(past, place) {
        return false;
    }
    let most = greatest_read(past, place.session, way_from(place.side));
    count >= 1 && count as u64 <= most
}

fn may_offer(past: &Ledger, place: Place) -> bool
    requires { admitted past.now.config past.now.acts < 2 ^ 32 }
    ensures { result ≡ may_offer past.now.config past.now.acts place }
{
    let config = past.facts().config();
    let session = place.session;
    let way = way_to(place.side);
    place.is(output(config, session, way))
        && is_going(past, session, way, is_running(past.facts(), session))
        && !has_passed(past.facts(), session, way)
        && armed_to_write(past.facts(), place)
}

fn may_try_write(past: &Ledger, place: Place) -> bool
    requires { admitted past.now.config past.now.acts < 2 ^ 32 }
    ensures { result
        ≡ (may_offer past.now.config past.now.acts place
        && nat_le 1 (backlog past.now.config past.now.acts place.session (way_to place.side))) }
{
    if !may_offer(past, place) {
        return false;
    }
    backlog(past, place.session, way_to(place.side)) >= 1
}

/// Whether the bytes go on where those that were written at the place end, of all that are due there. Those that were
/// written are a beginning of it.
#[tactic(auto, using(crate::proofs::Pieces::next_bytes))]
fn is_due_next(past: &Ledger, place: Place, bytes: &[u8]) -> bool
    requires written { WrittenStands past.now.config past.now.acts }
    requires offered { may_offer past.now.config past.now.acts place ≡ true }
    ensures { result
        ≡ begins (put past.now.acts place ++ bytes.now) (due past.now.config (way_to place.side)
        (got past.now.acts (input past.now.config place.session (way_to place.side)))) }
{
    let owed = due_after(past, place.session, way_to(place.side));
    let written = put_length(past.facts(), place);
    begins(bytes, after_first(owed, written))
}

/// Whether the piece is the next of those that are due at the place: one at most waits, so it is all that waits.
#[tactic(auto, using(crate::proofs::Pieces::piece_is_next))]
fn is_piece_due(past: &Ledger, place: Place, bytes: &[u8]) -> bool
    requires one { OnePieceWaits past.now.config past.now.acts }
    requires kept { keeps_borders past.now.config (way_to place.side) ≡ true }
    requires offered { may_offer past.now.config past.now.acts place ≡ true }
    requires some { 1 ≤ length bytes.now }
    requires due { begins (put past.now.acts place ++ bytes.now) (due past.now.config (way_to place.side)
        (got past.now.acts (input past.now.config place.session (way_to place.side)))) ≡ true }
    ensures { result
        ≡ begins_pieces (sent past.now.acts place ++ bytes.now ∷ []) (due_pieces past.now.config past.now.acts
        place.session (way_to place.side)) }
{
    let waiting = backlog(past, place.session, way_to(place.side));
    waiting == bytes.len()
}

fn may_put(past: &Ledger, place: Place, bytes: &[u8]) -> bool
    requires few { admitted past.now.config past.now.acts < 2 ^ 32 }
    requires written { WrittenStands past.now.config past.now.acts }
    requires one { OnePieceWaits past.now.config past.now.acts }
    ensures { result ≡ may_put past.now.config past.now.acts place bytes.now }
{
    let config = past.facts().config();
    if !may_offer(past, place) || bytes.len() < 1 {
        return false;
    }
    if !is_due_next(past, place, bytes) {
        return false;
    }
    if !keeps_borders(config, way_to(place.side)) {
        return true;
    }
    is_piece_due(past, place, bytes)
}

/// Whether the end of a direction may be passed on at the place.
fn may_pass(past: &Ledger, place: Place) -> bool
    requires { admitted past.now.config past.now.acts < 2 ^ 32 }
    ensures { result
        ≡ (same_place place (output past.now.config place.session (way_to place.side))
        && is_going past.now.config past.now.acts place.session (way_to place.side)
        && is_spent past.now.config past.now.acts place.session (way_to place.side)
        && not (passed past.now.config past.now.acts place.session (way_to place.side))) }
{
    let session = place.session;
    let way = way_to(place.side);
    place.is(output(past.facts().config(), session, way))
        && is_going(past, session, way, is_running(past.facts(), session))
        && is_spent(past, session, way)
        && !has_passed(past.facts(), session, way)
}

fn may_shut(past: &Ledger, place: Place, shut: Shut) -> bool
    requires { admitted past.now.config past.now.acts < 2 ^ 32 }
    ensures { result ≡ may_shut past.now.config past.now.acts place shut }
{
    may_pass(past, place) && same_shut(shut, how(past.facts().config(), place))
}

// ---- closings

/// Why the program door of `fork` has to end.
fn door_ends(past: &Ledger, why: Why) -> bool
    ensures { result ≡ door_ends past.now.acts why }
{
    match why {
        Why::Memory => memory_said(past.facts()),
        Why::Stopped => stop_said(past.facts()),
        Why::AcceptFailed => accept_failed(past.facts(), program_door()),
        _ => false,
    }
}

fn is_cause(cause: Option<Why>, why: Why) -> bool
    ensures { result ≡ is_cause cause why }
{
    match cause {
        None => false,
        Some(one) => same_why(one, why),
    }
}

/// Whether a closing is licensed by itself, but for that of turns that are used up.
fn may_end(past: &Ledger, place: Place, why: Why) -> bool
    requires { admitted past.now.config past.now.acts < 2 ^ 32 }
    ensures { result ≡ may_end past.now.config past.now.acts place why }
{
    let config = past.facts().config();
    let is_door = is_program_door(config, place);
    !is_door && is_cause(cause(past.facts(), place.session), why)
        || closes(call_at(past.facts(), place), place, why)
        || is_door && door_ends(past, why)
        || same_why(why, Why::Memory)
            && (is_door || closed_why(past.facts(), place.session).is_none())
}

/// Whether a closing is licensed.
fn is_licensed(limit: u64, past: &Ledger, place: Place, why: Why) -> bool
    requires { admitted past.now.config past.now.acts < 2 ^ 32 }
    ensures { result
        ≡ (may_end past.now.config past.now.acts place why || same_why why Why.Stopped && turns past.now.acts == limit
        && rests past.now.config past.now.acts) }
{
    if may_end(past, place, why) {
        return true;
    }
    if !same_why(why, Why::Stopped) || turns(past.facts()) as u64 != limit {
        return false;
    }
    rests(past)
}

fn may_close(limit: u64, past: &Ledger, place: Place, why: Why) -> bool
    requires { admitted past.now.config past.now.acts < 2 ^ 32 }
    ensures { result ≡ may_close past.now.config limit past.now.acts place why }
{
    if !is_held(past.facts(), place) {
        return false;
    }
    let licensed = is_licensed(limit, past, place, why);
    licensed && (owes_nothing(past) || same_why(why, Why::Memory))
}

// ---- notes

fn is_dump(
    alloc: Global,
    way: Way,
    style: Dump,
    from: u64,
    bytes: &[u8],
    text: &[u8],
) -> Result<bool, NoMemory>
    requires style { style ≢ Dump.Off }
    requires some { 0 < length bytes.now }
    ensures { IfOk result (λ is. is ≡ same_list (dump_of style way from bytes.now) text.now) }
{
    let dump = dump_text(alloc, way, style, from, bytes)?;
    Ok(same_list(dump.as_slice(), text))
}

/// How many bytes were read at the place before these, which are those of the last act.
#[tactic(auto, using(crate::proofs::Counts::read_before))]
fn count_before(past: &Ledger, place: Place, bytes: &[u8]) -> usize
    ensures { (older : List Act) → past.now.acts ≡ Read place bytes.now ∷ older → result ≡ length (got older place) }
{
    got_length(past.facts(), place).saturating_sub(bytes.len())
}

/// Whether this is the text that is owed.
#[tactic(auto, using(crate::proofs::Counts::count_in_word))]
fn is_owed(alloc: Global, past: &Ledger, text: &[u8]) -> Result<bool, NoMemory>
    requires { reads_some past.now.acts ≡ true }
    ensures { IfOk result (λ is. is ≡ same_text (owed past.now.config past.now.acts) text.now) }
{
    let config = past.facts().config();
    match past.facts().acts() {
        [] => Ok(false),
        [act, ..] => match act {
            Act::Read(place, bytes) => {
                let way = way_from(place.side);
                let bytes = bytes.as_slice();
                let from = count_before(past, *place, bytes) as u64;
                match config.dump {
                    Dump::Off => Ok(false),
                    Dump::Text => is_dump(alloc, way, Dump::Text, from, bytes, text),
                    Dump::Hex => is_dump(alloc, way, Dump::Hex, from, bytes, text),
                    Dump::Mixed => is_dump(alloc, way, Dump::Mixed, from, bytes, text),
                }
            }
            _ => Ok(false),
        },
    }
}

// ---- all acts

fn may_turn(limit: u64, past: &Ledger, until: Option<u64>) -> bool
    requires { admitted past.now.config past.now.acts < 2 ^ 32 }
    ensures { result
        ≡ (nat_lt (turns past.now.acts) limit && rests past.now.config past.now.acts
        && same_number until (until_of past.now.config past.now.acts)) }
{
    if turns(past.facts()) as u64 >= limit {
        return false;
    }
    if !rests(past) {
        return false;
    }
    same_number(until, until_of(past))
}

fn may_reap(past: &Ledger, place: Place) -> bool
    ensures { result
        ≡ (is_program (medium_of past.now.config place) && was_closed past.now.acts place
        && not (was_reaped past.now.acts place)) }
{
    let config = past.facts().config();
    is_program(medium_of(config, place))
        && was_closed(past.facts(), place)
        && !was_reaped(past.facts(), place)
}

/// Whether the act may come after these, while no dump is owed.
fn may_go_on(limit: u64, past: &Ledger, act: &Act) -> bool
    requires few { admitted past.now.config past.now.acts < 2 ^ 32 }
    requires written { WrittenStands past.now.config past.now.acts }
    requires one { OnePieceWaits past.now.config past.now.acts }
    requires free { is_none (owed past.now.config past.now.acts) ≡ true }
    requires kind { awaits_dump act.now ≡ true }
    ensures { result ≡ may_come past.now.config limit past.now.acts act.now }
{
    match act {
        Act::Turn { until, .. } => may_turn(limit, past, *until),
        Act::Opened(place) | Act::OpenLater(place) | Act::OpenFailed(place) => {
            opens(call_at(past.facts(), *place), *place)
        }
        Act::Listening(door) | Act::ListenFailed(door) => {
            listens_to(call_at(past.facts(), *door), *door)
        }
        Act::Accepted(place, _) => accepts_for(call_at(past.facts(), *place), *place),
        Act::NoPeer(door) | Act::AcceptFailed(door) => {
            accepts_at(call_at(past.facts(), *door), *door)
        }
        Act::Read(place, bytes) => may_take(past, *place, bytes.len()),
        Act::ReadEmpty(place)
        | Act::ReadEnd(place)
        | Act::ReadNotYet(place)
        | Act::ReadFault(place) => may_take(past, *place, 1),
        Act::Wrote(place, bytes) => may_put(past, *place, bytes.as_slice()),
        Act::WriteNotYet(place) | Act::WriteFault(place) => { may_try_write(past, *place) }
        Act::Shut(place, way) | Act::ShutFault(place, way) => { may_shut(past, *place, *way) }
        Act::Reaped(place, _) => may_reap(past, *place),
        Act::Closed(_, _) | Act::Note(_) | Act::NoteFault(_) => false,
    }
}

/// Whether the act may come after these.
pub fn may_come(alloc: Global, limit: u64, past: &Ledger, act: &Act) -> Result<bool, NoMemory>
    requires few { admitted past.now.config past.now.acts < 2 ^ 32 }
    requires some { reads_some past.now.acts ≡ true }
    requires written { WrittenStands past.now.config past.now.acts }
    requires one { OnePieceWaits past.now.config past.now.acts }
    ensures { IfOk result (λ may. may ≡ may_come past.now.config limit past.now.acts act.now) }
{
    match act {
        Act::Closed(place, why) => Ok(may_close(limit, past, *place, *why)),
        Act::Note(text) | Act::NoteFault(text) => is_owed(alloc, past, text.as_slice()),
        _ => {
            if owes_nothing(past) {
                Ok(may_go_on(limit, past, act))
            } else {
                Ok(false)
            }
        }
    }
}
