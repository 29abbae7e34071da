// When a wait is in order, and until when.
ghost use Rattle.std.specs.Prelude.{◌≡◌, ◌<◌, ◌^◌, IfOk, is_none};
ghost use Rattle.relay_model.specs.{some_below, least_below, admitted, live, cause, running, owed, goes, is_going, owes_read, owes_write, must_pass};
ghost use Rattle.relay_model.specs.{accepts, presses, way_work, session_work, try_moment, input_moment, timer_moment, session_moment, door_moment};
ghost use Rattle.relay_model.specs.{until_of};

use command_places::{input, is_formed, output};
use history_facts::{
    armed_to_read, armed_to_write, arming_moment, earlier, later, now, read_arming,
};
use relay_model::{Act, Call, Dump, NoMemory, Way, Why};
use session_facts::{
    Ledger, backlog, cause, closing_moment, door_call, has_passed, idle_moment, is_broken,
    is_spent, known_call, live, numbers, over, ready,
};
use std::alloc::Global;

/// Whether no dump is owed: the last act was no read, or none is dumped.
pub fn owes_nothing(past: &Ledger) -> bool
    ensures { result ≡ is_none (owed past.now.config past.now.acts) }
{
    let config = past.facts().config();
    match past.facts().acts() {
        [] => true,
        [act, ..] => match act {
            Act::Read(_, _) => config.dump == Dump::Off,
            _ => true,
        },
    }
}

// ---- work

/// A formed direction that no fault has broken goes.
fn goes(past: &Ledger, session: u32, way: Way) -> bool
    ensures { result ≡ goes past.now.config past.now.acts session way }
{
    let config = past.facts().config();
    is_formed(config, way) && !is_broken(past.facts(), session, way)
}

/// A direction that goes, where it is known whether its session runs.
pub fn is_going(past: &Ledger, session: u32, way: Way, runs: bool) -> bool
    requires { runs ≡ running past.now.config past.now.acts session }
    ensures { result ≡ is_going past.now.config past.now.acts session way }
{
    goes(past, session, way) && runs
}

/// An armed input that may bring more, where nothing waits to be written.
pub fn owes_read(past: &Ledger, session: u32, way: Way, runs: bool) -> bool
    requires { runs ≡ running past.now.config past.now.acts session }
    ensures { result ≡ owes_read past.now.config past.now.acts session way }
{
    let config = past.facts().config();
    let place = input(config, session, way);
    if !is_going(past, session, way, runs) || !armed_to_read(past.facts(), place) {
        return false;
    }
    if over(past, place) {
        return false;
    }
    backlog(past, session, way) == 0
}

/// An armed output for which bytes wait.
pub fn owes_write(past: &Ledger, session: u32, way: Way, runs: bool) -> bool
    requires { runs ≡ running past.now.config past.now.acts session }
    ensures { result ≡ owes_write past.now.config past.now.acts session way }
{
    let config = past.facts().config();
    let place = output(config, session, way);
    if !is_going(past, session, way, runs) || !armed_to_write(past.facts(), place) {
        return false;
    }
    backlog(past, session, way) > 0
}

/// The end is to be passed on.
pub fn must_pass(past: &Ledger, session: u32, way: Way, runs: bool) -> bool
    requires { runs ≡ running past.now.config past.now.acts session }
    ensures { result ≡ must_pass past.now.config past.now.acts session way }
{
    if !is_going(past, session, way, runs) {
        return false;
    }
    if !is_spent(past, session, way) {
        return false;
    }
    !has_passed(past.facts(), session, way)
}

/// An accepting is called for.
pub fn accepts(call: Call) -> bool
    ensures { result ≡ accepts call }
{
    match call {
        Call::Accept { .. } => true,
        _ => false,
    }
}

/// An opening, a settling, a listening or a closing is called for.
pub fn presses(call: Call) -> bool
    ensures { result ≡ presses call }
{
    match call {
        Call::Nothing | Call::TryAt(_) | Call::Accept { .. } => false,
        Call::Open(_) | Call::Settle(_) | Call::Listen(_) | Call::Refuse(_) | Call::Serve(_) => {
            true
        }
    }
}

// ---- until

fn way_work(past: &Ledger, session: u32, way: Way, runs: bool) -> bool
    requires { runs ≡ running past.now.config past.now.acts session }
    ensures { result ≡ way_work past.now.config past.now.acts session way }
{
    if owes_read(past, session, way, runs) {
        return true;
    }
    owes_write(past, session, way, runs)
}

/// Whether the session runs, where it is known whether it lives and why it has to end.
pub fn known_running(past: &Ledger, session: u32, lives: bool, why: Option<Why>) -> bool
    requires lives { lives ≡ live past.now.config past.now.acts session }
    requires why { why ≡ cause past.now.config past.now.acts session }
    ensures { result ≡ running past.now.config past.now.acts session }
{
    lives && ready(past.facts(), session) && why.is_none()
}

/// Armed work is left in the session.
fn session_work(past: &Ledger, session: u32) -> bool
    requires { admitted past.now.config past.now.acts < 2 ^ 32 }
    ensures { result ≡ session_work past.now.config past.now.acts session }
{
    let lives = live(past.facts(), session);
    let why = cause(past.facts(), session);
    let runs = known_running(past, session, lives, why);
    if way_work(past, session, Way::LeftToRight, runs) {
        return true;
    }
    if way_work(past, session, Way::RightToLeft, runs) {
        return true;
    }
    accepts(known_call(past.facts(), session, lives, why))
}

/// The moment of a try that isn't due yet.
fn try_moment(call: Call) -> Option<u64>
    ensures { result ≡ try_moment call }
{
    match call {
        Call::TryAt(m) => Some(m),
        _ => None,
    }
}

/// The moment at which an input that met an end is tried again.
fn input_moment(past: &Ledger, session: u32, way: Way, runs: bool) -> Option<u128>
    requires { runs ≡ running past.now.config past.now.acts session }
    ensures { result ≡ input_moment past.now.config past.now.acts session way }
{
    let config = past.facts().config();
    let place = input(config, session, way);
    if !is_going(past, session, way, runs) {
        return None;
    }
    if over(past, place) {
        return None;
    }
    arming_moment(read_arming(past.facts(), place))
}

fn timer_moment(past: &Ledger, session: u32, runs: bool) -> Option<u64>
    requires { runs ≡ running past.now.config past.now.acts session }
    ensures { result ≡ timer_moment past.now.config past.now.acts session }
{
    if runs {
        let at = now(past.facts());
        earlier(
            later(at, closing_moment(past.facts(), session)),
            later(at, idle_moment(past.facts(), session)),
        )
    } else {
        None
    }
}

fn wide(moment: Option<u64>) -> Option<u128>
    ensures { result ≡ moment }
{
    match moment {
        None => None,
        Some(m) => Some(m as u128),
    }
}

/// The least moment, later than now, at which something of the session falls due.
fn session_moment(past: &Ledger, session: u32) -> Option<u64>
    requires { admitted past.now.config past.now.acts < 2 ^ 32 }
    ensures { result ≡ session_moment past.now.config past.now.acts session }
{
    let at = now(past.facts());
    let lives = live(past.facts(), session);
    let why = cause(past.facts(), session);
    let runs = known_running(past, session, lives, why);
    let timer = timer_moment(past, session, runs);
    let right = later(at, input_moment(past, session, Way::LeftToRight, runs));
    let left = later(at, input_moment(past, session, Way::RightToLeft, runs));
    let wanted = try_moment(known_call(past.facts(), session, lives, why));
    let tried = later(at, wide(wanted));
    earlier(timer, earlier(earlier(right, left), tried))
}

fn door_moment(past: &Ledger) -> Option<u64>
    requires { admitted past.now.config past.now.acts < 2 ^ 32 }
    ensures { result ≡ door_moment past.now.config past.now.acts }
{
    later(now(past.facts()), wide(try_moment(door_call(past.facts()))))
}

#[tactic(auto, using(session_facts::proofs::Below::some_below_more))]
fn some_session_works(past: &Ledger, count: u32) -> bool
    requires { admitted past.now.config past.now.acts < 2 ^ 32 }
    ensures { result ≡ some_below (session_work past.now.config past.now.acts) count }
{
    for session in 0..count {
        if session_work(past, session) {
            return true;
        }
    }
    false
}

#[tactic(auto, using(session_facts::proofs::Below::least_below_more))]
fn least_session_moment(past: &Ledger, count: u32) -> Option<u64>
    requires { admitted past.now.config past.now.acts < 2 ^ 32 }
    ensures { result ≡ least_below (session_moment past.now.config past.now.acts) count }
{
    let mut least = None;
    for session in 0..count {
        least = earlier(session_moment(past, session), least);
    }
    least
}

/// Until when the next wait may last: now where armed work is left, else the least moment ahead.
pub fn until_of(past: &Ledger) -> Option<u64>
    requires { admitted past.now.config past.now.acts < 2 ^ 32 }
    ensures { result ≡ until_of past.now.config past.now.acts }
{
    let count = numbers(past.facts());
    if accepts(door_call(past.facts())) {
        return Some(now(past.facts()));
    }
    if some_session_works(past, count) {
        return Some(now(past.facts()));
    }
    let least = least_session_moment(past, count);
    earlier(door_moment(past), least)
}
