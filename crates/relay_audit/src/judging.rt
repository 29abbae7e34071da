// Whether each act of a journal may come after the acts before it.
ghost use Rattle.std.specs.Prelude.{◌≡◌, ◌<◌, ◌≤◌, ◌*◌, ◌^◌, ◌+◌, length, count_by, drop, IfOk, true};
ghost use Rattle.relay_model.specs.{held, things, admitted, Legal, held_count, first_illegal, may_come};
ghost use Rattle.history_facts.specs.{acts};
ghost use Rattle.relay_audit.specs.Pasts.{reads_some, held_below, WrittenStands, OnePieceWaits};
ghost use Rattle.relay_audit.specs.Judging.{Judges};

use crate::may::may_come;
use command_places::{has_fork, options_of, program_door, things};
use history_facts::is_held;
use relay_laws::{
    admitted_is_bounded, one_test_is_right, packets_are_due, tests_are_right, written_is_due,
};
use relay_model::{Act, Config, Journal, NoMemory, Place};
use session_facts::{Ledger, numbers};
use std::alloc::Global;

/// What is found of a journal.
#[derive(Clone, Copy)]
pub enum Judgement {
    /// Each act may come, and so many places and doors are held after the last.
    Legal { held: u64 },
    /// The first act, counted from 1, that may not come after the acts before it.
    Illegal { act: u64 },
}

// ---- what is held

fn count_held(past: &Ledger, places: &[Place]) -> usize
    ensures count { result ≡ count_by (held past.now.acts) places.now }
{
    places
        .iter()
        .filter(|place| is_held(past.facts(), **place))
        .count()
}

/// How many places and doors the session holds.
fn held_in_session(past: &Ledger, session: u32) -> usize
    ensures count { result ≡ count_by (held past.now.acts) (things past.now.config session) }
    ensures few { result ≤ 8 }
{
    let config = past.facts().config();
    count_held(past, things(config, session).as_slice())
}

#[tactic(auto, using(crate::proofs::Holding::held_below_more))]
fn held_in_sessions(past: &Ledger, count: u32) -> u64
    ensures count { result ≡ held_below past.now.config past.now.acts count }
    ensures few { result ≤ 8 * count }
{
    let mut total: u64 = 0;
    for session in 0..count {
        total += held_in_session(past, session) as u64;
    }
    total
}

/// How many places and doors are held; those that are still settling count.
#[tactic(auto, using(crate::proofs::Holding::held_count_is))]
pub fn held_count(past: &Ledger) -> u64
    requires { admitted past.now.config past.now.acts < 2 ^ 32 }
    ensures { result ≡ held_count past.now.config past.now.acts }
{
    let config = past.facts().config();
    let next = numbers(past.facts());
    let begun = held_in_sessions(past, next);
    let coming = held_in_session(past, next) as u64;
    let door = if has_fork(config) && is_held(past.facts(), program_door()) {
        1
    } else {
        0
    };
    coming + begun + door
}

// ---- each act

/// A legal history has no more sessions than numbers for them and no read of nothing, what was written begins what is
/// due, and where borders are kept one piece at most waits.
fn what_is_legal(limit: u64, past: &Ledger)
    requires { Legal past.now.config limit past.now.acts }
    ensures few { admitted past.now.config past.now.acts < 2 ^ 32 }
    ensures some { reads_some past.now.acts ≡ true }
    ensures written { WrittenStands past.now.config past.now.acts }
    ensures one { OnePieceWaits past.now.config past.now.acts }
{
    admitted_is_bounded();
    packets_are_due();
    written_is_due();
    let options = options_of(past.facts().config(), program_door());
    let _most = options.sessions.stop_after;
    let _last = past.facts().acts().len();
}

fn newest_first<'a>(alloc: Global, journal: &'a Journal) -> Result<Vec<&'a Act>, NoMemory>
    ensures { IfOk result (λ past. acts past.items ≡ journal.now.acts) }
{
    let mut past = Vec::new(alloc);
    let mut k = journal.len();
    while k > 0 {
        k -= 1;
        past.push(journal.get(k))?;
    }
    Ok(past)
}

/// Whether the act may come after a legal history.
fn may_follow(alloc: Global, limit: u64, past: &Ledger, act: &Act) -> Result<bool, NoMemory>
    requires { first_illegal past.now.config limit past.now.acts ≡ 0 }
    ensures { IfOk result (λ may. may ≡ may_come past.now.config limit past.now.acts act.now) }
{
    tests_are_right();
    what_is_legal(limit, past);
    may_come(alloc, limit, past, act)
}

fn judge_acts<'a>(
    alloc: Global,
    config: &'a Config,
    all: &'a [&'a Act],
    limit: u64,
) -> Result<Judgement, NoMemory>
    ensures { IfOk result (Judges config.now limit (acts all.now)) }
{
    tests_are_right();
    one_test_is_right();
    let mut past = Ledger::new(alloc, config);
    let mut k = all.len();
    while k > 0 {
        k -= 1;
        let act: &Act = all[k];
        if !may_follow(alloc, limit, &past, act)? {
            return Ok(Judgement::Illegal {
                act: (all.len() - k) as u64,
            });
        }
        past = past.with(alloc, act, &all[k..])?;
    }
    what_is_legal(limit, &past);
    Ok(Judgement::Legal {
        held: held_count(&past),
    })
}

/// Whether the journal is a legal history of this command, in a run of so many turns at most. The acts of the
/// journal are judged one by one, by answers that are kept up with each act.
pub fn judge(
    alloc: Global,
    config: &Config,
    journal: &Journal,
    turns: u64,
) -> Result<Judgement, NoMemory>
    ensures { IfOk result (Judges config.now turns journal.now.acts) }
{
    let past = newest_first(alloc, journal)?;
    judge_acts(alloc, config, past.as_slice(), turns)
}
