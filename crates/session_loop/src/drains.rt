// The calls of a session up to its next pause.
ghost use Rattle.std.specs.Prelude.{◌≡◌, ◌<◌, ◌≤◌, vec_len, IfSome, IfNone};
ghost use Rattle.session_loop.specs.Pauses.{PauseIs, pause_of};
ghost use Rattle.session_loop.specs.Runs.{Runs, RunsOn, rank};

use crate::members::Member;
use crate::pauses::{Pause, spreading};
use relay_model::Config;
use session_driver::{Stepped, step_owing};
use world_trait::World;

/// Makes the calls that the session wishes for, up to its next pause, and notes what it reads where the command dumps
/// that. Where there is no memory for a note, it pauses at a closing for want of memory, and the dump stays owed.
pub fn drain<W: World>(
    member: &mut Member,
    world: &mut W,
    config: &Config,
    scratch: &mut Vec<u8>,
) -> Pause
    requires block { config.now.block ≤ vec_len scratch.old }
    requires runs { Runs config.now (W.seen world.old) member.old }
    ensures runs { RunsOn config.now (W.seen world.old) (W.seen world.new) member.old member.new }
    ensures pause { PauseIs member.new.session result }
    ensures scratch { vec_len scratch.new ≡ vec_len scratch.old }
{
    loop {
        if let Some(pause) = go_on(member, world, config, scratch) {
            return pause;
        }
    }
}

/// Makes the next call, unless it pauses.
fn go_on<W: World>(
    member: &mut Member,
    world: &mut W,
    config: &Config,
    scratch: &mut Vec<u8>,
) -> Option<Pause>
    requires block { config.now.block ≤ vec_len scratch.old }
    requires runs { Runs config.now (W.seen world.old) member.old }
    ensures runs { RunsOn config.now (W.seen world.old) (W.seen world.new) member.old member.new }
    ensures pause { IfSome result (PauseIs member.new.session) }
    ensures fewer { IfNone result (rank member.new.session < rank member.old.session) }
    ensures scratch { vec_len scratch.new ≡ vec_len scratch.old }
{
    if let Some(why) = spreading(member.session.wish()) {
        return Some(Pause::Spreads(why));
    }
    match step_owing(
        &mut member.session,
        world,
        config,
        scratch,
        &mut member.dumper,
    ) {
        Some(stepped) => pause_after(stepped),
        None => None,
    }
}

/// The pause that a step came to.
fn pause_after(stepped: Stepped) -> Option<Pause>
    ensures { result ≡ pause_of stepped }
{
    match stepped {
        Stepped::Sleep(until) => Some(Pause::Sleep(until)),
        Stepped::Done(_why) => Some(Pause::Done),
        _ => None,
    }
}
