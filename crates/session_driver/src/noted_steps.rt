// The next step of a session whose reads are dumped: the text of what was read is noted before anything else. Where there
// is no memory for that, a closing for want of memory is the one act that may come instead.
ghost use Rattle.std.specs.Prelude.{◌≡◌, ◌≢◌, ◌<◌, ◌≤◌, length, vec_len};
ghost use Rattle.session_driver.specs.Steps.{WishesRead};
ghost use Rattle.session_driver.specs.Dumpers.{Counts};
ghost use Rattle.session_driver.specs.Noted.{MeetsUnowed, NotedStep, NoteIs};
ghost use Rattle.session_driver.specs.Owing.{ClosesShort, IsShort, OwingStep};

use crate::calls::{close, fetch};
use crate::dumpers::Dumper;
use crate::stepped::{Fetched, Stepped};
use crate::steps::{any_step, step};
use relay_model::{Config, Dump, Place, Why};
use relay_session::{Session, Wish};
use world_trait::{NoteAnswer, World};

/// Makes the next call that the session wishes for, and has it hear the answer. What was read is noted at once where the
/// command dumps it; where there is no memory for that, the session is cut and closes its first thing.
pub fn step_noted<W: World>(
    session: &mut Session,
    world: &mut W,
    config: &Config,
    scratch: &mut Vec<u8>,
    dumper: &mut Dumper,
) -> Stepped
    requires block { config.now.block ≤ vec_len scratch.old }
    requires meets { MeetsUnowed config.now (W.seen world.old) session.old }
    ensures step { NotedStep config.now (W.seen world.old) (W.seen world.new) session.old session.new dumper.old dumper.new result }
    ensures scratch { vec_len scratch.new ≡ vec_len scratch.old }
{
    match config.dump {
        Dump::Off => step(session, world, config, scratch),
        _ => step_or_close(session, world, config, scratch, dumper),
    }
}

/// The same where the command dumps what it reads.
fn step_or_close<W: World>(
    session: &mut Session,
    world: &mut W,
    config: &Config,
    scratch: &mut Vec<u8>,
    dumper: &mut Dumper,
) -> Stepped
    requires dumped { config.now.dump ≢ Dump.Off }
    requires block { config.now.block ≤ vec_len scratch.old }
    requires meets { MeetsUnowed config.now (W.seen world.old) session.old }
    ensures step { NotedStep config.now (W.seen world.old) (W.seen world.new) session.old session.new dumper.old dumper.new result }
    ensures scratch { vec_len scratch.new ≡ vec_len scratch.old }
{
    match step_dumped(session, world, config, scratch, dumper) {
        Some(stepped) => stepped,
        None => {
            close_first(session, world, config);
            Stepped::Memory
        }
    }
}

/// Makes the next call that the session wishes for, and has it hear the answer. What was read is noted at once where the
/// command dumps it. `None` where there is no memory for that: the session is cut, and is to close something that it
/// holds before anything else is done.
pub fn step_owing<W: World>(
    session: &mut Session,
    world: &mut W,
    config: &Config,
    scratch: &mut Vec<u8>,
    dumper: &mut Dumper,
) -> Option<Stepped>
    requires block { config.now.block ≤ vec_len scratch.old }
    requires meets { MeetsUnowed config.now (W.seen world.old) session.old }
    ensures step { OwingStep config.now (W.seen world.old) (W.seen world.new) session.old session.new dumper.old dumper.new result }
    ensures scratch { vec_len scratch.new ≡ vec_len scratch.old }
{
    match config.dump {
        Dump::Off => Some(step(session, world, config, scratch)),
        _ => step_dumped(session, world, config, scratch, dumper),
    }
}

/// The same where the command dumps what it reads.
fn step_dumped<W: World>(
    session: &mut Session,
    world: &mut W,
    config: &Config,
    scratch: &mut Vec<u8>,
    dumper: &mut Dumper,
) -> Option<Stepped>
    requires dumped { config.now.dump ≢ Dump.Off }
    requires block { config.now.block ≤ vec_len scratch.old }
    requires meets { MeetsUnowed config.now (W.seen world.old) session.old }
    ensures step { OwingStep config.now (W.seen world.old) (W.seen world.new) session.old session.new dumper.old dumper.new result }
    ensures scratch { vec_len scratch.new ≡ vec_len scratch.old }
{
    match session.wish() {
        Wish::Read { place, at_most } => {
            let into = &mut scratch.as_mut_slice()[..at_most];
            read_noted(session, world, config, into, dumper, place, at_most)
        }
        _ => Some(any_step(session, world, config, scratch)),
    }
}

/// Asks for so many bytes, and notes those that come.
fn read_noted<W: World>(
    session: &mut Session,
    world: &mut W,
    config: &Config,
    into: &mut [u8],
    dumper: &mut Dumper,
    place: Place,
    at_most: usize,
) -> Option<Stepped>
    requires dumped { config.now.dump ≢ Dump.Off }
    requires reads { WishesRead config.now (W.seen world.old) session.old place at_most }
    requires some { 0 < length into.old }
    requires wished { length into.old ≡ at_most }
    requires meets { MeetsUnowed config.now (W.seen world.old) session.old }
    ensures step { OwingStep config.now (W.seen world.old) (W.seen world.new) session.old session.new dumper.old dumper.new result }
    ensures scratch { length into.new ≡ length into.old }
{
    match fetch(session, world, config, into, place, at_most) {
        Fetched::Bytes(count) => {
            if note(world, config, dumper, place, &into[..count]) {
                Some(Stepped::Acted)
            } else {
                session.cut(Why::Memory);
                None
            }
        }
        Fetched::Other(stepped) => Some(stepped),
    }
}

/// Notes the dump of bytes that were just read, and says whether there was memory for it. A note that can't be written
/// ends nothing.
fn note<W: World>(
    world: &mut W,
    config: &Config,
    dumper: &mut Dumper,
    place: Place,
    bytes: &[u8],
) -> bool
    requires dumped { config.now.dump ≢ Dump.Off }
    requires some { 0 < length bytes.now }
    ensures note { NoteIs config.now (W.seen world.old) (W.seen world.new) dumper.old place bytes.now result }
    ensures counts { Counts place.side (length bytes.now) dumper.old dumper.new }
{
    if dumper.dump(config, place, bytes).is_err() {
        return false;
    }
    match world.note(dumper.text()) {
        NoteAnswer::Noted => true,
        NoteAnswer::Failed => true,
        NoteAnswer::Memory => false,
    }
}

/// Closes the first thing that a session holds which was cut for want of memory.
fn close_first<W: World>(session: &mut Session, world: &mut W, config: &Config)
    requires { IsShort (W.seen world.old) session.old }
    ensures { ClosesShort config.now (W.seen world.old) (W.seen world.new) session.old session.new }
{
    match session.wish() {
        Wish::Close(thing, why) => {
            close(session, world, config, thing, why);
        }
        _ => unreachable!(),
    }
}
