// What a direction of a session has read, owes and has written.
ghost use Rattle.std.specs.Prelude.{◌≡◌, ℕ, List, length};
ghost use Rattle.relay_model.specs.{is_used_up, is_over, at_most_left, read_size, packet_cap, packet_size, input, options_of, got, due, over};
ghost use Rattle.relay_model.specs.{backlog, greatest_read, is_spent};

use crate::ledger::Ledger;
use crate::owings::due_number;
use command_places::{input, keeps_borders, options_of, output};
use history_facts::{got_length, met_empty, met_end, put_length};
use relay_model::{Place, Way};

/// What is to be written of all that was read.
pub fn due_after<'l>(past: &'l Ledger, session: u32, way: Way) -> &'l [u8]
    ensures { result.now ≡ due past.now.config way (got past.now.acts (input past.now.config session way)) }
{
    past.owings.due.at(due_number(session, way))
}

// ---- the end of an input

fn is_used_up(readbytes: Option<u64>, count: usize) -> bool
    ensures { (bytes : List ℕ) → count ≡ length bytes → result ≡ is_used_up readbytes bytes }
{
    match readbytes {
        None => false,
        Some(most) => count as u64 >= most,
    }
}

/// Whether the bytes that were read at a place end its input by themselves.
fn ends_by_itself(past: &Ledger, place: Place) -> bool
    ensures { result ≡ is_over (options_of past.now.config place).input.readbytes (options_of past.now.config place).input.escape (got past.now.acts place) }
{
    let facts = past.facts();
    let readbytes = options_of(facts.config(), place).input.readbytes;
    is_used_up(readbytes, got_length(facts, place)) || past.owings.met.at(place)
}

/// Whether the input of a place is over.
pub fn over(past: &Ledger, place: Place) -> bool
    ensures { result ≡ over past.now.config past.now.acts place }
{
    let facts = past.facts();
    let options = options_of(facts.config(), place);
    met_end(facts, place) && !options.input.ignoreeof
        || met_empty(facts, place) && options.input.null_eof
        || ends_by_itself(past, place)
}

// ---- what waits

/// How many bytes are due and not yet written.
pub fn backlog(past: &Ledger, session: u32, way: Way) -> usize
    ensures { result ≡ backlog past.now.config past.now.acts session way }
{
    let facts = past.facts();
    let written = put_length(facts, output(facts.config(), session, way));
    due_after(past, session, way).len().saturating_sub(written)
}

/// Of `n` bytes, as many as may still be read where `count` came so far.
fn at_most_left(readbytes: Option<u64>, count: usize, n: u64) -> u64
    ensures { result ≡ at_most_left readbytes count n }
{
    match readbytes {
        None => n,
        Some(most) => n.min(most.saturating_sub(count as u64)),
    }
}

fn read_size(block: u32, readbytes: Option<u64>, count: usize, backlog: usize) -> u64
    ensures { result ≡ read_size block readbytes count backlog }
{
    let block = block as u64;
    let free = (2 * block).saturating_sub(backlog as u64);
    at_most_left(readbytes, count, block.min(free / 2))
}

fn packet_size(block: u32, cap: u64, readbytes: Option<u64>, count: usize, backlog: usize) -> u64
    ensures { result ≡ packet_size block cap readbytes count backlog }
{
    if backlog == 0 {
        at_most_left(readbytes, count, cap.min(block as u64))
    } else {
        0
    }
}

/// How many bytes the next read asks for at most.
pub fn greatest_read(past: &Ledger, session: u32, way: Way) -> u64
    ensures { result ≡ greatest_read past.now.config past.now.acts session way }
{
    let facts = past.facts();
    let config = facts.config();
    let readbytes = options_of(config, input(config, 0, way)).input.readbytes;
    let count = got_length(facts, input(config, session, way));
    let waiting = backlog(past, session, way);
    if keeps_borders(config, way) {
        let cap = u64::from(options_of(config, output(config, 0, way)).conv.packet_cap());
        packet_size(config.block, cap, readbytes, count, waiting)
    } else {
        read_size(config.block, readbytes, count, waiting)
    }
}

/// Whether the direction has been read to its end and all was written.
pub fn is_spent(past: &Ledger, session: u32, way: Way) -> bool
    ensures { result ≡ is_spent past.now.config past.now.acts session way }
{
    over(past, input(past.facts().config(), session, way)) && backlog(past, session, way) == 0
}
