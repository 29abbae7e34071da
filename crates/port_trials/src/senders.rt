// Packets of one socket by their senders, and a socket in memory with its rows.
ghost use Rattle.std.specs.Prelude.{◌≤◌, IfOk, length};
ghost use Rattle.relay_model.specs.{longest_packet};
ghost use Rattle.peer_demux.specs.{IsFit};

use case_rows::{Answered, Answers, CaseFault, Inputs, bytes_of, step_parts};
use peer_demux::{Demux, Hub, Link, LinkItem, Lost, MemLink, Mode, Put, RowPeer, Taken};
use port_trait::{Got, Took};
use relay_model::{Bytes, LONGEST_PACKET, Peer};
use std::alloc::Global;

/// The most bytes that a row takes at once.
const MOST: usize = 65_536;

/// A table: its mode, and the calls.
pub(crate) fn ask_table(alloc: Global, inputs: &mut Inputs<'_>, answers: &mut Answers) -> Answered {
    let mut table = Demux::new(alloc, mode_of(inputs)?);
    for _ in 0..u64::MAX {
        let Some(step) = inputs.step() else {
            break;
        };
        call_table(alloc, &mut table, step, answers)?;
    }
    Ok(())
}

/// A hub over a socket in memory: its mode, the items of the socket up to `calls`, and the calls.
pub(crate) fn ask_hub(alloc: Global, inputs: &mut Inputs<'_>, answers: &mut Answers) -> Answered {
    let mode = mode_of(inputs)?;
    let mut link = MemLink::new(alloc);
    add_items(alloc, &mut link, inputs)?;
    call_link(alloc, link, mode, inputs, answers)
}

/// Makes the calls on a hub over this socket.
fn call_link<L: Link>(
    alloc: Global,
    link: L,
    mode: Mode,
    inputs: &mut Inputs<'_>,
    answers: &mut Answers,
) -> Answered {
    let mut hub = Hub::new(alloc, link, mode)?;
    for _ in 0..u64::MAX {
        let Some(step) = inputs.step() else {
            break;
        };
        call_hub(alloc, &mut hub, step, answers)?;
    }
    Ok(())
}

fn mode_of(inputs: &mut Inputs<'_>) -> Result<Mode, CaseFault> {
    match inputs.word()? {
        "by-peer" => Ok(Mode::ByPeer),
        "by-packet" => Ok(Mode::ByPacket),
        _ => Err(CaseFault::NoRow),
    }
}

fn add_items(alloc: Global, link: &mut MemLink, inputs: &mut Inputs<'_>) -> Answered {
    for _ in 0..u64::MAX {
        let word = inputs.word()?;
        if word == "calls" {
            return Ok(());
        }
        link.add(item_of(alloc, word)?)?;
    }
    Err(CaseFault::NoRow)
}

fn item_of(alloc: Global, word: &str) -> Result<LinkItem, CaseFault>
    ensures { IfOk result IsFit }
{
    match step_parts(word) {
        ("packet", value) => {
            let (peer, bytes) = packet_of(alloc, value)?;
            Ok(LinkItem::Packet(peer, Bytes::of(alloc, bytes.as_slice())?))
        }
        ("not-yet", _) => Ok(LinkItem::NotYet),
        ("fault", _) => Ok(LinkItem::Fault),
        _ => Err(CaseFault::NoRow),
    }
}

/// A peer and the bytes of a packet: PEER:BYTES.
fn packet_of(alloc: Global, value: &str) -> Result<(Peer, Vec<u8>), CaseFault>
    ensures { IfOk result (λ packet. length packet.1.items ≤ longest_packet) }
{
    let (peer, bytes) = step_parts(value);
    let peer = peer_of(peer)?;
    let bytes = bytes_of(alloc, bytes)?;
    if bytes.len() > usize::from(LONGEST_PACKET) {
        return Err(CaseFault::NoRow);
    }
    Ok((peer, bytes))
}

/// The peer of a letter.
fn peer_of(letter: &str) -> Result<Peer, CaseFault> {
    match letter.as_bytes() {
        [letter] => Ok(Peer::V4 {
            addr: [127, 0, 0, *letter],
            port: 9,
        }),
        _ => Err(CaseFault::NoRow),
    }
}

fn call_table(alloc: Global, table: &mut Demux, step: &str, answers: &mut Answers) -> Answered {
    match step_parts(step) {
        ("packet", value) => {
            let (peer, bytes) = packet_of(alloc, value)?;
            say_put(table.packet(peer, bytes.as_slice()), answers);
        }
        ("packets", value) => {
            let (count, value) = step_parts(value);
            let (peer, bytes) = packet_of(alloc, value)?;
            let queued = queue_all(table, peer, bytes.as_slice(), count.parse::<u64>()?);
            answers.number(queued);
        }
        ("next", _) => match table.next_new() {
            Some((row, peer)) => say_peer(row, peer, answers),
            None => answers.word("none"),
        },
        ("take", value) => take_row(alloc, table, value, answers)?,
        ("drop", value) => drop_of_table(table, value.parse::<u32>()?, answers),
        ("call", _) => say_call(table.next_call(), answers),
        ("lost", _) => answers.number(table.lost()),
        _ => return Err(CaseFault::NoRow),
    }
    Ok(())
}

fn drop_of_table(table: &mut Demux, row: u32, answers: &mut Answers) {
    if table.is_live(row) {
        table.drop_row(row);
        answers.word("dropped");
    } else {
        answers.word("gone");
    }
}

/// Puts the packet so often, and answers how often it was queued.
fn queue_all(table: &mut Demux, peer: Peer, bytes: &[u8], count: u64) -> u64
    requires { length bytes.now ≤ longest_packet }
{
    let mut queued: u64 = 0;
    for _ in 0..count {
        if let Put::Queued { .. } = table.packet(peer, bytes) {
            queued = queued.saturating_add(1);
        }
    }
    queued
}

fn take_row(alloc: Global, table: &mut Demux, value: &str, answers: &mut Answers) -> Answered {
    let (row, mut room) = row_and_room(alloc, value)?;
    if room.is_empty() || !table.is_live(row) {
        answers.word("gone");
        return Ok(());
    }
    match table.take(row, &mut room) {
        Taken::Bytes(count) => say_front(&room, count, answers),
        Taken::Empty => answers.word("empty"),
        Taken::NotYet => answers.word("not-yet"),
        Taken::End => answers.word("end"),
    }
    Ok(())
}

/// A row, and room for so many bytes: ROW:COUNT.
fn row_and_room(alloc: Global, value: &str) -> Result<(u32, Vec<u8>), CaseFault> {
    let (row, count) = step_parts(value);
    let row = row.parse::<u32>()?;
    let count = count.parse::<usize>()?;
    if count > MOST {
        return Err(CaseFault::NoRow);
    }
    Ok((row, vec![in alloc; 0u8; count]?))
}

fn call_hub<L: Link>(
    alloc: Global,
    hub: &mut Hub<L>,
    step: &str,
    answers: &mut Answers,
) -> Answered {
    match step_parts(step) {
        ("accept", _) => match hub.accept_row() {
            RowPeer::New { row, from } => say_peer(row, from, answers),
            RowPeer::NoPeer => answers.word("nobody"),
            RowPeer::Failed => answers.word("failed"),
        },
        ("read", value) => read_row(alloc, hub, value, answers)?,
        ("send", value) => send_row(alloc, hub, value, answers)?,
        ("drop", value) => drop_row(hub, value.parse::<u32>()?, answers),
        ("drop-new", _) => {
            hub.drop_new();
            answers.word("dropped");
        }
        ("new", _) => answers.truth(hub.has_new()),
        ("more", _) => answers.truth(hub.has_left_off()),
        ("call", _) => say_call(hub.next_call(), answers),
        ("lost", _) => answers.number(hub.lost()),
        _ => return Err(CaseFault::NoRow),
    }
    Ok(())
}

/// Sends the bytes to the row's sender: ROW:BYTES.
fn send_row<L: Link>(
    alloc: Global,
    hub: &mut Hub<L>,
    value: &str,
    answers: &mut Answers,
) -> Answered {
    let (row, bytes) = step_parts(value);
    let row = row.parse::<u32>()?;
    let bytes = bytes_of(alloc, bytes)?;
    if bytes.len() > usize::from(LONGEST_PACKET) || !hub.is_live(row) {
        answers.word("gone");
    } else {
        say_took(hub.send_row(row, bytes.as_slice()), answers);
    }
    Ok(())
}

fn drop_row<L: Link>(hub: &mut Hub<L>, row: u32, answers: &mut Answers) {
    if hub.is_live(row) {
        hub.drop_row(row);
        answers.word("dropped");
    } else {
        answers.word("gone");
    }
}

fn read_row<L: Link>(
    alloc: Global,
    hub: &mut Hub<L>,
    value: &str,
    answers: &mut Answers,
) -> Answered {
    let (row, mut room) = row_and_room(alloc, value)?;
    if room.is_empty() || !hub.is_live(row) {
        answers.word("gone");
        return Ok(());
    }
    match hub.read_row(row, &mut room) {
        Got::Bytes(count) => say_front(&room, count, answers),
        Got::Empty => answers.word("empty"),
        Got::End => answers.word("end"),
        Got::NotYet => answers.word("not-yet"),
        Got::Failed => answers.word("failed"),
    }
    Ok(())
}

fn say_put(put: Put, answers: &mut Answers) {
    match put {
        Put::New { row } => answers.word_and_number("new", u64::from(row)),
        Put::Queued { row } => answers.word_and_number("queued", u64::from(row)),
        Put::Dropped { why } => match why {
            Lost::RowFull { row } => answers.word_and_number("full", u64::from(row)),
            Lost::Rows => answers.word("rows"),
            Lost::Numbers => answers.word("numbers"),
            Lost::Memory => answers.word("memory"),
        },
    }
}

fn say_call(row: Option<u32>, answers: &mut Answers) {
    match row {
        Some(row) => answers.number(u64::from(row)),
        None => answers.word("none"),
    }
}

/// A row and the letter of its peer.
fn say_peer(row: u32, peer: Peer, answers: &mut Answers) {
    answers.number(u64::from(row));
    match peer {
        Peer::V4 { addr, .. } => answers.part(&addr[3..]),
        Peer::V6 { .. } | Peer::Local => {}
    }
}

/// The bytes up to this count, which doesn't exceed them.
fn say_front(bytes: &[u8], count: usize, answers: &mut Answers) {
    match bytes.get(..count) {
        Some(front) => answers.bytes(front),
        None => answers.word("too-many"),
    }
}

fn say_took(took: Took, answers: &mut Answers) {
    match took {
        Took::Took(count) => answers.number(count as u64),
        Took::NotYet => answers.word("not-yet"),
        Took::Failed => answers.word("failed"),
    }
}
