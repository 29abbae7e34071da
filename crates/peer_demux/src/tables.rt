// The rows of all senders.
ghost use Rattle.std.specs.Prelude.{◌≡◌, ◌≢◌, ℕ, ◌<◌, ◌≤◌, ◌↔◌, ◌+◌, nat_lt, length, false, IfSome, IfNone, IsTrue, OnOk, OnErr};
ghost use Rattle.std.specs.VecDeque.{deque_len, deque_capacity};
ghost use Rattle.relay_model.specs.{longest_packet, Peer};
ghost use Rattle.peer_demux.specs.declared.answers.Mode.TheVariants as modes;
ghost use Rattle.peer_demux.specs.declared.answers.Put.TheVariants as puts;
ghost use Rattle.peer_demux.specs.Tables.{fresh_table, HasNew, IsTrimmed, row_at, IsLive, IsRising, IsUnknown, GivesOne, IsPut, IsNext, IsTaken, IsDropped, IsNextCall, RowStands, nothing_of, risen, with_call, with_packet};
ghost use Rattle.peer_demux.specs.Rows.{is_full};

use crate::answers::{Lost, Mode, Put, Taken};
use crate::rows::SenderRow;
use crate::senders::Senders;
use relay_model::{NoMemory, Peer};
use std::alloc::Global;
use std::collections::VecDeque;
use std::marker::Model;

/// How many rows are live at most.
const MOST_ROWS: usize = 4_096;

/// The packets of one socket, in rows by their senders, or each in a row by itself. Rows are numbered from 0 in the
/// order in which they were made, and no number is used again.
#[derive(Drop)]
pub struct Demux {
    alloc: Global,
    mode: Mode,
    rows: Vec<SenderRow>,
    senders: Senders,
    calling: VecDeque<u32>,
    made: u32,
    handed: u32,
    lost: u64,
}

impl Model for Demux {
    ghost use Rattle.peer_demux.specs.Tables.{TableState, IsRowTable};

    ghost Value = { TableState };

    ghost view = { λ table. record { mode = table.mode; rows = table.rows.items; calling = table.calling.items; made = table.made; handed = table.handed; lost = table.lost } };

    ghost invariant = { λ table. IsRowTable table.rows.items table.made };
}

impl Demux {
    /// No rows; takes no memory.
    pub fn new(alloc: Global, mode: Mode) -> Demux
        ensures { result ≡ fresh_table mode }
    {
        Demux {
            alloc,
            mode,
            rows: Vec::new(alloc),
            senders: Senders::new(alloc),
            calling: VecDeque::new(alloc),
            made: 0,
            handed: 0,
            lost: 0,
        }
    }

    /// Holds the packet in the row of its sender, or in a new one. A row holds at most 64 packets and 65,536 bytes, and
    /// at most 4,096 rows are live. A packet that can't be held is dropped and counted, and nothing else changes.
    pub fn packet(&mut self, from: Peer, bytes: &[u8]) -> Put
        requires { length bytes.now ≤ longest_packet }
        ensures put { IsPut self.old self.new from bytes.now result }
        ensures lives { (row : ℕ) → IsLive self.old.rows row → IsLive self.new.rows row }
    {
        match self.place_of_sender(from) {
            Some(place) => self.queue(place, bytes),
            None => self.open(from, bytes),
        }
    }

    /// Hands out the first live row that wasn't handed out before. None exactly where there is none.
    pub fn next_new(&mut self) -> Option<(u32, Peer)>
        ensures { IsNext self.old self.new result }
    {
        let place = place_of(&self.rows, self.handed);
        if place == self.rows.len() {
            return None;
        }
        let row = &self.rows[place];
        let (number, peer) = (row.number(), row.peer());
        self.handed = number + 1;
        Some((number, peer))
    }

    /// Whether the row of this number is live.
    pub fn is_live(&self, row: u32) -> bool
        ensures { IsTrue result ↔ IsLive self.now.rows row }
    {
        let place = place_of(&self.rows, row);
        place < self.rows.len() && self.rows[place].number() == row
    }

    /// Whether the live row holds a packet.
    pub fn has_packets(&self, row: u32) -> bool
        requires { IsLive self.now.rows row }
        ensures { (place : ℕ) × RowStands self.now.rows row place × (IsTrue result ↔ (0 < length (row_at self.now.rows place).packets)) }
    {
        self.rows[place_of(&self.rows, row)].has_packets()
    }

    /// The sender of the live row.
    pub fn peer(&self, row: u32) -> Peer
        requires { IsLive self.now.rows row }
        ensures { (place : ℕ) × RowStands self.now.rows row place × (result ≡ (row_at self.now.rows place).peer) }
    {
        self.rows[place_of(&self.rows, row)].peer()
    }

    /// Gives the first packet of the live row, in parts where it is longer than `into`. `NotYet` comes exactly where a
    /// row by peer holds none, `End` exactly where a row by packet was given whole.
    pub fn take(&mut self, row: u32, into: &mut [u8]) -> Taken
        requires live { IsLive self.old.rows row }
        requires room { 0 < length into.old }
        ensures { IsTaken self.old self.new row into.new result }
    {
        let place = place_of(&self.rows, row);
        let mode = self.mode;
        let Some(count) = self.give_at(place, into) else {
            return nothing_of(mode);
        };
        if count == 0 {
            return Taken::Empty;
        }
        Taken::Bytes(count)
    }

    /// Lets the live row go with what it holds.
    pub fn drop_row(&mut self, row: u32)
        requires { IsLive self.old.rows row }
        ensures { IsDropped self.old self.new row }
    {
        let place = place_of(&self.rows, row);
        self.senders.forget(self.rows[place].peer());
        self.rows.remove(place);
    }

    /// Whether a live row wasn't handed out.
    pub fn has_new(&self) -> bool
        ensures { HasNew self.now result }
    {
        place_of(&self.rows, self.handed) < self.rows.len()
    }

    /// Lets the rows go that weren't handed out.
    pub fn drop_new(&mut self)
        ensures { IsTrimmed self.old self.new }
    {
        let count = place_of(&self.rows, self.handed);
        self.rows.truncate(count);
    }

    /// Takes out the row that calls longest: a packet came while it held none, and it wasn't taken out since. It may be
    /// live no more.
    pub fn next_call(&mut self) -> Option<u32>
        ensures { IsNextCall self.old self.new result }
    {
        self.calling.pop_front()
    }

    /// Whether a row calls.
    pub fn has_call(&self) -> bool
        ensures { result ≡ nat_lt 0 (length self.now.calling) }
    {
        !self.calling.is_empty()
    }

    /// How many packets were dropped. The count stays at its last value.
    pub fn lost(&self) -> u64
        ensures { result ≡ self.now.lost }
    {
        self.lost
    }

    /// Where the row of the sender stands. In a table that doesn't sort by senders no row is looked for.
    fn place_of_sender(&self, from: Peer) -> Option<usize>
        ensures found { IfSome result
            (λ place. (self.now.mode ≡ modes.ByPeer) × (place < length self.now.rows)
            × ((row_at self.now.rows place).peer ≡ from)) }
        ensures none { IfNone result (IsUnknown self.now from) }
    {
        match self.mode {
            Mode::ByPeer => match self.noted_place(from) {
                Some(place) => Some(place),
                None => place_of_peer(&self.rows, from),
            },
            Mode::ByPacket => None,
        }
    }

    /// Where the row stands that was noted for the sender, if it is that sender's.
    fn noted_place(&self, from: Peer) -> Option<usize>
        ensures found { IfSome result (λ place. (place < length self.now.rows) × ((row_at self.now.rows place).peer ≡ from)) }
    {
        let place = place_of(&self.rows, self.senders.number(from)?);
        if place < self.rows.len() && self.rows[place].peer() == from {
            Some(place)
        } else {
            None
        }
    }

    /// Puts the packet into the row of its sender.
    fn queue(&mut self, place: usize, bytes: &[u8]) -> Put
        requires by_peer { self.old.mode ≡ modes.ByPeer }
        requires within { place < length self.old.rows }
        ensures { IsPut self.old self.new (row_at self.old.rows place).peer bytes.now result }
    {
        let number = self.rows[place].number();
        if self.rows[place].is_full(bytes.len()) {
            return self.lose(Lost::RowFull { row: number });
        }
        match self.append(place, bytes) {
            Ok(()) => Put::Queued { row: number },
            Err(NoMemory) => self.lose(Lost::Memory),
        }
    }

    /// Appends the packet to the row at this place, which calls where it held none. Without memory nothing changes.
    fn append(&mut self, place: usize, bytes: &[u8]) -> Result<(), NoMemory>
        requires within { place < length self.old.rows }
        requires room { is_full (row_at self.old.rows place) (length bytes.now) ≡ false }
        ensures ok { OnOk result (self.new ≡ with_packet self.old place bytes.now) }
        ensures err { OnErr result (self.new ≡ self.old) }
    {
        self.calling.reserve(1)?;
        let row = &mut self.rows[place];
        let (number, silent) = (row.number(), !row.has_packets());
        row.append(self.alloc, bytes)?;
        call(&mut self.calling, number, silent);
        Ok(())
    }

    /// Makes a row of the packet.
    fn open(&mut self, from: Peer, bytes: &[u8]) -> Put
        requires { IsUnknown self.old from }
        ensures { IsPut self.old self.new from bytes.now result }
    {
        if self.rows.len() >= MOST_ROWS {
            return self.lose(Lost::Rows);
        }
        if self.made == u32::MAX {
            return self.lose(Lost::Numbers);
        }
        let number = self.made;
        let Ok(row) = SenderRow::new(self.alloc, number, from, bytes) else {
            return self.lose(Lost::Memory);
        };
        if self.rows.push(row).is_err() {
            return self.lose(Lost::Memory);
        }
        note_sender(&mut self.senders, self.mode, from, number);
        self.made += 1;
        Put::New { row: number }
    }

    /// Gives what fits of the first packet of the row at this place. None exactly where it holds none.
    fn give_at(&mut self, place: usize, into: &mut [u8]) -> Option<usize>
        requires within { place < length self.old.rows }
        requires room { 0 < length into.old }
        ensures { GivesOne self.old self.new into.new place result }
    {
        self.rows[place].give(into)
    }

    /// Counts a packet that is dropped.
    fn lose(&mut self, why: Lost) -> Put
        ensures answer { result ≡ puts.Dropped why }
        ensures counted { self.new ≡ record self.old { lost = risen self.old.lost } }
    {
        self.lost = self.lost.saturating_add(1);
        Put::Dropped { why }
    }
}

/// Notes the number of the sender's row, in a table that sorts by senders.
fn note_sender(senders: &mut Senders, mode: Mode, from: Peer, number: u32) {
    match mode {
        Mode::ByPeer => senders.note(from, number),
        Mode::ByPacket => {}
    }
}

/// Has the row of this number call, once, if it held no packet.
fn call(calling: &mut VecDeque<u32>, number: u32, silent: bool)
    requires { deque_len calling.old < deque_capacity calling.old }
    ensures { calling.new.items ≡ with_call calling.old.items number silent }
{
    if silent && !calling.contains(&number) {
        calling.push_back_reserved(number);
    }
}

/// What a row without packets answers.
fn nothing_of(mode: Mode) -> Taken
    ensures { result ≡ nothing_of mode }
{
    match mode {
        Mode::ByPeer => Taken::NotYet,
        Mode::ByPacket => Taken::End,
    }
}

/// How many rows have numbers below this one.
fn place_of(rows: &[SenderRow], number: u32) -> usize
    requires { IsRising rows.now }
    ensures bound { result ≤ length rows.now }
    ensures below { (i : ℕ) → i < result → (row_at rows.now i).number < number }
    ensures above { (i : ℕ) → result ≤ i → i < length rows.now → number ≤ (row_at rows.now i).number }
{
    let mut low = 0;
    let mut high = rows.len();
    while low < high {
        let middle = low + (high - low) / 2;
        if rows[middle].number() < number {
            low = middle + 1;
        } else {
            high = middle;
        }
    }
    low
}

/// Where the row of this sender stands.
fn place_of_peer(rows: &[SenderRow], peer: Peer) -> Option<usize>
    ensures found { IfSome result (λ place. (place < length rows.now) × ((row_at rows.now place).peer ≡ peer)) }
    ensures none { IfNone result ((i : ℕ) → i < length rows.now → (row_at rows.now i).peer ≢ peer) }
{
    for place in 0..rows.len() {
        if rows[place].peer() == peer {
            return Some(place);
        }
    }
    None
}
