// One socket for the sessions of many peers.
ghost use Rattle.std.specs.Prelude.{◌≡◌, ◌<◌, ◌≤◌, ◌↔◌, nat_lt, List, ℕ, length, true, false, IfOk, IsTrue, not};
ghost use Rattle.relay_model.specs.{longest_packet};
ghost use Rattle.peer_demux.specs.Hubs.{AcceptsRow, Drains, ReadsRow, TakesPackets, TakesOne, accept_failed, fresh_hub, got_of, read_failed};
ghost use Rattle.peer_demux.specs.Links.{Packet, Sends, has_failed, has_packet, has_stalled, send_failed, send_stalled};
ghost use Rattle.peer_demux.specs.Tables.{HasNew, IsDropped, IsLive, IsNextCall, IsTrimmed, RowStands, TableState, risen_if, row_at};

use crate::answers::{Mode, Taken};
use crate::links::{Link, Received};
use crate::tables::Demux;
use port_trait::{Got, Took};
use relay_model::{LONGEST_PACKET, NoMemory, Peer};
use std::alloc::Global;
use std::marker::Model;

/// How many packets one receiving takes at most.
const MOST_TAKEN: usize = 64;

/// What an accepting came to: a new row with its sender, none, or a fault of the socket.
#[derive(Clone, Copy, PartialEq)]
pub enum RowPeer {
    New { row: u32, from: Peer },
    NoPeer,
    Failed,
}

/// A socket and the rows of its packets. A read and an accepting first take what the socket has for all rows, at most
/// 64 packets.
#[derive(Drop)]
pub struct Hub<L> {
    link: L,
    table: Demux,
    buffer: Vec<u8>,
    left_off: bool,
}

impl<L> Model for Hub<L> {
    ghost use Rattle.std.specs.Prelude.{◌≡◌, vec_len};
    ghost use Rattle.relay_model.specs.{longest_packet};
    ghost use Rattle.peer_demux.specs.Hubs.{HubState};

    ghost Value = { HubState L };

    ghost view = { λ hub. record { link = hub.link; table = hub.table; left_off = hub.left_off } };

    ghost invariant = { λ hub. vec_len hub.buffer ≡ longest_packet };
}

impl<L: Link> Hub<L> {
    /// Nothing was received yet.
    pub fn new(alloc: Global, link: L, mode: Mode) -> Result<Hub<L>, NoMemory>
        ensures { IfOk result (λ hub. hub ≡ fresh_hub link mode) }
    {
        Ok(Hub {
            link,
            table: Demux::new(alloc, mode),
            buffer: vec![in alloc; 0u8; usize::from(LONGEST_PACKET)]?,
            left_off: false,
        })
    }

    /// Takes what the socket has, and then what the live row holds. `Failed` comes exactly where the socket failed.
    pub fn read_row(&mut self, row: u32, into: &mut [u8]) -> Got
        requires live { IsLive self.old.table.rows row }
        requires room { 0 < length into.old }
        ensures taken { (mid : TableState) × (more : List Packet)
            × TakesPackets self.old.table mid (L.gave self.old.link) (L.gave self.new.link) more
            × ReadsRow mid self.new.table row into.new result }
        ensures drained { Drains (read_failed result) self.new.left_off (L.stalls self.old.link) (L.stalls self.new.link)
            (L.packets self.old.link) (L.packets self.new.link) }
        ensures faults { L.faults self.new.link ≡ risen_if (read_failed result) (L.faults self.old.link) }
        ensures sent { L.sent self.new.link ≡ L.sent self.old.link }
    {
        if !self.fill() {
            return Got::Failed;
        }
        self.take_row(row, into)
    }

    /// Takes what the live row holds, and asks no socket.
    pub fn take_row(&mut self, row: u32, into: &mut [u8]) -> Got
        requires live { IsLive self.old.table.rows row }
        requires room { 0 < length into.old }
        ensures taken { ReadsRow self.old.table self.new.table row into.new result }
        ensures well { read_failed result ≡ false }
        ensures link { self.new.link ≡ self.old.link }
        ensures left_off { self.new.left_off ≡ self.old.left_off }
    {
        got_of(self.table.take(row, into))
    }

    /// Takes what the socket has, and then hands out the first row that wasn't. `Failed` comes exactly where the socket
    /// failed.
    pub fn accept_row(&mut self) -> RowPeer
        ensures taken { (mid : TableState) × (more : List Packet)
            × TakesPackets self.old.table mid (L.gave self.old.link) (L.gave self.new.link) more
            × AcceptsRow mid self.new.table result }
        ensures drained { Drains (accept_failed result) self.new.left_off (L.stalls self.old.link) (L.stalls self.new.link)
            (L.packets self.old.link) (L.packets self.new.link) }
        ensures faults { L.faults self.new.link ≡ risen_if (accept_failed result) (L.faults self.old.link) }
        ensures sent { L.sent self.new.link ≡ L.sent self.old.link }
    {
        if !self.fill() {
            return RowPeer::Failed;
        }
        self.next_row()
    }

    /// Hands out the first row that wasn't, and asks no socket.
    pub fn next_row(&mut self) -> RowPeer
        ensures taken { AcceptsRow self.old.table self.new.table result }
        ensures well { accept_failed result ≡ false }
        ensures link { self.new.link ≡ self.old.link }
        ensures left_off { self.new.left_off ≡ self.old.left_off }
    {
        match self.table.next_new() {
            Some((row, from)) => RowPeer::New { row, from },
            None => RowPeer::NoPeer,
        }
    }

    /// Sends the bytes as one packet to the sender of the live row.
    pub fn send_row(&mut self, row: u32, bytes: &[u8]) -> Took
        requires live { IsLive self.old.table.rows row }
        requires few { length bytes.now ≤ longest_packet }
        ensures sent { (place : ℕ) × RowStands self.old.table.rows row place
            × Sends (L.sent self.old.link) (L.sent self.new.link) (row_at self.old.table.rows
            place).peer bytes.now result }
        ensures table { self.new.table ≡ self.old.table }
        ensures left_off { self.new.left_off ≡ self.old.left_off }
        ensures gave { L.gave self.new.link ≡ L.gave self.old.link }
        ensures faults { L.faults self.new.link ≡ risen_if (send_failed result) (L.faults self.old.link) }
        ensures stalls { L.stalls self.new.link ≡ risen_if (send_stalled result) (L.stalls self.old.link) }
    {
        self.link.send_to(self.table.peer(row), bytes)
    }

    /// Lets the live row go with what it holds.
    pub fn drop_row(&mut self, row: u32)
        requires { IsLive self.old.table.rows row }
        ensures dropped { IsDropped self.old.table self.new.table row }
        ensures link { self.new.link ≡ self.old.link }
        ensures left_off { self.new.left_off ≡ self.old.left_off }
    {
        self.table.drop_row(row);
    }

    /// Whether the row of this number is live.
    pub fn is_live(&self, row: u32) -> bool
        ensures { IsTrue result ↔ IsLive self.now.table.rows row }
    {
        self.table.is_live(row)
    }

    /// Whether packets may wait that the system won't tell of again: the last call took 64.
    pub fn has_left_off(&self) -> bool
        ensures { result ≡ self.now.left_off }
    {
        self.left_off
    }

    /// Whether the live row holds a packet.
    pub fn has_packets(&self, row: u32) -> bool
        requires { IsLive self.now.table.rows row }
        ensures { (place : ℕ) × RowStands self.now.table.rows row place
            × (IsTrue result ↔ (0 < length (row_at self.now.table.rows place).packets)) }
    {
        self.table.has_packets(row)
    }

    /// Whether a live row wasn't handed out.
    pub fn has_new(&self) -> bool
        ensures { HasNew self.now.table result }
    {
        self.table.has_new()
    }

    /// Lets the rows go that weren't handed out.
    pub fn drop_new(&mut self)
        ensures dropped { IsTrimmed self.old.table self.new.table }
        ensures link { self.new.link ≡ self.old.link }
        ensures left_off { self.new.left_off ≡ self.old.left_off }
    {
        self.table.drop_new();
    }

    /// Takes out the row that calls longest: a packet came while it held none, and it wasn't taken out since. It may be
    /// live no more.
    pub fn next_call(&mut self) -> Option<u32>
        ensures call { IsNextCall self.old.table self.new.table result }
        ensures link { self.new.link ≡ self.old.link }
        ensures left_off { self.new.left_off ≡ self.old.left_off }
    {
        self.table.next_call()
    }

    /// Whether a row calls.
    pub fn has_call(&self) -> bool
        ensures { result ≡ nat_lt 0 (length self.now.table.calling) }
    {
        self.table.has_call()
    }

    /// The socket.
    pub fn link(&self) -> &L
        ensures { result.now ≡ self.now.link }
    {
        &self.link
    }

    /// How many packets were dropped. The count stays at its last value.
    pub fn lost(&self) -> u64
        ensures { result ≡ self.now.table.lost }
    {
        self.table.lost()
    }

    /// Takes what the socket has, at most 64 packets. False exactly where the socket failed.
    pub fn fill(&mut self) -> bool
        ensures taken { (more : List Packet) × TakesPackets self.old.table self.new.table (L.gave self.old.link) (L.gave self.new.link) more }
        ensures lives { (row : ℕ) → IsLive self.old.table.rows row → IsLive self.new.table.rows row }
        ensures drained { Drains (not result) self.new.left_off (L.stalls self.old.link) (L.stalls self.new.link)
            (L.packets self.old.link) (L.packets self.new.link) }
        ensures faults { L.faults self.new.link ≡ risen_if (not result) (L.faults self.old.link) }
        ensures sent { L.sent self.new.link ≡ L.sent self.old.link }
    {
        self.left_off = false;
        for _ in 0..MOST_TAKEN {
            match self.receive_one() {
                Received::Packet { .. } => {}
                Received::NotYet => return true,
                Received::Failed => return false,
            }
        }
        self.left_off = true;
        true
    }

    /// Takes one packet into the table.
    fn receive_one(&mut self) -> Received
        ensures taken { TakesOne self.old.table self.new.table (L.gave self.old.link) (L.gave self.new.link) result }
        ensures lives { (row : ℕ) → IsLive self.old.table.rows row → IsLive self.new.table.rows row }
        ensures left_off { self.new.left_off ≡ self.old.left_off }
        ensures faults { L.faults self.new.link ≡ risen_if (has_failed result) (L.faults self.old.link) }
        ensures stalls { L.stalls self.new.link ≡ risen_if (has_stalled result) (L.stalls self.old.link) }
        ensures packets { L.packets self.new.link ≡ risen_if (has_packet result) (L.packets self.old.link) }
        ensures sent { L.sent self.new.link ≡ L.sent self.old.link }
    {
        receive_into(&mut self.link, &mut self.table, &mut self.buffer)
    }
}

/// Takes one packet into the table, by way of the buffer.
fn receive_into<L: Link>(link: &mut L, table: &mut Demux, buffer: &mut [u8]) -> Received
    requires { longest_packet ≤ length buffer.old }
    ensures taken { TakesOne table.old table.new (L.gave link.old) (L.gave link.new) result }
    ensures lives { (row : ℕ) → IsLive table.old.rows row → IsLive table.new.rows row }
    ensures faults { L.faults link.new ≡ risen_if (has_failed result) (L.faults link.old) }
    ensures stalls { L.stalls link.new ≡ risen_if (has_stalled result) (L.stalls link.old) }
    ensures packets { L.packets link.new ≡ risen_if (has_packet result) (L.packets link.old) }
    ensures sent { L.sent link.new ≡ L.sent link.old }
{
    let received = link.receive(buffer);
    if let Received::Packet { from, len } = received {
        table.packet(from, &buffer[..len]);
    }
    received
}

/// What a read answers where the table gave this.
fn got_of(taken: Taken) -> Got
    ensures { result ≡ got_of taken }
{
    match taken {
        Taken::Bytes(count) => Got::Bytes(count),
        Taken::Empty => Got::Empty,
        Taken::NotYet => Got::NotYet,
        Taken::End => Got::End,
    }
}
