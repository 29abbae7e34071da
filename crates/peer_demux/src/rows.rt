// The packets of one sender.
ghost use Rattle.std.specs.Prelude.{◌≡◌, ◌<◌, ◌≤◌, ◌↔◌, ◌++◌, ◌∷◌, [], false, length, IfOk, OnOk, OnErr, IsTrue};
ghost use Rattle.peer_demux.specs.Rows.{GivesFirst, fresh_row, is_full};

use port_trait::copy_front;
use relay_model::{Bytes, NoMemory, Peer};
use std::alloc::Global;
use std::collections::VecDeque;
use std::marker::Model;

/// How many packets a row holds at most.
const MOST_PACKETS: usize = 64;

/// How many bytes a row holds at most.
const MOST_BYTES: usize = 65_536;

/// The packets of one sender, in the order in which they came.
#[derive(Drop)]
pub(crate) struct SenderRow {
    number: u32,
    peer: Peer,
    packets: VecDeque<Bytes>,
    // how many bytes of the first packet were given, and how many are held
    given: usize,
    held: usize,
}

impl Model for SenderRow {
    ghost use Rattle.std.specs.Prelude.{◌≡◌, ◌+◌, ◌≤◌, length};
    ghost use Rattle.std.specs.List.{sum_by};
    ghost use Rattle.peer_demux.specs.Rows.{RowState, IsWithin};

    ghost Value = { RowState };

    ghost view = { λ row. record { number = row.number; peer = row.peer; packets = row.packets.items; given = row.given } };

    ghost invariant = { λ row. IsWithin row.packets.items row.given × (row.held + row.given ≡ sum_by length row.packets.items) };
}

impl SenderRow {
    /// A row of one packet.
    pub(crate) fn new(
        alloc: Global,
        number: u32,
        peer: Peer,
        bytes: &[u8],
    ) -> Result<SenderRow, NoMemory>
        ensures { IfOk result (λ row. row ≡ fresh_row number peer bytes.now) }
    {
        let mut packets = VecDeque::new(alloc);
        packets.push_back(Bytes::of(alloc, bytes)?)?;
        Ok(SenderRow {
            number,
            peer,
            packets,
            given: 0,
            held: bytes.len(),
        })
    }

    pub(crate) fn number(&self) -> u32
        ensures { result ≡ self.now.number }
    {
        self.number
    }

    pub(crate) fn peer(&self) -> Peer
        ensures { result ≡ self.now.peer }
    {
        self.peer
    }

    pub(crate) fn has_packets(&self) -> bool
        ensures { IsTrue result ↔ (0 < length self.now.packets) }
    {
        !self.packets.is_empty()
    }

    /// Whether it has no room for a packet of so many bytes.
    pub(crate) fn is_full(&self, count: usize) -> bool
        ensures { result ≡ is_full self.now count }
    {
        self.packets.len() >= MOST_PACKETS || self.held.saturating_add(count) > MOST_BYTES
    }

    /// Appends the packet, or changes nothing.
    pub(crate) fn append(&mut self, alloc: Global, bytes: &[u8]) -> Result<(), NoMemory>
        requires { is_full self.old (length bytes.now) ≡ false }
        ensures ok { OnOk result (self.new ≡ record self.old { packets = self.old.packets ++ bytes.now ∷ [] }) }
        ensures err { OnErr result (self.new ≡ self.old) }
    {
        self.packets.push_back(Bytes::of(alloc, bytes)?)?;
        self.held += bytes.len();
        Ok(())
    }

    /// Gives what fits of the first packet, and answers how much. None exactly where it holds no packet.
    pub(crate) fn give(&mut self, into: &mut [u8]) -> Option<usize>
        requires { 0 < length into.old }
        ensures { GivesFirst self.old self.new into.new result }
    {
        let packet = self.packets.front()?;
        let (_, rest) = packet.as_slice().split_at(self.given);
        let left = rest.len();
        let count = copy_front(rest, into);
        self.held -= count;
        if count < left {
            self.given += count;
            return Some(count);
        }
        self.packets.pop_front();
        self.given = 0;
        Some(count)
    }
}
