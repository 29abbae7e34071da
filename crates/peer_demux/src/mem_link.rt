// A socket in memory.
ghost use Rattle.std.specs.Prelude.{◌≡◌, ◌≤◌, ◌++◌, ◌∷◌, [], length, OnOk, OnErr, Some};
ghost use Rattle.relay_model.specs.{longest_packet};
ghost use Rattle.peer_demux.specs.Links.{AllFit, IsFit, fresh_link, given_by, IsGiven};
ghost use Rattle.port_trait.specs.declared.answers.Took.TheVariants as writes;

use crate::links::{Link, Received};
use port_trait::{Took, copy_front};
use relay_model::{Bytes, NoMemory, Peer};
use std::alloc::Global;
use std::marker::Model;

/// What one receiving answers.
#[derive(Drop)]
pub enum LinkItem {
    Packet(Peer, Bytes),
    NotYet,
    Fault,
}

/// Gives the packets that it was given, in their order, and takes all that is sent.
#[derive(Drop)]
pub struct MemLink {
    items: Vec<LinkItem>,
    next: usize,
    faults: u64,
    stalls: u64,
    packets: u64,
}

impl Model for MemLink {
    ghost use Rattle.std.specs.Prelude.{◌≤◌, length};
    ghost use Rattle.peer_demux.specs.Links.{MemState, AllFit};

    ghost Value = { MemState };

    ghost view = { λ link. record { items = link.items.items; next = link.next; faults = link.faults; stalls = link.stalls; packets = link.packets } };

    ghost invariant = { λ link. AllFit link.items.items × (link.next ≤ length link.items.items) };
}

impl MemLink {
    /// No items; takes no memory.
    pub fn new(alloc: Global) -> MemLink
        ensures { result ≡ fresh_link }
    {
        MemLink {
            items: Vec::new(alloc),
            next: 0,
            faults: 0,
            stalls: 0,
            packets: 0,
        }
    }

    /// Appends the item, or changes nothing.
    pub fn add(&mut self, item: LinkItem) -> Result<(), NoMemory>
        requires { IsFit item }
        ensures ok { OnOk result (self.new ≡ record self.old { items = self.old.items ++ item ∷ [] }) }
        ensures given { given_by self.new ≡ given_by self.old }
        ensures err { OnErr result (self.new ≡ self.old) }
    {
        self.items.push(item)?;
        Ok(())
    }
}

impl Link for MemLink {
    ghost faults = { λ link. link.faults };

    ghost stalls = { λ link. link.stalls };

    ghost packets = { λ link. link.packets };

    ghost gave = { λ link. Some (given_by link) };

    /// Uses the next item. With none left there is nothing.
    fn receive(&mut self, into: &mut [u8]) -> Received {
        if self.next == self.items.len() {
            self.stalls = self.stalls.saturating_add(1);
            return Received::NotYet;
        }
        let received = item_answer(&self.items[self.next], into);
        self.next += 1;
        match received {
            Received::Packet { .. } => self.packets = self.packets.saturating_add(1),
            Received::NotYet => self.stalls = self.stalls.saturating_add(1),
            Received::Failed => self.faults = self.faults.saturating_add(1),
        }
        received
    }

    /// Takes all bytes.
    fn send_to(&mut self, _to: Peer, bytes: &[u8]) -> Took
        ensures all { result ≡ writes.Took (length bytes.now) }
        ensures same { self.new ≡ self.old }
    {
        Took::Took(bytes.len())
    }
}

/// What the item answers.
fn item_answer(item: &LinkItem, into: &mut [u8]) -> Received
    requires fit { IsFit item.now }
    requires room { longest_packet ≤ length into.old }
    ensures { IsGiven item.now into.new result }
{
    match item {
        LinkItem::Packet(from, bytes) => {
            let len = copy_front(bytes.as_slice(), into);
            Received::Packet { from: *from, len }
        }
        LinkItem::NotYet => Received::NotYet,
        LinkItem::Fault => Received::Failed,
    }
}
