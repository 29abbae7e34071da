// A maker in memory.
ghost use Rattle.std.specs.Prelude.{◌≡◌, ◌++◌, ◌∷◌, [], IfSome, OnOk, OnErr};
ghost use Rattle.port_trait.specs.Counting.{Counted};
ghost use Rattle.port_trait.specs.{making_failed, making_stalled, peer_failed, peer_stalled, came_after};
ghost use Rattle.port_objects.specs.Makers.{fresh_maker, scripted_make, items_after_make, scripted_accept, items_after_accept};

use crate::ports::MemPort;
use port_trait::{AskedPlace, MadePeer, Maker, Making};
use relay_model::{NoMemory, Peer, Place, Single};
use std::alloc::Global;
use std::collections::VecDeque;
use std::marker::Model;

/// What one call of the maker is to answer.
#[derive(Drop)]
pub enum MakeItem {
    Port(MemPort),
    Peer(Peer, MemPort),
    Fault,
}

/// Makes the ports that it was given, in their order.
#[derive(Drop)]
pub struct MemMaker {
    items: VecDeque<MakeItem>,
    came: Option<Peer>,
    asked: Option<AskedPlace>,
    faults: u64,
    stalls: u64,
}

impl Model for MemMaker {
    ghost use Rattle.port_objects.specs.Makers.{MemMakerState};

    ghost Value = { MemMakerState };

    ghost view = { λ maker. record { items = maker.items.items; came = maker.came; asked = maker.asked; faults = maker.faults; stalls = maker.stalls } };
}

impl MemMaker {
    /// A maker without items.
    pub fn new(alloc: Global) -> MemMaker
        ensures { result ≡ fresh_maker }
    {
        MemMaker {
            items: VecDeque::new(alloc),
            came: None,
            asked: None,
            faults: 0,
            stalls: 0,
        }
    }

    /// Appends the item, or changes nothing.
    pub fn add(&mut self, item: MakeItem) -> Result<(), NoMemory>
        ensures ok { OnOk result (self.new ≡ record self.old { items = self.old.items ++ item ∷ [] }) }
        ensures err { OnErr result (self.new ≡ self.old) }
    {
        self.items.push_back(item)?;
        Ok(())
    }

    /// Uses the next item, and fails exactly where it isn't a port.
    fn take_port(&mut self) -> Making<MemPort>
        ensures answer { result ≡ scripted_make self.old.items }
        ensures items { self.new.items ≡ items_after_make self.old.items }
        ensures came { self.new.came ≡ self.old.came }
        ensures asked { self.new.asked ≡ self.old.asked }
        ensures stalls { self.new.stalls ≡ self.old.stalls }
        ensures faults { Counted (making_failed result) self.old.faults self.new.faults }
    {
        if let Some(MakeItem::Port(port)) = self.items.pop_front() {
            return Making::Made(port);
        }
        self.faults = self.faults.saturating_add(1);
        Making::Failed
    }
}

impl Maker for MemMaker {
    type Made = MemPort;

    ghost seen = { λ maker. record { faults = maker.faults; stalls = maker.stalls; came = maker.came; asked = maker.asked } };

    fn make(
        &mut self,
        _key: usize,
        place: Place,
        single: &Single,
        behind: Option<Peer>,
    ) -> Making<MemPort>
        ensures asked { IfSome self.new.asked (λ told. told ≡ record { place = place; single = single.now; behind = behind }) }
        ensures answer { result ≡ scripted_make self.old.items }
        ensures items { self.new.items ≡ items_after_make self.old.items }
        ensures came { self.new.came ≡ self.old.came }
        ensures faults { Counted (making_failed result) self.old.faults self.new.faults }
        ensures stalls { self.new.stalls ≡ self.old.stalls }
    {
        self.asked = asked_for(place, single, behind);
        self.take_port()
    }

    fn listen(&mut self, _key: usize, _single: &Single) -> Making<MemPort>
        ensures answer { result ≡ scripted_make self.old.items }
        ensures items { self.new.items ≡ items_after_make self.old.items }
        ensures came { self.new.came ≡ self.old.came }
        ensures asked { self.new.asked ≡ self.old.asked }
        ensures faults { Counted (making_failed result) self.old.faults self.new.faults }
        ensures stalls { self.new.stalls ≡ self.old.stalls }
    {
        self.take_port()
    }

    /// Uses a peer or a fault. Where neither is next, nobody has come.
    fn accept(&mut self, door: &mut MemPort, _key: usize) -> MadePeer<MemPort>
        ensures answer { result ≡ scripted_accept self.old.items }
        ensures items { self.new.items ≡ items_after_accept self.old.items }
        ensures door { door.new ≡ door.old }
        ensures asked { self.new.asked ≡ self.old.asked }
        ensures came { self.new.came ≡ came_after self.old.came result }
        ensures faults { Counted (peer_failed result) self.old.faults self.new.faults }
        ensures stalls { Counted (peer_stalled result) self.old.stalls self.new.stalls }
    {
        let _ = door;
        match self.items.front() {
            None | Some(MakeItem::Port(_)) => {
                self.stalls = self.stalls.saturating_add(1);
                return MadePeer::NoPeer;
            }
            Some(MakeItem::Peer(_, _) | MakeItem::Fault) => {}
        }
        if let Some(MakeItem::Peer(peer, port)) = self.items.pop_front() {
            self.came = Some(peer);
            return MadePeer::Came(port, peer);
        }
        self.faults = self.faults.saturating_add(1);
        MadePeer::Failed
    }
}

/// What is asked for, where there is memory to tell it.
fn asked_for(place: Place, single: &Single, behind: Option<Peer>) -> Option<AskedPlace>
    ensures { IfSome result (λ told. told ≡ record { place = place; single = single.now; behind = behind }) }
{
    match single.copy() {
        Ok(single) => Some(AskedPlace {
            place,
            single,
            behind,
        }),
        Err(NoMemory) => None,
    }
}
