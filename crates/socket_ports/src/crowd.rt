// A socket and the rows of all its peers, as their ports share them.
ghost use Rattle.std.specs.Prelude.{◌≡◌, ◌≢◌, ◌<◌, ◌≤◌, ◌⊎◌, ℕ, length, None, IfOk, true, false};
ghost use Rattle.relay_model.specs.{longest_packet};
ghost use Rattle.port_trait.specs.declared.answers.Got.TheVariants as reads;
ghost use Rattle.port_trait.specs.{Gives, AcceptsWhole};
ghost use Rattle.peer_demux.specs.{HubState, ReadsRow, Sends, IsLive, IsTrimmed, RowStands, row_at};
ghost use Rattle.socket_ports.specs.Crowds.{Accepts, Fills, Gathers, IsKnown};
ghost use Rattle.socket_ports.specs.Pollers.{Extends};

use key_map::KeyMap;
use peer_demux::{Hub, Link, RowPeer};
use port_trait::{Got, KeyList, Took};
use relay_model::{Half, MOST_READY, NoMemory, Peer};
use std::alloc::Global;
use std::marker::Model;

/// A fault of the socket that came while nobody called.
#[derive(Clone, Copy, PartialEq)]
enum CrowdFault {
    None,
    /// Nobody was named for it yet.
    Untold,
    Told,
}

/// What a door and its peers share.
#[derive(Drop)]
pub(crate) struct Crowd<L> {
    hub: Hub<L>,
    // the key of the door, and those of the peers' ports by their rows
    door: usize,
    keys: KeyMap,
    // whether peers are accepted yet, and whether the door found none and wasn't named since
    open: bool,
    bare: bool,
    // whether the socket may have packets
    stirred: bool,
    fault: CrowdFault,
}

impl<L> Model for Crowd<L> {
    ghost use Rattle.socket_ports.specs.Crowds.{CrowdState};

    ghost Value = { CrowdState L };

    ghost view = { λ crowd. record { hub = crowd.hub; stirred = crowd.stirred } };
}

impl<L: Link> Crowd<L> {
    /// Nobody was accepted yet.
    pub(crate) fn new(alloc: Global, hub: Hub<L>, door: usize) -> Crowd<L> {
        Crowd {
            hub,
            door,
            keys: KeyMap::new(alloc),
            open: true,
            bare: true,
            stirred: true,
            fault: CrowdFault::None,
        }
    }

    /// The socket may have packets.
    pub(crate) fn stir(&mut self) {
        self.stirred = true;
    }

    /// Whether there is something to be named, or may be.
    pub(crate) fn is_waited_for(&self) -> bool {
        self.stirred || self.fault == CrowdFault::Untold || self.hub.has_call() || self.has_caller()
    }

    /// Whether a peer came since the door found none.
    fn has_caller(&self) -> bool {
        self.open && self.bare && self.hub.has_new()
    }

    /// Takes what the socket has, and names the ports that got something, as far as they fit.
    pub(crate) fn gather(&mut self, ready: &mut KeyList)
        requires { 256 ≤ ready.old.room }
        ensures { Extends ready.old ready.new }
    {
        if !self.fill() {
            self.fault = CrowdFault::Untold;
        }
        self.name_fault(ready);
        self.name_door(ready);
        self.name_peers(ready);
    }

    /// Takes what the socket has, where it may have something. False exactly where it failed.
    fn fill(&mut self) -> bool
        ensures filled { Fills L.gave self.old.stirred self.old.hub self.new.hub }
        ensures quiet { self.old.stirred ≡ false → result ≡ true }
        ensures sent { L.sent self.new.hub.link ≡ L.sent self.old.hub.link }
    {
        if !self.stirred {
            return true;
        }
        self.take_in()
    }

    /// Takes what the socket has. False exactly where it failed.
    fn take_in(&mut self) -> bool
        ensures gathered { Gathers L.gave self.old.hub self.new.hub }
        ensures sent { L.sent self.new.hub.link ≡ L.sent self.old.hub.link }
    {
        let filled = self.hub.fill();
        self.stirred = self.hub.has_left_off();
        self.turn_away();
        filled
    }

    /// Names whoever is to be told of a fault.
    #[tactic(auto, using(crate::proofs::Appending::extends_none))]
    fn name_fault(&mut self, ready: &mut KeyList)
        requires { 256 ≤ ready.old.room }
        ensures { Extends ready.old ready.new }
    {
        if self.fault == CrowdFault::Untold
            && let Some(key) = self.first_key()
            && name(ready, key)
        {
            self.fault = CrowdFault::Told;
        }
    }

    /// The key of the door while that is open, else of a peer.
    fn first_key(&self) -> Option<usize> {
        if self.open {
            return Some(self.door);
        }
        self.keys.get(self.keys.first_from(0)?)
    }

    #[tactic(auto, using(crate::proofs::Appending::extends_none))]
    fn name_door(&mut self, ready: &mut KeyList)
        requires { 256 ≤ ready.old.room }
        ensures { Extends ready.old ready.new }
    {
        if self.has_caller() && name(ready, self.door) {
            self.bare = false;
        }
    }

    fn name_peers(&mut self, ready: &mut KeyList)
        requires { 256 ≤ ready.old.room }
        ensures { Extends ready.old ready.new }
    {
        for _ in ready.len()..MOST_READY {
            let Some(row) = self.hub.next_call() else {
                return;
            };
            if let Some(key) = self.keys.get(row) {
                name(ready, key);
            }
        }
    }

    /// Takes the next peer, whose port has this key.
    pub(crate) fn accept(&mut self, key: usize) -> Result<RowPeer, NoMemory>
        ensures { IfOk result IsKnown }
    {
        if self.has_failed() {
            return Ok(RowPeer::Failed);
        }
        self.hand_out(key)
    }

    /// Hands out the next row, whose port has this key. A sender of datagrams has an address; one without is no peer.
    fn hand_out(&mut self, key: usize) -> Result<RowPeer, NoMemory>
        ensures came { IfOk result (Accepts self.old.hub.table self.new.hub.table) }
        ensures known { IfOk result IsKnown }
    {
        self.keys.reserve(1)?;
        match self.hub.next_row() {
            RowPeer::New {
                row,
                from: Peer::Local,
            } => {
                self.leave(row);
                Ok(RowPeer::Failed)
            }
            RowPeer::New { row, from } => {
                self.keys.put(row, key);
                Ok(RowPeer::New { row, from })
            }
            RowPeer::NoPeer => {
                self.bare = true;
                Ok(RowPeer::NoPeer)
            }
            RowPeer::Failed => Ok(RowPeer::Failed),
        }
    }

    /// Takes what the peer sent.
    pub(crate) fn read(&mut self, row: u32, into: &mut [u8]) -> Got
        requires { 0 < length into.old }
        ensures gives { Gives None None into.new result }
        ensures packet { result ≢ reads.Failed
            → (mid : HubState
            L) × Fills L.gave self.old.stirred self.old.hub mid × ReadsRow mid.table self.new.hub.table row into.new result }
    {
        if self.has_failed() || !self.hub.is_live(row) {
            return Got::Failed;
        }
        self.hub.take_row(row, into)
    }

    /// Sends the bytes to the peer as one packet.
    pub(crate) fn send(&mut self, row: u32, bytes: &[u8]) -> Took
        requires { length bytes.now ≤ longest_packet }
        ensures whole { AcceptsWhole None None bytes.now result }
        ensures sent { IsLive self.old.hub.table.rows row
            → (place : ℕ) × RowStands self.old.hub.table.rows row place × Sends (L.sent self.old.hub.link) (L.sent
            self.new.hub.link) (row_at self.old.hub.table.rows place).peer bytes.now result }
    {
        if !self.hub.is_live(row) {
            return Took::Failed;
        }
        self.hub.send_row(row, bytes)
    }

    /// Whether the socket failed since the last call that told so, or now, where it may have something. The next call may
    /// find what it has behind the fault.
    fn has_failed(&mut self) -> bool
        ensures filled { result ≡ false → Fills L.gave self.old.stirred self.old.hub self.new.hub }
    {
        if self.fault == CrowdFault::None && self.fill() {
            return false;
        }
        self.fault = CrowdFault::None;
        self.stirred = true;
        true
    }

    /// Lets the peer's row go.
    pub(crate) fn leave(&mut self, row: u32) {
        if self.hub.is_live(row) {
            self.hub.drop_row(row);
        }
        self.keys.remove(row);
    }

    /// No further peer is accepted.
    pub(crate) fn close(&mut self) {
        self.open = false;
        self.turn_away();
    }

    /// Whether neither the door nor a peer is left.
    pub(crate) fn is_deserted(&self) -> bool {
        !self.open && self.keys.first_from(0).is_none()
    }

    /// Once the door is closed, peers that weren't accepted are let go.
    fn turn_away(&mut self)
        ensures table { (self.new.hub.table ≡ self.old.hub.table) ⊎ IsTrimmed self.old.hub.table self.new.hub.table }
        ensures link { self.new.hub.link ≡ self.old.hub.link }
        ensures stirred { self.new.stirred ≡ self.old.stirred }
    {
        if !self.open {
            self.hub.drop_new();
        }
    }
}

/// Names the port of the key as readable, where that fits.
fn name(ready: &mut KeyList, key: usize) -> bool
    requires { 256 ≤ ready.old.room }
    ensures { Extends ready.old ready.new }
{
    ready.push((key, Half::ToRead))
}
