// A scripted world: it answers from lists of items, keeps its history, and its clock is moved by its waits alone.
ghost use Rattle.std.specs.Prelude.{◌≡◌, ◌≤◌, ◌<◌, ◌+◌, ◌++◌, ◌∷◌, [], Option, Some, true, false, option_map, length, OnOk, OnErr};
ghost use Rattle.relay_model.specs.{longest_packet, Free, Open, Settling, is_free, is_open};
ghost use Rattle.world_trait.specs.{Answered, AnsweredAsking, Rose, RaisesCounts, says_stop, OnlyHeldNamed, OnlyWhereTold, NotReaped, WaitCounts};
ghost use Rattle.world_trait.specs.{ReadFits, WriteFits, wait_act, open_act, listen_act, accept_act, read_act, write_act, send_act, shut_act};
ghost use Rattle.world_trait.specs.{close_act, note_act, reap_act, is_open_fault, is_listen_fault, is_accept_fault, is_read_fault, is_write_fault};
ghost use Rattle.world_trait.specs.{is_send_fault, is_shut_fault, is_note_fault, wants_turn_memory, wants_read_memory, wants_write_memory};
ghost use Rattle.world_trait.specs.{wants_send_memory, wants_shut_memory, hold_found, lookup, told_kept, Waitless, IsFresh, SameRun};
ghost use Rattle.scripted_world.specs.Lines.{placed};
ghost use Rattle.scripted_world.specs.Looks.{LooksAtHeld};
ghost use Rattle.scripted_world.specs.Peers.{due_peer};
ghost use Rattle.scripted_world.specs.Reads.{HasBytes, due_read};
ghost use Rattle.scripted_world.specs.Scripted.{TurnScripted, OpenScripted, ListenScripted, AcceptScripted, ReadScripted, WriteScripted, SendScripted, ShutScripted, CloseScripted, ReapScripted};
ghost use Rattle.scripted_world.specs.Scripts.{OpensSo, empty_script};
ghost use Rattle.scripted_world.specs.Writes.{HasCount, due_write};

use crate::accepting::{Coming, DuePeer, who_comes};
use crate::items::{OpenItem, PeerItem, ReadItem, WriteItem};
use crate::looking::WatchKind;
use crate::reading::{DueRead, Given, Reading, look, use_bytes};
use crate::script::Script;
use crate::writing::{DueWrite, TakenNow, Writing, room, use_write};
use relay_model::{
    Act, Bytes, ChildEnd, Journal, Kept, NoMemory, Peer, Place, ReadyList, Shut, Single, Why,
};
use std::alloc::Global;
use world_trait::{
    AcceptAnswer, Holdings, ListenAnswer, NoteAnswer, OpenAnswer, ReadAnswer, ReapAnswer,
    SendAnswer, ShutAnswer, Standing, Turned, World, WriteAnswer,
};

/// A world for tests. Each call whose name begins with `add_` adds one item to a script.
#[derive(Drop)]
pub struct MemWorld {
    script: Script,
    kept: Kept,
    held: Holdings,
    faults: u64,
    waits: u64,
    stops: u64,
    clock: u64,
    ghost room: { length held.entries ≤ kept.journal.spare },
    ghost looks: { LooksAtHeld (lookup held.entries) script.looked },
}

impl MemWorld {
    /// A world with no items, in which nothing was done; takes no memory.
    pub fn new(alloc: Global) -> MemWorld
        ensures told { (⟦<MemWorld as World>⟧.seen result).told ≡ Some (record { acts = []; asked = [] }) }
        ensures fresh { IsFresh (⟦<MemWorld as World>⟧.seen result) }
        ensures script { result.script ≡ empty_script }
    {
        MemWorld {
            script: Script::new(alloc),
            kept: Kept::new(alloc),
            held: Holdings::new(alloc),
            faults: 0,
            waits: 0,
            stops: 0,
            clock: 0,
        }
    }

    /// The next read item of the place. Longer bytes than a read has room for are given in parts. A read before
    /// the moment of its next item, or with none left, answers `NotYet`.
    pub fn add_read(&mut self, place: Place, at: u64, item: ReadItem) -> Result<(), NoMemory>
        requires { HasBytes item }
        ensures run { SameRun (⟦<MemWorld as World>⟧.seen self.old) (⟦<MemWorld as World>⟧.seen self.new) }
        ensures added { OnOk result (self.new.script ≡ record self.old.script { reads = self.old.script.reads ++ placed place (due_read at item) ∷ [] }) }
        ensures kept { OnErr result (self.new.script ≡ self.old.script) }
    {
        let reading = Reading::of(item);
        self.script.reads.add(place, DueRead { at, reading })
    }

    /// The next write item of the place. A write before its moment answers `NotYet`; with none left all bytes are
    /// taken. Where an item takes some bytes, a sending has all of its bytes taken.
    pub fn add_write(&mut self, place: Place, at: u64, item: WriteItem) -> Result<(), NoMemory>
        requires { HasCount item }
        ensures run { SameRun (⟦<MemWorld as World>⟧.seen self.old) (⟦<MemWorld as World>⟧.seen self.new) }
        ensures added { OnOk result (self.new.script ≡ record self.old.script { writes = self.old.script.writes ++ placed place (due_write at item) ∷ [] }) }
        ensures kept { OnErr result (self.new.script ≡ self.old.script) }
    {
        let writing = Writing::of(item);
        self.script.writes.add(place, DueWrite { at, writing })
    }

    /// The next item of openings and settlings of the place or of listenings of the door, whose moment doesn't count.
    /// With none left it opens. None is later at a door.
    pub fn add_open(&mut self, place: Place, at: u64, item: OpenItem) -> Result<(), NoMemory>
        requires { OpensSo place item }
        ensures run { SameRun (⟦<MemWorld as World>⟧.seen self.old) (⟦<MemWorld as World>⟧.seen self.new) }
        ensures added { OnOk result (self.new.script ≡ record self.old.script { opens = self.old.script.opens ++ placed place item ∷ [] }) }
        ensures kept { OnErr result (self.new.script ≡ self.old.script) }
    {
        let _moment = at;
        self.script.opens.add(place, item)
    }

    /// The next peer of the door. An accepting before its moment, or with none left, answers `NoPeer`.
    pub fn add_peer(&mut self, door: Place, at: u64, item: PeerItem) -> Result<(), NoMemory>
        ensures run { SameRun (⟦<MemWorld as World>⟧.seen self.old) (⟦<MemWorld as World>⟧.seen self.new) }
        ensures added { OnOk result (self.new.script ≡ record self.old.script { peers = self.old.script.peers ++ placed door (due_peer at item) ∷ [] }) }
        ensures kept { OnErr result (self.new.script ≡ self.old.script) }
    {
        self.script.peers.add(door, DuePeer { at, item })
    }

    /// From now on each shut of the place fails.
    pub fn add_shut_fault(&mut self, place: Place) -> Result<(), NoMemory>
        ensures run { SameRun (⟦<MemWorld as World>⟧.seen self.old) (⟦<MemWorld as World>⟧.seen self.new) }
        ensures added { OnOk result (self.new.script ≡ record self.old.script { shut_faults = self.old.script.shut_faults ++ place ∷ [] }) }
        ensures kept { OnErr result (self.new.script ≡ self.old.script) }
    {
        self.script.shut_faults.add(place)
    }

    /// What the next reaping of the place answers. With none left there is no child.
    pub fn add_reap(&mut self, place: Place, end: ChildEnd) -> Result<(), NoMemory>
        ensures run { SameRun (⟦<MemWorld as World>⟧.seen self.old) (⟦<MemWorld as World>⟧.seen self.new) }
        ensures added { OnOk result (self.new.script ≡ record self.old.script { reaps = self.old.script.reaps ++ placed place end ∷ [] }) }
        ensures kept { OnErr result (self.new.script ≡ self.old.script) }
    {
        self.script.reaps.add(place, end)
    }

    /// From this moment on each wait answers a stop.
    pub fn add_stop(&mut self, at: u64) -> Result<(), NoMemory>
        ensures run { SameRun (⟦<MemWorld as World>⟧.seen self.old) (⟦<MemWorld as World>⟧.seen self.new) }
        ensures added { OnOk result (self.new.script ≡ record self.old.script { stops = self.old.script.stops ++ at ∷ [] }) }
        ensures kept { OnErr result (self.new.script ≡ self.old.script) }
    {
        self.script.stops.add(at)
    }

    /// How the place stands; none where nothing is held there.
    pub fn standing(&self, place: Place) -> Option<Standing>
        ensures { hold_found result ≡ (⟦<MemWorld as World>⟧.seen self.now).held place }
    {
        self.held.standing_at(place)
    }

    /// What was done so far.
    pub fn journal(&self) -> &Journal
        ensures { option_map (λ history. history.acts) (⟦<MemWorld as World>⟧.seen self.now).told ≡ Some result.now.acts }
    {
        self.kept.journal()
    }
}

impl World for MemWorld {
    ghost seen = { λ w. record {
      told = told_kept w.kept;
      held = lookup w.held.entries;
      faults = w.faults;
      waits = w.waits;
      stops = w.stops;
      clock = w.clock;
    } };

    /// Looks at what was last answered with nothing yet, and that no turn has named since. What finds no room in the
    /// list stays looked at. Where nothing will ever happen, it answers a stop.
    fn wait(&mut self, until: Option<u64>, ready: &mut ReadyList) -> Turned
        requires { 256 ≤ ready.old.room }
        ensures room { 256 ≤ ready.new.room }
        ensures act { Answered (⟦<MemWorld as World>⟧.seen self.old) (⟦<MemWorld as World>⟧.seen self.new)
            (wait_act until ready.new result) }
        ensures counts { WaitCounts (⟦<MemWorld as World>⟧.seen self.old) (⟦<MemWorld as World>⟧.seen self.new) result }
        ensures faults { self.old.faults ≤ self.new.faults }
        ensures named { OnlyHeldNamed (lookup self.new.held.entries) ready.new.entries result }
        ensures memory { OnlyWhereTold (told_kept self.old.kept) (wants_turn_memory result) }
        ensures script { TurnScripted self.old.script self.new.script until self.old.clock ready.new.entries result }
        ensures counted { RaisesCounts self.old.faults self.new.faults self.old.stops self.new.stops false (says_stop result) }
    {
        ready.clear();
        let at = self.script.moment(until, self.clock);
        let stop = self.script.is_stop(until, at);
        self.script.name_ready(at, ready);
        let Ok(()) = self.kept.reserve(self.held.len() + 1) else {
            return Turned::Memory;
        };
        let Ok(named) = ready.copy() else {
            return Turned::Memory;
        };
        self.script.looked.forget_named(ready);
        self.kept.put(Act::Turn {
            until,
            at,
            ready: named,
            stop,
        });
        self.clock = at;
        self.waits = self.waits.saturating_add(1);
        if stop {
            self.stops = self.stops.saturating_add(1);
        }
        Turned::Turned { at, stop }
    }

    fn open_place(&mut self, place: Place, single: &Single, _behind: Option<Peer>) -> OpenAnswer
        requires { lookup self.old.held.entries place ≡ Free }
        ensures act { AnsweredAsking (place, single.now) (⟦<MemWorld as World>⟧.seen self.old)
            (⟦<MemWorld as World>⟧.seen self.new) (open_act place result) }
        ensures cause { Rose self.old.faults self.new.faults (is_open_fault result) }
        ensures waitless { Waitless (⟦<MemWorld as World>⟧.seen self.old) (⟦<MemWorld as World>⟧.seen self.new) }
        ensures script { OpenScripted self.old.script self.new.script place result }
        ensures counted { RaisesCounts self.old.faults self.new.faults self.old.stops self.new.stops (is_open_fault result) false }
    {
        let Ok(()) = self.kept.reserve(self.held.len() + 2) else {
            return OpenAnswer::Memory;
        };
        let Ok(()) = self.kept.reserve_asking(1) else {
            return OpenAnswer::Memory;
        };
        let Ok(()) = self.held.reserve(1) else {
            return OpenAnswer::Memory;
        };
        let Ok(asked) = single.copy() else {
            return OpenAnswer::Memory;
        };
        match self.script.opening(place) {
            OpenItem::Opens => {
                self.script.opens.use_up(place);
                self.script.looked.forget_place(place);
                self.held.add(place, Standing::Open);
                self.kept.put(Act::Opened(place));
                self.kept.put_asking(place, asked);
                OpenAnswer::Opened
            }
            OpenItem::Later => {
                let Ok(()) = self.script.looked.look_at_opening(place) else {
                    drop(asked);
                    return OpenAnswer::Memory;
                };
                self.script.opens.use_up(place);
                self.held.add(place, Standing::Settling);
                self.kept.put(Act::OpenLater(place));
                self.kept.put_asking(place, asked);
                OpenAnswer::Later
            }
            OpenItem::Fails => {
                self.script.opens.use_up(place);
                self.script.looked.forget_place(place);
                self.faults = self.faults.saturating_add(1);
                self.kept.put(Act::OpenFailed(place));
                self.kept.put_asking(place, asked);
                OpenAnswer::Failed
            }
        }
    }

    /// Uses an opening item of the place, as an opening does.
    fn settle(&mut self, place: Place) -> OpenAnswer
        requires { lookup self.old.held.entries place ≡ Settling }
        ensures act { Answered (⟦<MemWorld as World>⟧.seen self.old) (⟦<MemWorld as World>⟧.seen self.new) (open_act place result) }
        ensures cause { Rose self.old.faults self.new.faults (is_open_fault result) }
        ensures waitless { Waitless (⟦<MemWorld as World>⟧.seen self.old) (⟦<MemWorld as World>⟧.seen self.new) }
        ensures script { OpenScripted self.old.script self.new.script place result }
        ensures counted { RaisesCounts self.old.faults self.new.faults self.old.stops self.new.stops (is_open_fault result) false }
    {
        let Ok(()) = self.kept.reserve(self.held.len() + 1) else {
            return OpenAnswer::Memory;
        };
        match self.script.opening(place) {
            OpenItem::Opens => {
                self.script.opens.use_up(place);
                self.script.looked.forget_place(place);
                self.held.change(place, Standing::Open);
                self.kept.put(Act::Opened(place));
                OpenAnswer::Opened
            }
            OpenItem::Later => {
                let Ok(()) = self.script.looked.look_at_opening(place) else {
                    return OpenAnswer::Memory;
                };
                self.script.opens.use_up(place);
                self.held.change(place, Standing::Settling);
                self.kept.put(Act::OpenLater(place));
                OpenAnswer::Later
            }
            OpenItem::Fails => {
                self.script.opens.use_up(place);
                self.script.looked.forget_place(place);
                self.held.remove(place);
                self.faults = self.faults.saturating_add(1);
                self.kept.put(Act::OpenFailed(place));
                OpenAnswer::Failed
            }
        }
    }

    fn listen(&mut self, door: Place, single: &Single) -> ListenAnswer
        requires { lookup self.old.held.entries door ≡ Free }
        ensures act { AnsweredAsking (door, single.now) (⟦<MemWorld as World>⟧.seen self.old)
            (⟦<MemWorld as World>⟧.seen self.new) (listen_act door result) }
        ensures cause { Rose self.old.faults self.new.faults (is_listen_fault result) }
        ensures waitless { Waitless (⟦<MemWorld as World>⟧.seen self.old) (⟦<MemWorld as World>⟧.seen self.new) }
        ensures script { ListenScripted self.old.script self.new.script door result }
        ensures counted { RaisesCounts self.old.faults self.new.faults self.old.stops self.new.stops (is_listen_fault result) false }
    {
        let Ok(()) = self.kept.reserve(self.held.len() + 2) else {
            return ListenAnswer::Memory;
        };
        let Ok(()) = self.kept.reserve_asking(1) else {
            return ListenAnswer::Memory;
        };
        let Ok(()) = self.held.reserve(1) else {
            return ListenAnswer::Memory;
        };
        let Ok(asked) = single.copy() else {
            return ListenAnswer::Memory;
        };
        let next = self.script.opening(door);
        self.script.opens.use_up(door);
        match next {
            OpenItem::Opens | OpenItem::Later => {
                self.held.add(door, Standing::Open);
                self.kept.put(Act::Listening(door));
                self.kept.put_asking(door, asked);
                ListenAnswer::Listening
            }
            OpenItem::Fails => {
                self.faults = self.faults.saturating_add(1);
                self.kept.put(Act::ListenFailed(door));
                self.kept.put_asking(door, asked);
                ListenAnswer::Failed
            }
        }
    }

    fn accept(&mut self, door: Place, place: Place) -> AcceptAnswer
        requires door { lookup self.old.held.entries door ≡ Open }
        requires place { lookup self.old.held.entries place ≡ Free }
        ensures act { Answered (⟦<MemWorld as World>⟧.seen self.old) (⟦<MemWorld as World>⟧.seen self.new) (accept_act door place result) }
        ensures cause { Rose self.old.faults self.new.faults (is_accept_fault result) }
        ensures waitless { Waitless (⟦<MemWorld as World>⟧.seen self.old) (⟦<MemWorld as World>⟧.seen self.new) }
        ensures script { AcceptScripted self.old.script self.new.script door self.old.clock result }
        ensures counted { RaisesCounts self.old.faults self.new.faults self.old.stops self.new.stops (is_accept_fault result) false }
    {
        let Ok(()) = self.kept.reserve(self.held.len() + 2) else {
            return AcceptAnswer::Memory;
        };
        let Ok(()) = self.held.reserve(1) else {
            return AcceptAnswer::Memory;
        };
        match who_comes(&self.script.peers, door, self.clock) {
            Coming::Comes(peer) => {
                self.script.peers.use_up(door);
                self.script.looked.forget(door, WatchKind::Peer);
                self.held.add(place, Standing::Open);
                self.kept.put(Act::Accepted(place, peer));
                AcceptAnswer::Accepted(peer)
            }
            Coming::NoPeer => {
                let Ok(()) = self.script.looked.look_at(door, WatchKind::Peer) else {
                    return AcceptAnswer::Memory;
                };
                self.kept.put(Act::NoPeer(door));
                AcceptAnswer::NoPeer
            }
            Coming::Fault => {
                self.script.peers.use_up(door);
                self.script.looked.forget(door, WatchKind::Peer);
                self.faults = self.faults.saturating_add(1);
                self.kept.put(Act::AcceptFailed(door));
                AcceptAnswer::Failed
            }
        }
    }

    fn read(&mut self, place: Place, into: &mut [u8]) -> ReadAnswer
        requires open { is_open (lookup self.old.held.entries place) ≡ true }
        requires room { 0 < length into.old }
        ensures fits { ReadFits (length into.old) result }
        ensures act { Answered (⟦<MemWorld as World>⟧.seen self.old) (⟦<MemWorld as World>⟧.seen self.new)
            (read_act place into.new result) }
        ensures cause { Rose self.old.faults self.new.faults (is_read_fault result) }
        ensures waitless { Waitless (⟦<MemWorld as World>⟧.seen self.old) (⟦<MemWorld as World>⟧.seen self.new) }
        ensures memory { OnlyWhereTold (told_kept self.old.kept) (wants_read_memory result) }
        ensures script { ReadScripted self.old.script self.new.script place self.old.clock (length into.old) into.new result }
        ensures counted { RaisesCounts self.old.faults self.new.faults self.old.stops self.new.stops (is_read_fault result) false }
    {
        let Ok(()) = self.kept.reserve(self.held.len() + 1) else {
            return ReadAnswer::Memory;
        };
        match look(&self.script.reads, place, self.clock, into) {
            Given::Bytes(count) => {
                let Ok(bytes) = Bytes::of(self.script.allocator(), &into[..count]) else {
                    return ReadAnswer::Memory;
                };
                use_bytes(&mut self.script.reads, place, count);
                self.script.looked.forget(place, WatchKind::Read);
                self.kept.put(Act::Read(place, bytes));
                ReadAnswer::Bytes(count)
            }
            Given::Empty => {
                self.script.reads.use_up(place);
                self.script.looked.forget(place, WatchKind::Read);
                self.kept.put(Act::ReadEmpty(place));
                ReadAnswer::Empty
            }
            Given::End => {
                self.script.reads.use_up(place);
                self.script.looked.forget(place, WatchKind::Read);
                self.kept.put(Act::ReadEnd(place));
                ReadAnswer::End
            }
            Given::NotYet => {
                let Ok(()) = self.script.looked.look_at(place, WatchKind::Read) else {
                    return ReadAnswer::Memory;
                };
                self.kept.put(Act::ReadNotYet(place));
                ReadAnswer::NotYet
            }
            Given::Fault => {
                self.script.reads.use_up(place);
                self.script.looked.forget(place, WatchKind::Read);
                self.faults = self.faults.saturating_add(1);
                self.kept.put(Act::ReadFault(place));
                ReadAnswer::Failed
            }
        }
    }

    fn write(&mut self, place: Place, bytes: &[u8]) -> WriteAnswer
        requires open { lookup self.old.held.entries place ≡ Open }
        requires some { 0 < length bytes.now }
        ensures fits { WriteFits (length bytes.now) result }
        ensures act { Answered (⟦<MemWorld as World>⟧.seen self.old) (⟦<MemWorld as World>⟧.seen self.new)
            (write_act place bytes.now result) }
        ensures cause { Rose self.old.faults self.new.faults (is_write_fault result) }
        ensures waitless { Waitless (⟦<MemWorld as World>⟧.seen self.old) (⟦<MemWorld as World>⟧.seen self.new) }
        ensures memory { OnlyWhereTold (told_kept self.old.kept) (wants_write_memory result) }
        ensures script { WriteScripted self.old.script self.new.script place self.old.clock (length bytes.now) result }
        ensures counted { RaisesCounts self.old.faults self.new.faults self.old.stops self.new.stops (is_write_fault result) false }
    {
        let Ok(()) = self.kept.reserve(self.held.len() + 1) else {
            return WriteAnswer::Memory;
        };
        match room(&self.script.writes, place, self.clock, bytes.len()) {
            TakenNow::Upto(count) => {
                let Ok(taken) = Bytes::of(self.script.allocator(), &bytes[..count]) else {
                    return WriteAnswer::Memory;
                };
                use_write(&mut self.script.writes, place, self.clock);
                self.script.looked.forget(place, WatchKind::Write);
                self.kept.put(Act::Wrote(place, taken));
                WriteAnswer::Took(count)
            }
            TakenNow::NotYet => {
                let Ok(()) = self.script.looked.look_at(place, WatchKind::Write) else {
                    return WriteAnswer::Memory;
                };
                use_write(&mut self.script.writes, place, self.clock);
                self.kept.put(Act::WriteNotYet(place));
                WriteAnswer::NotYet
            }
            TakenNow::Fault => {
                use_write(&mut self.script.writes, place, self.clock);
                self.script.looked.forget(place, WatchKind::Write);
                self.faults = self.faults.saturating_add(1);
                self.kept.put(Act::WriteFault(place));
                WriteAnswer::Failed
            }
        }
    }

    /// Uses an item as a write does. Where that takes some bytes, all are taken.
    fn send(&mut self, place: Place, bytes: &[u8]) -> SendAnswer
        requires open { lookup self.old.held.entries place ≡ Open }
        requires some { 0 < length bytes.now }
        requires packet { length bytes.now ≤ longest_packet }
        ensures act { Answered (⟦<MemWorld as World>⟧.seen self.old) (⟦<MemWorld as World>⟧.seen self.new)
            (send_act place bytes.now result) }
        ensures cause { Rose self.old.faults self.new.faults (is_send_fault result) }
        ensures waitless { Waitless (⟦<MemWorld as World>⟧.seen self.old) (⟦<MemWorld as World>⟧.seen self.new) }
        ensures memory { OnlyWhereTold (told_kept self.old.kept) (wants_send_memory result) }
        ensures script { SendScripted self.old.script self.new.script place self.old.clock (length bytes.now) result }
        ensures counted { RaisesCounts self.old.faults self.new.faults self.old.stops self.new.stops (is_send_fault result) false }
    {
        let Ok(()) = self.kept.reserve(self.held.len() + 1) else {
            return SendAnswer::Memory;
        };
        match room(&self.script.writes, place, self.clock, bytes.len()) {
            TakenNow::Upto(_) => {
                let Ok(taken) = Bytes::of(self.script.allocator(), bytes) else {
                    return SendAnswer::Memory;
                };
                use_write(&mut self.script.writes, place, self.clock);
                self.script.looked.forget(place, WatchKind::Write);
                self.kept.put(Act::Wrote(place, taken));
                SendAnswer::Sent
            }
            TakenNow::NotYet => {
                let Ok(()) = self.script.looked.look_at(place, WatchKind::Write) else {
                    return SendAnswer::Memory;
                };
                use_write(&mut self.script.writes, place, self.clock);
                self.kept.put(Act::WriteNotYet(place));
                SendAnswer::NotYet
            }
            TakenNow::Fault => {
                use_write(&mut self.script.writes, place, self.clock);
                self.script.looked.forget(place, WatchKind::Write);
                self.faults = self.faults.saturating_add(1);
                self.kept.put(Act::WriteFault(place));
                SendAnswer::Failed
            }
        }
    }

    fn shut(&mut self, place: Place, how: Shut) -> ShutAnswer
        requires { lookup self.old.held.entries place ≡ Open }
        ensures act { Answered (⟦<MemWorld as World>⟧.seen self.old) (⟦<MemWorld as World>⟧.seen self.new) (shut_act place how result) }
        ensures cause { Rose self.old.faults self.new.faults (is_shut_fault result) }
        ensures waitless { Waitless (⟦<MemWorld as World>⟧.seen self.old) (⟦<MemWorld as World>⟧.seen self.new) }
        ensures memory { OnlyWhereTold (told_kept self.old.kept) (wants_shut_memory result) }
        ensures script { ShutScripted self.old.script self.new.script place result }
        ensures counted { RaisesCounts self.old.faults self.new.faults self.old.stops self.new.stops (is_shut_fault result) false }
    {
        let Ok(()) = self.kept.reserve(self.held.len() + 1) else {
            return ShutAnswer::Memory;
        };
        self.held.change(place, Standing::ShutDown);
        if self.script.shut_faults.has(place) {
            self.faults = self.faults.saturating_add(1);
            self.kept.put(Act::ShutFault(place, how));
            return ShutAnswer::Failed;
        }
        self.kept.put(Act::Shut(place, how));
        ShutAnswer::Done
    }

    fn close(&mut self, place: Place, why: Why)
        requires { is_free (lookup self.old.held.entries place) ≡ false }
        ensures act { Answered (⟦<MemWorld as World>⟧.seen self.old) (⟦<MemWorld as World>⟧.seen self.new) (close_act place why) }
        ensures faults { self.old.faults ≤ self.new.faults }
        ensures waitless { Waitless (⟦<MemWorld as World>⟧.seen self.old) (⟦<MemWorld as World>⟧.seen self.new) }
        ensures script { CloseScripted self.old.script self.new.script place }
        ensures counted { RaisesCounts self.old.faults self.new.faults self.old.stops self.new.stops false false }
    {
        self.held.remove(place);
        self.script.looked.forget_place(place);
        self.kept.put(Act::Closed(place, why));
    }

    /// Each note is taken.
    fn note(&mut self, text: &[u8]) -> NoteAnswer
        ensures act { Answered (⟦<MemWorld as World>⟧.seen self.old) (⟦<MemWorld as World>⟧.seen self.new) (note_act text.now result) }
        ensures cause { Rose self.old.faults self.new.faults (is_note_fault result) }
        ensures noted { is_note_fault result ≡ false }
        ensures waitless { Waitless (⟦<MemWorld as World>⟧.seen self.old) (⟦<MemWorld as World>⟧.seen self.new) }
        ensures script { self.new.script ≡ self.old.script }
        ensures counted { RaisesCounts self.old.faults self.new.faults self.old.stops self.new.stops (is_note_fault result) false }
    {
        let Ok(()) = self.kept.reserve(self.held.len() + 1) else {
            return NoteAnswer::Memory;
        };
        let Ok(noted) = Bytes::of(self.script.allocator(), text) else {
            return NoteAnswer::Memory;
        };
        self.kept.put(Act::Note(noted));
        NoteAnswer::Noted
    }

    fn reap(&mut self, place: Place) -> ReapAnswer
        requires free { lookup self.old.held.entries place ≡ Free }
        requires once { NotReaped (told_kept self.old.kept) place }
        ensures act { Answered (⟦<MemWorld as World>⟧.seen self.old) (⟦<MemWorld as World>⟧.seen self.new) (reap_act place result) }
        ensures faults { self.old.faults ≤ self.new.faults }
        ensures waitless { Waitless (⟦<MemWorld as World>⟧.seen self.old) (⟦<MemWorld as World>⟧.seen self.new) }
        ensures script { ReapScripted self.old.script self.new.script place result }
        ensures counted { RaisesCounts self.old.faults self.new.faults self.old.stops self.new.stops false false }
    {
        let Ok(()) = self.kept.reserve(self.held.len() + 1) else {
            return ReapAnswer::Memory;
        };
        let next = self.script.end_of(place);
        self.script.reaps.use_up(place);
        match next {
            None => ReapAnswer::NoChild,
            Some(end) => {
                self.kept.put(Act::Reaped(place, end));
                ReapAnswer::Reaped(end)
            }
        }
    }
}
