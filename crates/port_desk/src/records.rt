// What a desk tells of itself: its held places, the acts that it keeps, its counts and the moment of its last turn.
ghost use Rattle.std.specs.Prelude.{◌≡◌, ◌||◌, ◌≤◌, ◌+◌, ◌-◌, [], None, Some, true, false, is_some, length, OnOk, OnErr, IfOk, MatchOption, if◌then◌else◌};
ghost use Rattle.relay_model.specs.{copied_list};
ghost use Rattle.world_trait.specs.{HasAskingRoom, HasRoom, told_by, accept_act, is_accept_fault, is_listen_fault, is_open_fault, is_read_fault};
ghost use Rattle.world_trait.specs.{is_send_fault, is_shut_fault, is_write_fault, listen_act, open_act, read_act, reap_act, send_act, shut_act, write_act};
ghost use Rattle.port_table.specs.{GotFits, TookFits};
ghost use Rattle.desk_places.specs.{shut_answer};
ghost use Rattle.port_desk.specs.Records.{has_no_acts, read_answer, reap_answer, send_answer, write_answer};

use crate::endings::Counts;
use desk_places::PlaceTable;
use port_trait::{Got, PortReap, Shutting, Took};
use relay_model::{Act, Bytes, NoMemory, Place, ReadyList, Shut, Single};
use std::alloc::Global;
use world_trait::{
    AcceptAnswer, ListenAnswer, OpenAnswer, ReadAnswer, ReapAnswer, Recorder, Recording,
    SendAnswer, ShutAnswer, WriteAnswer,
};

/// The held places, the recording, the counts, the moment of the last turn, and whether there was an act. There is
/// always room for the closing of each place.
#[derive(Drop)]
pub struct Log {
    pub places: PlaceTable,
    pub recording: Recording,
    pub counts: Counts,
    pub last: u64,
    pub acted: bool,
    pub alloc: Global,
    ghost room: { HasRoom (length places.entries) recording },
    ghost unacted: { (acted || has_no_acts recording.told) ≡ true },
}

impl Log {
    ghost use Rattle.port_desk.specs.Keeping.{BeginsToKeep, CanAsk, CanKeep, CountsTurn, HasActRoom, Keeps, KeepsAsking, SameButRoom};

    /// Nothing held, kept or counted; takes no memory.
    pub fn new(alloc: Global, recorder: Recorder) -> Log
        ensures places { result.places.entries ≡ [] }
        ensures told { result.recording.told ≡ told_by recorder (record { acts = []; spare = 0 }) (record { pairs = []; spare = 0 }) }
        ensures counts { result.counts ≡ record { faults = 0; waits = 0; stops = 0 } }
        ensures last { result.last ≡ 0 }
        ensures acted { result.acted ≡ false }
    {
        Log {
            places: PlaceTable::new(alloc),
            recording: Recording::new(alloc, recorder),
            counts: Counts {
                faults: 0,
                waits: 0,
                stops: 0,
            },
            last: 0,
            acted: false,
            alloc,
        }
    }

    /// Keeps the acts from now on. Nothing is held.
    pub fn keep(&mut self)
        requires { self.old.places.entries ≡ [] }
        ensures { BeginsToKeep self.old self.new }
    {
        self.recording = Recording::new(self.alloc, Recorder::Keep);
    }

    /// Makes room for `n` further acts beside the closings.
    pub fn reserve(&mut self, n: usize) -> Result<(), NoMemory>
        requires { n ≤ 2 }
        ensures room { OnOk result (HasRoom (length self.new.places.entries + n) self.new.recording) }
        ensures rest { SameButRoom self.old self.new }
        ensures lacked { OnErr result (is_some self.old.recording.told ≡ true) }
    {
        self.recording.reserve(self.places.len() + n)
    }

    /// Makes room for one further act, and a copy of these bytes for it where acts are kept.
    pub fn prepare(&mut self, bytes: &[u8]) -> Result<Option<Bytes>, NoMemory>
        ensures can { IfOk result (λ copy. CanKeep copy bytes.now self.new) }
        ensures rest { SameButRoom self.old self.new }
        ensures lacked { OnErr result (is_some self.old.recording.told ≡ true) }
    {
        self.reserve(1)?;
        self.recording.copy_if_kept(self.alloc, bytes)
    }

    /// Makes room for what is asked, and a copy of it where that is kept.
    pub fn copy_asking(&mut self, single: &Single) -> Result<Option<Single>, NoMemory>
        ensures can { IfOk result (λ copy. CanAsk copy single.now self.new.recording) }
        ensures acts_room { self.new.recording.room ≡ self.old.recording.room }
        ensures rest { SameButRoom self.old self.new }
    {
        self.recording.reserve_asking()?;
        if self.recording.keeps() {
            return Ok(Some(single.copy()?));
        }
        Ok(None)
    }

    /// Keeps the act, where acts are kept, and counts a fault.
    pub fn put(&mut self, act: Act, failed: bool)
        requires { HasActRoom self.old }
        ensures keeps { Keeps (Some act) failed self.old self.new }
        ensures acted { self.new.acted ≡ true }
    {
        self.count(failed);
        self.recording.put(act);
    }

    /// Counts a fault. The act isn't kept, so it need not be made.
    pub fn count(&mut self, failed: bool)
        ensures keeps { Keeps None failed self.old self.new }
        ensures acted { self.new.acted ≡ true }
        ensures room { self.new.recording ≡ self.old.recording }
    {
        self.acted = true;
        if failed {
            self.counts.faults = self.counts.faults.saturating_add(1);
        }
    }

    /// Keeps the act and what was asked, of which there is a copy wherever acts are kept, and counts a fault.
    fn put_asking(&mut self, act: Act, failed: bool, place: Place, copied: Option<Single>)
        requires room { HasActRoom self.old }
        requires asking_room { HasAskingRoom 1 self.old.recording }
        ensures keeps { KeepsAsking place copied (Some act) failed self.old self.new }
        ensures acted { self.new.acted ≡ true }
    {
        self.count(failed);
        if let Some(copy) = copied {
            self.recording.put_asking(act, place, copy);
        }
    }

    /// Keeps what an opening came to.
    pub fn keep_opening(&mut self, place: Place, answer: OpenAnswer, copied: Option<Single>)
        requires room { HasActRoom self.old }
        requires asking_room { HasAskingRoom 1 self.old.recording }
        ensures { KeepsAsking place copied (open_act place answer) (is_open_fault answer) self.old self.new }
    {
        match answer {
            OpenAnswer::Opened => self.put_asking(Act::Opened(place), false, place, copied),
            OpenAnswer::Later => self.put_asking(Act::OpenLater(place), false, place, copied),
            OpenAnswer::Failed => self.put_asking(Act::OpenFailed(place), true, place, copied),
            OpenAnswer::Memory => {}
        }
    }

    /// Keeps what a settling came to.
    pub fn keep_settling(&mut self, place: Place, answer: OpenAnswer)
        requires { HasActRoom self.old }
        ensures { Keeps (open_act place answer) (is_open_fault answer) self.old self.new }
    {
        match answer {
            OpenAnswer::Opened => self.put(Act::Opened(place), false),
            OpenAnswer::Later => self.put(Act::OpenLater(place), false),
            OpenAnswer::Failed => self.put(Act::OpenFailed(place), true),
            OpenAnswer::Memory => {}
        }
    }

    /// Keeps what a listening came to.
    pub fn keep_listening(&mut self, door: Place, answer: ListenAnswer, copied: Option<Single>)
        requires room { HasActRoom self.old }
        requires asking_room { HasAskingRoom 1 self.old.recording }
        ensures { KeepsAsking door copied (listen_act door answer) (is_listen_fault answer) self.old self.new }
    {
        match answer {
            ListenAnswer::Listening => self.put_asking(Act::Listening(door), false, door, copied),
            ListenAnswer::Failed => self.put_asking(Act::ListenFailed(door), true, door, copied),
            ListenAnswer::Memory => {}
        }
    }

    /// Keeps what an accepting came to.
    pub fn keep_accepting(&mut self, door: Place, place: Place, answer: AcceptAnswer)
        requires { HasActRoom self.old }
        ensures { Keeps (accept_act door place answer) (is_accept_fault answer) self.old self.new }
    {
        match answer {
            AcceptAnswer::Accepted(peer) => self.put(Act::Accepted(place, peer), false),
            AcceptAnswer::NoPeer => self.put(Act::NoPeer(door), false),
            AcceptAnswer::Failed => self.put(Act::AcceptFailed(door), true),
            AcceptAnswer::Memory => {}
        }
    }

    /// The answer of a read, whose act it keeps.
    pub fn keep_read(
        &mut self,
        place: Place,
        got: Got,
        copied: Option<Bytes>,
        into: &[u8],
    ) -> ReadAnswer
        requires can { CanKeep copied into.now self.old }
        requires fits { GotFits (length into.now) got }
        ensures answer { result ≡ read_answer got }
        ensures keeps { Keeps (read_act place into.now result) (is_read_fault result) self.old self.new }
    {
        if let (Got::Bytes(count), None) = (got, &copied) {
            self.count(false);
            return ReadAnswer::Bytes(count);
        }
        self.keep_read_act(place, got, copied, into)
    }

    /// The same, where the act is made.
    fn keep_read_act(
        &mut self,
        place: Place,
        got: Got,
        copied: Option<Bytes>,
        into: &[u8],
    ) -> ReadAnswer
        requires can { CanKeep copied into.now self.old }
        requires fits { GotFits (length into.now) got }
        ensures answer { result ≡ read_answer got }
        ensures keeps { Keeps (read_act place into.now result) (is_read_fault result) self.old self.new }
    {
        match got {
            Got::Bytes(count) => {
                match copied {
                    Some(copy) => {
                        let bytes = fit_copy(self.alloc, copy, &into[..count]);
                        self.put(Act::Read(place, bytes), false);
                    }
                    None => self.count(false),
                }
                ReadAnswer::Bytes(count)
            }
            Got::Empty => {
                self.put(Act::ReadEmpty(place), false);
                ReadAnswer::Empty
            }
            Got::End => {
                self.put(Act::ReadEnd(place), false);
                ReadAnswer::End
            }
            Got::NotYet => {
                self.put(Act::ReadNotYet(place), false);
                ReadAnswer::NotYet
            }
            Got::Failed => {
                self.put(Act::ReadFault(place), true);
                ReadAnswer::Failed
            }
        }
    }

    /// The answer of a write, whose act it keeps.
    pub fn keep_write(
        &mut self,
        place: Place,
        took: Took,
        copied: Option<Bytes>,
        bytes: &[u8],
    ) -> WriteAnswer
        requires can { CanKeep copied bytes.now self.old }
        requires fits { TookFits (length bytes.now) took }
        ensures answer { result ≡ write_answer took }
        ensures keeps { Keeps (write_act place bytes.now result) (is_write_fault result) self.old self.new }
    {
        if let (Took::Took(count), None) = (took, &copied) {
            self.count(false);
            return WriteAnswer::Took(count);
        }
        self.keep_write_act(place, took, copied, bytes)
    }

    /// The same, where the act is made.
    fn keep_write_act(
        &mut self,
        place: Place,
        took: Took,
        copied: Option<Bytes>,
        bytes: &[u8],
    ) -> WriteAnswer
        requires can { CanKeep copied bytes.now self.old }
        requires fits { TookFits (length bytes.now) took }
        ensures answer { result ≡ write_answer took }
        ensures keeps { Keeps (write_act place bytes.now result) (is_write_fault result) self.old self.new }
    {
        match took {
            Took::Took(count) => {
                self.put_written(place, copied, &bytes[..count]);
                WriteAnswer::Took(count)
            }
            Took::NotYet => {
                self.put(Act::WriteNotYet(place), false);
                WriteAnswer::NotYet
            }
            Took::Failed => {
                self.put(Act::WriteFault(place), true);
                WriteAnswer::Failed
            }
        }
    }

    /// The answer of a sending, whose act it keeps.
    pub fn keep_send(
        &mut self,
        place: Place,
        took: Took,
        copied: Option<Bytes>,
        bytes: &[u8],
    ) -> SendAnswer
        requires { CanKeep copied bytes.now self.old }
        ensures answer { result ≡ send_answer took }
        ensures keeps { Keeps (send_act place bytes.now result) (is_send_fault result) self.old self.new }
    {
        match took {
            Took::Took(_) => {
                self.put_written(place, copied, bytes);
                SendAnswer::Sent
            }
            Took::NotYet => {
                self.put(Act::WriteNotYet(place), false);
                SendAnswer::NotYet
            }
            Took::Failed => {
                self.put(Act::WriteFault(place), true);
                SendAnswer::Failed
            }
        }
    }

    /// Keeps that these bytes were written, where acts are kept.
    fn put_written(&mut self, place: Place, copied: Option<Bytes>, bytes: &[u8])
        requires { CanKeep copied bytes.now self.old }
        ensures { Keeps (Some (Act.Wrote place bytes.now)) false self.old self.new }
    {
        match copied {
            Some(copy) => {
                let bytes = fit_copy(self.alloc, copy, bytes);
                self.put(Act::Wrote(place, bytes), false);
            }
            None => self.count(false),
        }
    }

    /// The answer of a shut, whose act it keeps.
    pub fn keep_shut(&mut self, place: Place, how: Shut, answer: Shutting) -> ShutAnswer
        requires { HasActRoom self.old }
        ensures answer { result ≡ shut_answer answer }
        ensures keeps { Keeps (shut_act place how result) (is_shut_fault result) self.old self.new }
    {
        match answer {
            Shutting::Done => {
                self.put(Act::Shut(place, how), false);
                ShutAnswer::Done
            }
            Shutting::Failed => {
                self.put(Act::ShutFault(place, how), true);
                ShutAnswer::Failed
            }
        }
    }

    /// The answer of a reaping, whose act it keeps.
    pub fn keep_reap(&mut self, place: Place, answer: PortReap) -> ReapAnswer
        requires { HasActRoom self.old }
        ensures answer { result ≡ reap_answer answer }
        ensures keeps { Keeps (reap_act place result) false self.old self.new }
    {
        match answer {
            PortReap::Reaped(end) => {
                self.put(Act::Reaped(place, end), false);
                ReapAnswer::Reaped(end)
            }
            PortReap::NoChild => ReapAnswer::NoChild,
        }
    }

    /// Keeps that the text was noted, or that this failed.
    pub fn put_note(&mut self, text: &[u8], copied: Option<Bytes>, failed: bool)
        requires { CanKeep copied text.now self.old }
        ensures { Keeps (Some (if failed then Act.NoteFault text.now else Act.Note text.now)) failed self.old self.new }
    {
        let Some(copy) = copied else {
            self.count(failed);
            return;
        };
        let text = fit_copy(self.alloc, copy, text);
        if failed {
            self.put(Act::NoteFault(text), true);
        } else {
            self.put(Act::Note(text), false);
        }
    }

    /// Keeps a turn with these ready halves.
    pub fn put_turn(
        &mut self,
        until: Option<u64>,
        at: u64,
        ready: &ReadyList,
        stop: bool,
    ) -> Result<(), NoMemory>
        requires { HasActRoom self.old }
        ensures ok { OnOk result (Keeps (Some (Act.Turn until at (copied_list ready.now) stop)) false self.old self.new) }
        ensures err { OnErr result (SameButRoom self.old self.new) }
        ensures lacked { OnErr result (is_some self.old.recording.told ≡ true) }
    {
        if self.recording.keeps() {
            let ready = ready.copy()?;
            let turn = Act::Turn {
                until,
                at,
                ready,
                stop,
            };
            self.put(turn, false);
        } else {
            self.count(false);
        }
        Ok(())
    }

    /// Counts a turn, whose moment this is, and its stop.
    pub fn count_turn(&mut self, at: u64, stop: bool)
        ensures { CountsTurn at stop self.old self.new }
    {
        self.last = at;
        self.counts.waits = self.counts.waits.saturating_add(1);
        if stop {
            self.counts.stops = self.counts.stops.saturating_add(1);
        }
    }
}

/// These bytes, in no more memory than they need where there is some, else in the copy.
fn fit_copy(alloc: Global, mut copy: Bytes, bytes: &[u8]) -> Bytes
    requires { length bytes.now ≤ length copy }
    ensures { result ≡ bytes.now }
{
    if bytes.len() < copy.len() {
        if let Ok(exact) = Bytes::of(alloc, bytes) {
            return exact;
        }
    }
    copy.set(bytes);
    copy
}
