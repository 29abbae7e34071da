// The calls of the relay on a desk.
ghost use Rattle.std.specs.Prelude.{◌≡◌, ◌≤◌, ◌<◌, ◌&&◌, None, Some, true, false, find, length, IfSome, IfNone, MatchOption};
ghost use Rattle.slab.specs.Slab.{SameValues};
ghost use Rattle.relay_model.specs.{longest_packet, Place, Free, Open, Settling, is_free, is_open, same_place};
ghost use Rattle.relay_model.specs.declared.places.Half.TheVariants.{ToRead, ToWrite};
ghost use Rattle.world_trait.specs.{OnlyHeldNamed, NotReaped, OnlyWhereTold, ReadFits, WriteFits, accept_act, close_act, listen_act, note_act};
ghost use Rattle.world_trait.specs.{open_act, read_act, reap_act, send_act, shut_act, write_act, is_accept_fault, is_listen_fault, is_note_fault};
ghost use Rattle.world_trait.specs.{is_open_fault, is_read_fault, is_send_fault, is_shut_fault, is_write_fault, wants_read_memory};
ghost use Rattle.world_trait.specs.{wants_send_memory, wants_shut_memory, wants_turn_memory, wants_write_memory};
ghost use Rattle.port_table.specs.{standard_of, AtMade, SameStreams, giving_port, taking_port};
ghost use Rattle.desk_places.specs.{AcceptsOn, Leaves, LeavesPlace, ListensOn, OpensOn, SameBases, SettlesOn, AcceptCause, ListenCause, OpenAsks, OpenCause};
ghost use Rattle.desk_places.specs.{asking, AcceptsMade, LeavesParent, ListensMade, OpensAt, OpensMade, ReapsAnswered, ReapsOut};
ghost use Rattle.desk_places.specs.{SettledAt, is_finished, joined_answer, made_at, AcceptMarks, ListenMarks, OpenMarks};
ghost use Rattle.desk_places.specs.{SettleMarks, base_at, hold_at, is_disarmed, entry_at};
ghost use Rattle.port_desk.specs.Calls.{OnTurned, ReadsSo, SendsSo, ShutsSo, StopsAs, TurnMarks, WritesSo};
ghost use Rattle.port_desk.specs.Desks.{Calls, Ends, KeepsPorts, Marked, Notes, ShutsRow, Turns, read_mark, row_of, seen_of, send_mark};
ghost use Rattle.port_desk.specs.Desks.{shut_ends, write_mark};
ghost use Rattle.port_desk.specs.Whole.{Steps, StepsAsking, Waits};

use crate::beginnings::Beginning;
use crate::desk::Desk;
use desk_places::arm_named;
use port_trait::{Maker, Polled, Poller, Port, Took};
use relay_model::{Act, Peer, Place, ReadyList, Shut, Single, Why};
use world_trait::{
    AcceptAnswer, ListenAnswer, NoteAnswer, OpenAnswer, ReadAnswer, ReapAnswer, SendAnswer,
    ShutAnswer, Turned, World, WriteAnswer,
};

impl<M: Maker + Drop, P: Poller + Drop, I: Port, O: Port, E: Port, B: Beginning> World
    for Desk<M, P, I, O, E, B> {
    ghost seen = { λ d. seen_of d.log };

    /// Names the halves that hint, and those whose key the poller names. Where one hints, the poller doesn't wait.
    fn wait(&mut self, until: Option<u64>, ready: &mut ReadyList) -> Turned
        requires { 256 ≤ ready.old.room }
        ensures room { 256 ≤ ready.new.room }
        ensures turn { Turns until ready.new result self.old.log self.new.log }
        ensures named { OnlyHeldNamed (hold_at self.new.log.places.entries) ready.new.entries result }
        ensures memory { OnlyWhereTold self.old.log.recording.told (wants_turn_memory result) }
        ensures polls { Waits self.old self.new until ready.new.entries result }
        ensures armed { TurnMarks result ready.new.entries (is_disarmed self.old.log.places.entries) (is_disarmed self.new.log.places.entries) }
        ensures ports { KeepsPorts self.old.ports self.new.ports }
        ensures said { StopsAs (P.stops self.old.poller) (P.stops self.new.poller) result }
        ensures at { OnTurned result (self.new.log.last ≡ P.clock self.new.poller) }
        ensures bases { SameBases (base_at self.old.log.places.entries) (base_at self.new.log.places.entries) }
    {
        ready.clear();
        let Ok(()) = self.log.reserve(1) else {
            return Turned::Memory;
        };
        let Polled { at, stop } = self.poll(until, ready);
        let Ok(()) = self.log.put_turn(until, at, ready, stop) else {
            return Turned::Memory;
        };
        arm_named(&mut self.log.places, ready);
        self.log.count_turn(at, stop);
        Turned::Turned { at, stop }
    }

    fn open_place(&mut self, place: Place, single: &Single, behind: Option<Peer>) -> OpenAnswer
        requires { hold_at self.old.log.places.entries place ≡ Free }
        ensures step { StepsAsking self.old self.new (place, single.now) (open_act place result) (is_open_fault result) }
        ensures asked { IfNone (standard_of place single.now.target)
            (OpenAsks place single.now behind (M.seen self.new.ports.maker).asked result) }
        ensures made { IfNone (standard_of place single.now.target)
            (OpenCause (M.makes self.old.ports.maker (asking place single.now behind) self.new.ports.maker) M.Made.seen
            (M.seen self.old.ports.maker) (M.seen self.new.ports.maker) result) }
        ensures begun { IfSome (standard_of place single.now.target) (λ base. OpensAt base self.old.ports.table self.new.ports.table result) }
        ensures streams { IfNone (standard_of place single.now.target) (SameStreams self.old.ports.table self.new.ports.table) }
        ensures ports { MatchOption (standard_of place single.now.target)
            (OpensMade (M.makes self.old.ports.maker (asking place single.now behind) self.new.ports.maker) M.Made.seen place
            (base_at self.new.log.places.entries place) result self.old.ports.table.made self.new.ports.table.made)
            (λ base. SameValues self.old.ports.table.made self.new.ports.table.made) }
        ensures parents { self.new.ports.parents.items ≡ self.old.ports.parents.items }
        ensures marks { OpenMarks place result (is_disarmed self.old.log.places.entries) (is_disarmed self.new.log.places.entries) }
        ensures bases { OpensOn (standard_of place single.now.target) place (base_at self.old.log.places.entries)
            (base_at self.new.log.places.entries) result }
    {
        let Ok(copied) = self.prepare_opening(single) else {
            return OpenAnswer::Memory;
        };
        let answer = self.ports.open(&mut self.log.places, place, single, behind);
        self.log.keep_opening(place, answer, copied);
        answer
    }

    fn settle(&mut self, place: Place) -> OpenAnswer
        requires { hold_at self.old.log.places.entries place ≡ Settling }
        ensures step { Steps self.old self.new (open_act place result) (is_open_fault result) }
        ensures call { IfSome (base_at self.old.log.places.entries place)
            (λ base. SettledAt M.Made.seen (giving_port base) self.old.ports.table self.new.ports.table self.old.ports.parents.items
            self.new.ports.parents.items result) }
        ensures maker { self.new.ports.maker ≡ self.old.ports.maker }
        ensures marks { SettleMarks place result (is_disarmed self.old.log.places.entries) (is_disarmed self.new.log.places.entries) }
        ensures bases { SettlesOn place (base_at self.old.log.places.entries) (base_at self.new.log.places.entries) result }
    {
        let Ok(()) = self.log.reserve(1) else {
            return OpenAnswer::Memory;
        };
        let answer = self.ports.settle(&mut self.log.places, place);
        self.log.keep_settling(place, answer);
        answer
    }

    fn listen(&mut self, door: Place, single: &Single) -> ListenAnswer
        requires { hold_at self.old.log.places.entries door ≡ Free }
        ensures step { StepsAsking self.old self.new (door, single.now) (listen_act door result) (is_listen_fault result) }
        ensures streams { SameStreams self.old.ports.table self.new.ports.table }
        ensures made { ListenCause (M.listens self.old.ports.maker single.now self.new.ports.maker) M.Made.seen
            (M.seen self.old.ports.maker) (M.seen self.new.ports.maker) result }
        ensures ports { ListensMade (M.listens self.old.ports.maker single.now self.new.ports.maker) M.Made.seen door
            (base_at self.new.log.places.entries door) result self.old.ports.table.made self.new.ports.table.made }
        ensures parents { self.new.ports.parents.items ≡ self.old.ports.parents.items }
        ensures marks { ListenMarks door result (is_disarmed self.old.log.places.entries) (is_disarmed self.new.log.places.entries) }
        ensures bases { ListensOn door (base_at self.old.log.places.entries) (base_at self.new.log.places.entries) result }
    {
        let Ok(copied) = self.prepare_opening(single) else {
            return ListenAnswer::Memory;
        };
        let answer = self.ports.listen(&mut self.log.places, door, single);
        self.log.keep_listening(door, answer, copied);
        answer
    }

    fn accept(&mut self, door: Place, place: Place) -> AcceptAnswer
        requires door { hold_at self.old.log.places.entries door ≡ Open }
        requires place { hold_at self.old.log.places.entries place ≡ Free }
        ensures step { Steps self.old self.new (accept_act door place result) (is_accept_fault result) }
        ensures streams { SameStreams self.old.ports.table self.new.ports.table }
        ensures made { AcceptCause (M.accepts self.old.ports.maker self.new.ports.maker) M.Made.seen (M.seen self.old.ports.maker)
            (M.seen self.new.ports.maker) result }
        ensures ports { IfSome (base_at self.old.log.places.entries door)
            (λ base. AtMade (giving_port base) (λ key. AcceptsMade (M.accepts self.old.ports.maker self.new.ports.maker) M.Made.seen key place
            (base_at self.new.log.places.entries place) result self.old.ports.table.made self.new.ports.table.made)
            (SameValues self.old.ports.table.made self.new.ports.table.made)) }
        ensures parents { self.new.ports.parents.items ≡ self.old.ports.parents.items }
        ensures marks { AcceptMarks door place result (is_disarmed self.old.log.places.entries) (is_disarmed self.new.log.places.entries) }
        ensures bases { AcceptsOn place (base_at self.old.log.places.entries) (base_at self.new.log.places.entries) result }
    {
        let Ok(()) = self.prepare_port() else {
            return AcceptAnswer::Memory;
        };
        let answer = self.ports.accept(&mut self.log.places, door, place);
        self.log.keep_accepting(door, place, answer);
        answer
    }

    fn read(&mut self, place: Place, into: &mut [u8]) -> ReadAnswer
        requires open { is_open (hold_at self.old.log.places.entries place) ≡ true }
        requires room { 0 < length into.old }
        ensures fits { ReadFits (length into.old) result }
        ensures step { Steps self.old self.new (read_act place into.new result) (is_read_fault result) }
        ensures memory { OnlyWhereTold self.old.log.recording.told (wants_read_memory result) }
        ensures call { Calls giving_port place self.old.log self.old.ports self.new.ports (ReadsSo into.new result) }
        ensures row { Marked place ToRead (read_mark result) (row_of self.old.log) (row_of self.new.log) }
    {
        let Ok(copied) = self.log.prepare(into) else {
            return ReadAnswer::Memory;
        };
        let got = self.ports.read(&mut self.log.places, place, into);
        self.log.keep_read(place, got, copied, into)
    }

    fn write(&mut self, place: Place, bytes: &[u8]) -> WriteAnswer
        requires open { hold_at self.old.log.places.entries place ≡ Open }
        requires some { 0 < length bytes.now }
        ensures fits { WriteFits (length bytes.now) result }
        ensures step { Steps self.old self.new (write_act place bytes.now result) (is_write_fault result) }
        ensures memory { OnlyWhereTold self.old.log.recording.told (wants_write_memory result) }
        ensures call { Calls taking_port place self.old.log self.old.ports self.new.ports (WritesSo bytes.now result) }
        ensures row { Marked place ToWrite (write_mark result) (row_of self.old.log) (row_of self.new.log) }
    {
        let Ok(copied) = self.log.prepare(bytes) else {
            return WriteAnswer::Memory;
        };
        let took = self.ports.write(&mut self.log.places, place, bytes);
        self.log.keep_write(place, took, copied, bytes)
    }

    fn send(&mut self, place: Place, bytes: &[u8]) -> SendAnswer
        requires open { hold_at self.old.log.places.entries place ≡ Open }
        requires some { 0 < length bytes.now }
        requires packet { length bytes.now ≤ longest_packet }
        ensures step { Steps self.old self.new (send_act place bytes.now result) (is_send_fault result) }
        ensures memory { OnlyWhereTold self.old.log.recording.told (wants_send_memory result) }
        ensures call { Calls taking_port place self.old.log self.old.ports self.new.ports (SendsSo bytes.now result) }
        ensures row { Marked place ToWrite (send_mark result) (row_of self.old.log) (row_of self.new.log) }
    {
        let Ok(copied) = self.log.prepare(bytes) else {
            return SendAnswer::Memory;
        };
        let took = self.ports.send(&mut self.log.places, place, bytes);
        self.log.keep_send(place, took, copied, bytes)
    }

    fn shut(&mut self, place: Place, how: Shut) -> ShutAnswer
        requires { hold_at self.old.log.places.entries place ≡ Open }
        ensures step { Steps self.old self.new (shut_act place how result) (is_shut_fault result) }
        ensures memory { OnlyWhereTold self.old.log.recording.told (wants_shut_memory result) }
        ensures call { Ends (shut_ends how result) taking_port place self.old.log self.old.ports self.new.ports (ShutsSo how result) }
        ensures row { ShutsRow place how result (row_of self.old.log) (row_of self.new.log) }
    {
        let Ok(()) = self.log.reserve(1) else {
            return ShutAnswer::Memory;
        };
        let answer = self.ports.shut(&mut self.log.places, place, how);
        self.log.keep_shut(place, how, answer)
    }

    /// With the cause `Finished` it joins a made port whose output was finished, and may wait for that.
    fn close(&mut self, place: Place, why: Why)
        requires { is_free (hold_at self.old.log.places.entries place) ≡ false }
        ensures step { Steps self.old self.new (close_act place why) false }
        ensures streams { SameStreams self.old.ports.table self.new.ports.table }
        ensures joined { IfSome (entry_at self.old.log.places.entries place)
            (λ s. self.new.joined ≡ joined_answer (s.finished && is_finished why) (made_at self.old.ports.table.made s.base)) }
        ensures parents { IfSome (entry_at self.old.log.places.entries place)
            (λ s. LeavesParent (s.finished && is_finished why) (made_at self.old.ports.table.made s.base) self.old.ports.parents.items
            self.new.ports.parents.items) }
        ensures left { LeavesPlace place self.old.log.places.entries self.new.log.places.entries self.old.ports self.new.ports }
        ensures bases { Leaves place (base_at self.old.log.places.entries) (base_at self.new.log.places.entries) }
    {
        self.joined = self.ports.close(&mut self.log.places, place, why);
        self.log.put(Act::Closed(place, why), false);
    }

    /// Writes the text to standard error, which is begun first.
    fn note(&mut self, text: &[u8]) -> NoteAnswer
        ensures step { Steps self.old self.new (note_act text.now result) (is_note_fault result) }
        ensures call { Notes text.now result self.old.ports self.new.ports }
        ensures row { self.new.log.places.entries ≡ self.old.log.places.entries }
    {
        let Ok(copied) = self.log.prepare(text) else {
            return NoteAnswer::Memory;
        };
        match self.ports.table.note(text) {
            None => NoteAnswer::Memory,
            Some(Took::Took(_)) => {
                self.log.put_note(text, copied, false);
                NoteAnswer::Noted
            }
            Some(Took::Failed) => {
                self.log.put_note(text, copied, true);
                NoteAnswer::Failed
            }
            Some(Took::NotYet) => unreachable!(),
        }
    }

    /// Asks the port of the place, if it was kept for its child.
    fn reap(&mut self, place: Place) -> ReapAnswer
        requires free { hold_at self.old.log.places.entries place ≡ Free }
        requires once { NotReaped self.old.log.recording.told place }
        ensures step { Steps self.old self.new (reap_act place result) false }
        ensures ports { (self.new.ports.table ≡ self.old.ports.table) × (self.new.ports.maker ≡ self.old.ports.maker) }
        ensures reaped { ReapsAnswered (find (λ b. same_place b.place place) self.old.ports.parents.items) result }
        ensures parents { ReapsOut place result self.old.ports.parents.items self.new.ports.parents.items }
        ensures row { self.new.log.places.entries ≡ self.old.log.places.entries }
    {
        let Ok(()) = self.log.reserve(1) else {
            return ReapAnswer::Memory;
        };
        let answer = self.ports.reap(place);
        self.log.keep_reap(place, answer)
    }
}
