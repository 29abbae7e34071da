// The outside of the relay: every call on it is one act of the history.
ghost use Rattle.std.specs.Prelude.{◌≡◌, ◌≤◌, ◌<◌, true, false, length};
ghost use Rattle.relay_model.specs.{longest_packet, Free, Settling, Open, is_free, is_open};
ghost use Rattle.world_trait.specs.Answers.{Answered, AnsweredAsking, Rose, OnlyHeldNamed, OnlyWhereTold, NotReaped, WaitCounts, ReadFits, WriteFits, wait_act, open_act, listen_act, accept_act, read_act, write_act, send_act, shut_act, close_act, note_act, reap_act, is_open_fault, is_listen_fault, is_accept_fault, is_read_fault, is_write_fault, is_send_fault, is_shut_fault, is_note_fault, wants_turn_memory, wants_read_memory, wants_write_memory, wants_send_memory, wants_shut_memory};
ghost use Rattle.world_trait.specs.Seen.{Seen, Waitless};

use crate::answers::{
    AcceptAnswer, ListenAnswer, NoteAnswer, OpenAnswer, ReadAnswer, ReapAnswer, SendAnswer,
    ShutAnswer, Turned, WriteAnswer,
};
use relay_model::{Peer, Place, ReadyList, Shut, Single, Why};

/// Everything that the relay does outside of itself. A world that keeps its history tells it.
pub trait World {
    ghost seen: { Self → Seen };

    /// Waits until some half that wasn't ready is, at the latest until the moment `until`. The list is emptied
    /// first, and then names the ready halves, each of something that is held.
    fn wait(&mut self, until: Option<u64>, ready: &mut ReadyList) -> Turned
        requires { 256 ≤ ready.old.room }
        ensures room { 256 ≤ ready.new.room }
        ensures act { Answered (seen self.old) (seen self.new) (wait_act until ready.new result) }
        ensures counts { WaitCounts (seen self.old) (seen self.new) result }
        ensures faults { (seen self.old).faults ≤ (seen self.new).faults }
        ensures named { OnlyHeldNamed (seen self.new).held ready.new.entries result }
        ensures memory { OnlyWhereTold (seen self.old).told (wants_turn_memory result) };

    /// Opens what the address names. `behind` is the peer on whose behalf it is opened.
    fn open_place(&mut self, place: Place, single: &Single, behind: Option<Peer>) -> OpenAnswer
        requires { (seen self.old).held place ≡ Free }
        ensures act { AnsweredAsking (place, single.now) (seen self.old) (seen self.new) (open_act place result) }
        ensures cause { Rose (seen self.old).faults (seen self.new).faults (is_open_fault result) }
        ensures waitless { Waitless (seen self.old) (seen self.new) };

    /// Goes on with an opening that is under way.
    fn settle(&mut self, place: Place) -> OpenAnswer
        requires { (seen self.old).held place ≡ Settling }
        ensures act { Answered (seen self.old) (seen self.new) (open_act place result) }
        ensures cause { Rose (seen self.old).faults (seen self.new).faults (is_open_fault result) }
        ensures waitless { Waitless (seen self.old) (seen self.new) };

    /// Listens at a door for what the address names.
    fn listen(&mut self, door: Place, single: &Single) -> ListenAnswer
        requires { (seen self.old).held door ≡ Free }
        ensures act { AnsweredAsking (door, single.now) (seen self.old) (seen self.new) (listen_act door result) }
        ensures cause { Rose (seen self.old).faults (seen self.new).faults (is_listen_fault result) }
        ensures waitless { Waitless (seen self.old) (seen self.new) };

    /// Opens a place for the next peer that comes to a door.
    fn accept(&mut self, door: Place, place: Place) -> AcceptAnswer
        requires door { (seen self.old).held door ≡ Open }
        requires place { (seen self.old).held place ≡ Free }
        ensures act { Answered (seen self.old) (seen self.new) (accept_act door place result) }
        ensures cause { Rose (seen self.old).faults (seen self.new).faults (is_accept_fault result) }
        ensures waitless { Waitless (seen self.old) (seen self.new) };

    /// Reads into the front of `into`. A place that was shut is read all the same.
    fn read(&mut self, place: Place, into: &mut [u8]) -> ReadAnswer
        requires open { is_open ((seen self.old).held place) ≡ true }
        requires room { 0 < length into.old }
        ensures fits { ReadFits (length into.old) result }
        ensures act { Answered (seen self.old) (seen self.new) (read_act place into.new result) }
        ensures cause { Rose (seen self.old).faults (seen self.new).faults (is_read_fault result) }
        ensures waitless { Waitless (seen self.old) (seen self.new) }
        ensures memory { OnlyWhereTold (seen self.old).told (wants_read_memory result) };

    /// Writes from the front of `bytes`.
    fn write(&mut self, place: Place, bytes: &[u8]) -> WriteAnswer
        requires open { (seen self.old).held place ≡ Open }
        requires some { 0 < length bytes.now }
        ensures fits { WriteFits (length bytes.now) result }
        ensures act { Answered (seen self.old) (seen self.new) (write_act place bytes.now result) }
        ensures cause { Rose (seen self.old).faults (seen self.new).faults (is_write_fault result) }
        ensures waitless { Waitless (seen self.old) (seen self.new) }
        ensures memory { OnlyWhereTold (seen self.old).told (wants_write_memory result) };

    /// Writes all of `bytes` as one packet, or nothing.
    fn send(&mut self, place: Place, bytes: &[u8]) -> SendAnswer
        requires open { (seen self.old).held place ≡ Open }
        requires some { 0 < length bytes.now }
        requires packet { length bytes.now ≤ longest_packet }
        ensures act { Answered (seen self.old) (seen self.new) (send_act place bytes.now result) }
        ensures cause { Rose (seen self.old).faults (seen self.new).faults (is_send_fault result) }
        ensures waitless { Waitless (seen self.old) (seen self.new) }
        ensures memory { OnlyWhereTold (seen self.old).told (wants_send_memory result) };

    /// Passes the end of a direction on.
    fn shut(&mut self, place: Place, how: Shut) -> ShutAnswer
        requires { (seen self.old).held place ≡ Open }
        ensures act { Answered (seen self.old) (seen self.new) (shut_act place how result) }
        ensures cause { Rose (seen self.old).faults (seen self.new).faults (is_shut_fault result) }
        ensures waitless { Waitless (seen self.old) (seen self.new) }
        ensures memory { OnlyWhereTold (seen self.old).told (wants_shut_memory result) };

    /// Closes what is held there, and takes no memory.
    fn close(&mut self, place: Place, why: Why)
        requires { is_free ((seen self.old).held place) ≡ false }
        ensures act { Answered (seen self.old) (seen self.new) (close_act place why) }
        ensures faults { (seen self.old).faults ≤ (seen self.new).faults }
        ensures waitless { Waitless (seen self.old) (seen self.new) };

    /// Writes the whole text to standard error, for a person to read; it may wait for room. It stands at no place.
    /// Any world may want memory for it, as for a copy of the text.
    fn note(&mut self, text: &[u8]) -> NoteAnswer
        ensures act { Answered (seen self.old) (seen self.new) (note_act text.now result) }
        ensures cause { Rose (seen self.old).faults (seen self.new).faults (is_note_fault result) }
        ensures waitless { Waitless (seen self.old) (seen self.new) };

    /// Asks once what became of the child of a place that was closed.
    fn reap(&mut self, place: Place) -> ReapAnswer
        requires free { (seen self.old).held place ≡ Free }
        requires once { NotReaped (seen self.old).told place }
        ensures act { Answered (seen self.old) (seen self.new) (reap_act place result) }
        ensures faults { (seen self.old).faults ≤ (seen self.new).faults }
        ensures waitless { Waitless (seen self.old) (seen self.new) };
}
