// A reader as a port.
ghost use Rattle.std.specs.Prelude.{◌≡◌, ◌<◌, ◌≤◌, ◌+◌, ◌-◌, ◌^◌, ◌++◌, ◌∷◌, min, [], true, false, length, Some, None};
ghost use Rattle.port_trait.specs.{all_hints, OnJoined, Begins, StandsBegun, Settles, Reads, Writes, Sends, PutsAll, Shuts, HintsSo, Reaps, JoinsSo};
ghost use Rattle.port_trait.specs.declared.answers.Begun.TheVariants as begins;
ghost use Rattle.port_trait.specs.declared.answers.Got.TheVariants as reads;
ghost use Rattle.port_trait.specs.declared.answers.Took.TheVariants as writes;
ghost use Rattle.port_trait.specs.declared.answers.Settled.TheVariants as settles;
ghost use Rattle.port_trait.specs.declared.answers.Shutting.TheVariants as shuts;
ghost use Rattle.port_trait.specs.declared.answers.PortReap.TheVariants as reaps;
ghost use Rattle.ring_reader.specs.Readers.{reader_seen, BeginStep, misused_reader, ReadStep, KeptByRead, TellsSource, is_of_mark};

use crate::reader::RingReader;
use crate::reader_stage::ReaderStage;
use crate::reader_steps::{ask_again, find_empty, finish, has_some, next};
use port_trait::{
    Account, Begun, Got, Hint, Joining, Port, PortCall, PortCounts, PortReap, Settled, Shutting,
    Source, Took,
};
use relay_model::Shut;
use ring_queue::RingItem;
use std::mem;
use std::sync::Wait;
use std::thread::Threads;

/// Counts that a read came too early.
fn nothing_yet(counts: &mut PortCounts) -> Got
    ensures answer { result ≡ reads.NotYet }
    ensures value { counts.new ≡ record counts.old { stalls = min (counts.old.stalls + 1) (2 ^ 64 - 1) } }
{
    counts.count_stall();
    Got::NotYet
}

impl<S, R> Port for RingReader<S, R>
where
    S: Source + Drop,
    R: Threads + Wait + Copy,
{
    ghost seen = { reader_seen };

    /// Lets the thread begin. It fails exactly where no thread could be made.
    fn begin(&mut self) -> Begun
        ensures again { self.old.begun ≡ true → (result ≡ begins.Begun) × (self.new ≡ self.old) }
        ensures step { BeginStep self.old self.new result }
        ensures begins { Begins (reader_seen self.old) (reader_seen self.new) result }
        ensures stands { StandsBegun (reader_seen self.old) (reader_seen self.new) result }
        ensures misused { self.new.tally.misuses ≤ self.new.tally.counts.faults }
        ensures empties { self.new.tally.counts.empties ≡ self.old.tally.counts.empties }
    {
        if self.stage.is_begun() {
            return Begun::Begun;
        }
        let ReaderStage::Waiting(task) = mem::replace(&mut self.stage, ReaderStage::Refused) else {
            self.tally.count_misuse();
            return Begun::Failed;
        };
        self.hold.begin();
        self.stage = ReaderStage::Running(task);
        Begun::Begun
    }

    fn settle(&mut self) -> Settled
        ensures ready { result ≡ settles.Ready }
        ensures same { self.new ≡ self.old }
        ensures settles { Settles (reader_seen self.old) (reader_seen self.new) result }
    {
        Settled::Ready
    }

    /// Gives the rest of the chunk that is held, else takes one item. After a mark it asks for more first. Of a
    /// thread that doesn't run nothing comes.
    fn read(&mut self, into: &mut [u8]) -> Got
        requires { 0 < length into.old }
        ensures reads { Reads (reader_seen self.old) (reader_seen self.new) into.new result }
        ensures step { ReadStep self.old self.new into.new result }
        ensures marked { self.new.marked ≡ is_of_mark result }
        ensures kept { KeptByRead self.old self.new }
    {
        self.ended = false;
        let marked = self.marked;
        self.marked = false;
        if !self.held.is_empty() {
            return Got::Bytes(self.held.give(into));
        }
        let rt = self.rt;
        if !self.stage.is_running() {
            find_empty(&rt, &self.lines, &mut self.items);
            return nothing_yet(&mut self.tally.counts);
        }
        ask_again(&rt, &self.lines, &mut self.words, marked);
        match next(&rt, &self.lines, &mut self.pace, &mut self.items) {
            None => nothing_yet(&mut self.tally.counts),
            Some(RingItem::Chunk(chunk)) => {
                self.held.put(&rt, &self.lines.pages, chunk);
                Got::Bytes(self.held.give(into))
            }
            Some(RingItem::End(_)) => {
                self.marked = true;
                self.ended = true;
                self.tally.counts.count_end();
                Got::End
            }
            Some(RingItem::Fault(_)) => {
                self.marked = true;
                self.tally.counts.count_fault();
                Got::Failed
            }
        }
    }

    fn write(&mut self, bytes: &[u8]) -> Took
        ensures failed { result ≡ writes.Failed }
        ensures same { self.new ≡ misused_reader self.old }
        ensures writes { Writes (reader_seen self.old) (reader_seen self.new) bytes.now result }
    {
        let _ = bytes;
        self.tally.count_misuse();
        Took::Failed
    }

    fn send(&mut self, bytes: &[u8]) -> Took
        ensures failed { result ≡ writes.Failed }
        ensures same { self.new ≡ misused_reader self.old }
        ensures sends { Sends (reader_seen self.old) (reader_seen self.new) bytes.now result }
    {
        let _ = bytes;
        self.tally.count_misuse();
        Took::Failed
    }

    fn put_all(&mut self, bytes: &[u8]) -> Took
        ensures failed { result ≡ writes.Failed }
        ensures same { self.new ≡ misused_reader self.old }
        ensures puts { PutsAll (reader_seen self.old) (reader_seen self.new) bytes.now result }
    {
        let _ = bytes;
        self.tally.count_misuse();
        Took::Failed
    }

    fn shut(&mut self, how: Shut) -> Shutting
        ensures done { result ≡ shuts.Done }
        ensures same { self.new ≡ record self.old { shuts = self.old.shuts ++ how ∷ [] } }
        ensures shuts { Shuts (reader_seen self.old) (reader_seen self.new) how result }
    {
        self.account = self.account.with(&PortCall::Shut(how));
        Shutting::Done
    }

    fn hint(&mut self) -> Hint
        ensures same { self.new ≡ self.old }
        ensures hints { HintsSo (reader_seen self.old) (reader_seen self.new) result }
    {
        Hint {
            readable: !self.held.is_empty() || has_some(&self.lines, &mut self.items),
            writable: false,
        }
    }

    fn may_hint(&self) -> Hint
        ensures { result ≡ all_hints }
    {
        Hint::all()
    }

    fn has_child(&self) -> bool
        ensures { result ≡ false }
    {
        false
    }

    fn reap(&mut self) -> PortReap
        ensures reaped { result ≡ reaps.NoChild }
        ensures same { self.new ≡ self.old }
        ensures reaps { Reaps (reader_seen self.old) (reader_seen self.new) result }
    {
        PortReap::NoChild
    }

    /// Stops the thread where the last item taken was a mark, and waits for it.
    fn join(&mut self) -> Joining
        ensures joins { JoinsSo (reader_seen self.old) (reader_seen self.new) result }
        ensures same { self.new ≡ record self.old { behind = self.new.behind } }
        ensures source { OnJoined result (TellsSource self.new) }
    {
        if !self.stage.is_begun() {
            return Joining::Joined;
        }
        if !self.marked {
            return Joining::Running;
        }
        if !self.stage.is_running() {
            return Joining::Joined;
        }
        let ReaderStage::Running(task) = mem::replace(&mut self.stage, ReaderStage::Refused) else {
            unreachable!()
        };
        let rt = self.rt;
        let source = finish(
            &rt,
            &self.lines,
            &self.start,
            &mut self.items,
            &mut self.words,
            task,
        );
        self.stage = ReaderStage::Over(source);
        Joining::Joined
    }
}
