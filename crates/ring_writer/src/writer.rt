// The port of a sink that a thread writes to.
ghost use Rattle.std.specs.Prelude.{◌≡◌, ◌<◌, ◌≤◌, ◌+◌, ◌-◌, ◌++◌, ◌∷◌, [], true, false, length, IfOk, IfSome, IsSome};
ghost use Rattle.port_trait.specs.{Rose, finishes, all_hints, OnJoined, Begins, StandsBegun, Settles, Reads, Writes, Sends, PutsAll, Shuts, HintsSo};
ghost use Rattle.port_trait.specs.{Reaps, JoinsSo};
ghost use Rattle.port_trait.specs.declared.answers.Begun.TheVariants as begins;
ghost use Rattle.port_trait.specs.declared.answers.Got.TheVariants as reads;
ghost use Rattle.port_trait.specs.declared.answers.Took.TheVariants as writes;
ghost use Rattle.port_trait.specs.declared.answers.Settled.TheVariants as settles;
ghost use Rattle.port_trait.specs.declared.answers.Shutting.TheVariants as shuts;
ghost use Rattle.port_trait.specs.declared.answers.PortReap.TheVariants as reaps;
ghost use Rattle.ring_writer.specs.WriterRing.{IsBehind, is_open, may_join};
ghost use Rattle.ring_writer.specs.Writers.{misused_writer, writer_seen, WriterBeginStep, WriterWrites, WriterPutsAll, fresh_writer, line_after_shut};

use crate::fresh_writer::FreshWriter;
use crate::writer_stages::WriterStage;
use port_trait::{
    Account, Begun, Got, Hint, Joining, Port, PortCall, PortReap, Settled, Shutting, Sink, Spawner,
    Took, Wake,
};
use relay_model::{NoMemory, Shut};
use ring_queue::{RingTally, SinkFault, ThreadHold};
use std::alloc::Global;
use std::marker::Model;
use std::mem;
use std::sync::Wait;
use std::thread::Threads;

/// A ring whose thread writes to a sink that may block. Its other half fails.
#[derive(Drop)]
pub struct RingWriter<K, R>
where
    K: Sink + Drop,
{
    pub(crate) rt: R,
    pub(crate) _hold: ThreadHold<SinkFault>,
    pub(crate) stage: WriterStage<K>,
    pub(crate) tally: RingTally,
    pub(crate) account: Account,
}

impl<K, R> Model for RingWriter<K, R>
where
    K: Sink + Drop,
{
    ghost use Rattle.ring_writer.specs.Writers.{WriterState};

    ghost Value = { WriterState };

    ghost use Rattle.ring_writer.specs.WriterRing.{WriterStands, line_of};
    ghost use Rattle.ring_queue.specs.{IsTallied};

    ghost view = { λ w. record { line = line_of K.took K.faults K.finished w.stage; tally = w.tally; shuts = w.account.passed.shuts } };

    ghost invariant = { λ w. WriterStands K.took K.faults K.finished w.stage
        × IsTallied w.tally.misuses (line_of K.took K.faults K.finished w.stage).marks 0 w.tally.counts };
}

impl<K: Sink + Send + Drop + 'static, R: Threads + Wait + Copy + Send + 'static> RingWriter<K, R> {
    /// A ring that is to write to this sink. Its queue has room for 64 items of at most 512 bytes. The thread is
    /// made here, as is all else that takes memory, and sleeps until something is put; where it can't be made, the
    /// sink is dropped, and `begin` fails. Once the ring is dropped, the thread writes what was put, and ends.
    pub fn new<P: Spawner<Runtime = R>, W: Wake + Send + Drop + 'static>(
        alloc: Global,
        sink: K,
        spawner: &mut P,
        wake: W,
    ) -> Result<RingWriter<K, R>, NoMemory>
        ensures grows { P.faults spawner.old ≤ P.faults spawner.new }
        ensures fresh { IfOk result (λ ring. ring ≡ fresh_writer (K.took sink) ring.line.refused) }
        ensures refused { IfOk result (λ ring. ring.line.refused ≡ true → Rose (P.faults spawner.old) (P.faults spawner.new)) }
    {
        let rt = *spawner.threads();
        Ok(FreshWriter::new(alloc, sink, spawner, wake)?.attach(rt))
    }
}

impl<K, R> Port for RingWriter<K, R>
where
    K: Sink + Drop,
    R: Threads + Wait + Copy,
{
    ghost seen = { writer_seen };

    /// Lets bytes be put. It fails exactly where no thread could be made.
    fn begin(&mut self) -> Begun
        ensures again { self.old.line.begun ≡ true → (result ≡ begins.Begun) × (self.new ≡ self.old) }
        ensures step { WriterBeginStep self.old self.new result }
        ensures begins { Begins (writer_seen self.old) (writer_seen self.new) result }
        ensures stands { StandsBegun (writer_seen self.old) (writer_seen self.new) result }
        ensures misused { self.new.tally.misuses ≤ self.new.tally.counts.faults }
        ensures empties { self.new.tally.counts.empties ≡ self.old.tally.counts.empties }
    {
        match self.stage.begin() {
            Begun::Begun => Begun::Begun,
            Begun::Memory => Begun::Memory,
            Begun::Failed => {
                self.tally.count_misuse();
                Begun::Failed
            }
        }
    }

    fn settle(&mut self) -> Settled
        ensures ready { result ≡ settles.Ready }
        ensures same { self.new ≡ self.old }
        ensures settles { Settles (writer_seen self.old) (writer_seen self.new) result }
    {
        Settled::Ready
    }

    fn read(&mut self, into: &mut [u8]) -> Got
        requires { 0 < length into.old }
        ensures failed { result ≡ reads.Failed }
        ensures misused { self.new ≡ misused_writer self.old }
        ensures reads { Reads (writer_seen self.old) (writer_seen self.new) into.new result }
    {
        let _ = into;
        self.tally.count_misuse();
        Got::Failed
    }

    /// Puts one chunk of at most 512 bytes.
    fn write(&mut self, bytes: &[u8]) -> Took
        requires { 0 < length bytes.now }
        ensures writes { Writes (writer_seen self.old) (writer_seen self.new) bytes.now result }
        ensures step { WriterWrites (is_open self.old.line) self.old self.new bytes.now result }
        ensures refused { self.new.line.refused ≡ self.old.line.refused }
        ensures empties { self.new.tally.counts.empties ≡ self.old.tally.counts.empties }
    {
        if !self.stage.is_open() {
            self.tally.count_misuse();
            return Took::Failed;
        }
        let rt = self.rt;
        match self.stage.put(&rt, bytes) {
            Took::Took(count) => Took::Took(count),
            Took::NotYet => {
                self.tally.counts.count_stall();
                Took::NotYet
            }
            Took::Failed => {
                self.tally.counts.count_fault();
                Took::Failed
            }
        }
    }

    fn send(&mut self, bytes: &[u8]) -> Took
        requires { 0 < length bytes.now }
        ensures failed { result ≡ writes.Failed }
        ensures misused { self.new ≡ misused_writer self.old }
        ensures sends { Sends (writer_seen self.old) (writer_seen self.new) bytes.now result }
        ensures empties { self.new.tally.counts.empties ≡ self.old.tally.counts.empties }
    {
        let _ = bytes;
        self.tally.count_misuse();
        Took::Failed
    }

    /// Puts all bytes in chunks, and waits for room.
    fn put_all(&mut self, bytes: &[u8]) -> Took
        ensures puts { PutsAll (writer_seen self.old) (writer_seen self.new) bytes.now result }
        ensures step { WriterPutsAll (is_open self.old.line) self.old self.new bytes.now result }
        ensures refused { self.new.line.refused ≡ self.old.line.refused }
        ensures empties { self.new.tally.counts.empties ≡ self.old.tally.counts.empties }
    {
        if !self.stage.is_open() {
            self.tally.count_misuse();
            return Took::Failed;
        }
        let rt = self.rt;
        let (count, failed) = self.stage.put_all(&rt, bytes);
        if failed {
            self.tally.counts.count_fault();
            return Took::Failed;
        }
        Took::Took(count)
    }

    /// Puts the end mark at the first `Down` or `Close` after the begin, and waits for room.
    fn shut(&mut self, how: Shut) -> Shutting
        ensures done { result ≡ shuts.Done }
        ensures line { self.new.line ≡ line_after_shut (finishes how) self.old.line }
        ensures same { self.new ≡ record self.old { line = self.new.line; shuts = self.old.shuts ++ how ∷ [] } }
        ensures shuts { Shuts (writer_seen self.old) (writer_seen self.new) how result }
    {
        self.account = self.account.with(&PortCall::Shut(how));
        match how {
            Shut::Nothing | Shut::Null => Shutting::Done,
            Shut::Down | Shut::Close => {
                if self.stage.is_open() {
                    let rt = self.rt;
                    self.stage.end(&rt);
                }
                Shutting::Done
            }
        }
    }

    /// Writable where there is room, or where the next write tells of a fault.
    fn hint(&mut self) -> Hint
        ensures same { self.new ≡ self.old }
        ensures hints { HintsSo (writer_seen self.old) (writer_seen self.new) result }
    {
        Hint {
            readable: false,
            writable: self.stage.is_ready(),
        }
    }

    fn may_hint(&self) -> Hint
        ensures { result ≡ all_hints }
    {
        Hint::all()
    }

    fn has_child(&self) -> bool
        ensures { result ≡ false }
    {
        false
    }

    fn reap(&mut self) -> PortReap
        ensures reaped { result ≡ reaps.NoChild }
        ensures same { self.new ≡ self.old }
        ensures reaps { Reaps (writer_seen self.old) (writer_seen self.new) result }
    {
        PortReap::NoChild
    }

    /// Waits for the thread where the end mark was put.
    fn join(&mut self) -> Joining
        ensures joins { JoinsSo (writer_seen self.old) (writer_seen self.new) result }
        ensures same { self.new ≡ record self.old { line = record self.old.line { behind = self.new.line.behind } } }
        ensures knows { OnJoined result (self.new.line.begun ≡ true → IsSome self.new.line.behind) }
        ensures shows { OnJoined result (IfSome self.new.line.behind (IsBehind self.new.line)) }
        ensures no_ends { self.new.tally.counts.ends ≡ 0 }
    {
        if !self.stage.may_join() {
            return Joining::Running;
        }
        let stage = mem::replace(&mut self.stage, WriterStage::Refused);
        self.stage = stage.join(&self.rt);
        Joining::Joined
    }
}
