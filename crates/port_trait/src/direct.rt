// Ports that call their source or sink in the call itself, which may block.
ghost use Rattle.std.specs.Prelude.{◌≡◌, ◌≢◌, ◌<◌, Bool, true, false, not, length};
ghost use Rattle.port_trait.specs.Counting.{Tallied, Counted};
ghost use Rattle.port_trait.specs.Direct.{WriteRefused, fresh_reading, fresh_writing, with_fault};
ghost use Rattle.port_trait.specs.Hinting.{no_hint};
ghost use Rattle.port_trait.specs.Meanings.{AcceptsAll, is_end, read_event, write_event, shut_event, is_write_fault, is_shut_fault, IsOfStream};
ghost use Rattle.port_trait.specs.Ports.{untold};
ghost use Rattle.port_trait.specs.Streams.{SourceGives, SinkTakes, ReaderGives, WriterTakes, WriterTakesAll, source_failed, source_ended, sink_failed, as_source_answer, as_sink_answer, finishes};
ghost use Rattle.std.specs.Io.KnownBytes.{Keeps};
ghost use Rattle.port_trait.specs.declared.answers.Begun.TheVariants as begins;
ghost use Rattle.port_trait.specs.declared.answers.Settled.TheVariants as settles;
ghost use Rattle.port_trait.specs.declared.answers.Got.TheVariants as reads;
ghost use Rattle.port_trait.specs.declared.answers.Took.TheVariants as writes;
ghost use Rattle.port_trait.specs.declared.answers.Shutting.TheVariants as shuts;
ghost use Rattle.port_trait.specs.declared.answers.PortReap.TheVariants as reaps;
ghost use Rattle.port_trait.specs.declared.answers.Joining.TheVariants as joining;

use crate::answers::{
    Begun, Got, Hint, Joining, PortReap, Settled, Shutting, SinkTook, SourceGot, Took,
};
use crate::counts::PortCounts;
use crate::ports::Port;
use crate::streams::{Sink, Source};
use crate::texts::write_front;
use relay_model::Shut;
use std::marker::Model;

/// The port of a source. Its other half fails.
#[derive(Drop)]
pub struct DirectReader<S> {
    pub source: S,
    counts: PortCounts,
    begun: bool,
    ended: bool,
}

impl<S> Model for DirectReader<S> {
    ghost use Rattle.port_trait.specs.Direct.{DirectReading};

    ghost Value = { DirectReading S };

    ghost view = { λ port. record { source = port.source; counts = port.counts; begun = port.begun; ended = port.ended } };
}

impl<S: Source> DirectReader<S> {
    /// Reads from this source.
    pub fn new(source: S) -> DirectReader<S>
        ensures { result ≡ fresh_reading source }
    {
        DirectReader {
            source,
            counts: PortCounts::new(),
            begun: false,
            ended: false,
        }
    }
}

impl<S: Source + Drop> Port for DirectReader<S> {
    ghost seen = { λ port. record untold { hinting = no_hint; counts = port.counts; begun = port.begun; ended = port.ended } };

    fn begin(&mut self) -> Begun
        ensures begun { result ≡ begins.Begun }
        ensures kept { self.new ≡ record self.old { begun = true } }
    {
        self.begun = true;
        Begun::Begun
    }

    fn settle(&mut self) -> Settled
        ensures ready { result ≡ settles.Ready }
        ensures kept { self.new ≡ self.old }
    {
        Settled::Ready
    }

    /// Reads from the source, and answers as it does.
    fn read(&mut self, into: &mut [u8]) -> Got
        requires { 0 < length into.old }
        ensures source { SourceGives (S.left self.old.source) (S.left self.new.source) into.new (as_source_answer result) }
        ensures rest { ReaderGives (S.rest self.old.source) (S.rest self.new.source) into.new (as_source_answer result) }
        ensures source_faults { Counted (source_failed (as_source_answer result)) (S.faults self.old.source) (S.faults self.new.source) }
        ensures source_ends { Counted (source_ended (as_source_answer result)) (S.ends self.old.source) (S.ends self.new.source) }
        ensures stream { IsOfStream result }
        ensures ended { self.new.ended ≡ is_end result }
        ensures kept { self.new.begun ≡ self.old.begun }
        ensures counts { Tallied (read_event result) self.old.counts self.new.counts }
    {
        match self.source.read(into) {
            SourceGot::Bytes(count) => {
                self.ended = false;
                Got::Bytes(count)
            }
            SourceGot::End => {
                self.ended = true;
                self.counts.count_end();
                Got::End
            }
            SourceGot::Failed => {
                self.ended = false;
                self.counts.count_fault();
                Got::Failed
            }
        }
    }

    fn write(&mut self, _bytes: &[u8]) -> Took
        ensures refused { WriteRefused result self.old.counts self.new.counts }
        ensures kept { self.new ≡ record self.old { counts = self.new.counts } }
    {
        self.counts.count_fault();
        Took::Failed
    }

    fn send(&mut self, _bytes: &[u8]) -> Took
        ensures refused { WriteRefused result self.old.counts self.new.counts }
        ensures kept { self.new ≡ record self.old { counts = self.new.counts } }
    {
        self.counts.count_fault();
        Took::Failed
    }

    fn put_all(&mut self, _bytes: &[u8]) -> Took
        ensures refused { WriteRefused result self.old.counts self.new.counts }
        ensures kept { self.new ≡ record self.old { counts = self.new.counts } }
    {
        self.counts.count_fault();
        Took::Failed
    }

    fn shut(&mut self, _how: Shut) -> Shutting
        ensures done { result ≡ shuts.Done }
        ensures kept { self.new ≡ self.old }
    {
        Shutting::Done
    }

    fn hint(&mut self) -> Hint
        ensures hinted { result ≡ no_hint }
        ensures kept { self.new ≡ self.old }
    {
        Hint::none()
    }

    fn may_hint(&self) -> Hint
        ensures { result ≡ no_hint }
    {
        Hint::none()
    }

    fn has_child(&self) -> bool
        ensures { result ≡ false }
    {
        false
    }

    fn reap(&mut self) -> PortReap
        ensures none { result ≡ reaps.NoChild }
        ensures kept { self.new ≡ self.old }
    {
        PortReap::NoChild
    }

    fn join(&mut self) -> Joining
        ensures joined { result ≡ joining.Joined }
        ensures kept { self.new ≡ self.old }
    {
        Joining::Joined
    }
}

/// The port of a sink. Its other half fails.
#[derive(Drop)]
pub struct DirectWriter<K> {
    pub sink: K,
    counts: PortCounts,
    begun: bool,
    ended: bool,
}

impl<K> Model for DirectWriter<K> {
    ghost use Rattle.port_trait.specs.Direct.{DirectWriting};

    ghost Value = { DirectWriting K };

    ghost view = { λ port. record { sink = port.sink; counts = port.counts; begun = port.begun; ended = port.ended } };
}

impl<K: Sink> DirectWriter<K> {
    /// Writes to this sink.
    pub fn new(sink: K) -> DirectWriter<K>
        ensures { result ≡ fresh_writing sink }
    {
        DirectWriter {
            sink,
            counts: PortCounts::new(),
            begun: false,
            ended: false,
        }
    }
}

impl<K: Sink + Drop> Port for DirectWriter<K> {
    ghost seen = { λ port. record untold { hinting = no_hint; counts = port.counts; begun = port.begun; ended = port.ended } };

    fn begin(&mut self) -> Begun
        ensures begun { result ≡ begins.Begun }
        ensures kept { self.new ≡ record self.old { begun = true } }
    {
        self.begun = true;
        Begun::Begun
    }

    fn settle(&mut self) -> Settled
        ensures ready { result ≡ settles.Ready }
        ensures kept { self.new ≡ self.old }
    {
        Settled::Ready
    }

    fn read(&mut self, _into: &mut [u8]) -> Got
        ensures failed { result ≡ reads.Failed }
        ensures untouched { _into.new ≡ _into.old }
        ensures counted { self.new ≡ record self.old { counts = with_fault self.old.counts; ended = false } }
        ensures counts { Tallied (read_event result) self.old.counts self.new.counts }
    {
        self.ended = false;
        self.counts.count_fault();
        Got::Failed
    }

    /// Writes to the sink, and answers as it does.
    fn write(&mut self, bytes: &[u8]) -> Took
        requires { 0 < length bytes.now }
        ensures sink { SinkTakes (K.took self.old.sink) (K.took self.new.sink) bytes.now (as_sink_answer result) }
        ensures held { WriterTakes (K.holds self.old.sink) (K.holds self.new.sink) bytes.now (as_sink_answer result) }
        ensures sink_faults { Counted (sink_failed (as_sink_answer result)) (K.faults self.old.sink) (K.faults self.new.sink) }
        ensures no_stall { result ≢ writes.NotYet }
        ensures kept { (self.new.begun ≡ self.old.begun) × (self.new.ended ≡ self.old.ended) }
        ensures counts { Tallied (write_event result) self.old.counts self.new.counts }
    {
        match self.sink.write(bytes) {
            SinkTook::Took(count) => Took::Took(count),
            SinkTook::Failed => {
                self.counts.count_fault();
                Took::Failed
            }
        }
    }

    fn send(&mut self, _bytes: &[u8]) -> Took
        ensures refused { WriteRefused result self.old.counts self.new.counts }
        ensures kept { self.new ≡ record self.old { counts = self.new.counts } }
    {
        self.counts.count_fault();
        Took::Failed
    }

    /// Writes all bytes to the sink, one write after another, or as many as it takes before its first fault.
    fn put_all(&mut self, bytes: &[u8]) -> Took
        ensures sink { AcceptsAll (K.took self.old.sink) (K.took self.new.sink) bytes.now result }
        ensures held { WriterTakesAll (K.holds self.old.sink) (K.holds self.new.sink) bytes.now result }
        ensures sink_faults { Counted (is_write_fault result) (K.faults self.old.sink) (K.faults self.new.sink) }
        ensures kept { (self.new.begun ≡ self.old.begun) × (self.new.ended ≡ self.old.ended) }
        ensures counts { Tallied (write_event result) self.old.counts self.new.counts }
    {
        let (count, failed) = write_front(&mut self.sink, bytes);
        if failed {
            self.counts.count_fault();
            return Took::Failed;
        }
        Took::Took(count)
    }

    /// Finishes the sink at `Down` and `Close`.
    fn shut(&mut self, how: Shut) -> Shutting
        ensures sink { K.took self.new.sink ≡ K.took self.old.sink }
        ensures held { Keeps (K.holds self.old.sink) (K.holds self.new.sink) }
        ensures finished { finishes how ≡ true → K.finished self.new.sink ≡ not (is_shut_fault result) }
        ensures sink_faults { Counted (is_shut_fault result) (K.faults self.old.sink) (K.faults self.new.sink) }
        ensures untouched { finishes how ≡ false → (result ≡ shuts.Done) × (self.new ≡ self.old) }
        ensures kept { (self.new.begun ≡ self.old.begun) × (self.new.ended ≡ self.old.ended) }
        ensures counts { Tallied (shut_event result) self.old.counts self.new.counts }
    {
        match how {
            Shut::Down | Shut::Close => {
                if self.sink.finish() {
                    return Shutting::Done;
                }
                self.counts.count_fault();
                Shutting::Failed
            }
            Shut::Nothing | Shut::Null => Shutting::Done,
        }
    }

    fn hint(&mut self) -> Hint
        ensures hinted { result ≡ no_hint }
        ensures kept { self.new ≡ self.old }
    {
        Hint::none()
    }

    fn may_hint(&self) -> Hint
        ensures { result ≡ no_hint }
    {
        Hint::none()
    }

    fn has_child(&self) -> bool
        ensures { result ≡ false }
    {
        false
    }

    fn reap(&mut self) -> PortReap
        ensures none { result ≡ reaps.NoChild }
        ensures kept { self.new ≡ self.old }
    {
        PortReap::NoChild
    }

    fn join(&mut self) -> Joining
        ensures joined { result ≡ joining.Joined }
        ensures kept { self.new ≡ self.old }
    {
        Joining::Joined
    }
}
