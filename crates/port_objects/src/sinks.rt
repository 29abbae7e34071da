// A sink in memory.
ghost use Rattle.std.specs.Prelude.{◌≡◌, ◌<◌, length, min, take, Some, IfOk, true, false};
ghost use Rattle.port_trait.specs.Counting.{Counted};
ghost use Rattle.port_trait.specs.{SinkTakes, sink_failed};
ghost use Rattle.port_objects.specs.Intakes.{fresh_intake, filled};
ghost use Rattle.port_objects.specs.Sinks.{fresh_sink, scripted_sink};

use crate::intake::{Intake, Tap};
use port_trait::{Sink, SinkTook};
use relay_model::NoMemory;
use std::alloc::Global;
use std::marker::Model;

/// Takes what fits, and fails where nothing fits.
#[derive(Drop)]
pub struct MemSink {
    intake: Intake,
    faults: u64,
    finished: bool,
}

impl Model for MemSink {
    ghost use Rattle.port_objects.specs.Sinks.{SinkState};

    ghost Value = { SinkState };

    ghost view = { λ sink. record { intake = sink.intake; faults = sink.faults; finished = sink.finished } };
}

impl MemSink {
    /// A sink with room for so many bytes.
    pub fn new(alloc: Global, room: usize) -> Result<MemSink, NoMemory>
        ensures { IfOk result (λ sink. sink ≡ fresh_sink room) }
    {
        Ok(MemSink {
            intake: Intake::new(alloc, room)?,
            faults: 0,
            finished: false,
        })
    }

    /// A look at what the sink took.
    pub fn tap(&self) -> Tap {
        self.intake.tap()
    }
}

impl Sink for MemSink {
    ghost took = { λ sink. Some sink.intake.bytes };

    ghost faults = { λ sink. sink.faults };

    ghost finished = { λ sink. sink.finished };

    /// Takes what fits.
    fn write(&mut self, bytes: &[u8]) -> SinkTook
        requires { 0 < length bytes.now }
        ensures script { result ≡ scripted_sink self.old.intake.room (length bytes.now) }
        ensures room { self.new.intake ≡ filled self.old.intake (take (min (length bytes.now) self.old.intake.room) bytes.now) }
        ensures takes { SinkTakes (Some self.old.intake.bytes) (Some self.new.intake.bytes) bytes.now result }
        ensures faults { Counted (sink_failed result) self.old.faults self.new.faults }
        ensures finished { self.new.finished ≡ false }
    {
        self.finished = false;
        let count = self.intake.put(bytes);
        if count > 0 {
            return SinkTook::Took(count);
        }
        self.faults = self.faults.saturating_add(1);
        SinkTook::Failed
    }

    fn finish(&mut self) -> bool
        ensures answer { result ≡ true }
        ensures finished { self.new ≡ record self.old { finished = true } }
    {
        self.finished = true;
        true
    }
}
