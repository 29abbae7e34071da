// A source that nobody asks for anything before its port has begun.
ghost use Rattle.std.specs.Prelude.{◌≡◌, ◌<◌, true, false, length};
ghost use Rattle.port_trait.specs.Counting.{Counted};
ghost use Rattle.port_trait.specs.{SourceGives, ReaderGives, source_failed, source_ended};

use port_trait::{Source, SourceGot};
use ring_queue::{Lines, Word};
use std::snapshot::Snapshot;
use std::sync::Wait;

/// A source behind a gate, which opens once the port has begun. The source is reached through an open gate alone.
#[derive(Drop)]
pub(crate) struct Gate<S> {
    source: S,
    begun: bool,
}

impl<S> Gate<S> {
    /// The gate is shut.
    pub(crate) fn new(source: S) -> Gate<S>
        ensures { result ≡ record { source = source; begun = false } }
    {
        Gate {
            source,
            begun: false,
        }
    }

    /// The source as it stands, for clauses.
    pub(crate) fn snapshot(&self) -> Snapshot<S>
        ensures { result.value ≡ self.now.source }
    {
        Snapshot::of(&self.source)
    }

    /// Waits until the port begins, and opens. False where the port is gone.
    pub(crate) fn wait<R: Wait>(&mut self, rt: &R, lines: &Lines<Word>) -> bool
        ensures { self.new ≡ record self.old { begun = result } }
    {
        self.begun = lines.state.wait(rt, &lines.thread);
        self.begun
    }

    /// Hands out the source.
    pub(crate) fn into_source(self) -> S
        requires { self.begun ≡ true }
        ensures { result ≡ self.source }
    {
        self.source
    }
}

impl<S: Source> Gate<S> {
    /// Reads the source.
    pub(crate) fn read(&mut self, into: &mut [u8]) -> SourceGot
        requires room { 0 < length into.old }
        requires begun { self.old.begun ≡ true }
        ensures begun { self.new.begun ≡ true }
        ensures gives { SourceGives (S.left self.old.source) (S.left self.new.source) into.new result }
        ensures rest { ReaderGives (S.rest self.old.source) (S.rest self.new.source) into.new result }
        ensures faults { Counted (source_failed result) (S.faults self.old.source) (S.faults self.new.source) }
        ensures ends { Counted (source_ended result) (S.ends self.old.source) (S.ends self.new.source) }
    {
        self.source.read(into)
    }
}
