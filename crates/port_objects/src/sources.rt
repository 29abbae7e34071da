// A source in memory.
ghost use Rattle.std.specs.Prelude.{◌≡◌, ◌<◌, [], length, Some};
ghost use Rattle.port_trait.specs.Counting.{Counted};
ghost use Rattle.port_trait.specs.{SourceGives, source_failed, source_ended};
ghost use Rattle.port_objects.specs.Sources.{fresh_source, scripted_source};

use port_trait::{Source, SourceGot, copy_front};
use relay_model::Bytes;
use std::marker::Model;

/// Gives its bytes, and then ends or fails.
#[derive(Drop)]
pub struct MemSource {
    bytes: Bytes,
    at: usize,
    ends_well: bool,
    faults: u64,
    ends: u64,
}

impl Model for MemSource {
    ghost use Rattle.std.specs.Prelude.{◌≤◌, length, drop};
    ghost use Rattle.port_objects.specs.Sources.{SourceState};

    ghost Value = { SourceState };

    ghost view = { λ source. record { left = drop source.at source.bytes; ends_well = source.ends_well; faults = source.faults; ends = source.ends } };

    ghost invariant = { λ source. source.at ≤ length source.bytes };
}

impl MemSource {
    /// A source of these bytes. With none left it ends where `ends` is true, and fails otherwise.
    pub fn new(bytes: Bytes, ends: bool) -> MemSource
        ensures { result ≡ fresh_source bytes ends }
    {
        MemSource {
            bytes,
            at: 0,
            ends_well: ends,
            faults: 0,
            ends: 0,
        }
    }
}

impl Source for MemSource {
    ghost left = { λ source. Some source.left };

    ghost faults = { λ source. source.faults };

    ghost ends = { λ source. source.ends };

    /// Answers exactly what is left of the script.
    #[tactic(auto, using(crate::proofs::Pieces::split_off))]
    fn read(&mut self, into: &mut [u8]) -> SourceGot
        requires { 0 < length into.old }
        ensures script { result ≡ scripted_source self.old.left self.old.ends_well (length into.new) }
        ensures ends_well { self.new.ends_well ≡ self.old.ends_well }
        ensures gives { SourceGives (Some self.old.left) (Some self.new.left) into.new result }
        ensures faults { Counted (source_failed result) self.old.faults self.new.faults }
        ensures ends { Counted (source_ended result) self.old.ends self.new.ends }
    {
        let (_, rest) = self.bytes.as_slice().split_at(self.at);
        if rest.is_empty() {
            return self.stop();
        }
        let count = copy_front(rest, into);
        self.at += count;
        SourceGot::Bytes(count)
    }
}

impl MemSource {
    fn stop(&mut self) -> SourceGot
        ensures script { result ≡ scripted_source [] self.old.ends_well 0 }
        ensures kept { (self.new.left ≡ self.old.left) × (self.new.ends_well ≡ self.old.ends_well) }
        ensures faults { Counted (source_failed result) self.old.faults self.new.faults }
        ensures ends { Counted (source_ended result) self.old.ends self.new.ends }
    {
        if self.ends_well {
            self.ends = self.ends.saturating_add(1);
            return SourceGot::End;
        }
        self.faults = self.faults.saturating_add(1);
        SourceGot::Failed
    }
}
