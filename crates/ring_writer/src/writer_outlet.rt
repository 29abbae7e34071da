// A sink that bytes are given to one after another, and what it took of them before its first fault.
ghost use Rattle.std.specs.Prelude.{◌≡◌, ℕ, List, Option, ◌++◌, ◌+◌, ◌-◌, ◌^◌, ◌<◌, ◌≤◌, min, length, not};
ghost use Rattle.std.specs.Io.KnownBytes.{Keeps};
ghost use Rattle.port_trait.specs.Counting.{Counted};
ghost use Rattle.ring_writer.specs.Writer.{Delivers, KeepsUp, HoldsFront, spare_after, faults_after};

use port_trait::{Sink, write_front};

/// A sink, how many bytes it took before it first failed, and how often it did. The numbers stay at their last
/// values.
#[derive(Drop)]
pub(crate) struct Outlet<K> {
    pub(crate) sink: K,
    pub(crate) sound: u64,
    pub(crate) faults: u64,
}

impl<K: Sink> Outlet<K> {
    /// A sink that hasn't failed yet.
    pub(crate) fn new(sink: K) -> Outlet<K>
        ensures sink { result.sink ≡ sink }
        ensures sound { (result.sound ≡ 0) × (result.faults ≡ 0) }
    {
        Outlet {
            sink,
            sound: 0,
            faults: 0,
        }
    }

    /// Writes all bytes, or those before a fault; the rest is dropped. False where the sink failed.
    pub(crate) fn give(&mut self, bytes: &[u8]) -> bool
        ensures delivered { (before : Option (List ℕ)) (given : List ℕ) → Delivers K.took before self.old given
            → Delivers K.took before self.new (given ++ bytes.now) }
        ensures kept_up { (before : Option (List ℕ)) (given : List ℕ) → length bytes.now ≤ 32768
            → KeepsUp K.took before self.old 0 given
            → KeepsUp K.took before self.new (spare_after result) (given ++ bytes.now) }
        ensures held { HoldsFront result (K.holds self.old.sink) (K.holds self.new.sink) bytes.now }
        ensures faults { Counted (not result) (K.faults self.old.sink) (K.faults self.new.sink) }
        ensures seen { self.new.faults ≡ faults_after result self.old.faults }
    {
        let (count, failed) = write_front(&mut self.sink, bytes);
        self.sound = sound_after(self.sound, self.faults, count as u64);
        if failed {
            self.faults = self.faults.saturating_add(1);
            return false;
        }
        true
    }

    /// Nothing more will be given. False where the sink failed.
    pub(crate) fn finish(&mut self) -> bool
        ensures delivered { (before : Option (List ℕ)) (given : List ℕ) → Delivers K.took before self.old given
            → Delivers K.took before self.new given }
        ensures kept_up { (before : Option (List ℕ)) (given : List ℕ) → KeepsUp K.took before self.old 0 given
            → KeepsUp K.took before self.new 0 given }
        ensures faults { Counted (not result) (K.faults self.old.sink) (K.faults self.new.sink) }
        ensures seen { self.new.faults ≡ faults_after result self.old.faults }
        ensures held { Keeps (K.holds self.old.sink) (K.holds self.new.sink) }
        ensures finished { K.finished self.new.sink ≡ result }
    {
        if self.sink.finish() {
            return true;
        }
        self.faults = self.faults.saturating_add(1);
        false
    }
}

/// The number of bytes before the first fault, after so many more were taken.
fn sound_after(sound: u64, faults: u64, count: u64) -> u64
    ensures first { faults ≡ 0 → result ≡ min (sound + count) (2 ^ 64 - 1) }
    ensures later { 0 < faults → result ≡ sound }
{
    if faults > 0 {
        return sound;
    }
    sound.saturating_add(count)
}
