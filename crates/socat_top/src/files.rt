// A sink that is a file of a name.
ghost use Rattle.std.specs.Prelude.{◌≡◌, ℕ, List, true, false, not};
ghost use Rattle.port_trait.specs.Counting.{Counted};

use port_objects::MemSink;
use port_trait::Sink;

/// A sink for a journal, whose file has to be made before it takes anything.
pub trait JournalFile: Sink {
    // a call for the file of that name led from the one to the other, and made it
    ghost creates: { Self → List ℕ → Self → Type 0 } = { λ _ _ _. Unit {0} };
    // a call for the file of that name led from the one to the other, and made none
    ghost refuses: { Self → List ℕ → Self → Type 0 } = { λ _ _ _. Unit {0} };

    /// Makes the file of this name, and empties one that is there. False is a fault.
    fn create(&mut self, name: &[u8]) -> bool
        ensures created { result ≡ true → creates self.old name.now self.new }
        ensures refused { result ≡ false → refuses self.old name.now self.new }
        ensures kept { Self.took self.new ≡ Self.took self.old }
        ensures faults { Counted (not result) (Self.faults self.old) (Self.faults self.new) };
}

impl JournalFile for MemSink {
    /// Needs no file.
    fn create(&mut self, _name: &[u8]) -> bool
        ensures made { result ≡ true }
        ensures kept { self.new ≡ self.old }
    {
        true
    }
}
