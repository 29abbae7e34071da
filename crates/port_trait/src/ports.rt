// A port is one end of a transfer: standard input, a file, a socket, a child.
ghost use Rattle.std.specs.Prelude.{◌≡◌, ◌<◌, true, length};
ghost use Rattle.port_trait.specs.Ports.{PortSeen, Begins, StandsBegun, Settles, Reads, Writes, Sends, PutsAll, Shuts, HintsSo, MayHint, Reaps, JoinsSo};
ghost use Rattle.port_trait.specs.declared.answers.Begun.TheVariants as begins;
ghost use Rattle.port_trait.specs.declared.answers.Settled.{Settled};
ghost use Rattle.port_trait.specs.declared.answers.Shutting.{Shutting};
ghost use Rattle.relay_model.specs.{Shut};

use crate::answers::{Begun, Got, Hint, Joining, PortReap, Settled, Shutting, Took};
use relay_model::Shut;

/// One end of a transfer. No call but `put_all` and `join`, and a `shut` of some ports, waits for another
/// thread. `begin` comes before any other call.
pub trait Port: Drop {
    // what contracts see of it
    ghost seen: { Self → PortSeen };
    // what a `settle` and a `shut` answer of it. A contract over any port can name that answer by these alone, so it
    // holds only of a caller that makes this one call
    ghost answers_settle: { Self → Self → Settled → Type 0 } = { λ _ _ _. Unit {0} };

    ghost answers_shut: { Self → Self → Shut → Shutting → Type 0 } = { λ _ _ _ _. Unit {0} };

    /// Makes the port ready for the other calls. On a port that has begun it changes nothing.
    fn begin(&mut self) -> Begun
        ensures again { (seen self.old).begun ≡ true → (result ≡ begins.Begun) × (self.new ≡ self.old) }
        ensures begins { Begins (seen self.old) (seen self.new) result }
        ensures stands { StandsBegun (seen self.old) (seen self.new) result };

    /// Asks once, without waiting, whether what was begun stands.
    fn settle(&mut self) -> Settled
        ensures answered { answers_settle self.old self.new result }
        ensures settles { Settles (seen self.old) (seen self.new) result };

    /// Takes what there is, up to the length of `into`. A read after `End` or `Failed` asks once more.
    fn read(&mut self, into: &mut [u8]) -> Got
        requires { 0 < length into.old }
        ensures { Reads (seen self.old) (seen self.new) into.new result };

    /// Accepts a front of the bytes.
    fn write(&mut self, bytes: &[u8]) -> Took
        requires { 0 < length bytes.now }
        ensures { Writes (seen self.old) (seen self.new) bytes.now result };

    /// Accepts the bytes as one packet, or none of them. A port without packets fails.
    fn send(&mut self, bytes: &[u8]) -> Took
        requires { 0 < length bytes.now }
        ensures { Sends (seen self.old) (seen self.new) bytes.now result };

    /// Accepts all bytes, and may wait for room. Where it fails, a front of them was accepted.
    fn put_all(&mut self, bytes: &[u8]) -> Took
        ensures { PutsAll (seen self.old) (seen self.new) bytes.now result };

    /// Passes on that no more bytes will be written.
    fn shut(&mut self, how: Shut) -> Shutting
        ensures answered { answers_shut self.old self.new how result }
        ensures shuts { Shuts (seen self.old) (seen self.new) how result };

    /// What the port knows of its readiness by itself.
    fn hint(&mut self) -> Hint
        ensures { HintsSo (seen self.old) (seen self.new) result };

    /// The halves that a hint may tell of, whatever comes but a call on the port. At others nobody has to ask it before.
    fn may_hint(&self) -> Hint
        ensures { MayHint (seen self.now) result };

    /// Whether the port has a child, which a `reap` asks for.
    fn has_child(&self) -> bool
        ensures { result ≡ (seen self.now).child };

    /// Asks once, without waiting, how the port's child stands.
    fn reap(&mut self) -> PortReap
        ensures { Reaps (seen self.old) (seen self.new) result };

    /// Waits for the thread that works for the port, if that has come to an end of its work.
    fn join(&mut self) -> Joining
        ensures { JoinsSo (seen self.old) (seen self.new) result };
}
