// A socket, as the port over it calls it.
ghost use Rattle.std.specs.Prelude.{◌≡◌, ◌<◌, List, ℕ, length, Option, None};
ghost use Rattle.port_trait.specs.{no_hint, Gives, Accepts, AcceptsWhole, noted, Hint, Got, Settled, Shutting, Took as WriteAnswer};
ghost use Rattle.relay_model.specs.{Shut};

use port_trait::{Got, Hint, Settled, Shutting, Took};
use relay_model::Shut;

/// What bytes or datagrams come from and go to. No call waits, and none counts its answers.
pub trait Socket: Drop {
    // the bytes that it handed out, and those that it accepted
    ghost gave: { Self → Option (List ℕ) } = { λ _. None };

    ghost took: { Self → Option (List ℕ) } = { λ _. None };
    // how it was told that no more will be written, each time
    ghost shuts: { Self → Option (List Shut) } = { λ _. None };
    // what it knows of its readiness by itself; only a call on it changes that
    ghost hints: { Self → Hint } = { λ _. no_hint };
    // what each call answers of it. A contract over any socket can name that answer by these alone, so it holds only of a
    // caller that makes this one call
    ghost answers_settle: { Self → Self → Settled → Type 0 } = { λ _ _ _. Unit {0} };

    ghost answers_receive: { Self → Self → List ℕ → Got → Type 0 } = { λ _ _ _ _. Unit {0} };

    ghost answers_transmit: { Self → Self → List ℕ → WriteAnswer → Type 0 } = { λ _ _ _ _. Unit {0} };

    ghost answers_packet: { Self → Self → List ℕ → WriteAnswer → Type 0 } = { λ _ _ _ _. Unit {0} };

    ghost answers_finish: { Self → Self → Shut → Shutting → Type 0 } = { λ _ _ _ _. Unit {0} };

    /// Whether the connection stands.
    fn settle(&mut self) -> Settled
        ensures answered { answers_settle self.old self.new result }
        ensures kept { (gave self.new ≡ gave self.old) × (took self.new ≡ took self.old) × (shuts self.new ≡ shuts self.old) };

    /// Takes what there is, up to the length of `into`.
    fn receive(&mut self, into: &mut [u8]) -> Got
        requires { 0 < length into.old }
        ensures answered { answers_receive self.old self.new into.new result }
        ensures gives { Gives (gave self.old) (gave self.new) into.new result }
        ensures kept { (took self.new ≡ took self.old) × (shuts self.new ≡ shuts self.old) };

    /// Accepts a front of the bytes.
    fn transmit(&mut self, bytes: &[u8]) -> Took
        requires { 0 < length bytes.now }
        ensures answered { answers_transmit self.old self.new bytes.now result }
        ensures accepts { Accepts (took self.old) (took self.new) bytes.now result }
        ensures kept { (gave self.new ≡ gave self.old) × (shuts self.new ≡ shuts self.old) };

    /// Accepts the bytes as one datagram, or none of them.
    fn transmit_packet(&mut self, bytes: &[u8]) -> Took
        requires { 0 < length bytes.now }
        ensures answered { answers_packet self.old self.new bytes.now result }
        ensures accepts { AcceptsWhole (took self.old) (took self.new) bytes.now result }
        ensures kept { (gave self.new ≡ gave self.old) × (shuts self.new ≡ shuts self.old) };

    /// Passes on that no more bytes will be written.
    fn finish(&mut self, how: Shut) -> Shutting
        ensures answered { answers_finish self.old self.new how result }
        ensures told { shuts self.new ≡ noted how (shuts self.old) }
        ensures kept { (gave self.new ≡ gave self.old) × (took self.new ≡ took self.old) };

    /// What it knows of its readiness by itself.
    fn hint(&self) -> Hint
        ensures { result ≡ hints self.now };
}
