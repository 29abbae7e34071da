// Pollers wait until something is ready or a moment has come.
ghost use Rattle.std.specs.Prelude.{◌≡◌, ◌≤◌, ℕ, Bool, List, Option, None, IfSome};
ghost use Rattle.port_trait.specs.Counting.{Counted};
ghost use Rattle.relay_model.specs.{Half};
ghost use Rattle.port_trait.specs.declared.pollers.Polled.{Polled};

use crate::keys::KeyList;

/// The moment at which a poll returned, in milliseconds since the run began, and whether the run is to stop.
#[derive(Clone, Copy, PartialEq)]
pub struct Polled {
    pub at: u64,
    pub stop: bool,
}

/// What waits for readiness.
pub trait Poller {
    // what a poll until a moment answers between two states. A contract over any poller can name the answer by this alone,
    // so it holds only of a caller that polls once
    ghost polls: { Self → Option ℕ → Self → Polled → Type 0 } = { λ _ _ _ _. Unit {0} };

    // the entries that the last poll left, empty before the first
    ghost named: { Self → Option (List (ℕ × Half)) } = { λ _. None };

    // whether the last poll said stop
    ghost stopped: { Self → Option Bool } = { λ _. None };

    ghost stops: { Self → ℕ };
    // the moment of the last poll, and the one until which it was asked to wait at most
    ghost clock: { Self → ℕ };

    ghost asked: { Self → Option ℕ };

    /// Empties `ready`, waits, at most until the moment `until`, and names there what is ready.
    fn poll(&mut self, until: Option<u64>, ready: &mut KeyList) -> Polled
        requires { 256 ≤ ready.old.room }
        ensures polled { polls self.old until self.new result }
        ensures asked { asked self.new ≡ until }
        ensures room { ready.new.room ≡ ready.old.room }
        ensures named { IfSome (named self.new) (λ entries. entries ≡ ready.new.entries) }
        ensures stopped { IfSome (stopped self.new) (λ told. told ≡ result.stop) }
        ensures at { (clock self.old ≤ clock self.new) × (result.at ≡ clock self.new) }
        ensures stops { Counted result.stop (stops self.old) (stops self.new) };
}
