// When an opening or a listening that failed is tried again (socat(1), `retry`, `forever` and `interval`).
#![tactic(auto)]

ghost use Rattle.std.specs.Prelude.{◌≡◌, ℕ, Bool, List, [], ◌∷◌};
ghost use Rattle.retry_plan.specs.Plans.{PlanIs, next_try};

use std::marker::Model;

/// When the next try comes. Moments are milliseconds since the run began.
#[derive(Clone, Copy, PartialEq, Eq)]
pub enum NextTry {
    /// At once: nothing failed yet.
    Now,
    /// From this moment on.
    At(u64),
    /// Tries are left, but the next one would come after the last moment there is.
    Never,
    /// No try is left after so many failures; the count stops at `u64::MAX`.
    GiveUp { attempts: u64 },
}

/// The tries at one place. Contracts see what it keeps; `PlanIs` says for which failures it stands.
#[derive(Clone, Copy)]
pub struct Plan {
    retry: u64,
    forever: bool,
    interval: u64,
    attempts: u64,
    last: Option<u64>,
}

impl Model for Plan {
    ghost use Rattle.retry_plan.specs.Ledger.{PlanLedger};

    ghost Value = { PlanLedger };

    ghost view = { λ plan. record { retry = plan.retry; forever = plan.forever; interval = plan.interval; attempts = plan.attempts; last = plan.last } };

    ghost inverse = { λ ledger. record { retry = ledger.retry; forever = ledger.forever; interval = ledger.interval; attempts = ledger.attempts; last = ledger.last } };
}

impl Plan {
    /// Nothing failed yet. `retry` is how many failures may be followed by a try, where `u64::MAX` stands for
    /// any number, as `forever` does; `interval` is in milliseconds, and 0 is taken as 1.
    pub fn new(retry: u64, forever: bool, interval: u64) -> Plan
        ensures { PlanIs retry forever interval [] result }
    {
        Plan {
            retry,
            forever,
            interval,
            attempts: 0,
            last: None,
        }
    }

    /// A try failed at this moment.
    pub fn failed(&mut self, at: u64)
        ensures { (retry : ℕ) (forever : Bool) (interval : ℕ) (failures : List ℕ)
            → PlanIs retry forever interval failures self.old → PlanIs retry forever interval (at ∷ failures) self.new }
    {
        self.attempts = self.attempts.saturating_add(1);
        self.last = Some(at);
    }

    /// When the next try comes.
    pub fn next(&self) -> NextTry
        ensures { (retry : ℕ) (forever : Bool) (interval : ℕ) (failures : List ℕ)
            → PlanIs retry forever interval failures self.now → result ≡ next_try retry forever interval failures }
    {
        let Some(last) = self.last else {
            return NextTry::Now;
        };
        let attempts = self.attempts;
        let is_endless = self.forever || self.retry == u64::MAX;
        if !is_endless && attempts > self.retry {
            return NextTry::GiveUp { attempts };
        }
        match last.checked_add(self.interval.max(1)) {
            Some(at) => NextTry::At(at),
            None => NextTry::Never,
        }
    }
}
