// What passed a port, for clauses alone.
ghost use Rattle.std.specs.Prelude.{◌≡◌};
ghost use Rattle.port_trait.specs.Passages.{Passage, none_passed, passage_code};
ghost use base.Fml.{ftrue};

use crate::call::PortCall;
use std::marker::Model;

/// What passed a port from its first call on. It has no bytes when the program runs: only clauses read it.
#[derive(Drop)]
pub struct Account {
    pub ghost passed: { Passage } by { passage_code },
}

impl Model for Account {
    ghost also_owns = { λ _. ftrue };
}

impl Account {
    ghost use Rattle.port_trait.specs.Calls.{passed_with};

    /// Nothing passed yet.
    pub fn new() -> Account
        ensures { result.passed ≡ none_passed }
    {
        Account {}
    }

    /// The account with one call more.
    #[inline(always)]
    pub fn with(&self, _call: &PortCall<'_>) -> Account
        ensures { result.passed ≡ passed_with self.now.passed _call.now }
    {
        Account {}
    }
}
