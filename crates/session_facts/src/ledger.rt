// The acts so far, with what each direction owes.
ghost use Rattle.std.specs.Prelude.{◌≡◌, ◌∷◌, [], IfOk};
ghost use Rattle.history_facts.specs.{acts};

use crate::owings::Owings;
use history_facts::Past;
use relay_model::{Act, Config, NoMemory};
use std::alloc::Global;
use std::marker::Model;

/// The acts so far, with all that is asked of them and what each direction owes kept beside them. Contracts see the
/// command and the acts.
#[derive(Drop)]
pub struct Ledger<'a> {
    facts: Past<'a>,
    pub(crate) owings: Owings,
}

impl<'a> Model for Ledger<'a> {
    ghost use Rattle.history_facts.specs.{Chronicle};

    ghost Value = { Chronicle };

    ghost use Rattle.session_facts.specs.Owings.{OwingsTold};

    ghost view = { λ ledger. ledger.facts };

    ghost invariant = { λ ledger. OwingsTold ledger.facts.config ledger.owings ledger.facts.acts };
}

impl<'a> Ledger<'a> {
    /// No acts yet.
    pub fn new(alloc: Global, config: &'a Config) -> Ledger<'a>
        ensures config { result.config ≡ config.now }
        ensures acts { result.acts ≡ [] }
    {
        Ledger {
            facts: Past::new(alloc, config),
            owings: Owings::new(alloc),
        }
    }

    /// The acts without what is owed.
    pub fn facts(&self) -> &Past<'a>
        ensures { result.now ≡ self.now }
    {
        &self.facts
    }

    /// The same with one more act: these acts are that one and all before it.
    pub fn with(
        self,
        alloc: Global,
        act: &Act,
        grown: &'a [&'a Act],
    ) -> Result<Ledger<'a>, NoMemory>
        requires { acts grown.now ≡ act.now ∷ self.acts }
        ensures config { IfOk result (λ ledger. ledger.config ≡ self.entry.config) }
        ensures acts { IfOk result (λ ledger. ledger.acts ≡ act.now ∷ self.entry.acts) }
    {
        let Ledger { facts, mut owings } = self;
        owings.note(alloc, &facts, act)?;
        let facts = facts.with(act, grown)?;
        Ok(Ledger { facts, owings })
    }
}
