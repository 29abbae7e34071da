// A run at a glance: what its acts say of each session.
ghost use Rattle.std.specs.Prelude.{◌≡◌, ◌∷◌, ◌<◌, ◌≤◌, ◌^◌, [], length, option_map, IfOk};
ghost use Rattle.history_facts.specs.{acts};
ghost use Rattle.relay_model.specs.{now, put, got, admitted, numbers, moved_at, closed_why, outcome};
ghost use Rattle.journal_table.specs.Visits.{met_at, child_at, began_at, ended_at};

use crate::visits::Visits;
use command_places::has_fork;
use history_facts::{Past, admitted_count};
use relay_model::{Act, ChildEnd, Config, NoMemory, Peer, Place, RunOutcome};
use session_facts::{holds, numbers, outcome_of};
use std::alloc::Global;
use std::marker::Model;

/// The acts of a run, fewer than 2^32, with what they say of each session kept beside them. Contracts see the command
/// and the acts, newest first.
#[derive(Drop)]
pub struct Overview<'a> {
    past: Past<'a>,
    visits: Visits,
}

impl<'a> Model for Overview<'a> {
    ghost use Rattle.std.specs.Prelude.{◌<◌, ◌^◌, length};
    ghost use Rattle.history_facts.specs.{Chronicle};
    ghost use Rattle.journal_table.specs.Told.{VisitsTold};

    ghost Value = { Chronicle };

    ghost view = { λ overview. overview.past };

    ghost invariant = { λ overview. VisitsTold overview.past.config overview.visits overview.past.acts × (length overview.past.acts < 2 ^ 32) };
}

impl<'a> Overview<'a> {
    /// No acts yet.
    fn new(alloc: Global, config: &'a Config) -> Overview<'a>
        ensures config { result.config ≡ config.now }
        ensures acts { result.acts ≡ [] }
    {
        Overview {
            past: Past::new(alloc, config),
            visits: Visits::new(alloc),
        }
    }

    /// The same with one more act: these acts are that one and all before it.
    #[tactic(auto, using(crate::proofs::Few::admitted_few))]
    fn with(self, act: &Act, grown: &'a [&'a Act]) -> Result<Overview<'a>, NoMemory>
        requires grown { acts grown.now ≡ act.now ∷ self.acts }
        requires few { length (acts grown.now) < 2 ^ 32 }
        ensures config { IfOk result (λ overview. overview.config ≡ self.entry.config) }
        ensures acts { IfOk result (λ overview. overview.acts ≡ act.now ∷ self.entry.acts) }
    {
        let Overview { past, mut visits } = self;
        visits.note(
            past.config(),
            act,
            history_facts::now(&past),
            admitted_count(&past),
        )?;
        let past = past.with(act, grown)?;
        Ok(Overview { past, visits })
    }

    /// The command.
    pub fn config(&self) -> &'a Config
        ensures { result.now ≡ self.now.config }
    {
        self.past.config()
    }

    /// The acts, so far as they are known, in answers of their own.
    pub fn facts(&self) -> &Past<'a>
        ensures { result.now ≡ self.now }
    {
        &self.past
    }

    /// The sessions that have begun are those with numbers below this.
    #[tactic(auto, using(crate::proofs::Few::admitted_few))]
    pub fn sessions(&self) -> u32
        ensures { result ≡ numbers self.now.config self.now.acts }
    {
        numbers(&self.past)
    }

    /// How the run ended, once nothing is held.
    #[tactic(auto, using(crate::proofs::Few::admitted_few))]
    pub fn outcome(&self) -> Option<RunOutcome>
        ensures { result ≡ outcome self.now.config self.now.acts }
    {
        outcome_of(&self.past)
    }

    /// The last permitted peer that came to the place.
    pub fn peer(&self, place: Place) -> Option<Peer>
        ensures { result ≡ met_at self.now.config self.now.acts place }
    {
        self.visits.met.at(place)
    }

    /// What was last learnt of the child of the place.
    pub fn child(&self, place: Place) -> Option<ChildEnd>
        ensures { result ≡ child_at self.now.acts place }
    {
        self.visits.children.at(place)
    }

    /// The moment at which the session began.
    pub fn begin_moment(&self, session: u32) -> Option<u64>
        ensures { result ≡ began_at self.now.config self.now.acts session }
    {
        if has_fork(self.config()) {
            self.visits.began.at(u64::from(session))
        } else if session == 0 {
            Some(0)
        } else {
            None
        }
    }

    /// The moment at which the session ended.
    pub fn end_moment(&self, session: u32) -> Option<u64>
        ensures { result ≡ ended_at self.now.config self.now.acts session }
    {
        if holds(&self.past, session) {
            None
        } else {
            self.visits.closed.at(u64::from(session))
        }
    }
}

/// What these acts of the command say, the newest first.
pub fn overview_of<'a>(
    alloc: Global,
    config: &'a Config,
    all: &'a [&'a Act],
) -> Result<Overview<'a>, NoMemory>
    requires { length all.now < 2 ^ 32 }
    ensures config { IfOk result (λ overview. overview.config ≡ config.now) }
    ensures acts { IfOk result (λ overview. overview.acts ≡ acts all.now) }
{
    let mut overview = Overview::new(alloc, config);
    let mut k = all.len();
    while k > 0 {
        k -= 1;
        let act: &Act = all[k];
        overview = overview.with(act, &all[k..])?;
    }
    Ok(overview)
}
