// The acts so far, with all that is asked of them kept beside them.
ghost use Rattle.std.specs.Prelude.{◌≡◌, ◌∷◌, List, [], IfOk, OnOk};
ghost use Rattle.relay_model.specs.{Act};
ghost use Rattle.history_facts.specs.Pasts.{acts};
ghost use Rattle.history_facts.specs.Told.{AllTold};

use crate::armings::Armings;
use crate::clock::TurnFacts;
use crate::openings::OpeningFacts;
use crate::sessions::SessionFacts;
use crate::traffic::Traffic;
use relay_model::{Act, Config, NoMemory};
use std::alloc::Global;
use std::marker::Model;

/// The acts so far, newest first, and the command that they are judged by. What is asked of them stands in tables,
/// so that an answer doesn't walk through them. Contracts see the command and the acts.
#[derive(Drop)]
pub struct Past<'a> {
    config: &'a Config,
    acts: &'a [&'a Act],
    pub(crate) clock: TurnFacts,
    pub(crate) openings: OpeningFacts,
    pub(crate) armings: Armings,
    pub(crate) traffic: Traffic,
    pub(crate) sessions: SessionFacts,
}

impl<'a> Model for Past<'a> {
    ghost use Rattle.history_facts.specs.Pasts.{Chronicle, seen};

    ghost Value = { Chronicle };

    ghost use Rattle.history_facts.specs.Told.{AllTold};

    ghost view = { λ past. seen past.config.now past.acts.now };

    ghost invariant = { λ past. AllTold (seen past.config.now past.acts.now) past.clock past.openings past.armings past.traffic past.sessions };
}

/// Takes one more act into what is kept.
fn note_act(
    config: &Config,
    act: &Act,
    clock: &mut TurnFacts,
    openings: &mut OpeningFacts,
    armings: &mut Armings,
    traffic: &mut Traffic,
    sessions: &mut SessionFacts,
) -> Result<(), NoMemory>
    ensures { OnOk result ((before : List Act) → AllTold (record { config = config.now; acts = before }) clock.old openings.old armings.old traffic.old sessions.old
        → AllTold (record { config = config.now; acts = act.now ∷ before }) clock.new openings.new armings.new traffic.new sessions.new) }
{
    let at = clock.now;
    openings.note(act, at)?;
    armings.note(config, act, at, clock.turn)?;
    traffic.note(act, at)?;
    sessions.note(config, act, at)?;
    clock.note(act)
}

impl<'a> Past<'a> {
    /// No acts yet.
    pub fn new(alloc: Global, config: &'a Config) -> Past<'a>
        ensures config { result.config ≡ config.now }
        ensures acts { result.acts ≡ [] }
    {
        Past {
            config,
            acts: &[],
            clock: TurnFacts::new(),
            openings: OpeningFacts::new(alloc),
            armings: Armings::new(alloc),
            traffic: Traffic::new(alloc),
            sessions: SessionFacts::new(alloc),
        }
    }

    /// The command.
    pub fn config(&self) -> &'a Config
        ensures { result.now ≡ self.now.config }
    {
        self.config
    }

    /// The acts, newest first.
    pub fn acts(&self) -> &'a [&'a Act]
        ensures { acts result.now ≡ self.now.acts }
    {
        self.acts
    }

    /// The same with one more act: these acts are that one and all before it.
    pub fn with(self, act: &Act, grown: &'a [&'a Act]) -> Result<Past<'a>, NoMemory>
        requires { acts grown.now ≡ act.now ∷ self.acts }
        ensures config { IfOk result (λ past. past.config ≡ self.entry.config) }
        ensures acts { IfOk result (λ past. past.acts ≡ act.now ∷ self.entry.acts) }
    {
        let Past {
            config,
            acts: _,
            mut clock,
            mut openings,
            mut armings,
            mut traffic,
            mut sessions,
        } = self;
        note_act(
            config,
            act,
            &mut clock,
            &mut openings,
            &mut armings,
            &mut traffic,
            &mut sessions,
        )?;
        Ok(Past {
            config,
            acts: grown,
            clock,
            openings,
            armings,
            traffic,
            sessions,
        })
    }
}
