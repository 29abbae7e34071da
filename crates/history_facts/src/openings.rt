// How places and doors stand, and what their openings, listenings and closings came to, kept up with each act.
ghost use Rattle.std.specs.Prelude.{◌≡◌, ◌∷◌, List, [], OnOk};
ghost use Rattle.relay_model.specs.{Act, now};
ghost use Rattle.history_facts.specs.Told.{StagesTold, FailuresCounted, LastFailuresTold, WokenTold, AcceptsFailedTold, ClosedTold, ReapedTold, OpeningsTold};

use crate::naming::name_all;
use crate::placed::Placed;
use relay_model::{Act, Half, NoMemory, Stage};
use std::alloc::Global;

/// What the openings, listenings and closings of places and doors came to.
#[derive(Drop)]
pub struct OpeningFacts {
    /// How each stands.
    pub stages: Placed<Stage>,
    /// How many openings or listenings of each failed.
    pub failure_counts: Placed<u64>,
    /// The moment of the last that failed.
    pub last_failures: Placed<Option<u64>>,
    /// Whether a turn named it after its last opening act, which left it unsettled.
    pub woken: Placed<bool>,
    /// Whether an accepting failed there.
    pub accepts_failed: Placed<bool>,
    /// Whether it was ever closed.
    pub closed: Placed<bool>,
    /// Whether its child was reaped.
    pub reaped: Placed<bool>,
}

impl OpeningFacts {
    /// What holds before any act.
    pub fn new(alloc: Global) -> OpeningFacts
        ensures { OpeningsTold result [] }
    {
        OpeningFacts {
            stages: Placed::new(alloc, Stage::Untried),
            failure_counts: Placed::new(alloc, 0),
            last_failures: Placed::new(alloc, None),
            woken: Placed::new(alloc, false),
            accepts_failed: Placed::new(alloc, false),
            closed: Placed::new(alloc, false),
            reaped: Placed::new(alloc, false),
        }
    }

    /// Takes in one more act, that comes at this moment.
    pub fn note(&mut self, act: &Act, at: u64) -> Result<(), NoMemory>
        ensures { OnOk result ((past : List Act) → at ≡ now past → OpeningsTold self.old past → OpeningsTold self.new (act.now ∷ past)) }
    {
        note_stage(&mut self.stages, act)?;
        note_failure(&mut self.failure_counts, act)?;
        note_last_failure(&mut self.last_failures, act, at)?;
        note_waking(&mut self.woken, act)?;
        note_accept(&mut self.accepts_failed, act)?;
        note_closing(&mut self.closed, act)?;
        note_reaping(&mut self.reaped, act)
    }
}

fn note_stage(stages: &mut Placed<Stage>, act: &Act) -> Result<(), NoMemory>
    ensures { OnOk result ((past : List Act) → StagesTold stages.old past → StagesTold stages.new (act.now ∷ past)) }
{
    match act {
        Act::Opened(at) => stages.set(*at, Stage::Usable),
        Act::OpenLater(at) => stages.set(*at, Stage::Unsettled),
        Act::OpenFailed(at) | Act::ListenFailed(at) => stages.set(*at, Stage::Failed),
        Act::Listening(at) => stages.set(*at, Stage::Waiting),
        Act::Accepted(at, peer) => stages.set(*at, Stage::Met(*peer)),
        Act::Closed(at, why) => stages.set(*at, Stage::Gone(*why)),
        _ => Ok(()),
    }
}

fn note_failure(counts: &mut Placed<u64>, act: &Act) -> Result<(), NoMemory>
    ensures { OnOk result ((past : List Act) → FailuresCounted counts.old past → FailuresCounted counts.new (act.now ∷ past)) }
{
    match act {
        Act::OpenFailed(at) | Act::ListenFailed(at) => {
            let count = counts.at(*at).checked_add(1).ok_or(NoMemory)?;
            counts.set(*at, count)
        }
        _ => Ok(()),
    }
}

fn note_last_failure(moments: &mut Placed<Option<u64>>, act: &Act, at: u64) -> Result<(), NoMemory>
    ensures { OnOk result ((past : List Act) → at ≡ now past → LastFailuresTold moments.old past → LastFailuresTold moments.new (act.now ∷ past)) }
{
    match act {
        Act::OpenFailed(place) | Act::ListenFailed(place) => moments.set(*place, Some(at)),
        _ => Ok(()),
    }
}

fn note_waking(woken: &mut Placed<bool>, act: &Act) -> Result<(), NoMemory>
    ensures { OnOk result ((past : List Act) → WokenTold woken.old past → WokenTold woken.new (act.now ∷ past)) }
{
    match act {
        Act::Turn { ready, .. } => {
            name_all(woken, ready, Half::ToWrite, true)?;
            name_all(woken, ready, Half::ToRead, true)
        }
        Act::OpenLater(at) => woken.set(*at, false),
        _ => Ok(()),
    }
}

fn note_accept(failed: &mut Placed<bool>, act: &Act) -> Result<(), NoMemory>
    ensures { OnOk result ((past : List Act) → AcceptsFailedTold failed.old past → AcceptsFailedTold failed.new (act.now ∷ past)) }
{
    match act {
        Act::AcceptFailed(at) => failed.set(*at, true),
        _ => Ok(()),
    }
}

fn note_closing(closed: &mut Placed<bool>, act: &Act) -> Result<(), NoMemory>
    ensures { OnOk result ((past : List Act) → ClosedTold closed.old past → ClosedTold closed.new (act.now ∷ past)) }
{
    match act {
        Act::Closed(at, _) => closed.set(*at, true),
        _ => Ok(()),
    }
}

fn note_reaping(reaped: &mut Placed<bool>, act: &Act) -> Result<(), NoMemory>
    ensures { OnOk result ((past : List Act) → ReapedTold reaped.old past → ReapedTold reaped.new (act.now ∷ past)) }
{
    match act {
        Act::Reaped(at, _) => reaped.set(*at, true),
        _ => Ok(()),
    }
}
