// What is asked of the openings of a session before each call, worked out at the steps that may change it.
ghost use Rattle.std.specs.Prelude.{◌≡◌, ℕ, Bool, List, option_map, map, is_none};
ghost use Rattle.std.specs.List.{list_any};
ghost use Rattle.relay_model.specs.{Place, Config as Command, Act, only_if, or_else};
ghost use Rattle.relay_model.specs.declared.acts.Why.TheVariants as whys;
ghost use Rattle.place_openings.specs.Moves.{TookEach};
ghost use Rattle.place_openings.specs.declared.one_place.Opening.{Opening};
ghost use Rattle.place_openings.specs.Queries.{first_unready, gave_up};
ghost use Rattle.place_openings.specs.Stands.{EachTried};
ghost use Rattle.place_openings.specs.Summaries.{EndsBy, Sums};

use crate::one_place::Opening;
use crate::steps::OpeningStep;
use relay_model::Why;

/// Whether every place is ready, and why the session ends, where no try is left at one of its places or doors.
#[derive(Clone, Copy)]
pub struct OpeningSummary {
    pub ready: bool,
    pub given_up: Option<Why>,
}

impl OpeningSummary {
    /// What these openings say.
    pub fn of(openings: &[Opening]) -> OpeningSummary
        ensures { Sums result openings.now }
    {
        OpeningSummary {
            ready: are_ready(openings),
            given_up: why_given_up(openings),
        }
    }

    /// What these openings say after the step, where this is what they said before it.
    pub fn after(self, step: OpeningStep, openings: &[Opening]) -> OpeningSummary
        ensures { (os : List Opening) → Sums self os → TookEach step os openings.now
            → Sums result openings.now }
    {
        if step.is_still() {
            self
        } else {
            OpeningSummary::of(openings)
        }
    }
}

fn are_ready(openings: &[Opening]) -> bool
    ensures { result ≡ is_none (first_unready openings.now) }
{
    first_unready(openings).is_none()
}

/// The first opening that isn't ready.
pub fn first_unready(mut openings: &[Opening]) -> Option<&Opening>
    ensures { option_map (λ o. o.now) result ≡ first_unready openings.entry.now }
{
    while let [opening, rest @ ..] = openings {
        if !opening.is_ready() {
            return Some(opening);
        }
        openings = rest;
    }
    None
}

fn why_given_up(openings: &[Opening]) -> Option<Why>
    ensures { EndsBy result openings.now }
{
    let listening = some_gave_up(openings, true);
    let opening = some_gave_up(openings, false);
    reason(listening, opening)
}

fn some_gave_up(openings: &[Opening], has_door: bool) -> bool
    ensures { (c : Command) (past : List Act) (ps : List Place) → EachTried c past ps openings.now
        → result ≡ list_any (gave_up c past has_door) ps }
{
    for opening in openings {
        if opening.gave_up(has_door) {
            return true;
        }
    }
    false
}

/// Why a session ends where no try is left: a listening comes before an opening.
fn reason(listening: bool, opening: bool) -> Option<Why>
    ensures { result ≡ or_else (only_if listening whys.ListenFailed) (only_if opening whys.OpenFailed) }
{
    if listening {
        Some(Why::ListenFailed)
    } else if opening {
        Some(Why::OpenFailed)
    } else {
        None
    }
}
