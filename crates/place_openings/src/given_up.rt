// Where no try is left, and how many failed there.
ghost use Rattle.std.specs.Prelude.{◌≡◌, ℕ, Bool, List, map};
ghost use Rattle.relay_model.specs.{Place, Config as Command, Act, places, own_doors};
ghost use Rattle.retry_plan.specs.{PlanIs};
ghost use Rattle.place_openings.specs.Attempts.{attempts_in, attempts_told, given_up_by, first_unlistened, first_unopened, FirstCanCount, FirstGivesUp, GivesUp, Spends};
ghost use Rattle.place_openings.specs.Stands.{AreOpenings, Each, IsOpening};

use crate::one_place::Opening;
use crate::session_openings::Openings;
use relay_model::Side;
use retry_plan::NextTry;

/// The tries at a place were given up: the side of its address, and how many failed. The count stops at `u64::MAX`.
#[derive(Clone, Copy, PartialEq, Eq)]
pub struct GivenUp {
    pub side: Side,
    pub attempts: u64,
}

impl Openings {
    /// The first place, in opening order, at which no try is left; where the place has an own door its door's tries
    /// are not meant.
    pub fn failed_opening(&self) -> Option<GivenUp>
        ensures first { (c : Command) (past : List Act) (s : ℕ) → AreOpenings c past s self.now
            → result ≡ first_unopened c past (places c s) }
        ensures can_count { (c : Command) (past : List Act) (s : ℕ) → AreOpenings c past s self.now → FirstCanCount c past (places c s) }
    {
        first_given_up(self.as_slice(), false)
    }

    /// How many listenings failed at the first own door, in opening order, at which no try is left.
    pub fn failed_listening(&self) -> Option<u64>
        ensures first { (c : Command) (past : List Act) (s : ℕ) → AreOpenings c past s self.now
            → result ≡ first_unlistened c past (own_doors c s) }
        ensures can_count { (c : Command) (past : List Act) (s : ℕ) → AreOpenings c past s self.now → FirstCanCount c past (own_doors c s) }
    {
        attempts_told(first_given_up(self.as_slice(), true))
    }
}

impl Opening {
    /// What is told of the place, where it has an own door, or has none, as it is asked for, and no try is left.
    pub fn find_given_up(&self, has_door: bool) -> Option<GivenUp>
        ensures { (c : Command) (past : List Act) (p : Place) → IsOpening c past p self.now → GivesUp c past has_door p result }
    {
        let is_meant = self.has_door == has_door;
        given_up_by(self.place.side, is_meant, self.spent_attempts())
    }

    /// How many tries failed, if none is left.
    fn spent_attempts(&self) -> Option<u64>
        ensures { (retry : ℕ) (forever : Bool) (interval : ℕ) (failures : List ℕ)
            → PlanIs retry forever interval failures self.now.plan → Spends retry forever failures result }
    {
        attempts_in(self.plan.next())
    }
}

fn first_given_up(openings: &[Opening], has_door: bool) -> Option<GivenUp>
    ensures { (c : Command) (past : List Act) (ps : List Place) → Each c past ps openings.now
        → FirstGivesUp c past has_door ps result }
{
    for opening in openings {
        if let Some(given_up) = opening.find_given_up(has_door) {
            return Some(given_up);
        }
    }
    None
}

fn attempts_in(next: NextTry) -> Option<u64>
    ensures { result ≡ attempts_in next }
{
    match next {
        NextTry::GiveUp { attempts } => Some(attempts),
        _ => None,
    }
}

fn given_up_by(side: Side, is_meant: bool, attempts: Option<u64>) -> Option<GivenUp>
    ensures { result ≡ given_up_by side is_meant attempts }
{
    match attempts {
        Some(attempts) if is_meant => Some(GivenUp { side, attempts }),
        _ => None,
    }
}

fn attempts_told(given_up: Option<GivenUp>) -> Option<u64>
    ensures { result ≡ attempts_told given_up }
{
    match given_up {
        Some(given_up) => Some(given_up.attempts),
        None => None,
    }
}
