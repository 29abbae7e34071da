// An answer for each place.
ghost use Rattle.std.specs.Prelude.{◌≡◌, ◌<◌, if◌then◌else◌, OnOk};
ghost use Rattle.relay_model.specs.{Place, same_place};
ghost use Rattle.history_facts.specs.Tables.{placed, part_number, place_number};

use crate::numbered::Numbered;
use relay_model::{NoMemory, Part, Place, Side};
use std::alloc::Global;

/// An answer for each place or door: those that were set, and one for all others.
#[derive(Drop)]
pub struct Placed<T> {
    answers: Numbered<T>,
}

fn part_number(side: Side, part: Part, door: bool) -> u64
    ensures number { result ≡ part_number side part door }
    ensures small { result < 12 }
{
    match (side, part, door) {
        (Side::Left, Part::Both, false) => 0,
        (Side::Left, Part::Both, true) => 1,
        (Side::Left, Part::Reading, false) => 2,
        (Side::Left, Part::Reading, true) => 3,
        (Side::Left, Part::Writing, false) => 4,
        (Side::Left, Part::Writing, true) => 5,
        (Side::Right, Part::Both, false) => 6,
        (Side::Right, Part::Both, true) => 7,
        (Side::Right, Part::Reading, false) => 8,
        (Side::Right, Part::Reading, true) => 9,
        (Side::Right, Part::Writing, false) => 10,
        (Side::Right, Part::Writing, true) => 11,
    }
}

fn place_number(place: Place) -> u64
    ensures { result ≡ place_number place }
{
    place.session as u64 * 12 + part_number(place.side, place.part, place.door)
}

impl<T: Copy> Placed<T> {
    /// The same answer for all places.
    pub fn new(alloc: Global, rest: T) -> Self
        ensures { (p : Place) → placed result p ≡ rest }
    {
        Placed {
            answers: Numbered::new(alloc, rest),
        }
    }

    /// The answer for the place.
    pub fn at(&self, place: Place) -> T
        ensures { result ≡ placed self.now place }
    {
        self.answers.at(place_number(place))
    }

    /// Sets the answer for the place, and leaves all others.
    #[tactic(auto, using(crate::proofs::Numbers::same_number))]
    pub fn set(&mut self, place: Place, answer: T) -> Result<(), NoMemory>
        ensures { OnOk result ((p : Place) → placed self.new p ≡ (if same_place place p then answer else placed self.old p)) }
    {
        self.answers.set(place_number(place), answer)
    }
}
