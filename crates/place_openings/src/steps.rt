// What happens to the openings of a session.
ghost use Rattle.std.specs.Prelude.{◌≡◌, ◌<◌, ◌||◌, true, List};
ghost use Rattle.relay_model.specs.{Place, Config as Command, Act};
ghost use Rattle.place_openings.specs.Moves.{Follows, Apart, Lower, Alike, asks_at, is_still};
ghost use Rattle.place_openings.specs.Stands.{IsOpening};
ghost use Rattle.place_openings.specs.Steps.{asked_by, steps_of};

use crate::one_place::Opening;
use relay_model::{Peer, Place, ReadyAt, Why};

/// One step of the openings of a session: an act at a place or door, or a part of a turn.
#[derive(Clone, Copy)]
pub enum OpeningStep {
    Opened(Place),
    OpenedLater(Place),
    OpenFailed { place: Place, at: u64 },
    Listening(Place),
    ListenFailed { door: Place, at: u64 },
    Accepted { place: Place, peer: Peer },
    NoPeer(Place),
    AcceptFailed(Place),
    Closed { thing: Place, why: Why },
    Reaped(Place),
    Woken,
    Named(ReadyAt),
}

impl OpeningStep {
    /// Whether it moves no stage, and no try failed by it.
    pub fn is_still(self) -> bool
        ensures { result ≡ is_still self }
    {
        match self {
            OpeningStep::NoPeer(_)
            | OpeningStep::AcceptFailed(_)
            | OpeningStep::Reaped(_)
            | OpeningStep::Woken
            | OpeningStep::Named(_) => true,
            _ => false,
        }
    }
}

impl Opening {
    /// The step, as far as it is at this place or its door.
    pub fn take(&mut self, step: OpeningStep)
        ensures goes { (c : Command) (past later : List Act) (p : Place) → Follows c step past later
            → IsOpening c past p self.old → IsOpening c later p self.new }
        ensures apart { Apart step self.old → self.new ≡ self.old }
        ensures fewer { Lower step self.old → steps_of self.new < steps_of self.old }
        ensures asked { (p : Place) → asked_by p self.new ≡ true → (asked_by p self.old || asks_at step p) ≡ true }
        ensures still { is_still step ≡ true → Alike self.old self.new }
    {
        match step {
            OpeningStep::Opened(place) => self.hear_opening(place),
            OpeningStep::OpenedLater(place) => self.hear_later(place),
            OpeningStep::OpenFailed { place, at } => self.hear_open_failure(place, at),
            OpeningStep::Listening(door) => self.hear_listening(door),
            OpeningStep::ListenFailed { door, at } => self.hear_listen_failure(door, at),
            OpeningStep::Accepted { place, peer } => self.hear_peer(place, peer),
            OpeningStep::NoPeer(door) => self.hear_no_peer(door),
            OpeningStep::AcceptFailed(door) => self.hear_accept_failure(door),
            OpeningStep::Closed { thing, why } => self.hear_closing(thing, why),
            OpeningStep::Reaped(place) => self.hear_reaping(place),
            OpeningStep::Woken => self.wake(),
            OpeningStep::Named(entry) => self.hear_entry(entry),
        }
    }
}
