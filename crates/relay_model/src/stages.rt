// How far a place or door has come.
ghost use Rattle.std.specs.Prelude.{◌≡◌, if◌then◌else◌};
ghost use Rattle.relay_model.specs.declared.acts.Why.TheVariants as whys;
ghost use Rattle.relay_model.specs.History.{holds_at, is_gone_with};

use crate::acts::{Peer, Why};

/// The last act of opening, accepting, listening or closing at a place or door.
#[derive(Clone, Copy, PartialEq, Eq)]
pub enum Stage {
    /// There was none.
    Untried,
    /// It was opened.
    Usable,
    /// Its opening is under way.
    Unsettled,
    /// Its opening or listening failed.
    Failed,
    /// This peer was accepted there.
    Met(Peer),
    /// The door listens.
    Waiting,
    /// It was closed, for this reason.
    Gone(Why),
}

impl Stage {
    /// The stage after an act that leads to `next`, if it was at this place or door.
    pub fn after(self, is_here: bool, next: Stage) -> Stage
        ensures { result ≡ if is_here then next else self }
    {
        if is_here { next } else { self }
    }

    /// Whether a place or door at this stage is held.
    pub fn is_held(self) -> bool
        ensures { result ≡ holds_at self }
    {
        match self {
            Stage::Usable | Stage::Unsettled | Stage::Met(_) | Stage::Waiting => true,
            Stage::Untried | Stage::Failed | Stage::Gone(_) => false,
        }
    }

    /// Whether a door was closed since it had served.
    pub fn has_served(self) -> bool
        ensures { result ≡ is_gone_with whys.Served self }
    {
        match self {
            Stage::Gone(why) => why == Why::Served,
            _ => false,
        }
    }
}
