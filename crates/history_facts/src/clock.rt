// The turns so far, and what ends every session, kept up with each act.
ghost use Rattle.std.specs.Prelude.{◌≡◌, ◌∷◌, List, [], OnOk};
ghost use Rattle.relay_model.specs.{Act};
ghost use Rattle.history_facts.specs.Told.{ClockTold};

use relay_model::{Act, NoMemory, Why};

/// The turns so far, and whether a stop or want of memory was said.
#[derive(Drop)]
pub struct TurnFacts {
    /// The moment of the last turn.
    pub now: u64,
    /// The number of the turn that comes next, counted from 1.
    pub turn: u64,
    /// Whether a turn said stop, or something was closed for that.
    pub stop_said: bool,
    /// Whether something was closed for want of memory.
    pub memory_said: bool,
}

impl TurnFacts {
    /// What holds before any act.
    pub fn new() -> TurnFacts
        ensures { ClockTold result [] }
    {
        TurnFacts {
            now: 0,
            turn: 1,
            stop_said: false,
            memory_said: false,
        }
    }

    /// Takes in one more act.
    pub fn note(&mut self, act: &Act) -> Result<(), NoMemory>
        ensures { OnOk result ((past : List Act) → ClockTold self.old past → ClockTold self.new (act.now ∷ past)) }
    {
        match act {
            Act::Turn { at, stop, .. } => {
                self.turn = self.turn.checked_add(1).ok_or(NoMemory)?;
                self.now = *at;
                self.stop_said = *stop || self.stop_said;
                Ok(())
            }
            Act::Closed(_, why) => {
                self.stop_said = *why == Why::Stopped || self.stop_said;
                self.memory_said = *why == Why::Memory || self.memory_said;
                Ok(())
            }
            _ => Ok(()),
        }
    }
}
