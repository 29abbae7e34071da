// Which halves and doors are armed, which is to say worth asking, and which were asked since the last turn, kept up
// with each act.
ghost use Rattle.std.specs.Prelude.{◌≡◌, ◌∷◌, ℕ, suc, Bool, not, ◌&&◌, ◌||◌, List, [], OnOk};
ghost use Rattle.relay_model.specs.{Way, Place, Config, Act, same_place, input, output, now, turns};
ghost use Rattle.history_facts.specs.Tables.{placed};
ghost use Rattle.history_facts.specs.Told.{ReadArmingsTold, WriteArmingsTold, AcceptArmingsTold, ReadsAsked, WritesAsked, AcceptsAsked, AskedBefore, ArmingsTold};

use crate::naming::name_all;
use crate::placed::Placed;
use command_places::{accepting_door, input, output, way_from};
use relay_model::{Act, Arming, Config, Half, NoMemory, Place};
use std::alloc::Global;

/// What is armed, and what was asked. Each asking stands with the number of the turn that was to come next, counted
/// from 1, so that every turn forgets them.
#[derive(Drop)]
pub struct Armings {
    pub reads: Placed<Arming>,
    pub writes: Placed<bool>,
    pub accepts: Placed<bool>,
    pub reads_asked: Placed<u64>,
    /// By the output of a direction: a read of bytes at its input forgets the asking.
    pub writes_asked: Placed<u64>,
    pub accepts_asked: Placed<u64>,
}

impl Armings {
    /// What holds before any act.
    pub fn new(alloc: Global) -> Armings
        ensures { (c : Config) → ArmingsTold c result [] }
    {
        Armings {
            reads: Placed::new(alloc, Arming::Disarmed),
            writes: Placed::new(alloc, false),
            accepts: Placed::new(alloc, false),
            reads_asked: Placed::new(alloc, 0),
            writes_asked: Placed::new(alloc, 0),
            accepts_asked: Placed::new(alloc, 0),
        }
    }

    /// Takes in one more act, that comes at this moment and before this turn.
    pub fn note(&mut self, config: &Config, act: &Act, at: u64, turn: u64) -> Result<(), NoMemory>
        ensures { OnOk result ((past : List Act) → at ≡ now past → turn ≡ suc (turns past) → ArmingsTold config.now self.old past → ArmingsTold config.now self.new (act.now ∷ past)) }
    {
        note_read_arming(&mut self.reads, act, at)?;
        note_write_arming(&mut self.writes, act)?;
        note_accept_arming(&mut self.accepts, act)?;
        note_read_asked(&mut self.reads_asked, act, turn)?;
        note_write_asked(&mut self.writes_asked, config, act, turn)?;
        note_accept_asked(&mut self.accepts_asked, config, act, turn)
    }
}

fn note_read_arming(reads: &mut Placed<Arming>, act: &Act, at: u64) -> Result<(), NoMemory>
    ensures { OnOk result ((past : List Act) → at ≡ now past → ReadArmingsTold reads.old past → ReadArmingsTold reads.new (act.now ∷ past)) }
{
    match act {
        Act::Turn { ready, .. } => name_all(reads, ready, Half::ToRead, Arming::Armed),
        Act::Opened(place) | Act::Accepted(place, _) => reads.set(*place, Arming::Armed),
        Act::ReadNotYet(place) => reads.set(*place, Arming::Disarmed),
        Act::ReadEnd(place) => reads.set(*place, Arming::AtEnd(at)),
        _ => Ok(()),
    }
}

fn note_write_arming(writes: &mut Placed<bool>, act: &Act) -> Result<(), NoMemory>
    ensures { OnOk result ((past : List Act) → WriteArmingsTold writes.old past → WriteArmingsTold writes.new (act.now ∷ past)) }
{
    match act {
        Act::Turn { ready, .. } => name_all(writes, ready, Half::ToWrite, true),
        Act::Opened(place) | Act::Accepted(place, _) => writes.set(*place, true),
        Act::WriteNotYet(place) => writes.set(*place, false),
        _ => Ok(()),
    }
}

fn note_accept_arming(accepts: &mut Placed<bool>, act: &Act) -> Result<(), NoMemory>
    ensures { OnOk result ((past : List Act) → AcceptArmingsTold accepts.old past → AcceptArmingsTold accepts.new (act.now ∷ past)) }
{
    match act {
        Act::Turn { ready, .. } => name_all(accepts, ready, Half::ToRead, true),
        Act::Listening(door) => accepts.set(*door, true),
        Act::NoPeer(door) => accepts.set(*door, false),
        _ => Ok(()),
    }
}

/// Something is asked there, before this turn.
fn ask(asked: &mut Placed<u64>, place: Place, turn: u64) -> Result<(), NoMemory>
    ensures { OnOk result ((p : Place) (before : Bool) (next : ℕ) → turn ≡ next
        → AskedBefore (placed asked.old p) next before → AskedBefore (placed asked.new p) next (same_place place p || before)) }
{
    asked.set(place, turn)?;
    Ok(())
}

#[tactic(auto, using(crate::proofs::Asked::asked_no_more))]
fn note_read_asked(asked: &mut Placed<u64>, act: &Act, turn: u64) -> Result<(), NoMemory>
    ensures { OnOk result ((past : List Act) → turn ≡ suc (turns past) → ReadsAsked asked.old past → ReadsAsked asked.new (act.now ∷ past)) }
{
    match act {
        Act::Read(place, _) => ask(asked, *place, turn),
        Act::ReadEmpty(place) | Act::ReadEnd(place) => ask(asked, *place, turn),
        Act::ReadNotYet(place) | Act::ReadFault(place) => ask(asked, *place, turn),
        _ => Ok(()),
    }
}

/// Forgets that the output was asked, where the place is the input of a direction.
fn forget_output(asked: &mut Placed<u64>, config: &Config, place: Place) -> Result<(), NoMemory>
    ensures { OnOk result ((s : ℕ) (w : Way) (turn : ℕ) (before : Bool) → AskedBefore (placed asked.old (output config.now s w)) (suc turn) before
        → AskedBefore (placed asked.new (output config.now s w)) (suc turn)
        (not (same_place place (input config.now s w)) && before)) }
{
    let way = way_from(place.side);
    if place.is(input(config, place.session, way)) {
        asked.set(output(config, place.session, way), 0)?;
        Ok(())
    } else {
        Ok(())
    }
}

#[tactic(auto, using(crate::proofs::Asked::asked_no_more))]
fn note_write_asked(
    asked: &mut Placed<u64>,
    config: &Config,
    act: &Act,
    turn: u64,
) -> Result<(), NoMemory>
    ensures { OnOk result ((past : List Act) → turn ≡ suc (turns past) → WritesAsked config.now asked.old past → WritesAsked config.now asked.new (act.now ∷ past)) }
{
    match act {
        Act::Read(place, _) => forget_output(asked, config, *place),
        Act::Wrote(place, _) => ask(asked, *place, turn),
        Act::WriteNotYet(place) | Act::WriteFault(place) => ask(asked, *place, turn),
        _ => Ok(()),
    }
}

#[tactic(auto, using(crate::proofs::Asked::asked_no_more))]
fn note_accept_asked(
    asked: &mut Placed<u64>,
    config: &Config,
    act: &Act,
    turn: u64,
) -> Result<(), NoMemory>
    ensures { OnOk result ((past : List Act) → turn ≡ suc (turns past) → AcceptsAsked config.now asked.old past → AcceptsAsked config.now asked.new (act.now ∷ past)) }
{
    match act {
        Act::Accepted(place, _) => ask(asked, accepting_door(config, *place), turn),
        Act::NoPeer(door) | Act::AcceptFailed(door) => ask(asked, *door, turn),
        _ => Ok(()),
    }
}
