// What was read and written at places, and what ended there, kept up with each act.
ghost use Rattle.std.specs.Prelude.{◌≡◌, ◌∷◌, ◌+◌, ℕ, List, [], if◌then◌else◌, OnOk};
ghost use Rattle.relay_model.specs.{Place, Act, same_place, now};
ghost use Rattle.history_facts.specs.Tables.{placed};
ghost use Rattle.history_facts.specs.Told.{ReadTold, WrittenTold, EndsTold, EmptiesTold, ShutsTold, ReadFaultsTold, WriteFaultsTold, TrafficTold};

use crate::placed::Placed;
use relay_model::{Act, NoMemory, Place};
use std::alloc::Global;

/// What was read and written at places, and what ended there.
#[derive(Drop)]
pub struct Traffic {
    /// How many bytes were read.
    pub read: Placed<usize>,
    /// How many were written.
    pub written: Placed<usize>,
    /// Whether a read met the end.
    pub ends: Placed<bool>,
    /// Whether a read brought an empty packet.
    pub empties: Placed<bool>,
    /// The moment at which the end was passed on.
    pub shuts: Placed<Option<u64>>,
    /// The moment at which a read last failed.
    pub read_faults: Placed<Option<u64>>,
    /// The moment at which a write last failed.
    pub write_faults: Placed<Option<u64>>,
}

impl Traffic {
    /// What holds before any act.
    pub fn new(alloc: Global) -> Traffic
        ensures { TrafficTold result [] }
    {
        Traffic {
            read: Placed::new(alloc, 0),
            written: Placed::new(alloc, 0),
            ends: Placed::new(alloc, false),
            empties: Placed::new(alloc, false),
            shuts: Placed::new(alloc, None),
            read_faults: Placed::new(alloc, None),
            write_faults: Placed::new(alloc, None),
        }
    }

    /// Takes in one more act, that comes at this moment.
    pub fn note(&mut self, act: &Act, at: u64) -> Result<(), NoMemory>
        ensures { OnOk result ((past : List Act) → at ≡ now past → TrafficTold self.old past → TrafficTold self.new (act.now ∷ past)) }
    {
        note_read(&mut self.read, act)?;
        note_written(&mut self.written, act)?;
        note_end(&mut self.ends, act)?;
        note_empty(&mut self.empties, act)?;
        note_shut(&mut self.shuts, act, at)?;
        note_read_fault(&mut self.read_faults, act, at)?;
        note_write_fault(&mut self.write_faults, act, at)
    }
}

/// So many more at the place.
fn add(counts: &mut Placed<usize>, place: Place, count: usize) -> Result<(), NoMemory>
    ensures { OnOk result ((p : Place) → placed counts.new p ≡ (if same_place place p then placed counts.old p + count else placed counts.old p)) }
{
    let sum = counts.at(place).checked_add(count).ok_or(NoMemory)?;
    counts.set(place, sum)?;
    Ok(())
}

fn note_read(counts: &mut Placed<usize>, act: &Act) -> Result<(), NoMemory>
    ensures { OnOk result ((past : List Act) → ReadTold counts.old past → ReadTold counts.new (act.now ∷ past)) }
{
    match act {
        Act::Read(place, bytes) => add(counts, *place, bytes.len()),
        _ => Ok(()),
    }
}

fn note_written(counts: &mut Placed<usize>, act: &Act) -> Result<(), NoMemory>
    ensures { OnOk result ((past : List Act) → WrittenTold counts.old past → WrittenTold counts.new (act.now ∷ past)) }
{
    match act {
        Act::Wrote(place, bytes) => add(counts, *place, bytes.len()),
        _ => Ok(()),
    }
}

fn note_end(ends: &mut Placed<bool>, act: &Act) -> Result<(), NoMemory>
    ensures { OnOk result ((past : List Act) → EndsTold ends.old past → EndsTold ends.new (act.now ∷ past)) }
{
    match act {
        Act::ReadEnd(place) => ends.set(*place, true),
        _ => Ok(()),
    }
}

fn note_empty(empties: &mut Placed<bool>, act: &Act) -> Result<(), NoMemory>
    ensures { OnOk result ((past : List Act) → EmptiesTold empties.old past → EmptiesTold empties.new (act.now ∷ past)) }
{
    match act {
        Act::ReadEmpty(place) => empties.set(*place, true),
        _ => Ok(()),
    }
}

fn note_shut(shuts: &mut Placed<Option<u64>>, act: &Act, at: u64) -> Result<(), NoMemory>
    ensures { OnOk result ((past : List Act) → at ≡ now past → ShutsTold shuts.old past → ShutsTold shuts.new (act.now ∷ past)) }
{
    match act {
        Act::Shut(place, _) | Act::ShutFault(place, _) => shuts.set(*place, Some(at)),
        _ => Ok(()),
    }
}

fn note_read_fault(faults: &mut Placed<Option<u64>>, act: &Act, at: u64) -> Result<(), NoMemory>
    ensures { OnOk result ((past : List Act) → at ≡ now past → ReadFaultsTold faults.old past → ReadFaultsTold faults.new (act.now ∷ past)) }
{
    match act {
        Act::ReadFault(place) => faults.set(*place, Some(at)),
        _ => Ok(()),
    }
}

fn note_write_fault(faults: &mut Placed<Option<u64>>, act: &Act, at: u64) -> Result<(), NoMemory>
    ensures { OnOk result ((past : List Act) → at ≡ now past → WriteFaultsTold faults.old past → WriteFaultsTold faults.new (act.now ∷ past)) }
{
    match act {
        Act::WriteFault(place) => faults.set(*place, Some(at)),
        _ => Ok(()),
    }
}
