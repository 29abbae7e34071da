// What a turn names.
ghost use Rattle.std.specs.Prelude.{◌≡◌, ◌&&◌, if◌then◌else◌, OnOk};
ghost use Rattle.relay_model.specs.{Place, names, same_place, same_half};
ghost use Rattle.history_facts.specs.Tables.{placed};

use crate::placed::Placed;
use relay_model::{Half, NoMemory, ReadyAt, ReadyList};

fn is_half(one: Half, other: Half) -> bool
    ensures { result ≡ same_half one other }
{
    match one {
        Half::ToRead => other == Half::ToRead,
        Half::ToWrite => other == Half::ToWrite,
    }
}

/// Sets the answer for the place of the entry, where that is of this half.
fn name_one<T: Copy>(
    table: &mut Placed<T>,
    entry: ReadyAt,
    half: Half,
    answer: T,
) -> Result<(), NoMemory>
    ensures { OnOk result ((p : Place) → placed table.new p ≡ (if same_place entry.place p && same_half entry.half half then answer else placed table.old p)) }
{
    if is_half(entry.half, half) {
        table.set(entry.place, answer)
    } else {
        Ok(())
    }
}

/// Sets the answer for all places of which the list names this half.
pub fn name_all<T: Copy>(
    table: &mut Placed<T>,
    ready: &ReadyList,
    half: Half,
    answer: T,
) -> Result<(), NoMemory>
    ensures { OnOk result ((p : Place) → placed table.new p ≡ (if names ready.now.entries p half then answer else placed table.old p)) }
{
    for i in 0..ready.len() {
        name_one(table, ready.get(i), half, answer)?;
    }
    Ok(())
}
