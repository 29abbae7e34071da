// Runs over a scripted world.
ghost use Rattle.std.specs.Prelude.{◌≡◌};
ghost use Rattle.relay_model.specs.{Place, Fit, Free};

use crate::looks::{Bound, Journaled, looks_seldom};
use cmd_words::relay_of;
use exit_status::status;
use relay_model::{Bytes, Config, Text};
use socat_top::{Saving, socat};
use std::alloc::Global;
use worked_rows::{Line, RowFault, RunResult, WorkedRow, part, world_of};

/// Runs the words of the row, and again for each line that bounds its looks at sessions.
pub(crate) fn run_scripted(
    alloc: Global,
    row: &WorkedRow<'_>,
    words: &[Text],
) -> Result<Vec<RunResult>, RowFault> {
    let mut ran = run_script(alloc, row, words)?;
    for line in row.over.as_slice() {
        ran.ports.push(look_line(alloc, row, words, *line)?)?;
    }
    Ok(Vec::from_array(alloc, [ran])?)
}

fn run_script(alloc: Global, row: &WorkedRow<'_>, words: &[Text]) -> Result<RunResult, RowFault> {
    let mut world = world_of(alloc, row.script.as_slice())?;
    let ran = run_over(alloc, &mut world, words, row.turns);
    drop(world);
    ran
}

/// Runs the words over a world in which nothing is held.
fn run_over<W: Journaled>(
    alloc: Global,
    world: &mut W,
    words: &[Text],
    turns: u64,
) -> Result<RunResult, RowFault>
    requires { (p : Place) → (W.seen world.old).held p ≡ Free }
{
    let outcome = socat(alloc, world, words, turns);
    let parted = part(alloc, world.acts())?;
    Ok(RunResult {
        outcome,
        status: status(&outcome),
        said: parted.note,
        journal: parted.journal,
        saving: Saving::NotAsked,
        saved: Bytes::of(alloc, b"")?,
        ports: Vec::new(alloc),
    })
}

/// What is said of the looks that the line bounds.
fn look_line(
    alloc: Global,
    row: &WorkedRow<'_>,
    words: &[Text],
    line: Line<'_>,
) -> Result<String, RowFault> {
    let bound = Bound::of(line)?;
    match relay_of(alloc, words)? {
        Some(config) => {
            let text = looks_text(alloc, row, &config, bound);
            drop(config);
            text
        }
        None => Err(line.fault()),
    }
}

/// Whether a run of the command looks seldom enough, as rows ask for it.
fn looks_text(
    alloc: Global,
    row: &WorkedRow<'_>,
    config: &Config,
    bound: Bound,
) -> Result<String, RowFault>
    requires { Fit config.now }
{
    let mut world = world_of(alloc, row.script.as_slice())?;
    let seldom = looks_seldom(alloc, &mut world, config, row.turns, bound);
    drop(world);
    Ok(String::from_str(alloc, if seldom? { "looks few" } else { "looks many" })?)
}
