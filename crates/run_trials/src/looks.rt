// Looks at sessions in some of the turns of a run.
ghost use Rattle.std.specs.Prelude.{◌≡◌};
ghost use Rattle.relay_model.specs.{Place, Fit, Free};
ghost use Rattle.event_loop.specs.{LoopSomewhere};

use event_loop::{Loop, Step};
use fork_table::Steps;
use relay_model::{Act, Config, Journal, NoMemory};
use scripted_world::MemWorld;
use std::alloc::Global;
use std::marker::Brand;
use std::sync::ledger::{Blank, Ledger};
use worked_rows::{Line, RowFault};
use world_trait::World;

/// A world that keeps what was done.
pub(crate) trait Journaled: World {
    /// What was done.
    fn acts(&self) -> &Journal;
}

impl Journaled for MemWorld {
    fn acts(&self) -> &Journal {
        self.journal()
    }
}

/// The turns whose last wait before them ended at one of these moments, and how many looks are too many in them.
#[derive(Clone, Copy)]
pub(crate) struct Bound {
    from: u64,
    to: u64,
    too_many: u64,
}

impl Bound {
    /// The bound that a line sets: three numbers.
    pub(crate) fn of(line: Line<'_>) -> Result<Bound, RowFault> {
        parse_bound(line.text).ok_or(line.fault())
    }

    fn contains(self, moment: u64) -> bool {
        self.from <= moment && moment <= self.to
    }
}

fn parse_bound(text: &str) -> Option<Bound> {
    let (from, rest) = text.strip_prefix("looks ")?.split_once(' ')?;
    let (to, too_many) = rest.split_once(' ')?;
    Some(Bound {
        from: from.parse().ok()?,
        to: to.parse().ok()?,
        too_many: too_many.parse().ok()?,
    })
}

/// Whether a run of the command looks at sessions less often than the bound says.
pub(crate) fn looks_seldom<W: Journaled>(
    alloc: Global,
    world: &mut W,
    config: &Config,
    turns: u64,
    bound: Bound,
) -> Result<bool, NoMemory>
    requires fit { Fit config.now }
    requires free { (p : Place) → (W.seen world.old).held p ≡ Free }
{
    let mut whole = Loop::with_turns(alloc, config, turns)?;
    let looks = count_looks::<W, Brand>(Blank::new(1), &mut whole, world, turns, bound);
    drop(whole);
    Ok(looks < bound.too_many)
}

/// Runs all, and counts the looks that are bounded.
fn count_looks<W: Journaled, L: Ledger>(
    blank: Blank,
    whole: &mut Loop,
    world: &mut W,
    turns: u64,
    bound: Bound,
) -> u64
    requires name { blank.name ≡ L.name }
    requires parts { blank.parts ≡ L.parts }
    requires some { LoopSomewhere (W.seen world.old) whole.old }
{
    let (book, _share) = blank.open::<L>();
    let mut steps = Steps::new(book);
    let mut looks: u64 = 0;
    for _ in 0..turns {
        let counts = bound.contains(last_moment(world.acts()));
        let before = steps.ticks();
        let step = whole.turn(world, &mut steps);
        if counts {
            looks = looks.saturating_add(steps.ticks().saturating_sub(before));
        }
        match step {
            Step::Goes => {}
            Step::Over(_) => break,
        }
    }
    looks
}

/// When the last wait ended, at a journal's end; else 0.
fn last_moment(journal: &Journal) -> u64 {
    match journal.len() {
        0 => 0,
        acts => match journal.get(acts - 1) {
            Act::Turn { at, .. } => *at,
            _ => 0,
        },
    }
}
