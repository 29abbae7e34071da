// The acts of a journal as a slice, the newest first.
ghost use Rattle.std.specs.Prelude.{◌≡◌, IfOk};
ghost use Rattle.history_facts.specs.{acts};

use relay_model::{Act, Journal, NoMemory};
use std::alloc::Global;

/// The acts of a journal, the newest first.
pub fn newest_first<'a>(alloc: Global, journal: &'a Journal) -> Result<Vec<&'a Act>, NoMemory>
    ensures { IfOk result (λ past. acts past.items ≡ journal.now.acts) }
{
    let mut past = Vec::with_capacity(alloc, journal.len())?;
    let mut k = journal.len();
    while k > 0 {
        k -= 1;
        past.push(journal.get(k))?;
    }
    Ok(past)
}
