// A journal that is read from its text.
ghost use Rattle.std.specs.Prelude.{ℕ, List, IfOk, IfErr, ◌≡◌};
ghost use Rattle.relay_model.specs.{Act};
ghost use Rattle.journal_text.specs.Texts.{IsTextOf, IsFirstBadLine, IsFaultOf, IsActsOrMemory, IsLineOrMemory, kept};

use crate::faults::{JournalFault, LineFault};
use crate::lines::{Scratch, read_line};
use relay_model::{Journal, ReadyList};
use std::alloc::Global;

/// The journal of this text, in time linear in its length. An act has one spelling, that of `write_journal`: any
/// other makes a bad line, as zeros in front of a number, upper-case digits, a number outside its type, a turn that
/// names more than 256 halves, or a last line without its newline. Each turn is read with room for what it names
/// alone.
pub fn read_journal(alloc: Global, text: &[u8]) -> Result<Journal, JournalFault>
    // What is read has this text.
    ensures found { IfOk result (λ journal. IsTextOf text.now journal.acts × (journal.acts ≡ kept journal.acts)) }
    ensures fault { IfErr result (IsFaultOf text.now) }
    // A text of acts is read as these, so what `write_journal` wrote is that journal again; one with a bad line is
    // read as that.
    ensures acts { (acts : List Act) → IsTextOf text.now acts → IsActsOrMemory acts result }
    ensures line { (number : ℕ) → IsFirstBadLine text.now number → IsLineOrMemory number result }
{
    let mut scratch = Scratch {
        bytes: Vec::new(alloc),
        ready: ReadyList::new(alloc)?,
    };
    let mut journal = Journal::new(alloc);
    let mut number = 1;
    let mut rest = text;
    while !rest.is_empty() {
        match read_line(alloc, rest, &mut scratch) {
            Ok((act, after)) => {
                journal.push(act)?;
                rest = after;
            }
            Err(LineFault::NoAct) => return Err(JournalFault::Line { number }),
            Err(LineFault::Memory) => return Err(JournalFault::Memory),
        }
        number += 1;
    }
    Ok(journal)
}
