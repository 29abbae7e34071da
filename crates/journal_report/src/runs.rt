// The program's work: what a source gives is shown as it is asked for, or one line says why it isn't.
ghost use Rattle.std.specs.Prelude.{◌≡◌, ◌<◌, ◌⊎◌, true, string_bytes, IfOk};
ghost use Rattle.port_trait.specs.{Rose};
ghost use Rattle.journal_report.specs.Runs.{line_of, Shows, ShowsBeneath, Refuses, RefusesBeneath};

use crate::shown::{Unshown, ViewFault, view_of_text};
use crate::views::View;
use journal_text::{Unread, read_text};
use port_trait::{Sink, Source, write_whole};
use relay_model::{NoMemory, Text};
use std::alloc::Global;

/// The status where the view was written.
const SHOWN: u8 = 0;

/// The status where there is nothing to be shown.
const REFUSED: u8 = 1;

/// The status where memory is wanting.
const NO_MEMORY: u8 = 2;

/// The status where the source or a sink fails.
const FAILED: u8 = 3;

/// The line on what keeps a journal from being shown.
fn line_of(alloc: Global, unshown: Unshown) -> Result<String, NoMemory>
    ensures { IfOk result (λ line. string_bytes line ≡ line_of unshown) }
{
    match unshown {
        Unshown::TooLong => Ok(format!(in alloc; "no: too long\n")?),
        Unshown::BadWords => Ok(format!(in alloc; "no: words\n")?),
        Unshown::BadLine { number } => Ok(format!(in alloc; "no: line {number}\n")?),
        Unshown::NoSession => Ok(format!(in alloc; "no: session\n")?),
    }
}

/// Writes the view of the journal that the source gives until its end, of a run that was started with these words. The
/// status is 0 where the view was written. It is 1 where the journal or the words are none, or the session that is asked
/// for hasn't begun: then one line says so to `errors`, and nothing else is written. It is 2 where memory is wanting, and
/// 3 where the source or a sink fails.
pub fn journal_run<S: Source, K: Sink, E: Sink>(
    alloc: Global,
    source: &mut S,
    sink: &mut K,
    errors: &mut E,
    view: View,
    words: &[Text],
) -> u8
    ensures known { result < 4 }
    ensures shown { result ≡ 0 → Shows view words.now (S.left source.old) (S.left source.new) (S.ends source.old) (S.ends source.new) (K.took sink.old) (K.took sink.new) }
    ensures shown_beneath { result ≡ 0 → ShowsBeneath view words.now (S.rest source.old) (S.rest source.new) (K.holds sink.old) (K.holds sink.new) }
    ensures finished { result ≡ 0 → K.finished sink.new ≡ true }
    ensures refused { result ≡ 1 → Refuses view words.now (S.left source.old) (S.left source.new) (E.took errors.old) (E.took errors.new) }
    ensures refused_beneath { result ≡ 1 → RefusesBeneath view words.now (S.rest source.old) (S.rest source.new) (E.holds errors.old) (E.holds errors.new) }
    ensures unwritten { result ≡ 1 → K.took sink.new ≡ K.took sink.old }
    ensures failed { result ≡ 3 → (Rose (S.faults source.old) (S.faults source.new)) ⊎ ((Rose (K.faults sink.old) (K.faults sink.new)) ⊎ (Rose (E.faults errors.old) (E.faults errors.new))) }
{
    let text = match read_text(alloc, source) {
        Ok(text) => text,
        Err(Unread::Memory) => return NO_MEMORY,
        Err(Unread::Failed) => return FAILED,
    };
    match view_of_text(alloc, view, words, text.as_slice()) {
        Ok(shown) => {
            if write_whole(sink, shown.as_slice()) {
                SHOWN
            } else {
                FAILED
            }
        }
        Err(ViewFault::Memory) => NO_MEMORY,
        Err(ViewFault::Unshown(unshown)) => {
            let Ok(line) = line_of(alloc, unshown) else {
                return NO_MEMORY;
            };
            if write_whole(errors, line.as_bytes()) {
                REFUSED
            } else {
                FAILED
            }
        }
    }
}
