// The program's work: what its words make is written to a sink.
ghost use Rattle.std.specs.Prelude.{◌≡◌, ◌<◌, true, IfOk};
ghost use Rattle.port_trait.specs.{Rose};
ghost use Rattle.command_report.specs.Runs.{words_of_run, IsReport, Explained, ExplainedBeneath};

use crate::commands::explanation;
use crate::refusals::refusal_report;
use cmd_words::{CommandFault, command_of};
use port_trait::{Sink, write_whole};
use relay_model::{Bytes, NoMemory, Text};
use std::alloc::Global;

/// The flag that asks for a written journal, with the name of its file behind it.
const JOURNAL: &[u8] = b"--journal=";

/// The status where the words make a command.
const EXPLAINED: u8 = 0;

/// The status where they are refused.
const REFUSED: u8 = 1;

/// The status where memory is wanting.
const NO_MEMORY: u8 = 2;

/// The status where the sink fails.
const FAILED: u8 = 3;

/// The words of the run: a journal changes nothing of what they mean.
fn words_of_run(words: &[Text]) -> &[Text]
    ensures { result.now ≡ words_of_run words.now }
{
    match words {
        [first, rest @ ..] if first.as_slice().starts_with(JOURNAL) => rest,
        _ => words,
    }
}

/// The report on what the words make, and the status that goes with it.
fn report(alloc: Global, words: &[Text]) -> Result<(Bytes, u8), NoMemory>
    ensures { IfOk result (λ report. IsReport words.now report.0 report.1) }
{
    match command_of(alloc, words) {
        Ok(command) => {
            let text = explanation(alloc, &command);
            // (a call of its own, since the prover reads the end of a large value at each branch)
            drop(command);
            Ok((text?, EXPLAINED))
        }
        Err(CommandFault::Refused(refused)) => {
            Ok((refusal_report(alloc, words, &refused)?, REFUSED))
        }
        Err(CommandFault::Memory) => Err(NoMemory),
    }
}

/// Writes what the words of a command line make: the command in plain words, or why they are refused. The status is 0
/// for a command, 1 for a refusal, 2 where memory is wanting, and 3 where the sink fails. A first word that asks for a
/// journal is passed over, as `socat` does. Nothing is opened.
pub fn explain_run<K: Sink>(alloc: Global, sink: &mut K, words: &[Text]) -> u8
    ensures known { result < 4 }
    ensures explained { result < 2 → Explained words.now (K.took sink.old) (K.took sink.new) result }
    ensures beneath { result < 2 → ExplainedBeneath words.now (K.holds sink.old) (K.holds sink.new) result }
    ensures finished { result < 2 → K.finished sink.new ≡ true }
    ensures failed { result ≡ 3 → Rose (K.faults sink.old) (K.faults sink.new) }
{
    let Ok((text, status)) = report(alloc, words_of_run(words)) else {
        return NO_MEMORY;
    };
    if write_whole(sink, text.as_slice()) {
        status
    } else {
        FAILED
    }
}
