// The run of a program: that of its words over a desk, and the status it ends with.
ghost use Rattle.std.specs.Prelude.{◌≡◌, ◌-◌, ◌^◌, [], true, Some, IfOk};
ghost use Rattle.session_loop.specs.{StopCause};
ghost use Rattle.socat_top.specs.Kept.{history_of};
ghost use Rattle.socat_top.specs.Headline.{Leaves};
ghost use Rattle.socat_top.specs.Programs.{is_relaying, last_status};
ghost use Rattle.socat_top.specs.Tasks.{command_task, task};
ghost use Rattle.socat_top.specs.Written.{AsksForFile, asks_for_journal, journal_name, status_with, words_of_run};

use crate::files::JournalFile;
use crate::written::{Saving, Written, journal_flag, run_written};
use cmd_words::{Command, CommandFault, command_of};
use port_desk::{Desk, Standard};
use port_trait::{Maker, Poller, Port};
use relay_model::{Act, Journal, NoMemory, Text};
use std::alloc::Global;
use std::io::Write;
use world_trait::Recorder;

/// The most turns of a run.
const TURNS: u64 = u64::MAX;

/// The status where output failed after the run.
const FAILED: u8 = 1;

/// The status where there is no memory.
pub const NO_MEMORY: u8 = 2;

/// The words of the run: those behind the word that asks for a journal.
fn words_of_run(words: &[Text]) -> &[Text]
    ensures { result.now ≡ words_of_run words.now }
{
    match journal_flag(words) {
        Some((_, others)) => others,
        None => words,
    }
}

/// Whether the words ask for a relay. All else is done without ports.
pub fn asks_for_relay(alloc: Global, words: &[Text]) -> Result<bool, NoMemory>
    ensures { IfOk result (λ relays. relays ≡ is_relaying (task (words_of_run words.now))) }
{
    let asked = command_of(alloc, words_of_run(words));
    let relays = match &asked {
        Ok(command) => Ok(is_relay(command)),
        Err(CommandFault::Refused(_)) => Ok(false),
        Err(CommandFault::Memory) => Err(NoMemory),
    };
    // (dropped by a call: the prover reads a large value's end once, and not at each branch)
    drop(asked);
    relays
}

fn is_relay(command: &Command) -> bool
    ensures { result ≡ is_relaying (command_task command.now) }
{
    matches!(command, Command::Relay(_))
}

/// The run of a program: that of its words over a desk of these streams and of what the maker makes, with as many turns as can be
/// counted.
pub fn carry_out<M, P, I: Port, O: Port, E: Port, F: JournalFile>(
    alloc: Global,
    standard: Standard<I, O, E>,
    maker: M,
    poller: P,
    words: &[Text],
    journal: &mut F,
) -> Result<Written<I, O, E>, NoMemory>
where
    M: Maker + Drop,
    P: Poller + Drop,
    ensures status { IfOk result (λ written. written.status ≡ status_with written.shipped.status written.saving) }
    ensures tried { IfOk result (λ written. asks_for_journal words.now ≡ true
        → AsksForFile F.creates F.refuses journal.old (journal_name words.now) journal.new written.saving) }
    ensures headline { IfOk result (λ written. asks_for_journal words.now ≡ true
        → Leaves (task (words_of_run words.now)) (2 ^ 64 - 1) (record { acts = []; asked = [] })
        (Some (history_of written.shipped.kept)) written.shipped.outcome) }
    ensures stopped { IfOk result (λ written.
        StopCause (2 ^ 64 - 1) 0 written.shipped.counts.waits 0 written.shipped.counts.stops written.shipped.outcome) }
{
    let desk = Desk::new(alloc, standard, maker, poller, Recorder::Skip)?;
    Ok(run_written(alloc, desk, words, TURNS, journal))
}

/// Says what the run couldn't, and gives the status: that of the run and its journal, or that of a failure where output
/// failed after the last act.
pub fn end_status<I: Port, O: Port, E: Port, W: Write>(
    errors: &mut W,
    written: &Written<I, O, E>,
    failed_later: bool,
) -> u8
    ensures { result ≡ last_status written.now.status failed_later }
{
    if !has_told(written) {
        let _ = errors.write_all(b"socat: out of memory\n");
    }
    if written.saving == Saving::Failed {
        let _ = errors.write_all(b"socat: the journal couldn't be written\n");
    }
    if written.shipped.status == 0 && failed_later {
        let _ = errors.write_all(b"socat: write failed on standard output\n");
    }
    last_status(written.status, failed_later)
}

fn last_status(status: u8, failed_later: bool) -> u8
    ensures { result ≡ last_status status failed_later }
{
    if status == 0 && failed_later {
        FAILED
    } else {
        status
    }
}

/// Whether the run has told a want of memory, where there was one. Where a history is kept its line takes an act, for which
/// there may be no memory; and that of the journal's text comes after the run.
fn has_told<I: Port, O: Port, E: Port>(written: &Written<I, O, E>) -> bool {
    match written.shipped.status {
        0 => written.saving != Saving::Memory,
        NO_MEMORY => {
            written.saving == Saving::NotAsked || ends_with_note(written.shipped.kept.journal())
        }
        _ => true,
    }
}

fn ends_with_note(journal: &Journal) -> bool {
    let count = journal.len();
    count > 0 && matches!(journal.get(count - 1), Act::Note(_) | Act::NoteFault(_))
}
