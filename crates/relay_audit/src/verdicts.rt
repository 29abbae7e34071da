// The verdict on a written journal.
ghost use Rattle.std.specs.Prelude.{◌≡◌, IfOk, Ok};
ghost use Rattle.cmd_words.specs.declared.commands.Command.TheVariants.{Relay};
ghost use Rattle.cmd_words.specs.{command};
ghost use Rattle.relay_audit.specs.Verdicts.{IsVerdictOn, IsVerdictFor, IsVerdictOf};

use crate::judging::{Judgement, judge};
use cmd_words::relay_of;
use journal_text::{JournalFault, read_journal};
use relay_model::{Config, Journal, NoMemory, Text};
use std::alloc::Global;

/// What is found of a text that is said to be the journal of a command's run.
#[derive(Clone, Copy)]
pub enum Verdict {
    /// It is the text of a legal history with so many acts, after which so many places and doors are held.
    Yes { acts: u64, held: u64 },
    /// The first line, counted from 1, that spells no act.
    BadLine { number: u64 },
    /// The words make no relay.
    BadWords,
    /// The first act, counted from 1, that may not come after the acts before it.
    Illegal { act: u64 },
}

fn verdict_on(
    alloc: Global,
    config: &Config,
    journal: &Journal,
    turns: u64,
) -> Result<Verdict, NoMemory>
    ensures { IfOk result (IsVerdictOn config.now turns journal.now.acts) }
{
    match judge(alloc, config, journal, turns)? {
        Judgement::Legal { held } => Ok(Verdict::Yes {
            acts: journal.len() as u64,
            held,
        }),
        Judgement::Illegal { act } => Ok(Verdict::Illegal { act }),
    }
}

fn verdict_for(alloc: Global, config: &Config, text: &[u8], turns: u64) -> Result<Verdict, NoMemory>
    ensures { IfOk result (IsVerdictFor config.now turns text.now) }
{
    match read_journal(alloc, text) {
        Ok(journal) => verdict_on(alloc, config, &journal, turns),
        Err(JournalFault::Line { number }) => Ok(Verdict::BadLine { number }),
        Err(JournalFault::Memory) => Err(NoMemory),
    }
}

/// The verdict, where the words make this relay.
#[tactic(auto, using(crate::proofs::OneVerdict::verdict_of_relay))]
fn verdict_by(
    alloc: Global,
    config: &Config,
    text: &[u8],
    words: &[Text],
    turns: u64,
) -> Result<Verdict, NoMemory>
    requires { command words.now ≡ Ok (Relay config.now) }
    ensures { IfOk result (IsVerdictOf words.now turns text.now) }
{
    let verdict = verdict_for(alloc, config, text, turns)?;
    Ok(verdict)
}

/// Whether the text is the journal of a run that this command may have, with so many turns at most. The time grows
/// with the text's length, and for each turn with the number of sessions that have begun.
pub fn audit(alloc: Global, text: &[u8], words: &[Text], turns: u64) -> Result<Verdict, NoMemory>
    ensures { IfOk result (IsVerdictOf words.now turns text.now) }
{
    match relay_of(alloc, words)? {
        None => Ok(Verdict::BadWords),
        Some(config) => {
            let verdict = verdict_by(alloc, &config, text, words, turns);
            // (a call of its own, since the prover reads the end of a large value at each branch)
            drop(config);
            verdict
        }
    }
}
