// A command and the answers to its session: how many fitted, the wish after them with what it offers, and the history.
ghost use Rattle.relay_model.specs.{Fit};

use crate::replies::{reply_of, say_wish};
use case_rows::{Answered, Answers, CaseFault, Inputs, bytes_of};
use cmd_words::relay_of;
use command_places::has_fork;
use journal_text::write_journal;
use relay_model::{Config, Dump, NoMemory, Text, Texts};
use session_replay::{Replayed, Reply, replay};
use std::alloc::Global;

pub(crate) fn ask(alloc: Global, inputs: &mut Inputs<'_>, answers: &mut Answers) -> Answered {
    let words = words_of(alloc, inputs)?;
    match relay_of(alloc, words.as_slice())? {
        Some(config) => {
            let told = ask_config(alloc, &config, inputs, answers);
            drop(config);
            told
        }
        None => Err(CaseFault::NoRow),
    }
}

fn ask_config(
    alloc: Global,
    config: &Config,
    inputs: &mut Inputs<'_>,
    answers: &mut Answers,
) -> Answered
    requires { Fit config.now }
{
    let replies = replies_of(alloc, inputs)?;
    tell(alloc, config, replies.as_slice(), answers)
}

/// The words of the command, up to `answers`.
fn words_of(alloc: Global, inputs: &mut Inputs<'_>) -> Result<Texts, CaseFault> {
    let mut words = Texts::new(alloc);
    for _ in 0..u64::MAX {
        let word = inputs.word()?;
        if word == "answers" {
            return Ok(words);
        }
        words.push(text_of(alloc, word)?)?;
    }
    Err(CaseFault::NoRow)
}

fn text_of(alloc: Global, word: &str) -> Result<Text, CaseFault> {
    let bytes = bytes_of(alloc, word)?;
    Ok(Text::of(alloc, bytes.as_slice())?)
}

fn replies_of(alloc: Global, inputs: &mut Inputs<'_>) -> Result<Vec<Reply>, CaseFault> {
    let mut replies = Vec::new(alloc);
    for _ in 0..u64::MAX {
        let Some(word) = inputs.step() else {
            break;
        };
        replies.push(reply_of(alloc, word)?)?;
    }
    Ok(replies)
}

fn tell(alloc: Global, config: &Config, replies: &[Reply], answers: &mut Answers) -> Answered
    requires { Fit config.now }
{
    if has_fork(config) || config.dump != Dump::Off {
        return Err(CaseFault::NoRow);
    }
    match replay(alloc, config, replies) {
        Ok(replayed) => {
            let told = tell_replayed(alloc, &replayed, answers);
            drop(replayed);
            told
        }
        Err(NoMemory) => Err(CaseFault::NoMemory),
    }
}

fn tell_replayed(alloc: Global, replayed: &Replayed, answers: &mut Answers) -> Answered {
    answers.number(replayed.taken);
    say_wish(&replayed.last, answers);
    answers.bytes(replayed.offered.as_slice());
    answers.bytes(write_journal(alloc, &replayed.journal)?.as_slice());
    Ok(())
}
