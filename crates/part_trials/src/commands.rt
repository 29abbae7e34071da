// What words ask for. A relay: the block, the two times, the ways, the dump, and what stands on the left and on the
// right. A refusal: its line.
use crate::places::say_address;
use case_rows::{Answered, Answers, CaseFault, Inputs};
use cmd_words::{Command, CommandFault, command_is_told, command_of};
use exit_status::{Outcome, line_of};
use relay_model::{Config, Dump, Refused, Ways};
use std::alloc::Global;

pub(crate) fn ask(alloc: Global, inputs: &mut Inputs<'_>, answers: &mut Answers) -> Answered {
    let words = inputs.texts(alloc)?;
    command_is_told();
    match command_of(alloc, words.as_slice()) {
        Ok(command) => {
            say_command(&command, answers);
            drop(command);
            Ok(())
        }
        Err(CommandFault::Refused(refused)) => tell_refused(alloc, refused, answers),
        Err(CommandFault::Memory) => Err(CaseFault::NoMemory),
    }
}

/// What the fault says of itself.
pub(crate) fn ask_fault(alloc: Global, inputs: &mut Inputs<'_>, answers: &mut Answers) -> Answered {
    let words = inputs.texts(alloc)?;
    match command_of(alloc, words.as_slice()) {
        Ok(command) => {
            drop(command);
            answers.word("none");
        }
        Err(fault) => {
            let line = format!(in alloc; "{fault}")?;
            answers.word(line.as_str());
        }
    }
    Ok(())
}

fn tell_refused(alloc: Global, refused: Refused, answers: &mut Answers) -> Answered {
    let line = line_of(alloc, &Outcome::Refused(refused))?;
    answers.line(line.as_slice());
    Ok(())
}

fn say_command(command: &Command, answers: &mut Answers) {
    match command {
        Command::Relay(config) => say_relay(config, answers),
        Command::Usage => answers.word("usage"),
        Command::Version => answers.word("version"),
        Command::Load(number) => answers.word_and_number("load", *number),
    }
}

fn say_relay(config: &Config, answers: &mut Answers) {
    answers.word_and_number("relay", u64::from(config.block));
    answers.number_part(config.closing);
    answers.number_part(config.idle);
    answers.word_part(ways_word(config.ways));
    answers.word_part(dump_word(config.dump));
    answers.word_if("sloppy", config.sloppy);
    answers.word("left");
    say_address(&config.left, answers);
    answers.word("right");
    say_address(&config.right, answers);
}

fn ways_word(ways: Ways) -> &'static str {
    match ways {
        Ways::Two => "two-way",
        Ways::OnlyRight => "only-right",
        Ways::OnlyLeft => "only-left",
    }
}

fn dump_word(dump: Dump) -> &'static str {
    match dump {
        Dump::Off => "no-dump",
        Dump::Text => "text",
        Dump::Hex => "hex",
        Dump::Mixed => "mixed",
    }
}
