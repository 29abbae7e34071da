// What is told of words: the lines that begin so, with a bar between.
use case_rows::{Answered, Answers, CaseFault, Inputs};
use cmd_words::{CommandFault, command_of};
use command_report::{explanation, refusal_report};
use relay_model::{Bytes, NoMemory, Text};
use std::alloc::Global;
use std::str;

fn report(alloc: Global, words: &[Text]) -> Result<Bytes, NoMemory> {
    match command_of(alloc, words) {
        Ok(command) => {
            let text = explanation(alloc, &command);
            drop(command);
            text
        }
        Err(CommandFault::Refused(refused)) => refusal_report(alloc, words, &refused),
        Err(CommandFault::Memory) => Err(NoMemory),
    }
}

fn say_lines(report: &str, beginning: &str, answers: &mut Answers) {
    let mut is_first = true;
    for line in report.lines() {
        if say_line(line.trim(), beginning, is_first, answers) {
            is_first = false;
        }
    }
}

/// Says a line that begins so, with a bar before each but the first. Whether it begins so.
fn say_line(line: &str, beginning: &str, is_first: bool, answers: &mut Answers) -> bool {
    let is_asked = line.starts_with(beginning);
    if is_asked {
        answers.word_if("|", !is_first);
        answers.word(line);
    }
    is_asked
}

pub(crate) fn ask(alloc: Global, inputs: &mut Inputs<'_>, answers: &mut Answers) -> Answered {
    let beginning = inputs.bytes(alloc)?;
    let words = inputs.texts(alloc)?;
    let report = report(alloc, words.as_slice())?;
    match (
        str::from_utf8(report.as_slice()),
        str::from_utf8(beginning.as_slice()),
    ) {
        (Ok(report), Ok(beginning)) => {
            say_lines(report, beginning, answers);
            Ok(())
        }
        _ => Err(CaseFault::NoRow),
    }
}
