//! Tries the parts on worked values. Arguments: files. Each line of theirs is a case: a name, a part, what it is asked,
//! and after `=` what it must answer. The program prints a line for each case and at the end how many there were, and
//! ends with 1 where one differs. With `measure`, a part and a count it measures that part by itself.
#![tactic(auto)]

mod addresses;
mod commands;
mod conversions;
mod dumps;
mod flow_rates;
mod flows;
mod journals;
mod kinds;
mod measures;
mod outcomes;
mod peers;
mod places;
mod plans;
mod random;
mod reports;
mod spellings;
mod targets;
mod timer_rates;
mod timers;
mod tokens;
mod values;

use case_rows::{Answered, Answers, Inputs, try_files};
use std::alloc::Global;
use std::io;
use std::process::ExitCode;

/// Asks the part that the row names.
fn ask(alloc: Global, part: &str, inputs: &mut Inputs<'_>, answers: &mut Answers) -> Answered {
    match part {
        "dump" => dumps::ask(alloc, inputs, answers),
        "convert" => conversions::ask(alloc, inputs, answers),
        "flow" => flows::ask(alloc, inputs, answers),
        "timers" => timers::ask(alloc, inputs, answers),
        "plan" => plans::ask(inputs, answers),
        "permits" => peers::ask(alloc, inputs, answers),
        "outcome" => outcomes::ask(alloc, inputs, answers),
        "says" => outcomes::ask_text(alloc, inputs, answers),
        "journal" => journals::ask(alloc, inputs, answers),
        _ => ask_words(alloc, part, inputs, answers),
    }
}

/// Asks a part that reads words.
fn ask_words(
    alloc: Global,
    part: &str,
    inputs: &mut Inputs<'_>,
    answers: &mut Answers,
) -> Answered {
    match part {
        "command" => commands::ask(alloc, inputs, answers),
        "told" => reports::ask(alloc, inputs, answers),
        "fault" => commands::ask_fault(alloc, inputs, answers),
        "tokens" => tokens::ask(alloc, inputs, answers),
        "written" => tokens::ask_written(alloc, inputs, answers),
        "address" => addresses::ask(alloc, inputs, answers),
        "printed" => addresses::ask_printed(alloc, inputs, answers),
        "single" => kinds::ask(alloc, inputs, answers),
        _ => values::ask(alloc, part, inputs, answers),
    }
}

fn main(rt: HostRuntime) -> io::Result<ExitCode> {
    if measures::measure_asked(&rt)? {
        return Ok(ExitCode::SUCCESS);
    }
    try_files(&rt, &ask)
}
