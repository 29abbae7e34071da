// The files of rows.
use crate::calls::{PATIENCE, call_port};
use case_rows::{Answered, Answers, CaseFault, Inputs};
use file_ports::{PipeOpenings, make_file};
use mio::Poll;
use port_trait::{Making, Port};
use relay_model::{Options, Part, Single, Target, Text};
use std::alloc::Global;
use std::net::Net;
use std::rt::HostRuntime;
use std::thread::Threads;

/// Opens the file, and makes the calls on its port.
pub(crate) fn ask<R>(
    rt: &R,
    system: HostRuntime,
    alloc: Global,
    inputs: &mut Inputs<'_>,
    answers: &mut Answers,
) -> Answered
where
    R: Net + Threads,
{
    let part = part_of(inputs.word()?)?;
    let single = single_of(alloc, inputs)?;
    let Ok(poll) = Poll::new(rt) else {
        return no_poll(answers);
    };
    let mut openings = match PipeOpenings::new(alloc, poll.registry()) {
        Making::Made(openings) => openings,
        Making::Later(_) | Making::Failed => return no_poll(answers),
        Making::Memory => return Err(CaseFault::NoMemory),
    };
    let made = make_file(rt, system, alloc, &mut openings, 0, &single, part);
    call_made(alloc, made, inputs, answers)
}

fn no_poll(answers: &mut Answers) -> Answered {
    answers.word("no-poll");
    Ok(())
}

/// Says whether there is a port, and makes the calls on it.
fn call_made<P: Port>(
    alloc: Global,
    made: Making<P>,
    inputs: &mut Inputs<'_>,
    answers: &mut Answers,
) -> Answered {
    match made {
        Making::Made(port) => {
            answers.word("made");
            call_port(alloc, port, None, PATIENCE, inputs, answers)
        }
        Making::Later(_) | Making::Failed => {
            answers.word("failed");
            Ok(())
        }
        Making::Memory => Err(CaseFault::NoMemory),
    }
}

/// The use of a file.
fn part_of(word: &str) -> Result<Part, CaseFault> {
    match word {
        "reading" => Ok(Part::Reading),
        "writing" => Ok(Part::Writing),
        "both" => Ok(Part::Both),
        _ => Err(CaseFault::NoRow),
    }
}

/// The address of a file: its kind, and its name.
fn single_of(alloc: Global, inputs: &mut Inputs<'_>) -> Result<Single, CaseFault> {
    let kind = inputs.word()?;
    let name = Text::of(alloc, inputs.bytes(alloc)?.as_slice())?;
    let target = match kind {
        "create" => Target::Create(name),
        "open" => Target::FileAt(name),
        "generic" => Target::GenericOpen(name),
        "pipe" => Target::NamedPipe(name),
        _ => return Err(CaseFault::NoRow),
    };
    let options = Options::defaults(alloc)?;
    Ok(Single { target, options })
}
