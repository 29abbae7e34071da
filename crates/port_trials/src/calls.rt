// The calls of a row: begin, settle, read:COUNT, write:BYTES, send:BYTES, put:BYTES, shut, hint, may-hint, has-child, reap
// and join; gives:BYTES reads until so many bytes came, and says whether they are these; taken says what was taken in
// memory, and took:BYTES whether it is this.
use crate::spellings::{begun_word, hint_word, settled_word, shutting_word, truth_word};
use case_rows::{Answered, Answers, CaseFault, Inputs, bytes_of, step_parts};
use port_objects::Tap;
use port_trait::{Got, Joining, Port, PortReap, Took};
use relay_model::Shut;
use std::alloc::Global;
use std::thread;

/// How often a call is made anew where a thread works for the port.
pub(crate) const PATIENCE: u32 = 20_000_000;

/// The bytes that are read at a time to see what is given.
const BLOCK: usize = 4096;

/// What a call came to.
#[derive(Drop)]
enum CallAnswer {
    Word(&'static str),
    /// Nothing for now, in this word.
    Later(&'static str),
    Count(usize),
    Bytes(Vec<u8>),
}

/// Makes the calls of all further words. One that comes to nothing for now is made anew, at most so often.
pub(crate) fn make_calls<P: Port>(
    alloc: Global,
    port: &mut P,
    tap: Option<&Tap>,
    tries: u32,
    inputs: &mut Inputs<'_>,
    answers: &mut Answers,
) -> Answered {
    for _ in 0..u64::MAX {
        let Some(step) = inputs.step() else {
            break;
        };
        let (name, value) = step_parts(step);
        match name {
            "taken" => tell_taken(tap, answers)?,
            "took" => answers.truth(has_taken(tap, bytes_of(alloc, value)?.as_slice())?),
            "gives" => {
                let want = bytes_of(alloc, value)?;
                answers.truth(gives(alloc, port, tries, want.as_slice())?);
            }
            _ => insist(alloc, port, tries, name, value, answers)?,
        }
    }
    Ok(())
}

/// Makes the calls of all further words on a port that is used up.
pub(crate) fn call_port<P: Port>(
    alloc: Global,
    port: P,
    tap: Option<&Tap>,
    tries: u32,
    inputs: &mut Inputs<'_>,
    answers: &mut Answers,
) -> Answered {
    let mut port = port;
    make_calls(alloc, &mut port, tap, tries, inputs, answers)
}

fn tell_taken(tap: Option<&Tap>, answers: &mut Answers) -> Answered {
    let tap = tap.ok_or(CaseFault::NoRow)?;
    answers.bytes(tap.bytes()?.as_slice());
    Ok(())
}

fn has_taken(tap: Option<&Tap>, want: &[u8]) -> Result<bool, CaseFault> {
    let tap = tap.ok_or(CaseFault::NoRow)?;
    Ok(tap.bytes()?.as_slice() == want)
}

/// Makes a call until it comes to something.
fn insist<P: Port>(
    alloc: Global,
    port: &mut P,
    tries: u32,
    name: &str,
    value: &str,
    answers: &mut Answers,
) -> Answered {
    for _ in 1..tries {
        match call(alloc, port, name, value)? {
            CallAnswer::Later(_) => thread::yield_now(),
            answer => {
                say(answer, answers);
                return Ok(());
            }
        }
    }
    say(call(alloc, port, name, value)?, answers);
    Ok(())
}

fn say(answer: CallAnswer, answers: &mut Answers) {
    match answer {
        CallAnswer::Word(word) | CallAnswer::Later(word) => answers.word(word),
        CallAnswer::Count(count) => answers.number(count as u64),
        CallAnswer::Bytes(bytes) => answers.bytes(bytes.as_slice()),
    }
}

fn call<P: Port>(
    alloc: Global,
    port: &mut P,
    name: &str,
    value: &str,
) -> Result<CallAnswer, CaseFault> {
    match name {
        "begin" => Ok(CallAnswer::Word(begun_word(port.begin()))),
        "settle" => Ok(CallAnswer::Word(settled_word(port.settle()))),
        "read" => read(alloc, port, value.parse::<usize>()?),
        "write" | "send" | "put" => put(port, name, bytes_of(alloc, value)?.as_slice()),
        "shut" => Ok(CallAnswer::Word(shutting_word(port.shut(Shut::Down)))),
        "hint" => Ok(CallAnswer::Word(hint_word(port.hint()))),
        "may-hint" => Ok(CallAnswer::Word(hint_word(port.may_hint()))),
        "has-child" => Ok(CallAnswer::Word(truth_word(port.has_child()))),
        "reap" => Ok(reap(port)),
        "join" => Ok(join(port)),
        _ => Err(CaseFault::NoRow),
    }
}

fn read<P: Port>(alloc: Global, port: &mut P, count: usize) -> Result<CallAnswer, CaseFault> {
    if count == 0 {
        return Err(CaseFault::NoRow);
    }
    let mut into = vec![in alloc; 0u8; count]?;
    let got = port.read(into.as_mut_slice());
    Ok(answer_of(got, into))
}

fn answer_of(got: Got, into: Vec<u8>) -> CallAnswer {
    match got {
        Got::Bytes(count) => {
            let mut bytes = into;
            bytes.truncate(count);
            CallAnswer::Bytes(bytes)
        }
        Got::Empty => CallAnswer::Word("empty"),
        Got::End => CallAnswer::Word("end"),
        Got::NotYet => CallAnswer::Later("not-yet"),
        Got::Failed => CallAnswer::Word("failed"),
    }
}

fn put<P: Port>(port: &mut P, name: &str, bytes: &[u8]) -> Result<CallAnswer, CaseFault> {
    if bytes.is_empty() {
        return Err(CaseFault::NoRow);
    }
    let took = match name {
        "write" => port.write(bytes),
        "send" => port.send(bytes),
        _ => port.put_all(bytes),
    };
    match took {
        Took::Took(count) => Ok(CallAnswer::Count(count)),
        Took::NotYet => Ok(CallAnswer::Later("not-yet")),
        Took::Failed => Ok(CallAnswer::Word("failed")),
    }
}

fn reap<P: Port>(port: &mut P) -> CallAnswer {
    match port.reap() {
        PortReap::NoChild => CallAnswer::Word("no-child"),
        PortReap::Reaped(_) => CallAnswer::Word("reaped"),
    }
}

fn join<P: Port>(port: &mut P) -> CallAnswer {
    match port.join() {
        Joining::Joined => CallAnswer::Word("joined"),
        Joining::Running => CallAnswer::Later("running"),
    }
}

/// Whether the port gives these bytes, in however many parts.
fn gives<P: Port>(alloc: Global, port: &mut P, tries: u32, want: &[u8]) -> Result<bool, CaseFault> {
    let mut into = [0u8; BLOCK];
    let mut have = Vec::new(alloc);
    for _ in 0..tries {
        match port.read(&mut into) {
            Got::Bytes(count) => have.extend_from_slice(&into[..count])?,
            Got::NotYet => thread::yield_now(),
            Got::Empty | Got::End | Got::Failed => break,
        }
        if have.len() >= want.len() {
            break;
        }
    }
    Ok(have.as_slice() == want)
}

/// Begins a port in a box, and reads as many bytes as each further word says.
pub(crate) fn read_boxed(
    alloc: Global,
    port: &mut dyn Port,
    inputs: &mut Inputs<'_>,
    answers: &mut Answers,
) -> Answered {
    answers.word(begun_word(port.begin()));
    for _ in 0..u64::MAX {
        let Some(word) = inputs.step() else {
            break;
        };
        let count = word.parse::<usize>()?;
        if count == 0 {
            return Err(CaseFault::NoRow);
        }
        let mut into = vec![in alloc; 0u8; count]?;
        let got = port.read(into.as_mut_slice());
        say(answer_of(got, into), answers);
    }
    Ok(())
}
