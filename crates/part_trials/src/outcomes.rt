// How a run ended: the exit status, and the line that is said.
use crate::spellings::{SIDES, Spelling, value_of};
use case_rows::{Answered, Answers, CaseFault, Inputs};
use exit_status::{
    EndWhy, Op, Outcome, line_of, one_answer_fits, status, usage_text, version_text,
};
use relay_model::{Part, Place, Refusal, Refused};
use std::alloc::Global;

/// The outcomes that are one word.
const OUTCOMES: [Spelling<Outcome>; 8] = [
    ("finished", Outcome::Ended(EndWhy::Finished)),
    ("closing-time", Outcome::Ended(EndWhy::ClosingTime)),
    ("idle", Outcome::Ended(EndWhy::Idle)),
    ("served", Outcome::Ended(EndWhy::Served)),
    ("told", Outcome::Told),
    ("loaded", Outcome::Loaded),
    ("accept-failed", Outcome::AcceptFailed),
    ("memory", Outcome::Memory),
];

/// The refusals that are one word.
const REFUSALS: [Spelling<Refusal>; 3] = [
    ("left-out-kind", Refusal::LeftOutKind),
    ("unknown-kind", Refusal::UnknownKind),
    ("no-direction", Refusal::NoDirection),
];

const OPS: [Spelling<Op>; 2] = [("reading", Op::Reading), ("writing", Op::Writing)];

pub(crate) fn ask(alloc: Global, inputs: &mut Inputs<'_>, answers: &mut Answers) -> Answered {
    let outcome = outcome_of(inputs)?;
    one_answer_fits();
    answers.number(u64::from(status(&outcome)));
    answers.bytes(line_of(alloc, &outcome)?.as_slice());
    Ok(())
}

/// A text that is asked for.
pub(crate) fn ask_text(alloc: Global, inputs: &mut Inputs<'_>, answers: &mut Answers) -> Answered {
    let text = match inputs.word()? {
        "usage" => usage_text(alloc)?,
        "version" => version_text(alloc)?,
        _ => return Err(CaseFault::NoRow),
    };
    answers.bytes(text.as_slice());
    Ok(())
}

fn outcome_of(inputs: &mut Inputs<'_>) -> Result<Outcome, CaseFault> {
    match inputs.word()? {
        "refused" => refused_of(inputs),
        "faulted" => faulted_of(inputs),
        "open-failed" => open_failed_of(inputs),
        "listen-failed" => Ok(Outcome::ListenFailed {
            attempts: inputs.number()?,
        }),
        "stopped" => Ok(Outcome::Stopped {
            turns: inputs.number()?,
        }),
        word => value_of(&OUTCOMES, word),
    }
}

/// The side, and what was done there.
fn faulted_of(inputs: &mut Inputs<'_>) -> Result<Outcome, CaseFault> {
    let side = value_of(&SIDES, inputs.word()?)?;
    let op = value_of(&OPS, inputs.word()?)?;
    let place = Place {
        session: 0,
        side,
        part: Part::Both,
        door: false,
    };
    Ok(Outcome::Faulted { place, op })
}

/// The side, and how many tries failed.
fn open_failed_of(inputs: &mut Inputs<'_>) -> Result<Outcome, CaseFault> {
    let side = value_of(&SIDES, inputs.word()?)?;
    let attempts = inputs.number()?;
    Ok(Outcome::OpenFailed { side, attempts })
}

/// The word and the half of it, and what is wrong there.
fn refused_of(inputs: &mut Inputs<'_>) -> Result<Outcome, CaseFault> {
    let word = inputs.small_number()?;
    let half = inputs.word()?.parse::<u8>()?;
    let why = refusal_of(inputs)?;
    Ok(Outcome::Refused(Refused { word, half, why }))
}

fn refusal_of(inputs: &mut Inputs<'_>) -> Result<Refusal, CaseFault> {
    match inputs.word()? {
        "empty-option" => Ok(Refusal::EmptyOption {
            at: inputs.small_number()?,
        }),
        "unclosed" => Ok(Refusal::Unclosed {
            at: inputs.small_number()?,
        }),
        "addresses" => Ok(Refusal::AddressCount {
            have: inputs.small_number()?,
        }),
        "parameters" => parameters_of(inputs),
        word => value_of(&REFUSALS, word),
    }
}

/// How many parameters there are to be, and how many there are.
fn parameters_of(inputs: &mut Inputs<'_>) -> Result<Refusal, CaseFault> {
    let want = inputs.small_number()?;
    let have = inputs.small_number()?;
    Ok(Refusal::Parameters { want, have })
}
