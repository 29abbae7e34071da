// What an address asks for, or what is wrong with it: the use, and the address.
use crate::places::say_single;
use crate::spellings::{Spelling, value_of};
use addr_grammar::{RawAddress, parse_address};
use addr_kinds::{Asked, KindFault, resolutions_are_told, resolve};
use case_rows::{Answered, Answers, CaseFault, Inputs};
use std::alloc::Global;

const USES: [Spelling<Asked>; 3] = [
    ("two-way", Asked::TwoWay),
    ("reading", Asked::Reading),
    ("writing", Asked::Writing),
];

pub(crate) fn ask(alloc: Global, inputs: &mut Inputs<'_>, answers: &mut Answers) -> Answered {
    let (asked, general) = asked_of(inputs.word()?)?;
    let text = inputs.bytes(alloc)?;
    resolutions_are_told();
    let Ok(RawAddress::One(raw)) = parse_address(alloc, text.as_slice()) else {
        return Err(CaseFault::NoRow);
    };
    match resolve(alloc, &raw, asked, general) {
        Ok(single) => {
            say_single(&single, answers);
            drop(single);
        }
        Err(KindFault::Memory) => return Err(CaseFault::NoMemory),
        Err(fault) => {
            let line = format!(in alloc; "{fault}")?;
            answers.word(line.as_str());
        }
    }
    Ok(())
}

/// The use that is asked for. With `-g` behind it options of any group are taken.
fn asked_of(word: &str) -> Result<(Asked, bool), CaseFault> {
    match word.strip_suffix("-g") {
        Some(word) => Ok((value_of(&USES, word)?, true)),
        None => Ok((value_of(&USES, word)?, false)),
    }
}
