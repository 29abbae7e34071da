// Conversions of a block: as it is read, as it is written, the block.
use crate::spellings::{CONVS, value_of};
use case_rows::{Answered, Answers, CaseFault, Inputs};
use line_ends::{Convs, convert, cuts_change_nothing};
use std::alloc::Global;

/// The longest block of a row.
const LONGEST: usize = 4096;

pub(crate) fn ask(alloc: Global, inputs: &mut Inputs<'_>, answers: &mut Answers) -> Answered {
    let read = value_of(&CONVS, inputs.word()?)?;
    let write = value_of(&CONVS, inputs.word()?)?;
    let block = inputs.bytes(alloc)?;
    let how = Convs { read, write };
    cuts_change_nothing(how);
    if block.len() > LONGEST {
        return Err(CaseFault::NoRow);
    }
    let mut out = [0u8; 2 * LONGEST];
    let count = convert(how, block.as_slice(), &mut out);
    answers.bytes(&out[..count]);
    Ok(())
}
