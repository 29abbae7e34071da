// Dumps of bytes that were read: the direction, the style, the place of the first byte, the bytes.
use crate::spellings::{STYLES, WAYS, value_of};
use case_rows::{Answered, Answers, CaseFault, Inputs};
use dump_format::dump_text;
use relay_model::Dump;
use std::alloc::Global;

pub(crate) fn ask(alloc: Global, inputs: &mut Inputs<'_>, answers: &mut Answers) -> Answered {
    let way = value_of(&WAYS, inputs.word()?)?;
    let style = value_of(&STYLES, inputs.word()?)?;
    let from = inputs.number()?;
    let bytes = inputs.bytes(alloc)?;
    if style == Dump::Off || bytes.is_empty() {
        return Err(CaseFault::NoRow);
    }
    let text = dump_text(alloc, way, style, from, bytes.as_slice())?;
    answers.bytes(text.as_slice());
    Ok(())
}
