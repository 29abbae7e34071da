// Journals that are read and written again: the number of acts where the text comes back, or the bad line.
use case_rows::{Answered, Answers, CaseFault, Inputs};
use journal_text::{JournalFault, one_bad_line, one_journal, read_journal, write_journal};
use std::alloc::Global;

pub(crate) fn ask(alloc: Global, inputs: &mut Inputs<'_>, answers: &mut Answers) -> Answered {
    let text = inputs.lines(alloc)?;
    one_journal();
    one_bad_line();
    match read_journal(alloc, text.as_slice()) {
        Ok(journal) => {
            let again = write_journal(alloc, &journal)?;
            if again.as_slice() == text.as_slice() {
                answers.word_and_number("acts", journal.len() as u64);
            } else {
                answers.bytes(again.as_slice());
            }
        }
        Err(JournalFault::Line { number }) => answers.word_and_number("line", number),
        Err(JournalFault::Memory) => return Err(CaseFault::NoMemory),
    }
    Ok(())
}
