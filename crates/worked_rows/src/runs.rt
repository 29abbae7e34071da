// What a run left.
use exit_status::Outcome;
use journal_text::write_journal;
use relay_model::{Act, Bytes, Journal, NoMemory};
use socat_top::Saving;
use std::alloc::Global;

/// What a run left.
#[derive(Drop)]
pub struct RunResult {
    pub outcome: Outcome,
    pub status: u8,
    /// What was said of the outcome.
    pub said: Bytes,
    /// The written journal, without that.
    pub journal: Bytes,
    pub saving: Saving,
    /// What the file of the journal took.
    pub saved: Bytes,
    /// What is seen of ports and files after the run, a line each: `stdout took x6162`, `stdin back joined`.
    pub ports: Vec<String>,
}

/// A journal without a last note, as it is written, and the text of that note.
#[derive(Drop)]
pub struct Parted {
    pub journal: Bytes,
    pub note: Bytes,
}

/// Parts the last note of a journal from what was done before.
pub fn part(alloc: Global, journal: &Journal) -> Result<Parted, NoMemory> {
    let mut acts = Journal::new(alloc);
    let mut note = Bytes::of(alloc, b"")?;
    for i in 0..journal.len() {
        match journal.get(i) {
            Act::Note(text) if i + 1 == journal.len() => note = text.copy()?,
            act => acts.push(act.copy()?)?,
        }
    }
    Ok(Parted {
        journal: write_journal(alloc, &acts)?,
        note,
    })
}
