// The report on words that are refused.
ghost use Rattle.std.specs.Prelude.{◌≡◌, ◌≤◌, ◌++◌, length, option_copied, min, take, drop, IfOk, OnOk};
ghost use Rattle.exit_status.specs.declared.outcomes.Outcome.TheVariants as outcome;
ghost use Rattle.exit_status.specs.{line};
ghost use Rattle.place_report.specs.{IsPrintable, EndsLine};
ghost use Rattle.command_report.specs.Refusals.{offset_of, carets, underlined, blamed, word_told, RefusalTold};

use crate::reasons::reason;
use exit_status::{Outcome, line_of};
use place_report::Page;
use relay_model::{Bytes, NoMemory, Refusal, Refused, Text};
use std::alloc::Global;

/// Where in its word the refusal points to.
fn offset_of(why: Refusal) -> u32
    ensures { result ≡ offset_of why }
{
    match why {
        Refusal::Unclosed { at }
        | Refusal::LoneBackslash { at }
        | Refusal::TooManyDuals { at }
        | Refusal::EmptyOption { at } => at,
        _ => 0,
    }
}

fn say_carets(page: &mut Page, bytes: &[u8]) -> Result<(), NoMemory>
    ensures { OnOk result (page.new ≡ page.old ++ carets bytes.now) }
{
    match bytes {
        [] => page.add(b"^"),
        _ => page.mark(b'^', bytes),
    }
}

fn say_underlined(page: &mut Page, from: usize, word: &[u8]) -> Result<(), NoMemory>
    requires { from ≤ length word.now }
    ensures { OnOk result (page.new ≡ page.old ++ underlined from word.now) }
{
    page.say("  ")?;
    page.show(word)?;
    page.end_line()?;
    page.say("  ")?;
    page.mark(b' ', &word[..from])?;
    say_carets(page, &word[from..])?;
    page.end_line()
}

/// The word that is blamed; words count from 1.
fn blamed_word(words: &[Text], place: u32) -> Option<&[u8]>
    ensures { option_copied result ≡ blamed words.now place }
{
    if place == 0 {
        return None;
    }
    match words.get(place as usize - 1) {
        Some(word) => Some(word.as_slice()),
        None => None,
    }
}

fn say_word(page: &mut Page, why: Refusal, word: Option<&[u8]>) -> Result<(), NoMemory>
    ensures { OnOk result (page.new ≡ page.old ++ word_told why (option_copied word.entry)) }
{
    match word {
        Some(word) => say_underlined(page, (offset_of(why) as usize).min(word.len()), word),
        None => Ok(()),
    }
}

/// The line that the program says of a refusal.
#[tactic(auto, using(crate::proofs::Lines::refusal_printable))]
fn said_line(alloc: Global, refused: &Refused) -> Result<Bytes, NoMemory>
    ensures text { IfOk result (λ bytes. bytes ≡ line (outcome.Refused refused.now)) }
    ensures printable { IfOk result IsPrintable }
{
    line_of(alloc, &Outcome::Refused(*refused))
}

/// What is wrong with words that make no command: the line that `socat` says of them, the word that is blamed with
/// carets under what is wrong, and why. These are the words, and what is refused of them.
pub fn refusal_report(alloc: Global, words: &[Text], refused: &Refused) -> Result<Bytes, NoMemory>
    ensures told { IfOk result (RefusalTold words.now refused.now) }
    ensures printable { IfOk result IsPrintable }
    ensures whole { IfOk result EndsLine }
{
    let word = blamed_word(words, refused.word);
    let mut page = Page::new(alloc);
    page.add(said_line(alloc, refused)?.as_slice())?;
    say_word(&mut page, refused.why, word)?;
    page.append(&reason(alloc, word, refused)?)?;
    page.end_line()?;
    Bytes::of(alloc, page.as_slice())
}
