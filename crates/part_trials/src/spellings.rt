// Words of the rows that stand for values of the model.
use case_rows::CaseFault;
use relay_model::{Conv, Dump, Side, Way};

/// A word and what it stands for.
pub(crate) type Spelling<T> = (&'static str, T);

pub(crate) const CONVS: [Spelling<Conv>; 3] = [
    ("plain", Conv::Plain),
    ("cr", Conv::Cr),
    ("crnl", Conv::Crnl),
];

pub(crate) const SIDES: [Spelling<Side>; 2] = [("left", Side::Left), ("right", Side::Right)];

pub(crate) const WAYS: [Spelling<Way>; 2] = [
    ("right", Way::LeftToRight),
    ("left", Way::RightToLeft),
];

/// The styles that dump something.
pub(crate) const STYLES: [Spelling<Dump>; 3] = [
    ("text", Dump::Text),
    ("hex", Dump::Hex),
    ("mixed", Dump::Mixed),
];

/// What the word stands for by these spellings.
pub(crate) fn value_of<T: Copy>(spellings: &[Spelling<T>], word: &str) -> Result<T, CaseFault> {
    for spelling in spellings {
        if spelling.0 == word {
            return Ok(spelling.1);
        }
    }
    Err(CaseFault::NoRow)
}
