// What a row asks, word by word.
use crate::rows::CaseFault;
use percent_encoding::percent_decode;
use relay_model::{Text, Texts};
use std::alloc::Global;
use std::str::SplitWhitespace;

/// The words that are still to be read.
#[derive(Drop)]
pub struct Inputs<'a> {
    text: &'a str,
    words: SplitWhitespace<'a>,
}

impl<'a> Inputs<'a> {
    /// The words of this text.
    pub fn new(text: &'a str) -> Inputs<'a> {
        Inputs {
            text,
            words: text.split_whitespace(),
        }
    }

    /// All of the text as lines, where each `|` stands for a newline. No word is left.
    pub fn lines(&mut self, alloc: Global) -> Result<Vec<u8>, CaseFault> {
        self.words = "".split_whitespace();
        let mut lines = Vec::new(alloc);
        for byte in self.text.bytes() {
            lines.push(if byte == b'|' { b'\n' } else { byte })?;
        }
        Ok(lines)
    }

    /// The next word, None at the end.
    pub fn step(&mut self) -> Option<&'a str> {
        self.words.next()
    }

    /// The next word, which has to be there.
    pub fn word(&mut self) -> Result<&'a str, CaseFault> {
        self.words.next().ok_or(CaseFault::NoRow)
    }

    /// There is no further word.
    pub fn end(&mut self) -> Result<(), CaseFault> {
        match self.words.next() {
            None => Ok(()),
            Some(_) => Err(CaseFault::NoRow),
        }
    }

    /// The number that the next word spells.
    pub fn number(&mut self) -> Result<u64, CaseFault> {
        Ok(self.word()?.parse::<u64>()?)
    }

    /// The number below 2 ^ 32 that the next word spells.
    pub fn small_number(&mut self) -> Result<u32, CaseFault> {
        Ok(self.word()?.parse::<u32>()?)
    }

    /// The bytes that the next word spells.
    pub fn bytes(&mut self, alloc: Global) -> Result<Vec<u8>, CaseFault> {
        bytes_of(alloc, self.word()?)
    }

    /// What all further words spell.
    pub fn texts(&mut self, alloc: Global) -> Result<Texts, CaseFault> {
        let mut texts = Texts::new(alloc);
        for _ in 0..u64::MAX {
            let Some(word) = self.words.next() else {
                break;
            };
            let bytes = bytes_of(alloc, word)?;
            texts.push(Text::of(alloc, bytes.as_slice())?)?;
        }
        Ok(texts)
    }
}

/// The bytes that a word spells: percent-encoded as in a URL, or `%` for none; or `%*COUNT*BYTES*REST`, which is these
/// bytes so often and then the rest.
pub fn bytes_of(alloc: Global, word: &str) -> Result<Vec<u8>, CaseFault> {
    let mut bytes = Vec::new(alloc);
    if let Some(spelling) = word.strip_prefix("%*") {
        push_repeated(&mut bytes, spelling)?;
    } else if word != "%" {
        percent_decode(word.as_bytes()).append_to(&mut bytes)?;
    }
    Ok(bytes)
}

fn push_repeated(bytes: &mut Vec<u8>, spelling: &str) -> Result<(), CaseFault> {
    let (count, spelling) = spelling.split_once('*').ok_or(CaseFault::NoRow)?;
    let (piece, rest) = spelling.split_once('*').ok_or(CaseFault::NoRow)?;
    for _ in 0..count.parse::<u32>()? {
        percent_decode(piece.as_bytes()).append_to(bytes)?;
    }
    percent_decode(rest.as_bytes()).append_to(bytes)?;
    Ok(())
}

/// A step's name, and what stands behind its first colon.
pub fn step_parts(word: &str) -> (&str, &str) {
    word.split_once(':').unwrap_or((word, ""))
}
