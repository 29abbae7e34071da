// What a part answered, in the spelling of the rows.
use crate::rows::CaseFault;
use percent_encoding::{AsciiSet, CONTROLS, ascii_set, percent_encode};
use std::alloc::{AllocError, Global};
use std::str;

/// The printable bytes that are encoded too.
const ENCODED: AsciiSet = ascii_set!(CONTROLS.add(b' ').add(b'%').add(b':'));

/// The answers, with a space between. An answer may have parts, with a colon before each but the first. A fault is kept
/// until all of them are asked for, so that none of the calls fails.
#[derive(Drop)]
pub struct Answers {
    text: String,
    fault: Option<CaseFault>,
}

impl Answers {
    /// No answer yet; takes no memory.
    pub fn new(alloc: Global) -> Answers {
        Answers {
            text: String::new(alloc),
            fault: None,
        }
    }

    /// All of them.
    pub fn into_text(self) -> Result<String, CaseFault> {
        match self.fault {
            None => Ok(self.text),
            Some(fault) => Err(fault),
        }
    }

    fn note(&mut self, pushed: Result<(), AllocError>) {
        if pushed.is_err() {
            self.fault = Some(CaseFault::NoMemory);
        }
    }

    fn push(&mut self, text: &str) {
        let pushed = self.text.push_str(text);
        self.note(pushed);
    }

    fn space(&mut self) {
        if !self.text.as_str().is_empty() {
            self.push(" ");
        }
    }

    /// An answer as it is.
    pub fn word(&mut self, word: &str) {
        self.space();
        self.push(word);
    }

    /// The word, where it holds.
    pub fn word_if(&mut self, word: &str, holds: bool) {
        if holds {
            self.word(word);
        }
    }

    /// `yes` where it holds, else `no`.
    pub fn truth(&mut self, holds: bool) {
        self.word(if holds { "yes" } else { "no" });
    }

    /// A number.
    pub fn number(&mut self, number: u64) {
        self.space();
        let pushed = write!(self.text, "{number}");
        self.note(pushed);
    }

    /// A word and a number.
    pub fn word_and_number(&mut self, word: &str, number: u64) {
        self.word(word);
        self.number_part(number);
    }

    /// Two numbers, the second as a part.
    pub fn pair(&mut self, first: u64, second: u64) {
        self.number(first);
        self.number_part(second);
    }

    /// A word and a number, where it isn't the usual one.
    pub fn unusual(&mut self, word: &str, number: u64, usual: u64) {
        if number != usual {
            self.word_and_number(word, number);
        }
    }

    /// A line, without its end.
    pub fn line(&mut self, line: &[u8]) {
        match str::from_utf8(line) {
            Ok(line) => self.word(line.trim_end()),
            Err(_) => self.fault = Some(CaseFault::NoRow),
        }
    }

    /// Bytes, percent-encoded as in a URL; none are `%`.
    pub fn bytes(&mut self, bytes: &[u8]) {
        self.space();
        self.push_bytes(bytes);
    }

    /// Bytes as a part of the answer.
    pub fn part(&mut self, bytes: &[u8]) {
        self.push(":");
        self.push_bytes(bytes);
    }

    /// A word as a part of the answer.
    pub fn word_part(&mut self, word: &str) {
        self.push(":");
        self.push(word);
    }

    /// A number as a part of the answer.
    pub fn number_part(&mut self, number: u64) {
        let pushed = write!(self.text, ":{number}");
        self.note(pushed);
    }

    /// The octets of an address of this version, two digits each.
    pub fn octets(&mut self, version: u64, octets: &[u8]) {
        self.number(version);
        self.push(":");
        for octet in octets {
            let pushed = write!(self.text, "{octet:02x}");
            self.note(pushed);
        }
    }

    fn push_bytes(&mut self, bytes: &[u8]) {
        if bytes.is_empty() {
            self.push("%");
        } else {
            let pushed = percent_encode(bytes, ENCODED).append_to(&mut self.text);
            self.note(pushed);
        }
    }
}
