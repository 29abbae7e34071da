// The rows of a file.
use crate::faults::RowFault;
use relay_model::{NoMemory, Text, Texts};
use std::alloc::Global;

/// A line of a file, and its number, counted from 1.
#[derive(Clone, Copy)]
pub struct Line<'a> {
    pub number: usize,
    pub text: &'a str,
}

/// One worked run.
#[derive(Drop)]
pub struct WorkedRow<'a> {
    pub head: Line<'a>,
    pub words: Option<&'a str>,
    /// A byte and how often it stands in a word in front of the others.
    pub long: Option<(u8, u32)>,
    pub turns: u64,
    pub script: Vec<Line<'a>>,
    /// What the desk of the row has beside streams in memory.
    pub over: Vec<Line<'a>>,
    /// The journal, where it is told and nothing is run.
    pub past: Vec<Line<'a>>,
    /// Whether the reading of it ends well.
    pub unbroken: bool,
    /// For how many bytes of what is said of it there is room, or of what a run over a desk writes to its file.
    pub room: usize,
    pub wants: Vec<Line<'a>>,
}

impl<'a> Line<'a> {
    pub fn fault(self) -> RowFault {
        RowFault::Line(self.number)
    }

    fn is_silent(self) -> bool {
        self.text.is_empty() || self.text.starts_with('#')
    }

    /// The first word, and what stands behind it.
    pub fn parts(self) -> (&'a str, &'a str) {
        self.text.split_once(' ').unwrap_or((self.text, ""))
    }
}

impl<'a> WorkedRow<'a> {
    fn new(alloc: Global, head: Line<'a>) -> WorkedRow<'a> {
        WorkedRow {
            head,
            words: None,
            long: None,
            turns: u64::MAX,
            script: Vec::new(alloc),
            over: Vec::new(alloc),
            past: Vec::new(alloc),
            unbroken: true,
            room: 4096,
            wants: Vec::new(alloc),
        }
    }

    /// Takes a line of the row.
    fn take(&mut self, line: Line<'a>) -> Result<(), RowFault> {
        let (key, rest) = line.parts();
        match key {
            "words" if self.words.is_none() => self.words = Some(rest),
            "long" => self.long = Some(long_of(rest).ok_or(line.fault())?),
            "turns" => self.turns = rest.parse().map_err(|_| line.fault())?,
            "room" => self.room = rest.parse().map_err(|_| line.fault())?,
            _ => return self.take_list(line, key, rest),
        }
        Ok(())
    }

    /// Takes a line of one of the row's lists.
    fn take_list(&mut self, line: Line<'a>, key: &str, rest: &'a str) -> Result<(), RowFault> {
        let number = line.number;
        match key {
            "broken" => self.unbroken = false,
            "at" => self.script.push(Line { number, text: rest })?,
            "over" => self.over.push(Line { number, text: rest })?,
            "past" => self.past.push(Line { number, text: rest })?,
            _ => self.wants.push(line)?,
        }
        Ok(())
    }

    /// The words of the command.
    pub fn words(&self, alloc: Global) -> Result<Texts, RowFault> {
        let mut words = Texts::new(alloc);
        if let Some((byte, count)) = self.long {
            words.push(long_word(alloc, byte, count)?)?;
        }
        let line = self.words.ok_or(self.head.fault())?;
        add_words(alloc, &mut words, line)?;
        Ok(words)
    }
}

fn long_of(text: &str) -> Option<(u8, u32)> {
    let (byte, count) = text.split_once(' ')?;
    match byte.as_bytes() {
        [byte] => Some((*byte, count.parse().ok()?)),
        _ => None,
    }
}

fn long_word(alloc: Global, byte: u8, count: u32) -> Result<Text, NoMemory> {
    let bytes = vec![in alloc; byte; count as usize]?;
    Text::of(alloc, bytes.as_slice())
}

fn add_words(alloc: Global, words: &mut Texts, line: &str) -> Result<(), NoMemory> {
    for word in line.split(' ') {
        words.push(Text::of(alloc, word.as_bytes())?)?;
    }
    Ok(())
}

/// Takes a line of a file: it begins a row or belongs to the last one.
fn take_line<'a>(
    alloc: Global,
    rows: &mut Vec<WorkedRow<'a>>,
    line: Line<'a>,
) -> Result<(), RowFault> {
    if line.is_silent() {
        return Ok(());
    }
    match line.parts() {
        ("row", "") => return Err(line.fault()),
        ("row", _name) => {
            rows.push(WorkedRow::new(alloc, line))?;
            return Ok(());
        }
        _ => {}
    }
    match rows.last_mut() {
        Some(row) => row.take(line),
        None => Err(line.fault()),
    }
}

/// The rows of a text.
pub fn read_rows(alloc: Global, text: &str) -> Result<Vec<WorkedRow<'_>>, RowFault> {
    let mut rows = Vec::new(alloc);
    let mut number: usize = 0;
    for text in text.lines() {
        number = number.saturating_add(1);
        take_line(alloc, &mut rows, Line { number, text })?;
    }
    Ok(rows)
}
