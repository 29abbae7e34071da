// What lines of rows spell: acts and places as a written journal has them.
use journal_text::{JournalFault, read_journal};
use relay_model::{Act, NoMemory, Place};
use std::alloc::{AllocError, Global};

/// The act of this line of a journal, if it is one.
pub(crate) fn act_of(alloc: Global, line: &str) -> Result<Option<Act>, NoMemory> {
    let text = format!(in alloc; "{line}\n")?;
    match read_journal(alloc, text.as_bytes()) {
        Ok(journal) if journal.len() == 1 => Ok(Some(journal.get(0).copy()?)),
        Ok(_) | Err(JournalFault::Line { .. }) => Ok(None),
        Err(JournalFault::Memory) => Err(NoMemory),
    }
}

/// The place that is spelled so.
pub(crate) fn place_of(alloc: Global, text: &str) -> Result<Option<Place>, NoMemory> {
    let line = format!(in alloc; "opened {text}")?;
    match act_of(alloc, line.as_str())? {
        Some(Act::Opened(place)) => Ok(Some(place)),
        _ => Ok(None),
    }
}

/// Pushes two digits for each byte.
pub(crate) fn push_digits(line: &mut String, bytes: &[u8]) -> Result<(), AllocError> {
    for byte in bytes {
        write!(line, "{byte:02x}")?;
    }
    Ok(())
}

/// How often a quoted text stands there, and what follows it: `*3` behind the quote is three times.
fn count_repeats(behind: &str) -> (u32, &str) {
    match behind.strip_prefix('*') {
        Some(rest) => {
            let (times, rest) = rest.split_once(' ').unwrap_or((rest, ""));
            (times.parse().unwrap_or(0), rest)
        }
        None => (1, behind),
    }
}

/// Pushes the bytes of a quoted text, and what stands behind it.
fn push_quoted(line: &mut String, quoted: &str, behind: &str) -> Result<(), AllocError> {
    let (times, rest) = count_repeats(behind);
    line.push('x')?;
    for _ in 0..times {
        push_digits(line, quoted.as_bytes())?;
    }
    line.push_str(rest)
}

/// The line with each text between single quotes as the bytes of it: `'ab'` is `x6162`. None where a quote isn't closed.
pub(crate) fn unquote(alloc: Global, line: &str) -> Result<Option<String>, AllocError> {
    let mut whole = String::new(alloc);
    let mut quoted = None;
    for (i, part) in line.split('\'').enumerate() {
        match quoted {
            Some(text) => {
                push_quoted(&mut whole, text, part)?;
                quoted = None;
            }
            None if i == 0 => whole.push_str(part)?,
            None => quoted = Some(part),
        }
    }
    Ok(if quoted.is_none() { Some(whole) } else { None })
}
