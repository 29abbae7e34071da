// What the lines of a journal say to what rows ask of them.
use std::alloc::{AllocError, Global};

/// The words that lines begin with.
const KINDS: [&str; 23] = [
    "turn",
    "opened",
    "later",
    "openfail",
    "listening",
    "listenfail",
    "accepted",
    "nopeer",
    "acceptfail",
    "read",
    "empty",
    "end",
    "readnotyet",
    "readfault",
    "wrote",
    "writenotyet",
    "writefault",
    "shut",
    "shutfault",
    "closed",
    "reaped",
    "note",
    "notefault",
];

/// The first word, and what stands behind it.
fn first_word(text: &str) -> (&str, &str) {
    text.split_once(' ').unwrap_or((text, ""))
}

/// Whether the line begins with these words.
pub(crate) fn begins(line: &str, words: &str) -> bool {
    match line.strip_prefix(words) {
        Some(rest) => rest.is_empty() || rest.starts_with(' '),
        None => false,
    }
}

/// The digits of what was moved at the place, in a line of this kind.
fn moved_digits<'a>(line: &'a str, kind: &str, place: &str) -> Option<&'a str> {
    let rest = line.strip_prefix(kind)?;
    let rest = rest.strip_prefix(place)?;
    rest.strip_prefix(" x")
}

/// A place, and all bytes that were moved there. Rows can't ask for no bytes: no place is needed for these.
pub(crate) fn join_bytes(
    alloc: Global,
    lines: &[&str],
    kind: &str,
    asked: &str,
) -> Result<Option<String>, AllocError> {
    let (place, bytes) = first_word(asked);
    if bytes.len() < 3 {
        return Ok(None);
    }
    let mut text = format!(in alloc; "{place} x")?;
    for line in lines {
        if let Some(digits) = moved_digits(line, kind, place) {
            text.push_str(digits)?;
        }
    }
    Ok(Some(text))
}

/// A place, and what was asked for where all bytes that were written there begin it; else these.
pub(crate) fn within(
    alloc: Global,
    lines: &[&str],
    asked: &str,
) -> Result<Option<String>, AllocError> {
    match join_bytes(alloc, lines, "wrote ", asked)? {
        Some(text) if asked.starts_with(text.as_str()) => Ok(Some(String::from_str(alloc, asked)?)),
        other => Ok(other),
    }
}

/// A place, and the bytes of each write there.
pub(crate) fn list_pieces(
    alloc: Global,
    lines: &[&str],
    asked: &str,
) -> Result<Option<String>, AllocError> {
    let (place, _pieces) = first_word(asked);
    let mut text = String::from_str(alloc, place)?;
    for line in lines {
        if let Some(digits) = moved_digits(line, "wrote ", place) {
            text.push_str(" x")?;
            text.push_str(digits)?;
        }
    }
    Ok(Some(text))
}

/// How many lines begin with these words, and the words.
pub(crate) fn count(
    alloc: Global,
    lines: &[&str],
    asked: &str,
) -> Result<Option<String>, AllocError> {
    let (_number, words) = first_word(asked);
    let (kind, _rest) = first_word(words);
    if !KINDS.contains(&kind) {
        return Ok(None);
    }
    let number = lines.iter().filter(|line| begins(line, words)).count();
    Ok(Some(format!(in alloc; "{number} {words}")?))
}

/// A number, and what was asked for where the line begins so; else the line.
fn number_and_line(
    alloc: Global,
    number: &str,
    line: Option<&str>,
    words: &str,
) -> Result<Option<String>, AllocError> {
    let line = line.unwrap_or("none");
    let line = if begins(line, words) { words } else { line };
    Ok(Some(format!(in alloc; "{number} {line}")?))
}

/// The line with this number, counted from 1.
pub(crate) fn line_at(
    alloc: Global,
    lines: &[&str],
    asked: &str,
) -> Result<Option<String>, AllocError> {
    let (number, words) = first_word(asked);
    match number.parse::<usize>() {
        Ok(index) if index > 0 => {
            let line = lines.get(index - 1).copied();
            number_and_line(alloc, number, line, words)
        }
        _ => Ok(None),
    }
}

/// The line with this number, counted from 1 at the end.
pub(crate) fn back(
    alloc: Global,
    lines: &[&str],
    asked: &str,
) -> Result<Option<String>, AllocError> {
    let (number, words) = first_word(asked);
    match number.parse::<usize>() {
        Ok(index) if index > 0 => {
            let line = lines.iter().rev().nth(index - 1).copied();
            number_and_line(alloc, number, line, words)
        }
        _ => Ok(None),
    }
}

/// The moment at which a turn ended.
fn turned_at(line: &str) -> Option<&str> {
    let rest = line.strip_prefix("turn ")?;
    let (_until, rest) = rest.split_once(' ')?;
    let (at, _rest) = rest.split_once(' ')?;
    Some(at)
}

/// The moment at which the line first stands there, and the line.
pub(crate) fn moment(
    alloc: Global,
    lines: &[&str],
    asked: &str,
) -> Result<Option<String>, AllocError> {
    let (_moment, wanted) = first_word(asked);
    let mut now = "0";
    for line in lines {
        if *line == wanted {
            return Ok(Some(format!(in alloc; "{now} {wanted}")?));
        }
        now = turned_at(line).unwrap_or(now);
    }
    Ok(Some(format!(in alloc; "never {wanted}")?))
}

/// The line that is asked for, where it stands from this one on; the next search begins behind it.
pub(crate) fn search(
    alloc: Global,
    lines: &[&str],
    asked: &str,
    from: &mut usize,
) -> Result<String, AllocError> {
    for i in *from..lines.len() {
        if lines[i] == asked {
            *from = i + 1;
            return String::from_str(alloc, asked);
        }
    }
    String::from_str(alloc, "no such line behind the one before")
}

/// What is seen of the port that is asked about: the line with the same two first words.
pub(crate) fn port_line(
    alloc: Global,
    ports: &[String],
    asked: &str,
) -> Result<String, AllocError> {
    let (port, rest) = first_word(asked);
    let (verb, _what) = first_word(rest);
    for line in ports {
        let (name, rest) = first_word(line.as_str());
        if name == port && begins(rest, verb) {
            return String::from_str(alloc, line.as_str());
        }
    }
    String::from_str(alloc, "nothing of this port")
}
