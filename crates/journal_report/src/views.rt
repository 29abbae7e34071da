// What is asked of a journal: the view, by the first words of the program.
ghost use Rattle.std.specs.Prelude.{◌≡◌, ◌≢◌, Some, slice_index, option_map};
ghost use Rattle.journal_report.specs.Views.{value_in, session_in, number_in, way_in, stream_in, view_in, stream_view_in, named_view_in, behind_read_in, asked_in};

use relay_model::{Text, Way};
use std::str;

/// A direction of a session.
#[derive(Clone, Copy)]
pub struct ViewedStream {
    pub session: u32,
    pub way: Way,
}

/// How a journal is shown.
#[derive(Clone, Copy)]
pub enum View {
    /// A row for each session, and the outcome.
    Table,
    /// A row for each session, with time to the right.
    Timeline,
    /// The same as a picture.
    Picture,
    /// A line for each act.
    Acts,
    /// The bytes that were written in a direction.
    Written(ViewedStream),
    /// The bytes that were read in a direction.
    Read(ViewedStream),
    /// What was read in a direction, as a dump of text shows it.
    Text(ViewedStream),
    /// What was read in a direction, as a dump in hexadecimal shows it.
    Hex(ViewedStream),
}

/// The number of these digits.
fn parse_number(digits: &[u8]) -> Option<u64>
    requires { slice_index digits.now 0 ≢ 43 }
    ensures { result ≡ value_in digits.now }
{
    let text = str::from_utf8(digits).ok()?;
    text.parse().ok()
}

/// The number as that of a session.
fn session_of(number: u64) -> Option<u32>
    ensures { result ≡ session_in (Some number) }
{
    if number <= u64::from(u32::MAX) {
        Some(number as u32)
    } else {
        None
    }
}

/// The number of a session, in digits alone.
fn number_of(digits: &[u8]) -> Option<u32>
    ensures { result ≡ number_in digits.now }
{
    match digits {
        [b'0'..=b'9', ..] => session_of(parse_number(digits)?),
        _ => None,
    }
}

fn way_of(word: &[u8]) -> Option<Way>
    ensures { result ≡ way_in word.now }
{
    if word == b"right".as_slice() {
        Some(Way::LeftToRight)
    } else if word == b"left".as_slice() {
        Some(Way::RightToLeft)
    } else {
        None
    }
}

fn stream_of(session: &Text, way: &Text) -> Option<ViewedStream>
    ensures { result ≡ stream_in session.now way.now }
{
    Some(ViewedStream {
        session: number_of(session.as_slice())?,
        way: way_of(way.as_slice())?,
    })
}

/// The view of this name on a direction.
fn view_of(name: &[u8], stream: ViewedStream) -> Option<View>
    ensures { result ≡ view_in name.now stream }
{
    if name == b"--bytes".as_slice() {
        Some(View::Written(stream))
    } else if name == b"--text".as_slice() {
        Some(View::Text(stream))
    } else if name == b"--hex".as_slice() {
        Some(View::Hex(stream))
    } else {
        None
    }
}

/// The view of this name on the direction of a session that the next two words name, and the words behind them.
fn stream_view<'a>(name: &[u8], words: &'a [Text]) -> Option<(View, &'a [Text])>
    ensures { option_map (λ asked. (asked.0, asked.1.now)) result ≡ stream_view_in name.now words.now }
{
    match words {
        [session, way, rest @ ..] => {
            let stream = stream_of(session, way)?;
            Some((view_of(name, stream)?, rest))
        }
        _ => None,
    }
}

/// The view that the first words name, and the words behind them.
fn named_view(words: &[Text]) -> Option<(View, &[Text])>
    ensures { option_map (λ asked. (asked.0, asked.1.now)) result ≡ named_view_in words.now }
{
    match words {
        [] => None,
        [first, rest @ ..] => {
            let name = first.as_slice();
            if name == b"--timeline".as_slice() {
                Some((View::Timeline, rest))
            } else if name == b"--svg".as_slice() {
                Some((View::Picture, rest))
            } else if name == b"--acts".as_slice() {
                Some((View::Acts, rest))
            } else if name.starts_with(b"--") {
                stream_view(name, rest)
            } else {
                Some((View::Table, words))
            }
        }
    }
}

/// The words behind a first word `--read`.
fn behind_read(words: &[Text]) -> Option<&[Text]>
    ensures { option_map (λ rest. rest.now) result ≡ behind_read_in words.now }
{
    match words {
        [first, rest @ ..] if first.as_slice() == b"--read".as_slice() => Some(rest),
        _ => None,
    }
}

/// What is asked by these words, and the words behind: `--read`, before `--bytes` or behind it, asks for the bytes that
/// were read in place of those that were written.
pub fn asked_view(words: &[Text]) -> Option<(View, &[Text])>
    ensures { option_map (λ asked. (asked.0, asked.1.now)) result ≡ asked_in words.now }
{
    if let Some(rest) = behind_read(words) {
        return match named_view(rest)? {
            (View::Written(stream), behind) => Some((View::Read(stream), behind)),
            _ => None,
        };
    }
    match named_view(words)? {
        (View::Written(stream), rest) => match behind_read(rest) {
            Some(behind) => Some((View::Read(stream), behind)),
            None => Some((View::Written(stream), rest)),
        },
        other => Some(other),
    }
}
