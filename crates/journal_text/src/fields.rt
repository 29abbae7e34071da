// The fields of a line, read from their text.
ghost use Rattle.std.specs.Prelude.{◌≡◌, ◌≢◌, ◌≤◌, ◌<◌, ◌&&◌, ◌==◌, ◌^◌, nat_le, nat_lt, length, slice_index, position, option_map, IfSome};
ghost use Rattle.std.specs.Str.{all_ascii_digits};
ghost use Rattle.std.specs.Str.Parse.{digits_value};
ghost use Rattle.journal_text.specs.Reading.{only_if, around_first, number_in, moment_in, optional_in, status_in, flag_in, side_in, part_in, door_in, half_in, place_in, entry_in, shut_in, why_in};
ghost use Rattle.journal_text.specs.Fields.{shut_text, why_text};

use relay_model::{Half, Part, Place, ReadyAt, Shut, Side, Why};
use std::str;

fn first_place(text: &[u8], byte: u8) -> Option<usize>
    ensures value { result ≡ position (λ c. c == byte) text.now }
    ensures within { IfSome result (λ at. at < length text.now) }
{
    text.iter().position(|c| *c == byte)
}

/// What stands before the first such byte, and what stands after it.
#[tactic(auto, using(std::proofs::lemmas::List::take_rest), unfolding(crate::specs::Reading::around_first))]
pub(crate) fn split_around(text: &[u8], byte: u8) -> Option<(&[u8], &[u8])>
    ensures { option_map (λ parts. (parts.0.now, parts.1.now)) result ≡ around_first byte text.now }
{
    match first_place(text, byte) {
        Some(at) => Some((&text[..at], &text[at + 1..])),
        None => None,
    }
}

/// The number of these digits.
fn parse_number(digits: &[u8]) -> Option<u64>
    requires { slice_index digits.now 0 ≢ 43 }
    ensures { result ≡ only_if (all_ascii_digits digits.now && nat_le 1 (length digits.now) && nat_lt (digits_value 10 digits.now) (2 ^ 64)) (digits_value 10 digits.now) }
{
    let text = str::from_utf8(digits).ok()?;
    text.parse().ok()
}

/// A decimal number of at most this. Zeros in front aren't read.
#[tactic(auto, unfolding(crate::specs::Reading::number_in))]
pub(crate) fn read_number(field: &[u8], greatest: u64) -> Option<u64>
    ensures value { result ≡ number_in greatest field.now }
    ensures bounded { IfSome result (λ number. number ≤ greatest) }
{
    let number = match field {
        [b'0'] => 0,
        [b'1'..=b'9', ..] => parse_number(field)?,
        _ => return None,
    };
    (number <= greatest).then_some(number)
}

pub(crate) fn read_moment(field: &[u8]) -> Option<u64>
    ensures { result ≡ moment_in field.now }
{
    read_number(field, u64::MAX)
}

#[tactic(auto, unfolding(crate::specs::Reading::optional_in))]
pub(crate) fn read_optional(field: &[u8]) -> Option<Option<u64>>
    ensures { result ≡ optional_in field.now }
{
    if field == b"-".as_slice() {
        return Some(None);
    }
    Some(Some(read_moment(field)?))
}

#[tactic(auto, unfolding(crate::specs::Reading::status_in))]
pub(crate) fn read_status(field: &[u8]) -> Option<i32>
    ensures { result ≡ status_in field.now }
{
    match field {
        [b'-', digits @ ..] => {
            let size = read_number(digits, 0x8000_0000)?;
            (size >= 1).then_some(-(size as i64) as i32)
        }
        _ => Some(read_number(field, 0x7fff_ffff)? as i32),
    }
}

pub(crate) fn read_flag(field: &[u8]) -> Option<bool>
    ensures { result ≡ flag_in field.now }
{
    if field == b"1".as_slice() {
        Some(true)
    } else if field == b"0".as_slice() {
        Some(false)
    } else {
        None
    }
}

fn read_side(letter: u8) -> Option<Side>
    ensures { result ≡ side_in letter }
{
    match letter {
        b'L' => Some(Side::Left),
        b'R' => Some(Side::Right),
        _ => None,
    }
}

fn read_part(letter: u8) -> Option<Part>
    ensures { result ≡ part_in letter }
{
    match letter {
        b'B' => Some(Part::Both),
        b'I' => Some(Part::Reading),
        b'O' => Some(Part::Writing),
        _ => None,
    }
}

fn read_door(letter: u8) -> Option<bool>
    ensures { result ≡ door_in letter }
{
    match letter {
        b'd' => Some(true),
        b'-' => Some(false),
        _ => None,
    }
}

fn read_half(letter: u8) -> Option<Half>
    ensures { result ≡ half_in letter }
{
    match letter {
        b'r' => Some(Half::ToRead),
        b'w' => Some(Half::ToWrite),
        _ => None,
    }
}

#[tactic(auto, unfolding(crate::specs::Reading::place_in))]
pub(crate) fn read_place(field: &[u8]) -> Option<Place>
    ensures { result ≡ place_in field.now }
{
    let [digits @ .., side, part, door] = field else {
        return None;
    };
    Some(Place {
        session: read_number(digits, 0xffff_ffff)? as u32,
        side: read_side(*side)?,
        part: read_part(*part)?,
        door: read_door(*door)?,
    })
}

#[tactic(auto, unfolding(crate::specs::Reading::entry_in))]
pub(crate) fn read_entry(field: &[u8]) -> Option<ReadyAt>
    ensures { result ≡ entry_in field.now }
{
    let [place @ .., half] = field else {
        return None;
    };
    Some(ReadyAt {
        place: read_place(place)?,
        half: read_half(*half)?,
    })
}

pub(crate) fn shut_word(how: Shut) -> &'static [u8]
    ensures { result.now ≡ shut_text how }
{
    match how {
        Shut::Nothing => b"nothing",
        Shut::Down => b"down",
        Shut::Close => b"close",
        Shut::Null => b"null",
    }
}

const SHUTS: [Shut; 4] = [Shut::Nothing, Shut::Down, Shut::Close, Shut::Null];

#[tactic(auto, unfolding(crate::specs::Reading::shut_in))]
pub(crate) fn read_shut(field: &[u8]) -> Option<Shut>
    ensures { result ≡ shut_in field.now }
{
    SHUTS.iter().copied().find(|how| shut_word(*how) == field)
}

pub(crate) fn why_word(why: Why) -> &'static [u8]
    ensures { result.now ≡ why_text why }
{
    match why {
        Why::Finished => b"finished",
        Why::ClosingTime => b"closingtime",
        Why::Idle => b"idle",
        Why::Faulted => b"faulted",
        Why::OpenFailed => b"openfailed",
        Why::ListenFailed => b"listenfailed",
        Why::AcceptFailed => b"acceptfailed",
        Why::Refused => b"refused",
        Why::Served => b"served",
        Why::Stopped => b"stopped",
        Why::Memory => b"memory",
    }
}

const WHYS: [Why; 11] = [
    Why::Finished,
    Why::ClosingTime,
    Why::Idle,
    Why::Faulted,
    Why::OpenFailed,
    Why::ListenFailed,
    Why::AcceptFailed,
    Why::Refused,
    Why::Served,
    Why::Stopped,
    Why::Memory,
];

#[tactic(auto, unfolding(crate::specs::Reading::why_in))]
pub(crate) fn read_why(field: &[u8]) -> Option<Why>
    ensures { result ≡ why_in field.now }
{
    WHYS.iter().copied().find(|why| why_word(*why) == field)
}
