// Numbers and times as options and flags write them.
ghost use Rattle.std.specs.Prelude.{◌≡◌, ◌≤◌, IfSome};
ghost use Rattle.option_table.specs.Numbers.{number_in, hexadecimal, number_of, short_number, time_of, time_between};

use crate::literals::split_around;

/// The number that the digits write in the radix; none where another byte stands among them or the number
/// has more than 64 bits.
fn digits_number(digits: &[u8], radix: u32) -> Option<u64>
    requires low { 2 ≤ radix }
    requires high { radix ≤ 16 }
    ensures { result ≡ number_in radix digits.now }
{
    let mut value = 0u64;
    for byte in digits {
        let digit = char::from(*byte).to_digit(radix)?;
        value = value
            .checked_mul(u64::from(radix))?
            .checked_add(u64::from(digit))?;
    }
    Some(value)
}

fn hexadecimal_number(digits: &[u8]) -> Option<u64>
    ensures { result ≡ hexadecimal digits.now }
{
    if digits.is_empty() || digits.len() > 16 {
        return None;
    }
    digits_number(digits, 16)
}

/// A number as the manual page writes numbers: `0x` and 1 to 16 hexadecimal digits, `0` and octal digits,
/// or decimal digits of which the first isn't 0. None for anything else, and for more than 64 bits.
#[tactic(auto, unfolding(crate::specs::Numbers::number_of))]
pub fn read_number(text: &[u8]) -> Option<u64>
    ensures { result ≡ number_of text.now }
{
    match text {
        [b'0', b'x' | b'X', digits @ ..] => hexadecimal_number(digits),
        [b'0', digits @ ..] => digits_number(digits, 8),
        [b'1'..=b'9', ..] => digits_number(text, 10),
        _ => None,
    }
}

/// A decimal number of at least one digit and at most this many, zeros in front counted, that isn't above
/// the greatest.
#[tactic(auto, unfolding(crate::specs::Numbers::short_number))]
pub fn read_short_number(text: &[u8], most_digits: usize, greatest: u64) -> Option<u64>
    ensures value { result ≡ short_number most_digits greatest text.now }
    ensures bounded { IfSome result (λ number. number ≤ greatest) }
{
    if text.is_empty() || text.len() > most_digits {
        return None;
    }
    let number = digits_number(text, 10)?;
    if number > greatest {
        return None;
    }
    Some(number)
}

/// A time in milliseconds, from seconds with an optional point and at most 6 digits after it. It is rounded
/// down. None above 4,000,000 seconds, and where it is no such number.
#[tactic(auto, unfolding(crate::specs::Numbers::time_of))]
pub fn read_time(text: &[u8]) -> Option<u64>
    ensures { result ≡ time_of text.now }
{
    match split_around(text, b'.') {
        Some((whole, fraction)) => time_from(whole, fraction),
        None => time_from(text, &[]),
    }
}

/// The milliseconds of seconds and of their decimal places.
fn time_from(whole: &[u8], fraction: &[u8]) -> Option<u64>
    ensures { result ≡ time_between whole.now fraction.now }
{
    let seconds = digits_number(whole, 10)?;
    let parts = digits_number(fraction, 10)?;
    if whole.is_empty() && fraction.is_empty() {
        return None;
    }
    if fraction.len() > 6 || seconds > 4_000_000 {
        return None;
    }
    let scale = 10u64.pow((6 - fraction.len()) as u32);
    let micros = seconds * 1_000_000 + parts * scale;
    if micros > 4_000_000_000_000 {
        return None;
    }
    Some(micros / 1000)
}
