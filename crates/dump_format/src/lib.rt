// The text of a dump: the bytes that were read, in a form that can be looked at (socat(1), `-v` and `-x`).
#![tactic(auto)]

ghost use Rattle.std.specs.Prelude.{◌≡◌, ◌≢◌, ◌+◌, ◌<◌, ◌++◌, ◌∷◌, [], length, take, true, ◌≤◌, ◌*◌, ◌&&◌, ◌==◌, not, if◌then◌else◌, IfOk, OnOk};
ghost use Rattle.relay_model.specs.{arrow, header, hex_digit, hex_lines, shown_byte, text_lines, text_dump, hex_dump, newline, dump_of};

use relay_model::{Bytes, Dump, NoMemory, Way};
use std::alloc::Global;

/// The text in this style of the bytes that were read in one piece. `from` is how many bytes were read at that
/// place before; the last byte's place is counted from there on, also beyond `u64::MAX`.
pub fn dump_text(
    alloc: Global,
    way: Way,
    style: Dump,
    from: u64,
    bytes: &[u8],
) -> Result<Bytes, NoMemory>
    requires style { style ≢ Dump.Off }
    requires some { 0 < length bytes.now }
    ensures { IfOk result (λ text. text ≡ dump_of style way from bytes.now) }
{
    let mut text = Vec::new(alloc);
    push_dump(&mut text, way, style, from, bytes)?;
    Bytes::of(alloc, text.as_slice())
}

/// Puts the same text behind what there is. Where memory is wanting a front of it may stand there.
pub fn push_dump(
    text: &mut Vec<u8>,
    way: Way,
    style: Dump,
    from: u64,
    bytes: &[u8],
) -> Result<(), NoMemory>
    requires style { style ≢ Dump.Off }
    requires some { 0 < length bytes.now }
    ensures { OnOk result (text.new.items ≡ text.old.items ++ dump_of style way from bytes.now) }
{
    match style {
        Dump::Off => unreachable!(),
        Dump::Text => push_text_dump(text, way, from, bytes),
        Dump::Hex => push_hex_dump(text, way, from, bytes),
        Dump::Mixed => {
            push_hex_dump(text, way, from, bytes)?;
            push_text_dump(text, way, from, bytes)
        }
    }
}

fn push_text_dump(text: &mut Vec<u8>, way: Way, from: u64, bytes: &[u8]) -> Result<(), NoMemory>
    requires { 0 < length bytes.now }
    ensures { OnOk result (text.new.items ≡ text.old.items ++ text_dump way from bytes.now) }
{
    push_header(text, way, from, bytes.len())?;
    push_text_lines(text, bytes)
}

fn push_hex_dump(text: &mut Vec<u8>, way: Way, from: u64, bytes: &[u8]) -> Result<(), NoMemory>
    requires { 0 < length bytes.now }
    ensures { OnOk result (text.new.items ≡ text.old.items ++ hex_dump way from bytes.now) }
{
    push_header(text, way, from, bytes.len())?;
    push_hex_lines(text, bytes)
}

fn push_header(text: &mut Vec<u8>, way: Way, from: u64, n: usize) -> Result<(), NoMemory>
    requires { 0 < n }
    ensures { OnOk result (text.new.items ≡ text.old.items ++ header way from n) }
{
    let arrow = arrow_of(way);
    let last = from as u128 + (n as u128 - 1);
    let line = format!(in *text.allocator(); "{arrow}length={n} from={from} to={last}\n")?;
    text.extend_from_slice(line.as_bytes())?;
    Ok(())
}

fn arrow_of(way: Way) -> &'static str
    ensures { result.now ≡ arrow way }
{
    match way {
        Way::LeftToRight => "> ",
        Way::RightToLeft => "< ",
    }
}

fn push_text_lines(text: &mut Vec<u8>, bytes: &[u8]) -> Result<(), NoMemory>
    ensures { OnOk result (text.new.items ≡ text.old.items ++ text_lines bytes.now) }
{
    let start = text.len();
    text.resize(end_of(start, bytes.len())?, 0)?;
    let filled = fill_text_lines(text.as_mut_slice(), start, bytes);
    text.truncate(filled);
    Ok(())
}

fn push_hex_lines(text: &mut Vec<u8>, bytes: &[u8]) -> Result<(), NoMemory>
    ensures { OnOk result (text.new.items ≡ text.old.items ++ hex_lines (length bytes.now) 0 bytes.now) }
{
    let start = text.len();
    text.resize(end_of(start, bytes.len())?, 0)?;
    let filled = fill_hex_lines(text.as_mut_slice(), start, bytes);
    text.truncate(filled);
    Ok(())
}

/// Where a text ends that begins at `start` and has room for four characters and a newline for each of `n` bytes.
fn end_of(start: usize, n: usize) -> Result<usize, NoMemory>
    ensures { IfOk result (λ end. end ≡ start + 5 * n) }
{
    match n.checked_mul(5) {
        Some(room) => start.checked_add(room).ok_or(NoMemory),
        None => Err(NoMemory),
    }
}

/// Puts the bytes in the text style from `at` on, and answers where they end.
fn fill_text_lines(into: &mut [u8], at: usize, bytes: &[u8]) -> usize
    requires room { at + 5 * length bytes.now ≤ length into.old }
    ensures len { length into.new ≡ length into.old }
    ensures lines { take result into.new ≡ take at into.old ++ text_lines bytes.now }
{
    let mut filled = at;
    for (i, byte) in bytes.iter().enumerate() {
        filled = put_shown(into, filled, *byte, i + 1 == bytes.len());
    }
    filled
}

/// Puts one byte in the text style at this place, and a newline behind it where it is the last and none itself. Answers
/// where that ends.
fn put_shown(into: &mut [u8], at: usize, byte: u8, is_last: bool) -> usize
    requires { at + 5 ≤ length into.old }
    ensures len { length into.new ≡ length into.old }
    ensures few { result ≤ at + 5 }
    ensures shown { take result into.new ≡ take at into.old ++ (shown_byte byte ++ (if is_last && not (byte == 10) then newline else [])) }
{
    let end = put_byte(into, at, byte);
    if is_last && byte != b'\n' {
        into[end] = b'\n';
        return end + 1;
    }
    end
}

/// Puts one byte in the text style at this place, and answers where it ends.
fn put_byte(into: &mut [u8], at: usize, byte: u8) -> usize
    requires { at + 4 ≤ length into.old }
    ensures len { length into.new ≡ length into.old }
    ensures few { result ≤ at + 4 }
    ensures shown { take result into.new ≡ take at into.old ++ shown_byte byte }
{
    let shown = shown_of(byte);
    put(into, at, &shown.spelled);
    at + shown.length
}

/// Puts the bytes in the hexadecimal style from `at` on, and answers where they end.
fn fill_hex_lines(into: &mut [u8], at: usize, bytes: &[u8]) -> usize
    requires room { at + 5 * length bytes.now ≤ length into.old }
    ensures len { length into.new ≡ length into.old }
    ensures lines { take result into.new ≡ take at into.old ++ hex_lines (length bytes.now) 0 bytes.now }
{
    let mut filled = at;
    for (i, byte) in bytes.iter().enumerate() {
        let spelled = [b' ', hex_digit_of(*byte / 16), hex_digit_of(*byte % 16)];
        put(into, filled, &spelled);
        filled += 3;
        if (i + 1) % 16 == 0 || i + 1 == bytes.len() {
            into[filled] = b'\n';
            filled += 1;
        }
    }
    filled
}

/// Puts a piece at this place.
fn put(into: &mut [u8], at: usize, piece: &[u8])
    requires { at + length piece.now ≤ length into.old }
    ensures len { length into.new ≡ length into.old }
    ensures front { take (at + length piece.now) into.new ≡ take at into.old ++ piece.now }
{
    into[at..at + piece.len()].copy_from_slice(piece);
}

/// How the text style shows each byte, sixteen of them in a row, with spaces behind what is shorter than four characters.
const SHOWN: [[u8; 64]; 16] = [
    *b"\\x00\\x01\\x02\\x03\\x04\\x05\\x06\\x07\\x08\\t  \n   \\x0b\\x0c\\r  \\x0e\\x0f",
    *b"\\x10\\x11\\x12\\x13\\x14\\x15\\x16\\x17\\x18\\x19\\x1a\\x1b\\x1c\\x1d\\x1e\\x1f",
    *b"    !   \"   #   $   %   &   '   (   )   *   +   ,   -   .   /   ",
    *b"0   1   2   3   4   5   6   7   8   9   :   ;   <   =   >   ?   ",
    *b"@   A   B   C   D   E   F   G   H   I   J   K   L   M   N   O   ",
    *b"P   Q   R   S   T   U   V   W   X   Y   Z   [   \\\\  ]   ^   _   ",
    *b"`   a   b   c   d   e   f   g   h   i   j   k   l   m   n   o   ",
    *b"p   q   r   s   t   u   v   w   x   y   z   {   |   }   ~   \\x7f",
    *b"\\x80\\x81\\x82\\x83\\x84\\x85\\x86\\x87\\x88\\x89\\x8a\\x8b\\x8c\\x8d\\x8e\\x8f",
    *b"\\x90\\x91\\x92\\x93\\x94\\x95\\x96\\x97\\x98\\x99\\x9a\\x9b\\x9c\\x9d\\x9e\\x9f",
    *b"\\xa0\\xa1\\xa2\\xa3\\xa4\\xa5\\xa6\\xa7\\xa8\\xa9\\xaa\\xab\\xac\\xad\\xae\\xaf",
    *b"\\xb0\\xb1\\xb2\\xb3\\xb4\\xb5\\xb6\\xb7\\xb8\\xb9\\xba\\xbb\\xbc\\xbd\\xbe\\xbf",
    *b"\\xc0\\xc1\\xc2\\xc3\\xc4\\xc5\\xc6\\xc7\\xc8\\xc9\\xca\\xcb\\xcc\\xcd\\xce\\xcf",
    *b"\\xd0\\xd1\\xd2\\xd3\\xd4\\xd5\\xd6\\xd7\\xd8\\xd9\\xda\\xdb\\xdc\\xdd\\xde\\xdf",
    *b"\\xe0\\xe1\\xe2\\xe3\\xe4\\xe5\\xe6\\xe7\\xe8\\xe9\\xea\\xeb\\xec\\xed\\xee\\xef",
    *b"\\xf0\\xf1\\xf2\\xf3\\xf4\\xf5\\xf6\\xf7\\xf8\\xf9\\xfa\\xfb\\xfc\\xfd\\xfe\\xff",
];

/// How many characters it shows of each.
const LENGTHS: [[u8; 16]; 16] = [
    [4, 4, 4, 4, 4, 4, 4, 4, 4, 2, 1, 4, 4, 2, 4, 4],
    [4, 4, 4, 4, 4, 4, 4, 4, 4, 4, 4, 4, 4, 4, 4, 4],
    [1, 1, 1, 1, 1, 1, 1, 1, 1, 1, 1, 1, 1, 1, 1, 1],
    [1, 1, 1, 1, 1, 1, 1, 1, 1, 1, 1, 1, 1, 1, 1, 1],
    [1, 1, 1, 1, 1, 1, 1, 1, 1, 1, 1, 1, 1, 1, 1, 1],
    [1, 1, 1, 1, 1, 1, 1, 1, 1, 1, 1, 1, 2, 1, 1, 1],
    [1, 1, 1, 1, 1, 1, 1, 1, 1, 1, 1, 1, 1, 1, 1, 1],
    [1, 1, 1, 1, 1, 1, 1, 1, 1, 1, 1, 1, 1, 1, 1, 4],
    [4, 4, 4, 4, 4, 4, 4, 4, 4, 4, 4, 4, 4, 4, 4, 4],
    [4, 4, 4, 4, 4, 4, 4, 4, 4, 4, 4, 4, 4, 4, 4, 4],
    [4, 4, 4, 4, 4, 4, 4, 4, 4, 4, 4, 4, 4, 4, 4, 4],
    [4, 4, 4, 4, 4, 4, 4, 4, 4, 4, 4, 4, 4, 4, 4, 4],
    [4, 4, 4, 4, 4, 4, 4, 4, 4, 4, 4, 4, 4, 4, 4, 4],
    [4, 4, 4, 4, 4, 4, 4, 4, 4, 4, 4, 4, 4, 4, 4, 4],
    [4, 4, 4, 4, 4, 4, 4, 4, 4, 4, 4, 4, 4, 4, 4, 4],
    [4, 4, 4, 4, 4, 4, 4, 4, 4, 4, 4, 4, 4, 4, 4, 4],
];

/// How the text style shows a byte: the first so many of these.
#[derive(Clone, Copy)]
struct Shown {
    spelled: [u8; 4],
    length: usize,
}

fn shown_of(byte: u8) -> Shown
    ensures few { result.length ≤ 4 }
    ensures whole { length result.spelled ≡ 4 }
    ensures shown { take result.length result.spelled ≡ shown_byte byte }
{
    let row = byte as usize / 16;
    let column = byte as usize % 16;
    let at = 4 * column;
    Shown {
        spelled: [
            SHOWN[row][at],
            SHOWN[row][at + 1],
            SHOWN[row][at + 2],
            SHOWN[row][at + 3],
        ],
        length: LENGTHS[row][column] as usize,
    }
}

/// The hexadecimal digits.
const DIGITS: [u8; 16] = *b"0123456789abcdef";

fn hex_digit_of(value: u8) -> u8
    requires { value < 16 }
    ensures { result ≡ hex_digit value }
{
    DIGITS[value as usize]
}
