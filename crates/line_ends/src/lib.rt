//! Conversion of line ends between a place that is read and a place that is written (socat(1), `cr` and `crnl`).
#![tactic(auto)]

ghost use Rattle.std.specs.Prelude.{◌≡◌, ◌⊎◌, ◌+◌, ◌*◌, ◌≤◌, ℕ, List, ◌∷◌, [], ◌++◌, length, take};
ghost use Rattle.std.specs.List.{flat_map};
ghost use Rattle.line_ends.specs.Converted.{converted, IsNextLineEnd};

use memchr::{memchr, memchr2};
use relay_model::Conv;

const CARRIAGE_RETURN: u8 = b'\r';

const NEWLINE: u8 = b'\n';

/// How one direction converts line ends: as the source is read, and then as the sink is written.
#[derive(Clone, Copy, PartialEq, Eq)]
pub struct Convs {
    pub read: Conv,
    pub write: Conv,
}

/// Writes the conversion of `block` to the front of `out`, and answers its length. The rest of `out` is anything.
pub fn convert(how: Convs, block: &[u8], out: &mut [u8]) -> usize
    requires { 2 * length block.now ≤ length out.old }
    ensures converts { take result out.new ≡ converted how block.now }
    ensures count { result ≡ length (converted how block.now) }
    ensures bound { result ≤ 2 * length block.now }
    // Whatever came before, this block's conversion goes on where that one's ends.
    ensures cuts { (before : List ℕ) → converted how (before ++ block.now) ≡ converted how before ++ take result out.new }
{
    let mut rest = block;
    let mut filled = 0;
    while let Some(at) = next_line_end(how, rest) {
        filled = append(out, filled, &rest[..at]);
        filled = append(out, filled, converted_line_end(how, rest[at]));
        rest = &rest[at + 1..];
    }
    append(out, filled, rest)
}

/// A law of conversions: however a stream is cut into pieces, its conversion is the pieces' conversions joined.
pub fn cuts_change_nothing(how: Convs)
    ensures { (pieces : List (List ℕ)) → converted how (flat_map (λ piece. piece) pieces) ≡ flat_map (converted how) pieces }
{
    let _ = how;
}

/// Where the first byte stands that may have to be converted.
fn next_line_end(how: Convs, bytes: &[u8]) -> Option<usize>
    ensures { IsNextLineEnd how bytes.now result }
{
    match (how.read, how.write) {
        (Conv::Plain, Conv::Plain) => None,
        (Conv::Plain, _) => memchr(NEWLINE, bytes),
        (_, Conv::Plain) => memchr(CARRIAGE_RETURN, bytes),
        _ => memchr2(CARRIAGE_RETURN, NEWLINE, bytes),
    }
}

/// What stands in the output for a carriage return or a newline of the input.
fn converted_line_end(how: Convs, byte: u8) -> &'static [u8]
    requires { (byte ≡ 13) ⊎ (byte ≡ 10) }
    ensures converts { result.now ≡ converted how (byte ∷ []) }
    ensures short { length result.now ≤ 2 }
{
    let newline: &'static [u8] = match how.write {
        Conv::Plain => b"\n",
        Conv::Cr => b"\r",
        Conv::Crnl => b"\r\n",
    };
    if byte == NEWLINE {
        return newline;
    }
    match how.read {
        Conv::Plain => b"\r",
        Conv::Cr => newline,
        Conv::Crnl => b"",
    }
}

/// Writes the bytes to `out` from `at` on, and answers where they end.
fn append(out: &mut [u8], at: usize, bytes: &[u8]) -> usize
    requires { at + length bytes.now ≤ length out.old }
    ensures end { result ≡ at + length bytes.now }
    ensures front { take result out.new ≡ take at out.old ++ bytes.now }
{
    let end = at + bytes.len();
    out[at..end].copy_from_slice(bytes);
    end
}
