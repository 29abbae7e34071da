// The scan of a text from its first byte to its last, with what is open kept in a list.
ghost use Rattle.std.specs.Prelude.{◌≡◌, ◌+◌, ◌<◌, ◌≤◌, ◌++◌, [], length, map, drop, OnOk, IfOk, IfErr};
ghost use Rattle.addr_words.specs.Reading.{escapes, is_dual, mark, meaning, single, tokens_from, tokens_of, after_front, Reads, Reports};
ghost use Rattle.addr_words.specs.Spelling.{SpellsKinds};
ghost use Rattle.addr_words.specs.FirstFaults.{IsFaultOf};

use crate::faults::WordFault;
use crate::nesting::{Enclosure, OpenEnclosures};
use crate::token_list::{Token, TokenKind, Words};
use std::alloc::{AllocError, Global};

/// The most bytes that a text may have.
const LONGEST: usize = 65_536;

fn escapes(place: Option<Enclosure>, byte: u8) -> bool
    ensures { result ≡ escapes place byte }
{
    match place {
        Some(Enclosure::SingleQuote) => false,
        _ => byte == b'\\',
    }
}

fn is_dual(place: Option<Enclosure>, byte: u8, next: u8) -> bool
    ensures { result ≡ is_dual place byte next }
{
    place.is_none() && byte == b'!' && next == b'!'
}

fn mark(byte: u8) -> TokenKind
    ensures { result ≡ mark byte }
{
    match byte {
        b':' => TokenKind::Colon,
        b',' => TokenKind::Comma,
        b'=' => TokenKind::Equals,
        _ => TokenKind::Byte(byte),
    }
}

fn meaning(place: Option<Enclosure>, byte: u8) -> Option<TokenKind>
    ensures { result ≡ meaning place byte }
{
    match (place, byte) {
        (Some(Enclosure::DoubleQuote), b'\'') | (Some(Enclosure::SingleQuote), b'"') => {
            Some(TokenKind::Byte(byte))
        }
        (_, b'"' | b'\'') => None,
        (None, _) => Some(mark(byte)),
        (Some(_), _) => Some(TokenKind::Byte(byte)),
    }
}

fn push_meaning(
    tokens: &mut Vec<Token>,
    place: Option<Enclosure>,
    byte: u8,
    from: u32,
) -> Result<(), AllocError>
    requires { from < 65536 }
    ensures { OnOk result (tokens.new.items ≡ tokens.old.items ++ single (meaning place byte) from) }
{
    if let Some(kind) = meaning(place, byte) {
        tokens.push(Token {
            kind,
            from,
            to: from + 1,
        })?;
    }
    Ok(())
}

/// Reads the token, the mark of a quote or the escape at this offset, and answers the offset behind it.
fn read_on(
    tokens: &mut Vec<Token>,
    around: &mut OpenEnclosures,
    text: &[u8],
    at: usize,
) -> Result<usize, WordFault>
    requires inside { at < length text.now }
    requires short { length text.now ≤ 65536 }
    ensures onward { IfOk result (λ next. (at < next) × (next ≤ length text.now)) }
    ensures read { IfOk result (λ next. after_front tokens.new.items (tokens_from around.new next (drop next text.now))
        ≡ after_front tokens.old.items (tokens_from around.old at (drop at text.now))) }
    ensures fault { IfErr result (λ fault. Reports fault (tokens_from around.old at (drop at text.now))) }
{
    let byte = text[at];
    let from = at as u32;
    let place = around.innermost();
    if escapes(place, byte) {
        if at + 1 == text.len() {
            return Err(WordFault::LoneBackslash { at: from });
        }
        let kind = TokenKind::Byte(text[at + 1]);
        tokens.push(Token {
            kind,
            from,
            to: from + 2,
        })?;
        return Ok(at + 2);
    }
    if at + 1 < text.len() && is_dual(place, byte, text[at + 1]) {
        tokens.push(Token {
            kind: TokenKind::Dual,
            from,
            to: from + 2,
        })?;
        return Ok(at + 2);
    }
    push_meaning(tokens, place, byte, from)?;
    around.pass(from, byte)?;
    Ok(at + 1)
}

/// The tokens of a text. Brackets and quotes may nest as deep as the text is long.
pub fn words_of(alloc: Global, text: &[u8]) -> Result<Words, WordFault>
    ensures exact { Reads result (tokens_of text.now) }
    // What is read is spelled so.
    ensures spelled { IfOk result (λ words. SpellsKinds [] text.now (map (λ t. t.kind) words)) }
    // A fault is the one that the text has by itself.
    ensures fault { IfErr result (IsFaultOf text.now) }
{
    if text.len() > LONGEST {
        return Err(WordFault::TooLong);
    }
    let mut tokens = Vec::new(alloc);
    let mut around = OpenEnclosures::new(alloc);
    let mut at = 0;
    while at < text.len() {
        at = read_on(&mut tokens, &mut around, text, at)?;
    }
    match around.outermost() {
        Some(at) => Err(WordFault::Unclosed { at }),
        None => Ok(Words::of(tokens)),
    }
}
