// Reading an address.
ghost use Rattle.std.specs.Prelude.{◌≡◌, IfOk, IfErr, map, option_map, ◌∷◌, []};
ghost use Rattle.addr_grammar.specs.Addresses.{IsSingle, HaveNames, is_empty, is_dash, has_slash, named};
ghost use Rattle.addr_grammar.specs.Grammar.{decoded, byte_of, pieces, begins_of, texts, later, header, head_of, option_of, options_of, single_of, address_of, value_of, two_of, gopen, reading, Reads};
ghost use Rattle.addr_grammar.specs.Spelling.{Spells, ReadsSpelled, SpellsAtMostOne};
ghost use Rattle.addr_grammar.specs.FirstFaults.{IsFaultOf};

use crate::addresses::{RawAddress, RawSingle};
use crate::cutting::{Mark, cut_at};
use crate::faults::GrammarFault;
use crate::options::RawOption;
use addr_words::{Token, TokenKind, words_of};
use relay_model::{Bytes, NoMemory};
use std::alloc::Global;

fn byte_of(kind: TokenKind) -> u8
    ensures { result ≡ byte_of kind }
{
    match kind {
        TokenKind::Byte(byte) => byte,
        TokenKind::Colon => b':',
        TokenKind::Comma => b',',
        TokenKind::Dual => b'!',
        TokenKind::Equals => b'=',
    }
}

fn is_dash(bytes: &[u8]) -> bool
    ensures { result ≡ is_dash bytes.now }
{
    matches!(bytes, [b'-'])
}

fn has_slash(bytes: &[u8]) -> bool
    ensures { result ≡ has_slash bytes.now }
{
    for byte in bytes {
        if *byte == b'/' {
            return true;
        }
    }
    false
}

fn is_empty(bytes: &[u8]) -> bool
    ensures { result ≡ is_empty bytes.now }
{
    matches!(bytes, [])
}

/// The bytes that the tokens stand for.
fn decode(alloc: Global, tokens: &[Token]) -> Result<Bytes, NoMemory>
    ensures { IfOk result (λ bytes. bytes ≡ decoded tokens.now) }
{
    let bytes: Vec<u8> = tokens
        .iter()
        .map(|token| byte_of(token.kind))
        .collect(alloc)?;
    Bytes::of(alloc, &bytes)
}

/// The texts between the colons.
fn texts_of(alloc: Global, tokens: &[Token], at: u32) -> Result<Vec<Bytes>, NoMemory>
    ensures { IfOk result (λ found. found.items ≡ texts (pieces Mark.Colon at tokens.now)) }
{
    let mut found = Vec::new(alloc);
    let mut rest = tokens;
    let mut begin = at;
    loop {
        let cut = cut_at(rest, Mark::Colon);
        found.push(decode(alloc, cut.front)?)?;
        match cut.back {
            Some((colon, after)) => {
                rest = after;
                begin = colon.to;
            }
            None => return Ok(found),
        }
    }
}

fn option_of(alloc: Global, tokens: &[Token], at: u32) -> Result<RawOption, GrammarFault>
    ensures exact { Reads named result (option_of (record { at = at; tokens = tokens.now })) }
    ensures begins { IfOk result (λ option. option.at ≡ at) }
{
    let cut = cut_at(tokens, Mark::Equals);
    let name = decode(alloc, cut.front)?;
    if is_empty(name.as_slice()) {
        return Err(GrammarFault::EmptyOption { at });
    }
    let value = match cut.back {
        Some((_, after)) => Some(decode(alloc, after)?),
        None => None,
    };
    Ok(RawOption { name, value, at })
}

/// The options between the commas, the first of which begins at this offset.
fn options_of(alloc: Global, tokens: &[Token], at: u32) -> Result<Vec<RawOption>, GrammarFault>
    ensures exact { Reads (λ found. map named found.items) result (options_of (pieces Mark.Comma at tokens.now)) }
    // Each tells where its text begins.
    ensures begins { IfOk result (λ found. map (λ option. option.at) found.items ≡ begins_of (pieces Mark.Comma at tokens.now)) }
{
    let mut found = Vec::new(alloc);
    let mut rest = tokens;
    let mut begin = at;
    loop {
        let cut = cut_at(rest, Mark::Comma);
        found.push(option_of(alloc, cut.front, begin)?)?;
        match cut.back {
            Some((comma, after)) => {
                rest = after;
                begin = comma.to;
            }
            None => return Ok(found),
        }
    }
}

/// What the head of a single address makes.
#[derive(Drop)]
struct Head {
    keyword: Bytes,
    params: Vec<Bytes>,
}

fn params_of(alloc: Global, back: Option<(Token, &[Token])>) -> Result<Vec<Bytes>, NoMemory>
    ensures { IfOk result (λ params. params.items ≡ texts (later Mark.Colon (option_map (λ b. (b.0, b.1.now)) back.entry))) }
{
    match back {
        Some((colon, after)) => texts_of(alloc, after, colon.to),
        None => Ok(Vec::new(alloc)),
    }
}

fn file_head(alloc: Global, tokens: &[Token]) -> Result<Head, NoMemory>
    ensures { IfOk result (λ head. (head.keyword ≡ gopen) × (head.params.items ≡ decoded tokens.now ∷ [])) }
{
    let mut params = Vec::new(alloc);
    params.push(decode(alloc, tokens)?)?;
    Ok(Head {
        keyword: Bytes::of(alloc, b"GOPEN")?,
        params,
    })
}

fn head_of(alloc: Global, tokens: &[Token]) -> Result<Head, GrammarFault>
    ensures { Reads (λ head. record { keyword = head.keyword; params = head.params.items }) result (head_of tokens.now) }
{
    let cut = cut_at(tokens, Mark::Colon);
    let keyword = decode(alloc, cut.front)?;
    if has_slash(keyword.as_slice()) {
        return Ok(file_head(alloc, tokens)?);
    }
    let params = params_of(alloc, cut.back)?;
    if is_dash(keyword.as_slice()) {
        let keyword = Bytes::of(alloc, b"STDIO")?;
        return Ok(Head { keyword, params });
    }
    if is_empty(keyword.as_slice()) {
        return Err(GrammarFault::Empty);
    }
    Ok(Head { keyword, params })
}

fn later_options(
    alloc: Global,
    back: Option<(Token, &[Token])>,
) -> Result<Vec<RawOption>, GrammarFault>
    ensures exact { Reads (λ found. map named found.items) result (options_of (later Mark.Comma (option_map (λ b. (b.0, b.1.now)) back.entry))) }
    ensures begins { IfOk result (λ found. map (λ option. option.at) found.items ≡ begins_of (later Mark.Comma (option_map (λ b. (b.0, b.1.now)) back.entry))) }
{
    match back {
        Some((comma, after)) => options_of(alloc, after, comma.to),
        None => Ok(Vec::new(alloc)),
    }
}

fn single_of(alloc: Global, tokens: &[Token]) -> Result<RawSingle, GrammarFault>
    ensures { Reads (λ single. single) result (single_of tokens.now) }
{
    let cut = cut_at(tokens, Mark::Comma);
    let head = head_of(alloc, cut.front)?;
    let options = later_options(alloc, cut.back)?;
    Ok(RawSingle::of(head.keyword, head.params, options))
}

fn two_of(alloc: Global, left: &[Token], right: &[Token]) -> Result<RawAddress, GrammarFault>
    ensures { Reads (λ address. address) result (two_of left.now right.now) }
{
    let reading = single_of(alloc, left)?;
    let writing = single_of(alloc, right)?;
    Ok(RawAddress::Two(reading, writing))
}

fn address_of(alloc: Global, tokens: &[Token]) -> Result<RawAddress, GrammarFault>
    ensures { Reads (λ address. address) result (address_of tokens.now) }
{
    let cut = cut_at(tokens, Mark::Dual);
    match cut.back {
        None => Ok(RawAddress::One(single_of(alloc, tokens)?)),
        Some((_, right)) => match cut_at(right, Mark::Dual).back {
            None => two_of(alloc, cut.front, right),
            Some((second, _)) => Err(GrammarFault::TooManyDuals { at: second.from }),
        },
    }
}

fn read_address(alloc: Global, text: &[u8]) -> Result<RawAddress, GrammarFault>
    ensures { Reads (λ address. address) result (reading text.now) }
{
    let words = words_of(alloc, text)?;
    address_of(alloc, words.as_slice())
}

/// The address that a text spells. Parts are told from each other by the marks that stand outside of quotes
/// and brackets (socat(1), "ADDRESS SPECIFICATIONS").
pub fn parse_address(alloc: Global, text: &[u8]) -> Result<RawAddress, GrammarFault>
    // What is read is spelled so.
    ensures spells { IfOk result (λ address. Spells text.now address) }
    // What is spelled so is read, unless memory runs out.
    ensures only { ReadsSpelled text.now result }
    // A fault is one that the text has by itself.
    ensures fault { IfErr result (IsFaultOf text.now) }
    // Which address or fault it is.
    ensures exact { Reads (λ address. address) result (reading text.now) }
{
    read_address(alloc, text)
}

/// No text spells two addresses: a law, with nothing to run.
pub fn one_address()
    ensures { SpellsAtMostOne }
{}
