// Printing an address.
ghost use Rattle.std.specs.Prelude.{◌≡◌, ◌≤◌, ◌++◌, length, map, Ok, IfOk, OnOk};
ghost use Rattle.addr_words.specs.{written};
ghost use Rattle.addr_grammar.specs.Addresses.{IsSingle, named};
ghost use Rattle.addr_grammar.specs.Grammar.{reading};
ghost use Rattle.addr_grammar.specs.Spelling.{Spells};
ghost use Rattle.addr_grammar.specs.Printing.{printed_params, printed_value, printed_option, printed_options, printed_single, printed, IsAddress};

use crate::addresses::{RawAddress, RawSingle};
use crate::options::RawOption;
use addr_words::write_word;
use relay_model::{Bytes, NoMemory};
use std::alloc::Global;

fn push_word(out: &mut Vec<u8>, bytes: &[u8]) -> Result<(), NoMemory>
    ensures { OnOk result (out.new.items ≡ out.old.items ++ written bytes.now) }
{
    let word = write_word(*out.allocator(), bytes)?;
    out.extend_from_slice(word.as_slice())?;
    Ok(())
}

fn push_params(out: &mut Vec<u8>, params: &[Bytes]) -> Result<(), NoMemory>
    ensures { OnOk result (out.new.items ≡ out.old.items ++ printed_params params.now) }
{
    for param in params {
        out.push(b':')?;
        push_word(out, param.as_slice())?;
    }
    Ok(())
}

fn push_option(out: &mut Vec<u8>, option: &RawOption) -> Result<(), NoMemory>
    ensures { OnOk result (out.new.items ≡ out.old.items ++ printed_option (named option.now)) }
{
    out.push(b',')?;
    push_word(out, option.name.as_slice())?;
    if let Some(value) = &option.value {
        out.push(b'=')?;
        push_word(out, value.as_slice())?;
    }
    Ok(())
}

fn push_options(out: &mut Vec<u8>, options: &[RawOption]) -> Result<(), NoMemory>
    ensures { OnOk result (out.new.items ≡ out.old.items ++ printed_options (map named options.now)) }
{
    for option in options {
        push_option(out, option)?;
    }
    Ok(())
}

fn push_single(out: &mut Vec<u8>, single: &RawSingle) -> Result<(), NoMemory>
    ensures text { OnOk result (out.new.items ≡ out.old.items ++ printed_single single.now) }
    ensures fits { IsSingle single.now }
{
    push_word(out, single.keyword())?;
    push_params(out, single.params())?;
    push_options(out, single.options())
}

fn push_address(out: &mut Vec<u8>, address: &RawAddress) -> Result<(), NoMemory>
    ensures text { OnOk result (out.new.items ≡ out.old.items ++ printed address.now) }
    ensures fits { OnOk result (IsAddress address.now) }
{
    match address {
        RawAddress::One(single) => push_single(out, single),
        RawAddress::Two(reading, writing) => {
            push_single(out, reading)?;
            out.extend_from_slice(b"!!")?;
            push_single(out, writing)
        }
    }
}

/// The address as a text with no quotes, each byte that would mean something else behind a backslash.
pub fn print_address(alloc: Global, address: &RawAddress) -> Result<Bytes, NoMemory>
    ensures text { IfOk result (λ text. text ≡ printed address.now) }
    // What is printed spells the address, and is read as it again.
    ensures spells { IfOk result (λ text. length text ≤ 65536 → Spells text address.now) }
    ensures again { IfOk result (λ text. length text ≤ 65536 → reading text ≡ Ok address.now) }
{
    let mut out = Vec::new(alloc);
    push_address(&mut out, address)?;
    Bytes::of(alloc, &out)
}
