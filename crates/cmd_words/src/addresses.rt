// One address of the command line.
ghost use Rattle.std.specs.Prelude.{◌≡◌, ◌+◌, ◌<◌, ◌^◌, None, IfOk, IfErr};
ghost use Rattle.addr_grammar.specs.{reading};
ghost use Rattle.addr_kinds.specs.{resolution};
ghost use Rattle.cmd_words.specs.Blames.{IsBlamed};
ghost use Rattle.cmd_words.specs.Commands.{Answers, parsed, single_at, use_of, resolved, misplaced_fork, placed, address_at};

use crate::faults::{CommandFault, kind_fault, text_fault, wrong_at};
use crate::settings::Settings;
use addr_grammar::{RawAddress, RawSingle, parse_address};
use addr_kinds::{Asked, resolve};
use relay_model::{Address, Refusal, Side, Single, Ways};
use std::alloc::Global;

/// What a single address is asked for.
fn use_of(ways: Ways, side: Side) -> Asked
    ensures { result ≡ use_of ways side }
{
    match (ways, side) {
        (Ways::Two, _) => Asked::TwoWay,
        (Ways::OnlyRight, Side::Left) | (Ways::OnlyLeft, Side::Right) => Asked::Reading,
        (Ways::OnlyRight, Side::Right) | (Ways::OnlyLeft, Side::Left) => Asked::Writing,
    }
}

fn parse_at(alloc: Global, at: usize, word: &[u8]) -> Result<RawAddress, CommandFault>
    requires { at + 1 < 2 ^ 64 }
    ensures { Answers result (parsed at (reading word.now)) }
{
    match parse_address(alloc, word) {
        Ok(address) => Ok(address),
        Err(fault) => Err(text_fault(at, fault)),
    }
}

fn single_at(
    alloc: Global,
    at: usize,
    half: u8,
    raw: &RawSingle,
    asked: Asked,
    general: bool,
) -> Result<Single, CommandFault>
    requires { at + 1 < 2 ^ 64 }
    ensures { Answers result (single_at at half (resolution raw.now asked general)) }
{
    match resolve(alloc, raw, asked, general) {
        Ok(single) => Ok(single),
        Err(fault) => Err(kind_fault(at, half, fault)),
    }
}

/// What the parts of an address ask for. Each half of a dual one is asked for its own use, also where only the
/// other is opened.
fn resolve_address(
    alloc: Global,
    settings: Settings,
    at: usize,
    side: Side,
    raw: &RawAddress,
) -> Result<Address, CommandFault>
    requires { at + 1 < 2 ^ 64 }
    ensures { Answers result (resolved settings at side raw.now) }
{
    let general = settings.general;
    match raw {
        RawAddress::One(single) => {
            let asked = use_of(settings.ways, side);
            Ok(Address::One(single_at(alloc, at, 1, single, asked, general)?))
        }
        RawAddress::Two(first, second) => {
            let reading = single_at(alloc, at, 1, first, Asked::Reading, general)?;
            match single_at(alloc, at, 2, second, Asked::Writing, general) {
                Ok(writing) => Ok(Address::Two { reading, writing }),
                Err(fault) => {
                    drop(reading);
                    Err(fault)
                }
            }
        }
    }
}

/// The half whose `fork` has no place there: only a single first address that listens may have it.
fn misplaced_fork(side: Side, address: &Address) -> Option<u8>
    ensures { result ≡ misplaced_fork side address.now }
{
    match (side, address) {
        (_, Address::Two { reading, .. }) if reading.options.sessions.fork => Some(1),
        (_, Address::Two { writing, .. }) if writing.options.sessions.fork => Some(2),
        (_, Address::Two { .. }) => None,
        (Side::Left, Address::One(single)) if single.target.listens() => None,
        (_, Address::One(single)) if single.options.sessions.fork => Some(1),
        (_, Address::One(_)) => None,
    }
}

/// The address, where no `fork` is out of place.
fn check_fork_place(at: usize, side: Side, address: Address) -> Result<Address, CommandFault>
    requires { at + 1 < 2 ^ 64 }
    ensures exact { result ≡ placed at address (misplaced_fork side address) }
    ensures placed { IfOk result (λ kept. misplaced_fork side kept ≡ None) }
{
    match misplaced_fork(side, &address) {
        Some(half) => {
            drop(address);
            Err(wrong_at(at, half, Refusal::ForkPlace))
        }
        None => Ok(address),
    }
}

#[tactic(auto, unfolding(crate::specs::Commands::address_at))]
fn read_at(
    alloc: Global,
    settings: Settings,
    at: usize,
    side: Side,
    word: &[u8],
) -> Result<Address, CommandFault>
    requires { at + 1 < 2 ^ 64 }
    ensures exact { Answers result (address_at settings at side word.now) }
    ensures placed { IfOk result (λ address. misplaced_fork side address ≡ None) }
{
    let raw = parse_at(alloc, at, word)?;
    let address = resolve_address(alloc, settings, at, side, &raw)?;
    check_fork_place(at, side, address)
}

/// The address that the word at this place asks for on its side, or the first thing that is wrong with it.
pub fn address_at(
    alloc: Global,
    settings: Settings,
    at: usize,
    side: Side,
    word: &[u8],
) -> Result<Address, CommandFault>
    requires { at + 1 < 2 ^ 64 }
    ensures exact { Answers result (address_at settings at side word.now) }
    ensures placed { IfOk result (λ address. misplaced_fork side address ≡ None) }
    // A fault of the text is one that it has by itself.
    ensures blamed { IfErr result (IsBlamed word.now) }
{
    read_at(alloc, settings, at, side, word)
}
