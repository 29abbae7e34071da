// Why words are refused, in one sentence each.
use addr_grammar::{GrammarFault, RawAddress, RawSingle, parse_address};
use place_report::Page;
use relay_model::{NoMemory, Refusal, Refused};
use std::alloc::Global;

fn say_why(page: &mut Page, why: Refusal) -> Result<(), NoMemory> {
    page.say(match why {
        Refusal::Unclosed { .. } => "a quote or a bracket opens there, and nothing closes it",
        Refusal::LoneBackslash { .. } =>
            "a backslash takes a meaning from the byte behind it, and there is none",
        Refusal::TooLong => "an address has at most 65536 bytes",
        Refusal::Empty => "an address begins with the keyword of a kind, and this one is empty",
        Refusal::TooManyDuals { .. } => "an address has two halves at most, with one !! between",
        Refusal::EmptyOption { .. } => "an option is missing there",
        Refusal::UnknownOption { .. } => "there is no option of this name",
        Refusal::LeftOutOption { .. } => "socat(1) has this option, and this profile leaves it out",
        Refusal::WrongGroup { .. } =>
            "this kind of address doesn't take this option; -g accepts it without effect",
        Refusal::BadValue { .. } => "this option doesn't take this value, or wants one",
        Refusal::UnknownKind => "there is no kind of address of this name",
        Refusal::LeftOutKind => "socat(1) has this kind of address, and this profile leaves it out",
        Refusal::Parameters { .. } => "this kind of address takes another number of parameters",
        Refusal::BadParameter { .. } => "this parameter is none that the kind takes",
        Refusal::WrongUse =>
            "this kind of address isn't offered for this use: -u and -U use each address one way alone, and so does !! with its halves",
        Refusal::ForkPlace =>
            "fork may stand at the first address alone, where that isn't dual and listens",
        Refusal::UnknownFlag => "there is no such flag",
        Refusal::NoValue => "this flag wants a value, attached to it or as the next word",
        Refusal::BadFlagValue => "this flag doesn't take this value",
        Refusal::AddressCount { .. } =>
            "two addresses stand behind the flags, no fewer and no more",
        Refusal::NoDirection => "neither address gives bytes that the other one takes",
    })
}

/// The half of an address that a refusal blames.
fn half_of(address: &RawAddress, half: u8) -> &RawSingle {
    match address {
        RawAddress::One(single) => single,
        RawAddress::Two(first, second) => { if half == 2 { second } else { first } }
    }
}

fn say_piece(page: &mut Page, what: &str, piece: &[u8]) -> Result<(), NoMemory> {
    page.say(what)?;
    page.quote(piece)?;
    page.say(": ")
}

/// The option at a place that counts from 1.
fn say_option(page: &mut Page, single: &RawSingle, place: u32) -> Result<(), NoMemory> {
    match single.options().get((place as usize).saturating_sub(1)) {
        Some(option) => say_piece(page, "option ", option.name.as_slice()),
        None => Ok(()),
    }
}

/// The parameter at a place that counts from 1.
fn say_parameter(page: &mut Page, single: &RawSingle, place: u32) -> Result<(), NoMemory> {
    match single.params().get((place as usize).saturating_sub(1)) {
        Some(parameter) => say_piece(page, "parameter ", parameter.as_slice()),
        None => Ok(()),
    }
}

fn say_blamed(page: &mut Page, single: &RawSingle, why: Refusal) -> Result<(), NoMemory> {
    match why {
        Refusal::UnknownOption { place }
        | Refusal::LeftOutOption { place }
        | Refusal::WrongGroup { place }
        | Refusal::BadValue { place } => say_option(page, single, place),
        Refusal::BadParameter { place } => say_parameter(page, single, place),
        Refusal::UnknownKind
        | Refusal::LeftOutKind
        | Refusal::Parameters { .. }
        | Refusal::WrongUse => say_piece(page, "kind ", single.keyword()),
        _ => Ok(()),
    }
}

/// The part of an address that is blamed, where its text spells one.
fn say_part(
    alloc: Global,
    page: &mut Page,
    word: &[u8],
    refused: &Refused,
) -> Result<(), NoMemory> {
    match parse_address(alloc, word) {
        Ok(address) => say_blamed(page, half_of(&address, refused.half), refused.why),
        Err(GrammarFault::Memory) => Err(NoMemory),
        Err(_) => Ok(()),
    }
}

/// The sentence on why words are refused. It names the option, the parameter or the kind that is blamed, as it is read
/// from the blamed word.
pub(crate) fn reason(
    alloc: Global,
    word: Option<&[u8]>,
    refused: &Refused,
) -> Result<Page, NoMemory> {
    let mut page = Page::new(alloc);
    page.say("  ")?;
    if let Some(word) = word {
        if refused.half > 0 {
            say_part(alloc, &mut page, word, refused)?;
        }
    }
    say_why(&mut page, refused.why)?;
    Ok(page)
}
