// How the parameters of addresses are written.
ghost use Rattle.std.specs.Prelude.{◌≡◌, ◌==◌, IfOk, map};
ghost use Rattle.std.specs.List.{slice_split};
ghost use Rattle.addr_kinds.specs.Rules.{is_name, is_bracketed, is_v4_literal, is_v6_literal, is_host, is_named_host, is_visible, is_requested_host, port_from, has_word, is_command_line, command_words};
ghost use Rattle.addr_kinds.specs.Targets.{is_socks_host};

use option_table::{ipv4_literal, ipv6_literal, read_short_number};
use relay_model::{Family, NoMemory, Text, Texts};
use std::alloc::{AllocError, Global};

/// Whether a text can be given to the system: it isn't empty and has no byte 0.
pub(crate) fn is_name(text: &[u8]) -> bool
    ensures { result ≡ is_name text.now }
{
    match text {
        [] => false,
        _ => !text.contains(&0),
    }
}

fn is_bracketed(host: &[u8]) -> bool
    ensures { result ≡ is_bracketed host.now }
{
    matches!(host, [b'[', ..])
}

fn is_v4_literal(host: &[u8]) -> bool
    ensures { result ≡ is_v4_literal host.now }
{
    ipv4_literal(host).is_some()
}

#[tactic(auto, unfolding(option_table::specs::Parts::in_brackets))]
fn is_v6_literal(host: &[u8]) -> bool
    ensures { result ≡ is_v6_literal host.now }
{
    match host {
        [b'[', inner @ .., b']'] => ipv6_literal(inner).is_some(),
        _ => false,
    }
}

/// Whether a text is a host of this family. What begins with `[` is an IPv6 address; a name fits each family.
#[tactic(auto, unfolding(crate::specs::Rules::is_host))]
pub(crate) fn is_host(family: Family, host: &[u8]) -> bool
    ensures { result ≡ is_host family host.now }
{
    if !is_name(host) {
        return false;
    }
    match family {
        Family::Any => !is_bracketed(host) || is_v6_literal(host),
        Family::V4 => !is_bracketed(host),
        Family::V6 if is_bracketed(host) => is_v6_literal(host),
        Family::V6 => !is_v4_literal(host),
    }
}

/// Whether a SOCKS4A server may be asked for this host.
#[tactic(auto, unfolding(crate::specs::Rules::is_named_host))]
pub(crate) fn is_named_host(host: &[u8]) -> bool
    ensures { result ≡ is_named_host host.now }
{
    is_host(Family::Any, host) && host.len() <= 255
}

/// Whether a SOCKS server may be asked for this host: by its name, or by its IPv4 address.
pub(crate) fn is_socks_host(named: bool, host: &[u8]) -> bool
    ensures { result ≡ is_socks_host named host.now }
{
    if named {
        is_named_host(host)
    } else {
        is_host(Family::V4, host)
    }
}

fn is_visible(text: &[u8]) -> bool
    ensures { result ≡ is_visible text.now }
{
    text.iter().all(|byte| *byte >= 0x21 && *byte <= 0x7e)
}

/// Whether a host may stand in a request line, where spaces and controls would end it.
#[tactic(auto, unfolding(crate::specs::Rules::is_requested_host))]
pub(crate) fn is_requested_host(host: &[u8]) -> bool
    ensures { result ≡ is_requested_host host.now }
{
    is_named_host(host) && is_visible(host)
}

/// A port of at most 5 decimal digits, that isn't below the least.
#[tactic(auto, unfolding(crate::specs::Rules::port_from))]
pub(crate) fn port_from(least: u16, text: &[u8]) -> Option<u16>
    ensures { result ≡ port_from least text.now }
{
    let port = read_short_number(text, 5, 65535)? as u16;
    if port < least {
        return None;
    }
    Some(port)
}

fn has_word(text: &[u8]) -> bool
    ensures { result ≡ has_word text.now }
{
    text.iter().any(|byte| *byte != b' ')
}

/// Whether a text has a word to run, and no byte 0.
#[tactic(auto, unfolding(crate::specs::Rules::is_command_line))]
pub(crate) fn is_command_line(text: &[u8]) -> bool
    ensures { result ≡ is_command_line text.now }
{
    has_word(text) && !text.contains(&0)
}

/// The parts between the spaces; between two spaces side by side stands an empty one.
fn parts_of(alloc: Global, text: &[u8]) -> Result<Vec<&[u8]>, AllocError>
    ensures { IfOk result (λ parts. map (λ part. part.now) parts.items ≡ slice_split (λ c. c == 32) text.now) }
{
    text.split(|byte| *byte == b' ').collect(alloc)
}

/// The words of a command line, with one or more spaces between them.
#[tactic(auto, unfolding(crate::specs::Rules::command_words))]
pub(crate) fn command_words(alloc: Global, text: &[u8]) -> Result<Texts, NoMemory>
    ensures { IfOk result (λ words. words ≡ command_words text.now) }
{
    let mut words = Texts::new(alloc);
    for part in &parts_of(alloc, text)? {
        if !part.is_empty() {
            words.push(Text::of(alloc, part)?)?;
        }
    }
    Ok(words)
}
