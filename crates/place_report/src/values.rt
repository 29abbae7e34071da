// How times and addresses are told.
ghost use Rattle.std.specs.Prelude.{[], OnOk};
ghost use Rattle.place_report.specs.Naming.{Adds};

use crate::pages::Page;
use relay_model::{NoMemory, Peer, Range};

/// A time of so many milliseconds, in seconds, without zeros at its end.
pub fn say_time(page: &mut Page, milliseconds: u64) -> Result<(), NoMemory>
    ensures { OnOk result (Adds [] page.old page.new) }
{
    let digits = format!(in page.allocator();
        "{}.{:03}",
        milliseconds / 1000,
        milliseconds % 1000
    )?;
    page.say(digits.trim_end_matches('0').trim_end_matches('.'))?;
    page.say(" s")
}

/// An IPv4 address (RFC 791).
fn say_v4(page: &mut Page, octets: [u8; 4]) -> Result<(), NoMemory> {
    let [a, b, c, d] = octets;
    page.number(u64::from(a))?;
    for octet in [b, c, d] {
        page.say(".")?;
        page.number(u64::from(octet))?;
    }
    Ok(())
}

/// Two octets of an IPv6 address, in lower-case digits.
fn say_group(page: &mut Page, high: u8, low: u8) -> Result<(), NoMemory> {
    let group = format!(in page.allocator(); "{:x}", 256 * u16::from(high) + u16::from(low))?;
    page.say(group.as_str())
}

/// An IPv6 address, each of its eight groups in full, between brackets.
fn say_v6(page: &mut Page, octets: [u8; 16]) -> Result<(), NoMemory> {
    page.say("[")?;
    for i in 0..8 {
        if i > 0 {
            page.say(":")?;
        }
        say_group(page, octets[2 * i], octets[2 * i + 1])?;
    }
    page.say("]")
}

/// An address of this machine, and its port where there is one.
pub(crate) fn say_address(page: &mut Page, address: Peer) -> Result<(), NoMemory> {
    let port = match address {
        Peer::V4 { addr, port } => {
            say_v4(page, addr)?;
            port
        }
        Peer::V6 { addr, port } => {
            say_v6(page, addr)?;
            port
        }
        Peer::Local => return page.say("this machine"),
    };
    if port > 0 {
        page.say(", port ")?;
        page.number(u64::from(port))?;
    }
    Ok(())
}

/// A network with its mask.
pub(crate) fn say_range(page: &mut Page, range: Range) -> Result<(), NoMemory> {
    match range {
        Range::V4 { net, mask } => {
            say_v4(page, net)?;
            page.say(" with the mask ")?;
            say_v4(page, mask)
        }
        Range::V6 { net, mask } => {
            say_v6(page, net)?;
            page.say(" with the mask ")?;
            say_v6(page, mask)
        }
    }
}
