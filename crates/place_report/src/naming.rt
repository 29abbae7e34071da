// What an address is, in words, with each of its parameters.
ghost use Rattle.std.specs.Prelude.{◌≡◌, ◌++◌, ◌∷◌, [], map, decimal, OnOk};
ghost use Rattle.std.specs.List.{flat_map};
ghost use Rattle.place_report.specs.Shown.{quoted};
ghost use Rattle.place_report.specs.Naming.{Adds, parameters};

use crate::pages::Page;
use relay_model::{Family, NoMemory, Target, Text, Texts};
use std::net::Ipv4Addr;
use std::str;

/// Words that name nothing.
fn say_plain(page: &mut Page, words: &str) -> Result<(), NoMemory>
    ensures { OnOk result (Adds [] page.old page.new) }
{
    page.say(words)
}

/// Words around a name.
fn say_name(page: &mut Page, before: &str, name: &Text, after: &str) -> Result<(), NoMemory>
    ensures { OnOk result (Adds (quoted name.now ∷ []) page.old page.new) }
{
    page.say(before)?;
    page.quote(name.as_slice())?;
    page.say(after)
}

/// Words around a port.
fn say_port(page: &mut Page, before: &str, port: u16, after: &str) -> Result<(), NoMemory>
    ensures { OnOk result (Adds (decimal port ∷ []) page.old page.new) }
{
    page.say(before)?;
    page.number(u64::from(port))?;
    page.say(after)
}

/// Words, then a host and its port, then further words.
fn say_peer(
    page: &mut Page,
    before: &str,
    host: &Text,
    port: u16,
    after: &str,
) -> Result<(), NoMemory>
    ensures { OnOk result (Adds (quoted host.now ∷ decimal port ∷ []) page.old page.new) }
{
    page.say(before)?;
    page.quote(host.as_slice())?;
    page.say(", port ")?;
    page.number(u64::from(port))?;
    page.say(after)?;
    Ok(())
}

/// Words, then a server, and the host and port that are asked of it.
fn say_proxied(
    page: &mut Page,
    before: &str,
    server: &Text,
    host: &Text,
    port: u16,
    after: &str,
) -> Result<(), NoMemory>
    ensures { OnOk result (Adds (quoted server.now ∷ quoted host.now ∷ decimal port ∷ []) page.old page.new) }
{
    page.say(before)?;
    page.quote(server.as_slice())?;
    page.say(" to ")?;
    page.quote(host.as_slice())?;
    page.say(", port ")?;
    page.number(u64::from(port))?;
    page.say(after)?;
    Ok(())
}

/// Each word between quotes, a space before each.
fn say_words(page: &mut Page, words: &[Text]) -> Result<(), NoMemory>
    ensures { OnOk result (page.new ≡ page.old ++ flat_map (λ word. 32 ∷ quoted word) words.now) }
{
    for word in words {
        page.say(" ")?;
        page.quote(word.as_slice())?;
    }
    Ok(())
}

/// A program with its arguments.
#[tactic(auto, using(crate::proofs::Growing::adds_each))]
fn say_program(page: &mut Page, words: &Texts) -> Result<(), NoMemory>
    ensures { OnOk result (Adds (map quoted words.now) page.old page.new) }
{
    page.say("runs")?;
    say_words(page, words.as_slice())?;
    page.say(", found by $PATH, over pipes")?;
    Ok(())
}

/// The family of a host: that of its kind, or of the address that it is; none where it is a name of any family.
fn family_of(family: Family, host: &Text) -> Family {
    match family {
        Family::Any if host.as_slice().first() == Some(&b'[') => Family::V6,
        Family::Any if is_ipv4(host) => Family::V4,
        family => family,
    }
}

/// Whether the host is an IPv4 address in numbers.
fn is_ipv4(host: &Text) -> bool {
    match str::from_utf8(host.as_slice()) {
        Ok(host) => host.parse::<Ipv4Addr>().is_ok(),
        Err(_) => false,
    }
}

/// Which of a host's addresses is taken.
fn chosen_address(family: Family, host: &Text) -> &'static str {
    match family_of(family, host) {
        Family::Any => ", over IPv4 where it has such an address, else over IPv6",
        Family::V4 => ", over IPv4",
        Family::V6 => ", over IPv6",
    }
}

/// Says what an address is, and names each of its parameters.
pub(crate) fn say_kind(page: &mut Page, target: &Target) -> Result<(), NoMemory>
    ensures { OnOk result (Adds (parameters target.now) page.old page.new) }
{
    match target {
        Target::Stdio => say_plain(page, "standard input and standard output"),
        Target::Stdin => say_plain(page, "standard input"),
        Target::Stdout => say_plain(page, "standard output"),
        Target::Stderr => say_plain(page, "standard error"),
        Target::Create(name) => say_name(page, "the file ", name, ", which is made or emptied"),
        Target::FileAt(name) => say_name(page, "the file ", name, ""),
        Target::GenericOpen(name) => say_name(
            page,
            "the Unix socket ",
            name,
            " where there is one of that name, else the file",
        ),
        Target::Echo => say_plain(page, "a pipe, whose bytes come back"),
        Target::NamedPipe(name) => {
            say_name(page, "the named pipe ", name, ", which has to be there")
        }
        Target::Tcp { family, host, port } => say_peer(
            page,
            "a TCP connection to ",
            host,
            *port,
            chosen_address(*family, host),
        ),
        Target::TcpListen { port, .. } => {
            say_port(
                page,
                "listens for TCP peers on port ",
                *port,
                any_port(*port),
            )
        }
        Target::Udp { family, host, port } => say_peer(
            page,
            "UDP datagrams to and from ",
            host,
            *port,
            chosen_address(*family, host),
        ),
        Target::UdpListen { port, .. } => say_port(
            page,
            "waits for a UDP datagram on port ",
            *port,
            "; its sender is the peer from then on",
        ),
        Target::UdpRecvfrom { port, .. } => say_port(
            page,
            "one UDP datagram that comes on port ",
            *port,
            ", and answers to its sender",
        ),
        Target::UdpRecv { port, .. } => say_port(
            page,
            "the UDP datagrams that come on port ",
            *port,
            ", of every sender",
        ),
        Target::UdpSendto { family, host, port } => say_peer(
            page,
            "UDP datagrams to ",
            host,
            *port,
            chosen_address(*family, host),
        ),
        Target::UnixConnect(name) => say_name(page, "a connection to the Unix socket ", name, ""),
        Target::UnixListen(name) => {
            say_name(page, "makes the Unix socket ", name, " and listens there")
        }
        Target::Exec(words) => say_program(page, words),
        Target::System(command) => say_name(
            page,
            "runs the shell command ",
            command,
            " by sh, over pipes",
        ),
        Target::Socks {
            named: true,
            server,
            host,
            port,
        } => say_proxied(
            page,
            "a TCP connection through the SOCKS server ",
            server,
            host,
            *port,
            ", which the server looks up (SOCKS4A)",
        ),
        Target::Socks {
            named: false,
            server,
            host,
            port,
        } => say_proxied(
            page,
            "a TCP connection through the SOCKS server ",
            server,
            host,
            *port,
            ", which is looked up here (SOCKS4)",
        ),
        Target::Proxy { server, host, port } => say_proxied(
            page,
            "a TCP connection through the HTTP proxy ",
            server,
            host,
            *port,
            "",
        ),
    }
}

/// Where the port is 0.
fn any_port(port: u16) -> &'static str {
    if port == 0 {
        ", for which the system picks one"
    } else {
        ""
    }
}
