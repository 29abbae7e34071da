// Ports through proxies, over a port in memory.
ghost use Rattle.std.specs.Prelude.{◌≡◌, ◌≤◌, [], IfOk, length};
ghost use Rattle.port_objects.specs.{given_of};

use crate::calls::make_calls;
use crate::memory::add_items;
use case_rows::{Answered, Answers, CaseFault, Inputs};
use port_objects::{MemPort, Tap};
use port_trait::Port;
use std::alloc::Global;
use tunnel_port::{ConnectEnd, ConnectPort, Request, SocksEnd, SocksPort, request4, request4a};

/// Asks a port through a proxy, and at the end why it was refused.
pub(crate) fn ask(
    alloc: Global,
    part: &str,
    inputs: &mut Inputs<'_>,
    answers: &mut Answers,
) -> Answered {
    match part {
        "socks4" => ask_socks4(alloc, inputs, answers),
        "socks4a" => ask_socks4a(alloc, inputs, answers),
        "connect" => ask_connect(alloc, inputs, answers),
        _ => Err(CaseFault::NoRow),
    }
}

/// A port through a SOCKS4 server: an address of four bytes, a port, a user, and what the server's port is.
fn ask_socks4(alloc: Global, inputs: &mut Inputs<'_>, answers: &mut Answers) -> Answered {
    let addr = address_of(inputs.bytes(alloc)?.as_slice())?;
    let port = inputs.word()?.parse::<u16>()?;
    let user = name_of(alloc, inputs)?;
    let request = request4(addr, port, user.as_slice());
    ask_socks(alloc, request, inputs, answers)
}

/// A port through a SOCKS4A server: a host, a port, a user, and what the server's port is.
fn ask_socks4a(alloc: Global, inputs: &mut Inputs<'_>, answers: &mut Answers) -> Answered {
    let host = name_of(alloc, inputs)?;
    let port = inputs.word()?.parse::<u16>()?;
    let user = name_of(alloc, inputs)?;
    let request = request4a(host.as_slice(), port, user.as_slice());
    ask_socks(alloc, request, inputs, answers)
}

/// A port through an HTTP proxy: a host, a port, and what the proxy's port is.
fn ask_connect(alloc: Global, inputs: &mut Inputs<'_>, answers: &mut Answers) -> Answered {
    let host = inputs.bytes(alloc)?;
    let number = inputs.word()?.parse::<u16>()?;
    let (inner, tap) = inner_of(alloc, inputs)?;
    match ConnectPort::new(alloc, inner, host.as_slice(), number) {
        Ok(port) => call_connect(alloc, port, &tap, inputs, answers),
        Err(_) => Err(CaseFault::NoMemory),
    }
}

fn call_connect<P: Port>(
    alloc: Global,
    port: ConnectPort<P>,
    tap: &Tap,
    inputs: &mut Inputs<'_>,
    answers: &mut Answers,
) -> Answered {
    let mut port = port;
    make_calls(alloc, &mut port, Some(tap), 1, inputs, answers)?;
    say_connect_end(port.refusal(), answers);
    Ok(())
}

/// Asks a port through a SOCKS server with this request.
fn ask_socks(
    alloc: Global,
    request: Request,
    inputs: &mut Inputs<'_>,
    answers: &mut Answers,
) -> Answered {
    let (inner, tap) = inner_of(alloc, inputs)?;
    call_socks(alloc, SocksPort::new(inner, request), &tap, inputs, answers)
}

fn call_socks<P: Port>(
    alloc: Global,
    port: SocksPort<P>,
    tap: &Tap,
    inputs: &mut Inputs<'_>,
    answers: &mut Answers,
) -> Answered {
    let mut port = port;
    make_calls(alloc, &mut port, Some(tap), 1, inputs, answers)?;
    say_socks_end(port.refusal(), answers);
    Ok(())
}

/// The port to the proxy: its room, the items of its script, and `calls`.
fn inner_of(alloc: Global, inputs: &mut Inputs<'_>) -> Result<(MemPort, Tap), CaseFault>
    ensures given { IfOk result (λ made. given_of made.0.script ≡ []) }
    ensures taken { IfOk result (λ made. made.0.intake.bytes ≡ []) }
{
    let mut port = MemPort::new(alloc, inputs.word()?.parse::<usize>()?)?;
    add_items(alloc, &mut port, "calls", inputs)?;
    let tap = port.tap();
    Ok((port, tap))
}

fn address_of(bytes: &[u8]) -> Result<[u8; 4], CaseFault> {
    match bytes {
        [a, b, c, d] => Ok([*a, *b, *c, *d]),
        _ => Err(CaseFault::NoRow),
    }
}

/// A name of at most 255 bytes.
fn name_of(alloc: Global, inputs: &mut Inputs<'_>) -> Result<Vec<u8>, CaseFault>
    ensures { IfOk result (λ name. length name.items ≤ 255) }
{
    let name = inputs.bytes(alloc)?;
    if name.len() > 255 {
        return Err(CaseFault::NoRow);
    }
    Ok(name)
}

fn say_socks_end(end: Option<SocksEnd>, answers: &mut Answers) {
    match end {
        None => answers.word("unrefused"),
        Some(SocksEnd::Denied { code }) => answers.word_and_number("denied", u64::from(code)),
        Some(SocksEnd::BadReply { first }) => answers.word_and_number(
            "bad-reply",
            u64::from(first),
        ),
        Some(SocksEnd::Short { have }) => answers.word_and_number("short", u64::from(have)),
    }
}

fn say_connect_end(end: Option<ConnectEnd>, answers: &mut Answers) {
    match end {
        None => answers.word("unrefused"),
        Some(ConnectEnd::Denied { status }) => answers.word_and_number("denied", u64::from(status)),
        Some(ConnectEnd::BadHead { have }) => answers.word_and_number("bad-head", u64::from(have)),
        Some(ConnectEnd::TooLong) => answers.word("too-long"),
        Some(ConnectEnd::Short { have }) => answers.word_and_number("short", u64::from(have)),
    }
}
