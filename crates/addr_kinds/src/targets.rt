// What the parameters of a kind make.
ghost use Rattle.std.specs.Prelude.{◌≡◌, length};
ghost use Rattle.addr_kinds.specs.Targets.{counted, target_of, stream_target};
ghost use Rattle.addr_kinds.specs.Resolving.{Resolves};

use crate::faults::KindFault;
use crate::kinds::{FileKind, HostKind, Kind, PortKind, StreamKind};
use crate::rules::{
    command_words, is_command_line, is_host, is_name, is_requested_host, is_socks_host, port_from,
};
use relay_model::{Bytes, Family, Target, Text};
use std::alloc::Global;

/// A count or a place for a report, which stands still at the end of 32 bits.
pub fn report_number(count: usize) -> u32
    ensures { result ≡ counted count }
{
    u32::try_from(count).unwrap_or(u32::MAX)
}

/// That a kind wants another number of parameters.
fn wrong_number(want: u32, params: &[Bytes]) -> KindFault
    ensures { result ≡ KindFault.Parameters want (counted (length params.now)) }
{
    KindFault::Parameters {
        want,
        have: report_number(params.len()),
    }
}

#[tactic(auto, unfolding(crate::specs::Targets::target_of))]
fn stream_target(kind: StreamKind, params: &[Bytes]) -> Result<Target, KindFault>
    ensures { result ≡ target_of (Kind.Stream kind) params.now }
{
    let [] = params else {
        return Err(wrong_number(0, params));
    };
    Ok(match kind {
        StreamKind::Stdio => Target::Stdio,
        StreamKind::Stdin => Target::Stdin,
        StreamKind::Stdout => Target::Stdout,
        StreamKind::Stderr => Target::Stderr,
    })
}

#[tactic(auto, unfolding(crate::specs::Targets::target_of))]
fn file_target(alloc: Global, kind: FileKind, params: &[Bytes]) -> Result<Target, KindFault>
    ensures { Resolves (λ target. target) result (target_of (Kind.File kind) params.now) }
{
    let [name] = params else {
        return Err(wrong_number(1, params));
    };
    if !is_name(name.as_slice()) {
        return Err(KindFault::BadParameter { place: 1 });
    }
    let name = Text::of(alloc, name.as_slice())?;
    Ok(match kind {
        FileKind::Create => Target::Create(name),
        FileKind::Open => Target::FileAt(name),
        FileKind::Gopen => Target::GenericOpen(name),
        FileKind::UnixConnect => Target::UnixConnect(name),
        FileKind::UnixListen => Target::UnixListen(name),
    })
}

#[tactic(auto, unfolding(crate::specs::Targets::target_of))]
fn pipe_target(alloc: Global, params: &[Bytes]) -> Result<Target, KindFault>
    ensures { Resolves (λ target. target) result (target_of Kind.Pipe params.now) }
{
    match params {
        [] => Ok(Target::Echo),
        [name] if is_name(name.as_slice()) => {
            Ok(Target::NamedPipe(Text::of(alloc, name.as_slice())?))
        }
        [_] => Err(KindFault::BadParameter { place: 1 }),
        _ => Err(wrong_number(1, params)),
    }
}

#[tactic(auto, unfolding(crate::specs::Targets::target_of))]
fn host_target(
    alloc: Global,
    kind: HostKind,
    family: Family,
    params: &[Bytes],
) -> Result<Target, KindFault>
    ensures { Resolves (λ target. target) result (target_of (Kind.Host kind family) params.now) }
{
    let [host, port] = params else {
        return Err(wrong_number(2, params));
    };
    if !is_host(family, host.as_slice()) {
        return Err(KindFault::BadParameter { place: 1 });
    }
    let Some(port) = port_from(1, port.as_slice()) else {
        return Err(KindFault::BadParameter { place: 2 });
    };
    let host = Text::of(alloc, host.as_slice())?;
    Ok(match kind {
        HostKind::Tcp => Target::Tcp { family, host, port },
        HostKind::Udp => Target::Udp { family, host, port },
        HostKind::UdpSendto => Target::UdpSendto { family, host, port },
    })
}

#[tactic(auto, unfolding(crate::specs::Targets::target_of))]
fn port_target(kind: PortKind, family: Family, params: &[Bytes]) -> Result<Target, KindFault>
    ensures { result ≡ target_of (Kind.Port kind family) params.now }
{
    let [port] = params else {
        return Err(wrong_number(1, params));
    };
    let Some(port) = port_from(kind.least_port(), port.as_slice()) else {
        return Err(KindFault::BadParameter { place: 1 });
    };
    Ok(match kind {
        PortKind::TcpListen => Target::TcpListen { family, port },
        PortKind::UdpListen => Target::UdpListen { family, port },
        PortKind::UdpRecvfrom => Target::UdpRecvfrom { family, port },
        PortKind::UdpRecv => Target::UdpRecv { family, port },
    })
}

#[tactic(auto, unfolding(crate::specs::Targets::target_of))]
fn program_target(alloc: Global, params: &[Bytes]) -> Result<Target, KindFault>
    ensures { Resolves (λ target. target) result (target_of Kind.Exec params.now) }
{
    let [line] = params else {
        return Err(wrong_number(1, params));
    };
    if !is_command_line(line.as_slice()) {
        return Err(KindFault::BadParameter { place: 1 });
    }
    Ok(Target::Exec(command_words(alloc, line.as_slice())?))
}

#[tactic(auto, unfolding(crate::specs::Targets::target_of))]
fn command_target(alloc: Global, params: &[Bytes]) -> Result<Target, KindFault>
    ensures { Resolves (λ target. target) result (target_of Kind.System params.now) }
{
    let [command] = params else {
        return Err(wrong_number(1, params));
    };
    if !is_name(command.as_slice()) {
        return Err(KindFault::BadParameter { place: 1 });
    }
    Ok(Target::System(Text::of(alloc, command.as_slice())?))
}

#[tactic(auto, unfolding(crate::specs::Targets::target_of))]
fn socks_target(alloc: Global, named: bool, params: &[Bytes]) -> Result<Target, KindFault>
    ensures { Resolves (λ target. target) result (target_of (Kind.Socks named) params.now) }
{
    let [server, host, port] = params else {
        return Err(wrong_number(3, params));
    };
    if !is_host(Family::Any, server.as_slice()) {
        return Err(KindFault::BadParameter { place: 1 });
    }
    if !is_socks_host(named, host.as_slice()) {
        return Err(KindFault::BadParameter { place: 2 });
    }
    let Some(port) = port_from(1, port.as_slice()) else {
        return Err(KindFault::BadParameter { place: 3 });
    };
    let server = Text::of(alloc, server.as_slice())?;
    let host = Text::of(alloc, host.as_slice())?;
    Ok(Target::Socks {
        named,
        server,
        host,
        port,
    })
}

#[tactic(auto, unfolding(crate::specs::Targets::target_of))]
fn proxy_target(alloc: Global, params: &[Bytes]) -> Result<Target, KindFault>
    ensures { Resolves (λ target. target) result (target_of Kind.Proxy params.now) }
{
    let [server, host, port] = params else {
        return Err(wrong_number(3, params));
    };
    if !is_host(Family::Any, server.as_slice()) {
        return Err(KindFault::BadParameter { place: 1 });
    }
    if !is_requested_host(host.as_slice()) {
        return Err(KindFault::BadParameter { place: 2 });
    }
    let Some(port) = port_from(1, port.as_slice()) else {
        return Err(KindFault::BadParameter { place: 3 });
    };
    let server = Text::of(alloc, server.as_slice())?;
    let host = Text::of(alloc, host.as_slice())?;
    Ok(Target::Proxy { server, host, port })
}

/// The target of a kind with these parameters. Their number is looked at first, and then each in turn.
pub(crate) fn target_of(alloc: Global, kind: Kind, params: &[Bytes]) -> Result<Target, KindFault>
    ensures { Resolves (λ target. target) result (target_of kind params.now) }
{
    match kind {
        Kind::Stream(stream) => stream_target(stream, params),
        Kind::File(file) => file_target(alloc, file, params),
        Kind::Pipe => pipe_target(alloc, params),
        Kind::Host(connects, family) => host_target(alloc, connects, family, params),
        Kind::Port(waits, family) => port_target(waits, family, params),
        Kind::Exec => program_target(alloc, params),
        Kind::System => command_target(alloc, params),
        Kind::Socks { named } => socks_target(alloc, named, params),
        Kind::Proxy => proxy_target(alloc, params),
    }
}
