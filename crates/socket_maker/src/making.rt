// Sockets of addresses without a host: doors, and those that wait for datagrams.
ghost use Rattle.std.specs.Prelude.{◌≡◌, ℕ, List, false, None, Some, IfSome};
ghost use Rattle.port_trait.specs.declared.makers.Making.TheVariants as makings;
ghost use Rattle.port_trait.specs.{IsAtOnce};
ghost use Rattle.socket_kinds.specs.{OnPort, Packets, Listening};
ghost use Rattle.socket_maker.specs.Addresses.{IsDoorAddress, waits_at};
ghost use Rattle.socket_maker.specs.Aims.{aim_of, way_sort};
ghost use Rattle.socket_maker.specs.Makings.{opened_sort, socket_sort};
ghost use Rattle.socket_maker.specs.Ports.{Aims, IsFreshPort, port_sort};
ghost use Rattle.socket_maker.specs.Unlinking.{UnlinksOf};
ghost use Rattle.socket_maker.specs.declared.aims.Aim.{Aim};
ghost use Rattle.relay_model.specs.{listens};

use crate::entries::{connect_unix, listen_unix};
use crate::local::door_address;
use crate::port::HostPort;
use crate::unlinking::EntryCalls;
use mio::net::TcpListener;
use mio::{Interest, Registry, Token};
use port_trait::Making;
use relay_model::{Single, Target};
use socket_kinds::{AnySocket, DatagramSocket, EnrolledUdp, Listener, SocketDoor};
use socket_ports::SocketPort;
use std::alloc::Global;
use std::fs::Files;
use std::net::{Net, SocketAddr, UdpSocket};
use std::sync::Arc;

/// Opens the socket of an address without a host that doesn't listen: a Unix socket by `UNIX-CONNECT` or `GOPEN`, and one
/// that takes datagrams (socat(1), `UDP-RECV`). The registry reports it under `key`. It answers `Failed` where the address
/// is of another kind, where a text isn't UTF-8, and where the system refuses; never `Later`.
pub(crate) fn open_socket<R, C>(
    rt: R,
    calls: &mut C,
    alloc: Global,
    registry: &Arc<Registry, Global>,
    key: usize,
    single: &Single,
) -> Making<HostPort>
where
    R: Net + Files + Copy + Drop,
    C: EntryCalls,
    requires { aim_of single.now.target single.now.options.socket ≡ None }
    ensures unlinked { UnlinksOf single.now result (C.unlinked calls.old) (C.unlinked calls.new) }
    ensures fresh { OnPort IsFreshPort result }
    ensures at_once { IsAtOnce result }
    ensures sort { IfSome (port_sort result) (λ sort. opened_sort single.now.target ≡ Some sort) }
    ensures other { opened_sort single.now.target ≡ None → result ≡ makings.Failed }
{
    match &single.target {
        Target::UdpRecv { .. } => match door_address(single) {
            Some(at) => nameless(receive_udp(&rt, alloc, registry, key, single, at)),
            None => Making::Failed,
        },
        Target::UnixConnect(name) | Target::GenericOpen(name) => {
            connect_unix(rt, calls, alloc, registry, key, name, single.options.entry)
        }
        _ => Making::Failed,
    }
}

/// Listens at an address: TCP, UDP or a Unix socket. The registry reports the door under `key`. It answers `Failed`
/// where the address is of another kind, where a text isn't UTF-8, where the system refuses, and at `UDP-LISTEN` with
/// `fork`, whose door and peers share a socket and are no ports of this crate's; never `Later`.
pub(crate) fn listen_socket<R, C>(
    rt: R,
    calls: &mut C,
    alloc: Global,
    registry: &Arc<Registry, Global>,
    key: usize,
    single: &Single,
) -> Making<HostPort>
where
    R: Net + Files + Copy + Drop,
    C: EntryCalls,
    ensures unlinked { UnlinksOf single.now result (C.unlinked calls.old) (C.unlinked calls.new) }
    ensures fresh { OnPort IsFreshPort result }
    ensures at_once { IsAtOnce result }
    ensures sort { IfSome (port_sort result) (λ sort. sort ≡ Listening) }
    ensures other { listens single.now.target ≡ false → result ≡ makings.Failed }
{
    match &single.target {
        Target::TcpListen { .. } => match door_address(single) {
            Some(at) => nameless(listen_tcp(&rt, registry, key, single, at)),
            None => Making::Failed,
        },
        Target::UdpListen { .. } if single.options.sessions.fork => Making::Failed,
        Target::UdpListen { .. } => match door_address(single) {
            Some(at) => nameless(listen_udp(&rt, registry, key, single, at, false)),
            None => Making::Failed,
        },
        Target::UdpRecvfrom { .. } => match door_address(single) {
            Some(at) => nameless(listen_udp(&rt, registry, key, single, at, true)),
            None => Making::Failed,
        },
        Target::UnixListen(name) => listen_unix(
            rt,
            calls,
            alloc,
            registry,
            key,
            name,
            single.options.entry,
        ),
        _ => Making::Failed,
    }
}

/// The port of a socket that has no entry in the file system.
pub(crate) fn nameless(making: Making<AnySocket>) -> Making<HostPort>
    ensures fresh { OnPort IsFreshPort result }
    ensures sort { port_sort result ≡ socket_sort making }
    ensures aims { (aim : Aim) (host : List ℕ) → IfSome (socket_sort making) (λ sort. sort ≡ way_sort aim.way)
        → OnPort (Aims aim host) result }
    ensures at_once { IsAtOnce making → IsAtOnce result }
{
    match making {
        Making::Made(socket) => Making::Made(HostPort::Socket(SocketPort::new(socket, None))),
        Making::Later(socket) => Making::Later(HostPort::Socket(SocketPort::new(socket, None))),
        Making::Failed => Making::Failed,
        Making::Memory => Making::Memory,
    }
}

/// A socket that takes what anyone sends to this address (socat(1), `UDP-RECV`).
fn receive_udp<R: Net>(
    rt: &R,
    alloc: Global,
    registry: &Arc<Registry, Global>,
    key: usize,
    single: &Single,
    at: SocketAddr,
) -> Making<AnySocket>
    requires { IsDoorAddress single.now.options.socket.bind (waits_at single.now.target) (Some at) }
    ensures sort { IfSome (socket_sort result) (λ sort. sort ≡ Packets) }
    ensures at_once { IsAtOnce result }
{
    match bind_door(rt, single, at) {
        Some(socket) => datagrams(DatagramSocket::of_all(alloc, registry, socket, key)),
        None => Making::Failed,
    }
}

pub(crate) fn datagrams(making: Making<DatagramSocket>) -> Making<AnySocket>
    ensures sort { IfSome (socket_sort result) (λ sort. sort ≡ Packets) }
    ensures at_once { IsAtOnce result }
{
    match making {
        Making::Made(socket) => Making::Made(AnySocket::Datagrams(socket)),
        Making::Later(_) | Making::Failed => Making::Failed,
        Making::Memory => Making::Memory,
    }
}

/// The socket of an address that waits for datagrams: it is bound where that waits.
pub fn bind_door<R: Net>(rt: &R, single: &Single, at: SocketAddr) -> Option<UdpSocket>
    requires { IsDoorAddress single.now.options.socket.bind (waits_at single.now.target) (Some at) }
{
    let _bound_for = single;
    bind_udp(rt, at)
}

/// A socket of datagrams whose calls don't wait. None where the system refuses.
pub(crate) fn bind_udp<R: Net>(rt: &R, local: SocketAddr) -> Option<UdpSocket> {
    let Ok(socket) = rt.bind_udp(local) else {
        return None;
    };
    if socket.set_nonblocking(true).is_err() {
        return None;
    }
    Some(socket)
}

/// Has `SO_REUSEADDR` (socat(1), `reuseaddr`), as each TCP listener here.
fn listen_tcp<R: Net>(
    rt: &R,
    registry: &Arc<Registry, Global>,
    key: usize,
    single: &Single,
    at: SocketAddr,
) -> Making<AnySocket>
    requires { IsDoorAddress single.now.options.socket.bind (waits_at single.now.target) (Some at) }
    ensures sort { IfSome (socket_sort result) (λ sort. sort ≡ Listening) }
    ensures at_once { IsAtOnce result }
{
    let Ok(mut listener) = TcpListener::bind(rt, at) else {
        return Making::Failed;
    };
    if registry
        .register(&mut listener, Token(key), Interest::READABLE)
        .is_err()
    {
        return Making::Failed;
    }
    let nodelay = single.options.socket.nodelay;
    Making::Made(AnySocket::Door(SocketDoor::new(Listener::Tcp(listener), nodelay)))
}

fn listen_udp<R: Net>(
    rt: &R,
    registry: &Arc<Registry, Global>,
    key: usize,
    single: &Single,
    at: SocketAddr,
    each_packet: bool,
) -> Making<AnySocket>
    requires { IsDoorAddress single.now.options.socket.bind (waits_at single.now.target) (Some at) }
    ensures sort { IfSome (socket_sort result) (λ sort. sort ≡ Listening) }
    ensures at_once { IsAtOnce result }
{
    let Some(socket) = bind_door(rt, single, at) else {
        return Making::Failed;
    };
    match EnrolledUdp::new(registry, socket, key, Interest::READABLE) {
        Making::Made(enrolled) => {
            let listener = if each_packet {
                Listener::Packets(enrolled)
            } else {
                Listener::Udp(enrolled)
            };
            Making::Made(AnySocket::Door(SocketDoor::new(listener, false)))
        }
        Making::Later(_) | Making::Failed => Making::Failed,
        Making::Memory => Making::Memory,
    }
}
