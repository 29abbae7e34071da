// Sockets to a host whose address is known.
ghost use Rattle.std.specs.Prelude.{◌≡◌, true, Some, IfSome};
ghost use Rattle.std.specs.Net.Socket.{socket_ip};
ghost use Rattle.port_trait.specs.{IsAtOnce};
ghost use Rattle.socket_kinds.specs.{Connected, Packets};
ghost use Rattle.host_lookup.specs.{IsOfFamily, WritesIp};
ghost use Rattle.socket_maker.specs.Addresses.{IsLocalAddress};
ghost use Rattle.socket_maker.specs.Aims.{IsReached, IsWrittenOut, way_sort};
ghost use Rattle.socket_maker.specs.Makings.{socket_sort};

use crate::aims::{Aim, SocketWay};
use crate::local::local_address;
use crate::making::{bind_udp, datagrams};
use mio::Registry;
use mio::net::TcpStream;
use port_trait::{Making, Settled};
use relay_model::{Family, Text};
use socket_kinds::{AnySocket, DatagramSocket, Socket, SocketStream, StreamSocket};
use std::alloc::Global;
use std::net::{IpAddr, Net, SocketAddr, UdpSocket};
use std::sync::Arc;

/// Opens the socket of the aim to this address, whose registry reports it under `key`. A TCP connection that doesn't
/// stand yet is `Later`. It answers `Failed` where the system refuses.
pub(crate) fn reach<R: Net>(
    rt: &R,
    alloc: Global,
    registry: &Arc<Registry, Global>,
    key: usize,
    aim: &Aim,
    addr: SocketAddr,
) -> Making<AnySocket>
    requires { IsReached aim.now addr }
    ensures { IfSome (socket_sort result) (λ sort. sort ≡ way_sort aim.now.way) }
{
    match aim.way {
        SocketWay::Connection => connect_tcp(rt, registry, key, aim, addr),
        SocketWay::Partner => connect_udp(rt, alloc, registry, key, aim, addr),
        SocketWay::Sending => send_udp(rt, alloc, registry, key, aim, addr),
    }
}

/// The same for an address that the text of the host writes in numbers.
pub(crate) fn reach_written<R: Net>(
    rt: &R,
    alloc: Global,
    registry: &Arc<Registry, Global>,
    key: usize,
    host: &Text,
    aim: &Aim,
    addr: SocketAddr,
) -> Making<AnySocket>
    requires { IsWrittenOut host.now aim.now addr }
    ensures { IfSome (socket_sort result) (λ sort. sort ≡ way_sort aim.now.way) }
{
    let _written_by = host;
    reach(rt, alloc, registry, key, aim, addr)
}

/// The address of the host that the text writes, where it is of the aim's family.
pub(crate) fn written_address(host: &Text, ip: IpAddr, aim: &Aim) -> Option<SocketAddr>
    requires { WritesIp host.now ip }
    ensures { IfSome result (IsWrittenOut host.now aim.now) }
{
    let _written_by = host;
    let addr = SocketAddr::new(ip, aim.port);
    if is_of_family(aim.family, addr) {
        return Some(addr);
    }
    None
}

fn is_of_family(family: Family, addr: SocketAddr) -> bool
    ensures { result ≡ true → IsOfFamily family addr }
{
    match family {
        Family::V4 => addr.is_ipv4(),
        Family::V6 => addr.is_ipv6(),
        Family::Any => true,
    }
}

/// Begins to connect, and asks at once whether the connection stands.
fn connect_tcp<R: Net>(
    rt: &R,
    registry: &Registry,
    key: usize,
    aim: &Aim,
    addr: SocketAddr,
) -> Making<AnySocket>
    requires { IsReached aim.now addr }
    ensures { IfSome (socket_sort result) (λ sort. sort ≡ Connected) }
{
    let Ok(stream) = TcpStream::connect(rt, addr) else {
        return Making::Failed;
    };
    let mut stream = SocketStream::Tcp(stream);
    if aim.options.nodelay {
        stream.dont_delay();
    }
    if !stream.enroll(registry, key) {
        return Making::Failed;
    }
    let mut socket = StreamSocket::new_connecting(stream);
    match socket.settle() {
        Settled::Ready => Making::Made(AnySocket::Stream(socket)),
        Settled::NotYet => Making::Later(AnySocket::Stream(socket)),
        Settled::Failed => Making::Failed,
    }
}

fn connect_udp<R: Net>(
    rt: &R,
    alloc: Global,
    registry: &Arc<Registry, Global>,
    key: usize,
    aim: &Aim,
    remote: SocketAddr,
) -> Making<AnySocket>
    requires { IsReached aim.now remote }
    ensures sort { IfSome (socket_sort result) (λ sort. sort ≡ Packets) }
    ensures at_once { IsAtOnce result }
{
    let Some(socket) = bind_to(rt, aim, remote) else {
        return Making::Failed;
    };
    if socket.connect(remote).is_err() {
        return Making::Failed;
    }
    datagrams(DatagramSocket::new(alloc, registry, socket, key))
}

/// A socket that sends to this address, and drops what others send (socat(1), `UDP-SENDTO`).
fn send_udp<R: Net>(
    rt: &R,
    alloc: Global,
    registry: &Arc<Registry, Global>,
    key: usize,
    aim: &Aim,
    remote: SocketAddr,
) -> Making<AnySocket>
    requires { IsReached aim.now remote }
    ensures sort { IfSome (socket_sort result) (λ sort. sort ≡ Packets) }
    ensures at_once { IsAtOnce result }
{
    match bind_to(rt, aim, remote) {
        Some(socket) => datagrams(DatagramSocket::to(alloc, registry, socket, key, remote)),
        None => Making::Failed,
    }
}

/// A socket of datagrams to this address, which is bound as the aim says.
fn bind_to<R: Net>(rt: &R, aim: &Aim, remote: SocketAddr) -> Option<UdpSocket> {
    let local = local_address(aim.options.bind, remote)?;
    bind_local(rt, aim, remote, local)
}

fn bind_local<R: Net>(rt: &R, aim: &Aim, remote: SocketAddr, local: SocketAddr) -> Option<UdpSocket>
    requires { IsLocalAddress aim.now.options.bind remote (Some local) }
{
    let _bound_for = aim;
    let _bound_to_reach = remote;
    bind_udp(rt, local)
}
