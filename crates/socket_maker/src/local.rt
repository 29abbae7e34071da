// The addresses to which sockets are bound.
ghost use Rattle.std.specs.Prelude.{◌≡◌};
ghost use Rattle.std.specs.Net.Socket.{socket_ip, socket_port};
ghost use Rattle.socket_maker.specs.Addresses.{IsUnspecified, IsBound, IsDoorAddress, IsLocalAddress, waits_at};

use relay_model::{Bind, Family, Single, Target};
use socket_kinds::address_of;
use std::net::{IpAddr, Ipv4Addr, Ipv6Addr, SocketAddr};

/// Every address of this machine, by IPv6 where the family is that and by IPv4 otherwise.
fn any_address(family: Family, port: u16) -> SocketAddr
    ensures port { socket_port result ≡ port }
    ensures every { IsUnspecified family (socket_ip result) }
{
    match family {
        Family::V6 => SocketAddr::new(IpAddr::V6(Ipv6Addr::UNSPECIFIED), port),
        Family::V4 | Family::Any => SocketAddr::new(IpAddr::V4(Ipv4Addr::UNSPECIFIED), port),
    }
}

/// Where an address waits for peers or datagrams: at its port of the `bind` address (socat(1), `bind`), or of every
/// address. `None` where it waits for none.
pub fn door_address(single: &Single) -> Option<SocketAddr>
    ensures { IsDoorAddress single.now.options.socket.bind (waits_at single.now.target) result }
{
    let bind = single.options.socket.bind;
    match &single.target {
        Target::TcpListen { family, port }
        | Target::UdpListen { family, port }
        | Target::UdpRecvfrom { family, port }
        | Target::UdpRecv { family, port } => bound_address(bind, *family, *port),
        _ => None,
    }
}

fn bound_address(bind: Option<Bind>, family: Family, port: u16) -> Option<SocketAddr>
    ensures { IsBound bind family port result }
{
    let Some(bind) = bind else {
        return Some(any_address(family, port));
    };
    let Some(mut addr) = address_of(bind.addr) else {
        return None;
    };
    addr.set_port(port);
    Some(addr)
}

/// What a socket of datagrams to `remote` is bound to: the `bind` address with its port, or any of the family.
pub(crate) fn local_address(bind: Option<Bind>, remote: SocketAddr) -> Option<SocketAddr>
    ensures { IsLocalAddress bind remote result }
{
    match bind {
        Some(bind) => address_of(bind.addr),
        None => {
            if remote.is_ipv6() {
                return Some(any_address(Family::V6, 0));
            }
            Some(any_address(Family::V4, 0))
        }
    }
}
