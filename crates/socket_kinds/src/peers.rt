// Addresses of peers, as the system and as the relay have them.
ghost use Rattle.socket_kinds.specs.Peers.{IsPeer, IsAddress};

use relay_model::Peer;
use std::net::{IpAddr, Ipv4Addr, Ipv6Addr, SocketAddr};

/// The peer of this address.
pub fn peer_of(addr: SocketAddr) -> Peer
    ensures { IsPeer addr result }
{
    match addr {
        SocketAddr::V4(addr) => Peer::V4 {
            addr: addr.ip().octets(),
            port: addr.port(),
        },
        SocketAddr::V6(addr) => Peer::V6 {
            addr: addr.ip().octets(),
            port: addr.port(),
        },
    }
}

/// The address of this peer; none of a Unix socket.
pub fn address_of(peer: Peer) -> Option<SocketAddr>
    ensures { IsAddress peer result }
{
    match peer {
        Peer::V4 { addr, port } => {
            let addr = Ipv4Addr::from_octets(addr);
            Some(SocketAddr::new(IpAddr::V4(addr), port))
        }
        Peer::V6 { addr, port } => {
            let addr = Ipv6Addr::from_octets(addr);
            Some(SocketAddr::new(IpAddr::V6(addr), port))
        }
        Peer::Local => None,
    }
}
