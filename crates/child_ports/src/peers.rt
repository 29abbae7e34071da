// The texts of a peer, as a child is told of it.
ghost use Rattle.std.specs.Prelude.{◌≡◌, ◌++◌, decimal, codes, string_bytes, option_map, IfOk};
ghost use Rattle.std.specs.Net.Addr.{segments_of};
ghost use Rattle.std.specs.Net.Text.{ipv4_text, ipv6_text};
ghost use Rattle.child_ports.specs.Commands.{peer_texts};

use relay_model::{NoMemory, Peer};
use std::alloc::Global;
use std::net::Ipv6Addr;

/// The address and the port of a peer that has them.
#[derive(Drop)]
pub struct PeerTexts {
    pub address: String,
    pub port: String,
}

impl PeerTexts {
    /// The texts of socat(1)'s variables SOCAT_PEERADDR and SOCAT_PEERPORT. A peer of a Unix socket has none.
    pub fn of(alloc: Global, peer: Peer) -> Result<Option<PeerTexts>, NoMemory>
        ensures { IfOk result
            (λ found. option_map (λ texts. (string_bytes texts.address, string_bytes texts.port)) found
            ≡ peer_texts peer) }
    {
        match peer {
            Peer::V4 { addr, port } => Ok(Some(PeerTexts {
                address: v4_text(alloc, addr)?,
                port: port_text(alloc, port)?,
            })),
            Peer::V6 { addr, port } => Ok(Some(PeerTexts {
                address: v6_text(alloc, addr)?,
                port: port_text(alloc, port)?,
            })),
            Peer::Local => Ok(None),
        }
    }
}

fn port_text(alloc: Global, port: u16) -> Result<String, NoMemory>
    ensures { IfOk result (λ text. string_bytes text ≡ decimal port) }
{
    Ok(format!(in alloc; "{port}")?)
}

fn v4_text(alloc: Global, addr: [u8; 4]) -> Result<String, NoMemory>
    ensures { IfOk result (λ text. string_bytes text ≡ ipv4_text addr) }
{
    let [a, b, c, d] = addr;
    Ok(format!(in alloc; "{a}.{b}.{c}.{d}")?)
}

/// The text of RFC 5952 in brackets.
fn v6_text(alloc: Global, addr: [u8; 16]) -> Result<String, NoMemory>
    ensures { IfOk result (λ text. string_bytes text ≡ codes "[" ++ ipv6_text (segments_of addr) ++ codes "]") }
{
    let addr = Ipv6Addr::from(addr);
    Ok(format!(in alloc; "[{addr}]")?)
}
