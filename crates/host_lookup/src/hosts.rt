// What the text of a host writes, and which of a host's addresses is taken.
ghost use Rattle.std.specs.Prelude.{◌≡◌, true, IfSome, option_map};
ghost use Rattle.std.specs.List.{find};
ghost use Rattle.std.specs.Net.Socket.{socket_ip, socket_port};
ghost use Rattle.std.specs.declared.net.socket_addr.SocketAddr.TheVariants as sockets;
ghost use Rattle.host_lookup.specs.Found.{IsAtPort, IsOfFamily, chosen, has_ipv4, has_ipv6};
ghost use Rattle.host_lookup.specs.Hosts.{IsBare, IsWritten};

use relay_model::{Family, Text};
use std::net::{IpAddr, SocketAddr, SocketAddrV4, SocketAddrV6};
use std::str;

/// What the text of a host is: an address in numbers, a name, or no text.
#[derive(Drop)]
pub enum WrittenHost<'a> {
    Address(IpAddr),
    Name(&'a str),
    Unnamed,
}

/// What the text is. An IPv6 address may stand in brackets (RFC 3986, `IP-literal`).
pub fn written_host(host: &Text) -> WrittenHost<'_>
    ensures { IsWritten host.now result }
{
    let Ok(text) = str::from_utf8(host.as_slice()) else {
        return WrittenHost::Unnamed;
    };
    let name = without_brackets(text);
    match name.parse::<IpAddr>() {
        Ok(ip) => WrittenHost::Address(ip),
        Err(_) => WrittenHost::Name(name),
    }
}

fn without_brackets(text: &str) -> &str
    ensures { IsBare text.now result.now }
{
    match text.strip_prefix('[') {
        None => text,
        Some(inner) => match inner.strip_suffix(']') {
            None => text,
            Some(bare) => bare,
        },
    }
}

/// The first addresses of a host.
#[derive(Clone, Copy)]
pub struct HostAddresses {
    pub ipv4: Option<SocketAddrV4>,
    pub ipv6: Option<SocketAddrV6>,
}

impl HostAddresses {
    /// The first of each family among these.
    pub fn among(addrs: &[SocketAddr]) -> HostAddresses
        ensures ipv4 { option_map (λ addr. sockets.V4 addr) result.ipv4 ≡ find has_ipv4 addrs.now }
        ensures ipv6 { option_map (λ addr. sockets.V6 addr) result.ipv6 ≡ find has_ipv6 addrs.now }
    {
        HostAddresses {
            ipv4: first_ipv4(addrs),
            ipv6: first_ipv6(addrs),
        }
    }

    /// The one that an address of the family connects to, at this port: where it has no family the IPv4 one, and the
    /// IPv6 one where there is no IPv4. `None` where there is no such address.
    pub fn at(&self, family: Family, port: u16) -> Option<SocketAddr>
        ensures found { IsAtPort port
            (chosen family (option_map (λ addr. sockets.V4 addr) self.now.ipv4)
            (option_map (λ addr. sockets.V6 addr) self.now.ipv6)) result }
        ensures port { IfSome result (λ addr. socket_port addr ≡ port) }
        ensures family { IfSome result (IsOfFamily family) }
    {
        match family {
            Family::V4 => self.ipv4_at(port),
            Family::V6 => self.ipv6_at(port),
            Family::Any => match self.ipv4_at(port) {
                Some(addr) => Some(addr),
                None => self.ipv6_at(port),
            },
        }
    }

    /// No contract of the resolver says at which port the addresses are that it finds.
    fn ipv4_at(&self, port: u16) -> Option<SocketAddr>
        ensures found { IsAtPort port (option_map (λ addr. sockets.V4 addr) self.now.ipv4) result }
        ensures kind { IfSome result (λ addr. has_ipv4 addr ≡ true) }
    {
        let mut addr = self.ipv4?;
        addr.set_port(port);
        Some(SocketAddr::V4(addr))
    }

    fn ipv6_at(&self, port: u16) -> Option<SocketAddr>
        ensures found { IsAtPort port (option_map (λ addr. sockets.V6 addr) self.now.ipv6) result }
        ensures kind { IfSome result (λ addr. has_ipv6 addr ≡ true) }
    {
        let mut addr = self.ipv6?;
        addr.set_port(port);
        Some(SocketAddr::V6(addr))
    }
}

fn first_ipv4(addrs: &[SocketAddr]) -> Option<SocketAddrV4>
    ensures { option_map (λ addr. sockets.V4 addr) result ≡ find has_ipv4 addrs.now }
{
    for addr in addrs {
        if let SocketAddr::V4(addr) = addr {
            return Some(*addr);
        }
    }
    None
}

fn first_ipv6(addrs: &[SocketAddr]) -> Option<SocketAddrV6>
    ensures { option_map (λ addr. sockets.V6 addr) result ≡ find has_ipv6 addrs.now }
{
    for addr in addrs {
        if let SocketAddr::V6(addr) = addr {
            return Some(*addr);
        }
    }
    None
}
