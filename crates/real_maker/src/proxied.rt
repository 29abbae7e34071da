// Connections through a proxy.
ghost use Rattle.std.specs.Prelude.{◌≡◌, ℕ, Bool, List, false, true};
ghost use Rattle.relay_model.specs.{Target};
ghost use Rattle.socket_kinds.specs.{OnPort};
ghost use Rattle.real_maker.specs.Asking.{IsWrittenRequest, AsksAt, AsksSocks, AsksProxy};
ghost use Rattle.real_maker.specs.Wanting.{IsWantedOf};
ghost use Rattle.host_lookup.specs.{IsNameOf, WritesIp};
ghost use Rattle.std.specs.declared.net.ip_addr.IpAddr.TheVariants as ips;
ghost use Rattle.real_maker.specs.Kinds.{IsOpenedFor, is_proxy, is_socks};

use crate::opening::OfSocket;
use crate::ports::RealPort;
use crate::socks::{AskedLater, MOST, SocksOpening, SocksStage, request_to};
use host_lookup::{HostLookup, WrittenHost, written_host};
use port_trait::Making;
use relay_model::{Options, Text};
use socket_maker::SocketMaker;
use std::alloc::Global;
use std::fs::Files;
use std::net::{IpAddr, Ipv4Addr, Net};
use std::thread::Threads;
use std::time::Clock;
use tunnel_port::{ConnectPort, Request, SocksPort, request4a};

/// The proxy's host, and the host and port that it is asked for.
#[derive(Clone, Copy)]
pub(crate) struct Through<'a> {
    pub server: &'a Text,
    pub host: &'a Text,
    pub port: u16,
}

/// Begins to connect to a host through a SOCKS server (socat(1), `SOCKS4` and `SOCKS4A`), which looks the host up where
/// that is `named`. Otherwise a host that is a name is looked up here, beside the loop.
pub(crate) fn through_socks<R>(
    alloc: Global,
    sockets: &mut SocketMaker<R>,
    key: usize,
    named: bool,
    through: Through<'_>,
    options: &Options,
) -> Making<RealPort>
where
    R: Net + Clock + Files + Threads + Copy + Drop,
    ensures kind { (target : Target) → is_socks target ≡ true → OnPort (IsOpenedFor target) result }
    ensures asks { OnPort (AsksSocks named through.entry.host.now through.entry.port options.now.proxy.socksuser) result }
{
    let Through { server, host, port } = through;
    let user = &options.proxy.socksuser;
    let wanted = match wanted_of(sockets, named, host, port, user) {
        Making::Made(wanted) => wanted,
        Making::Later(_) | Making::Failed => return Making::Failed,
        Making::Memory => return Making::Memory,
    };
    let inner = match sockets.connect(key, server, options.proxy.socksport, options.socket) {
        Making::Made(inner) => inner,
        Making::Later(inner) => inner,
        Making::Failed => return Making::Failed,
        Making::Memory => return Making::Memory,
    };
    match Box::new(alloc, SocksOpening::new(stage_of(inner, wanted))) {
        Ok(port) => Making::Later(RealPort::Socks(port)),
        Err(_) => Making::Memory,
    }
}

/// What a server is to be asked for.
#[derive(Drop)]
enum Wanted {
    Now(Request),
    Once(HostLookup, u16, Text),
}

/// The request to the server, or what it will be made of. It answers `Failed` where a text is too long, where the host
/// can't be found, and where no lookup can be begun.
fn wanted_of<R>(
    sockets: &mut SocketMaker<R>,
    named: bool,
    host: &Text,
    port: u16,
    user: &Text,
) -> Making<Wanted>
where
    R: Net + Clock + Files + Threads + Copy + Drop,
    ensures { OnPort (IsWantedOf named host.now port user.now) result }
{
    if user.len() > MOST || host.len() > MOST {
        return Making::Failed;
    }
    if named {
        return Making::Made(Wanted::Now(request4a(host.as_slice(), port, user.as_slice())));
    }
    match written_host(host) {
        WrittenHost::Address(IpAddr::V4(ip)) => wanted_now(host, ip, port, user),
        WrittenHost::Address(IpAddr::V6(_)) | WrittenHost::Unnamed => Making::Failed,
        WrittenHost::Name(name) => wanted_once(sockets, host, name, port, user),
    }
}

/// The request for the address that the text of the host writes.
fn wanted_now(host: &Text, ip: Ipv4Addr, port: u16, user: &Text) -> Making<Wanted>
    requires { WritesIp host.now (ips.V4 ip) }
    ensures { OnPort (IsWantedOf false host.now port user.now) result }
{
    let _written_by = host;
    match request_to(ip.octets(), port, user.as_slice()) {
        Some(request) => Making::Made(Wanted::Now(request)),
        None => Making::Failed,
    }
}

/// The lookup of the name that the text of the host is.
fn wanted_once<R>(
    sockets: &mut SocketMaker<R>,
    host: &Text,
    name: &str,
    port: u16,
    user: &Text,
) -> Making<Wanted>
where
    R: Net + Clock + Files + Threads + Copy + Drop,
    requires { IsNameOf host.now name.now }
    ensures { OnPort (IsWantedOf false host.now port user.now) result }
{
    let _named_by = host;
    let Ok(user) = user.copy() else {
        return Making::Memory;
    };
    match sockets.begin_lookup(name) {
        Making::Made(lookup) => Making::Made(Wanted::Once(lookup, port, user)),
        Making::Later(_) | Making::Failed => Making::Failed,
        Making::Memory => Making::Memory,
    }
}

fn stage_of(inner: OfSocket, wanted: Wanted) -> SocksStage
    ensures { (named : Bool) (host : List ℕ) (port : ℕ) (user : List ℕ) → IsWantedOf named host port user wanted
        → AsksAt named host port user result }
{
    match wanted {
        Wanted::Now(request) => SocksStage::Talking(SocksPort::new(inner, request)),
        Wanted::Once(lookup, port, user) => SocksStage::Asking(AskedLater {
            inner,
            lookup,
            port,
            user,
        }),
    }
}

/// Begins to connect to a host through an HTTP proxy (socat(1), `PROXY`).
pub(crate) fn through_proxy<R>(
    alloc: Global,
    sockets: &mut SocketMaker<R>,
    key: usize,
    through: Through<'_>,
    options: &Options,
) -> Making<RealPort>
where
    R: Net + Clock + Files + Threads + Copy + Drop,
    ensures kind { (target : Target) → is_proxy target ≡ true → OnPort (IsOpenedFor target) result }
    ensures asks { OnPort (AsksProxy through.entry.host.now through.entry.port) result }
{
    let Through { server, host, port } = through;
    let socket = match sockets.connect(key, server, options.proxy.proxyport, options.socket) {
        Making::Made(socket) => socket,
        Making::Later(socket) => socket,
        Making::Failed => return Making::Failed,
        Making::Memory => return Making::Memory,
    };
    match ConnectPort::new(alloc, socket, host.as_slice(), port) {
        Ok(port) => Making::Later(RealPort::Proxy(port)),
        Err(_) => Making::Memory,
    }
}
