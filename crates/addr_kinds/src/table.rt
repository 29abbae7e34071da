// The kinds that the relay offers, one row a kind, and those of socat(1) that it leaves out.
ghost use Rattle.std.specs.Prelude.{◌≡◌, map, option_map};
ghost use Rattle.std.specs.Result.{result_map_both};
ghost use Rattle.option_table.specs.{is_listed};
ghost use Rattle.addr_kinds.specs.Kinds.{row_of, as_named, known_of, is_left_out};
ghost use Rattle.addr_kinds.specs.Resolving.{kind_of};

use crate::faults::KindFault;
use crate::kinds::{FileKind, HostKind, Kind, KindRow, PortKind, StreamKind};
use crate::uses::Uses;
use option_table::{Group, same_name};
use relay_model::Family;

/// One kind a line: its keywords, the rule of what follows them, its uses and its groups of options.
macro_rules! kinds {
    ($([$($keyword:literal)+] $kind:expr, $uses:ident, [$($group:ident)+];)*) => {
        [$((
            &[$($keyword),+],
            KindRow { kind: $kind, uses: Uses::$uses, groups: &[$(Group::$group),+] },
        )),*]
    };
}

type KeywordRow = (&'static [&'static [u8]], KindRow);

const KINDS: [KeywordRow; 36] = kinds! {
    [b"STDIO"] Kind::Stream(StreamKind::Stdio), Any, [Relay];
    [b"STDIN"] Kind::Stream(StreamKind::Stdin), AllButWriting, [Relay];
    [b"STDOUT"] Kind::Stream(StreamKind::Stdout), AllButReading, [Relay];
    [b"STDERR"] Kind::Stream(StreamKind::Stderr), AllButReading, [Relay];
    [b"CREATE"] Kind::File(FileKind::Create), OnlyWriting, [Relay Named];
    [b"OPEN"] Kind::File(FileKind::Open), Any, [Relay Named File];
    [b"GOPEN"] Kind::File(FileKind::Gopen), Any, [Relay Named File];
    [b"PIPE"] Kind::Pipe, Any, [Relay Named];
    [b"TCP" b"TCP-CONNECT"] Kind::Host(HostKind::Tcp, Family::Any), Any, [Relay Socket Tcp Retry];
    [b"TCP4" b"TCP4-CONNECT"] Kind::Host(HostKind::Tcp, Family::V4), Any, [Relay Socket Tcp Retry];
    [b"TCP6" b"TCP6-CONNECT"] Kind::Host(HostKind::Tcp, Family::V6), Any, [Relay Socket Tcp Retry];
    [b"TCP-LISTEN" b"TCP-L"] Kind::Port(PortKind::TcpListen, Family::Any), Any, [Relay Socket Tcp Retry Bind Listen Range];
    [b"TCP4-LISTEN" b"TCP4-L"] Kind::Port(PortKind::TcpListen, Family::V4), Any, [Relay Socket Tcp Retry Bind Listen Range];
    [b"TCP6-LISTEN" b"TCP6-L"] Kind::Port(PortKind::TcpListen, Family::V6), Any, [Relay Socket Tcp Retry Bind Listen Range];
    [b"UDP"] Kind::Host(HostKind::Udp, Family::Any), Any, [Relay Socket Bind];
    [b"UDP4"] Kind::Host(HostKind::Udp, Family::V4), Any, [Relay Socket Bind];
    [b"UDP6"] Kind::Host(HostKind::Udp, Family::V6), Any, [Relay Socket Bind];
    [b"UDP-LISTEN" b"UDP-L"] Kind::Port(PortKind::UdpListen, Family::Any), Any, [Relay Socket Retry Bind Listen Range];
    [b"UDP4-LISTEN" b"UDP4-L"] Kind::Port(PortKind::UdpListen, Family::V4), Any, [Relay Socket Retry Bind Listen Range];
    [b"UDP6-LISTEN" b"UDP6-L"] Kind::Port(PortKind::UdpListen, Family::V6), Any, [Relay Socket Retry Bind Listen Range];
    [b"UDP-RECVFROM"] Kind::Port(PortKind::UdpRecvfrom, Family::Any), Any, [Relay Socket Retry Bind Listen Range];
    [b"UDP4-RECVFROM"] Kind::Port(PortKind::UdpRecvfrom, Family::V4), Any, [Relay Socket Retry Bind Listen Range];
    [b"UDP6-RECVFROM"] Kind::Port(PortKind::UdpRecvfrom, Family::V6), Any, [Relay Socket Retry Bind Listen Range];
    [b"UDP-RECV"] Kind::Port(PortKind::UdpRecv, Family::Any), OnlyReading, [Relay Socket Bind];
    [b"UDP4-RECV"] Kind::Port(PortKind::UdpRecv, Family::V4), OnlyReading, [Relay Socket Bind];
    [b"UDP6-RECV"] Kind::Port(PortKind::UdpRecv, Family::V6), OnlyReading, [Relay Socket Bind];
    [b"UDP-SENDTO"] Kind::Host(HostKind::UdpSendto, Family::Any), Any, [Relay Socket Bind];
    [b"UDP4-SENDTO"] Kind::Host(HostKind::UdpSendto, Family::V4), Any, [Relay Socket Bind];
    [b"UDP6-SENDTO"] Kind::Host(HostKind::UdpSendto, Family::V6), Any, [Relay Socket Bind];
    [b"UNIX-CONNECT"] Kind::File(FileKind::UnixConnect), Any, [Relay Socket Named Retry];
    [b"UNIX-LISTEN" b"UNIX-L"] Kind::File(FileKind::UnixListen), Any, [Relay Socket Named Retry Listen];
    [b"EXEC"] Kind::Exec, Any, [Relay Child];
    [b"SYSTEM"] Kind::System, Any, [Relay Child];
    [b"SOCKS4"] Kind::Socks { named: false }, Any, [Relay Socket Tcp Retry Socks];
    [b"SOCKS4A"] Kind::Socks { named: true }, Any, [Relay Socket Tcp Retry Socks];
    [b"PROXY"] Kind::Proxy, Any, [Relay Socket Tcp Retry Proxy];
};

const LEFT_OUT: [&[u8]; 35] = [
    b"PTY",
    b"READLINE",
    b"OPENSSL",
    b"OPENSSL-CONNECT",
    b"OPENSSL-LISTEN",
    b"SSL",
    b"TUN",
    b"INTERFACE",
    b"FD",
    b"IP-SENDTO",
    b"IP-DATAGRAM",
    b"IP-RECVFROM",
    b"IP-RECV",
    b"SCTP",
    b"SCTP-CONNECT",
    b"SCTP-LISTEN",
    b"VSOCK-CONNECT",
    b"VSOCK-LISTEN",
    b"UNIX-SENDTO",
    b"UNIX-RECVFROM",
    b"UNIX-RECV",
    b"UNIX-CLIENT",
    b"ABSTRACT-CONNECT",
    b"ABSTRACT-LISTEN",
    b"ABSTRACT-SENDTO",
    b"ABSTRACT-RECVFROM",
    b"ABSTRACT-RECV",
    b"ABSTRACT-CLIENT",
    b"UDP-DATAGRAM",
    b"SOCKET-CONNECT",
    b"SOCKET-LISTEN",
    b"SOCKET-SENDTO",
    b"SOCKET-DATAGRAM",
    b"SOCKET-RECVFROM",
    b"SOCKET-RECV",
];

fn is_among(mut known: &[&[u8]], keyword: &[u8]) -> bool
    ensures { result ≡ is_listed (map (λ one. one.now) known.entry.now) keyword.now }
{
    while let [first, rest @ ..] = known {
        if same_name(first, keyword) {
            return true;
        }
        known = rest;
    }
    false
}

#[tactic(auto, unfolding(crate::specs::Kinds::row_of))]
fn find_kind(mut table: &[KeywordRow], keyword: &[u8]) -> Option<KindRow>
    ensures { option_map known_of result ≡ row_of (map as_named table.entry.now) keyword.now }
{
    while let [row, rest @ ..] = table {
        if is_among(row.0, keyword) {
            return Some(row.1);
        }
        table = rest;
    }
    None
}

#[tactic(auto, unfolding(crate::specs::Kinds::is_left_out, crate::specs::Kinds::left_out_kinds))]
fn is_left_out(keyword: &[u8]) -> bool
    ensures { result ≡ is_left_out keyword.now }
{
    match keyword {
        [b'0'..=b'9', ..] => true,
        _ => is_among(&LEFT_OUT, keyword),
    }
}

/// The kind that a keyword names, in any ASCII case. A number in place of a keyword is a file descriptor in
/// socat(1), and is left out.
#[tactic(auto, unfolding(crate::specs::Resolving::kind_of, crate::specs::Kinds::known_kinds))]
pub(crate) fn kind_of(keyword: &[u8]) -> Result<KindRow, KindFault>
    ensures { result_map_both known_of (λ fault. fault) result ≡ kind_of keyword.now }
{
    match find_kind(&KINDS, keyword) {
        Some(row) => Ok(row),
        None if is_left_out(keyword) => Err(KindFault::LeftOutKind),
        None => Err(KindFault::UnknownKind),
    }
}
