// The kinds of addresses.
ghost use Rattle.std.specs.Prelude.{◌≡◌};
ghost use Rattle.addr_kinds.specs.Kinds.{includes};
ghost use Rattle.addr_kinds.specs.Targets.{wanted, least_port};
ghost use Rattle.addr_kinds.specs.Resolving.{binds_port, opens_by_name};

use crate::uses::Uses;
use option_table::Group;
use relay_model::Family;

/// A kind that stands for the program's own streams.
#[derive(Clone, Copy)]
pub(crate) enum StreamKind {
    Stdio,
    Stdin,
    Stdout,
    Stderr,
}

/// A kind that a file name follows.
#[derive(Clone, Copy)]
pub(crate) enum FileKind {
    Create,
    Open,
    Gopen,
    UnixConnect,
    UnixListen,
}

/// A kind that a host and a port follow.
#[derive(Clone, Copy)]
pub(crate) enum HostKind {
    Tcp,
    Udp,
    UdpSendto,
}

/// A kind that a local port follows.
#[derive(Clone, Copy)]
pub(crate) enum PortKind {
    TcpListen,
    UdpListen,
    UdpRecvfrom,
    UdpRecv,
}

/// A kind of address, by the parameters that follow its keyword. `Pipe` has a file name or none; with `named`
/// the server of `Socks` looks the host up.
#[derive(Clone, Copy)]
pub(crate) enum Kind {
    Stream(StreamKind),
    File(FileKind),
    Pipe,
    Host(HostKind, Family),
    Port(PortKind, Family),
    Exec,
    System,
    Socks { named: bool },
    Proxy,
}

/// What is known of a kind besides its keywords.
#[derive(Clone, Copy)]
pub(crate) struct KindRow {
    pub kind: Kind,
    pub uses: Uses,
    pub groups: &'static [Group],
}

impl KindRow {
    /// Whether the kind takes the options of the group.
    pub(crate) fn takes(self, group: Group) -> bool
        ensures { result ≡ includes self.groups.now group }
    {
        self.groups.iter().any(|one| *one == group)
    }
}

impl Kind {
    /// Whether a local address may have a port: only where the kind connects by UDP.
    pub(crate) fn binds_port(self) -> bool
        ensures { result ≡ binds_port self }
    {
        matches!(self, Kind::Host(HostKind::Udp | HostKind::UdpSendto, _))
    }

    /// Whether the kind opens a file by its name, so that `rdonly` and `wronly` narrow its use.
    pub(crate) fn opens_by_name(self) -> bool
        ensures { result ≡ opens_by_name self }
    {
        matches!(self, Kind::File(FileKind::Open | FileKind::Gopen))
    }
}

impl PortKind {
    /// The least port: a kind that waits for peers may leave the choice to the system.
    pub(crate) fn least_port(self) -> u16
        ensures { result ≡ least_port self }
    {
        match self {
            PortKind::TcpListen | PortKind::UdpListen | PortKind::UdpRecvfrom => 0,
            PortKind::UdpRecv => 1,
        }
    }
}
