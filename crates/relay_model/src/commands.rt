// What a command line asks for: two addresses, their kinds and options, and how to relay between them.
ghost use Rattle.std.specs.Prelude.{◌≡◌, IfOk};
ghost use Rattle.relay_model.specs.Configs.{listens};
ghost use Rattle.relay_model.specs.Conversions.{packet_cap};

use crate::acts::{Peer, Shut};
use crate::contents::{NoMemory, Text, Texts};

/// The most bytes that a UDP datagram carries over IPv4 (RFC 768, RFC 791).
pub const LONGEST_PACKET: u16 = 65_507;

/// A conversion of line ends (socat(1), `cr` and `crnl`).
#[derive(Clone, Copy, PartialEq, Eq)]
pub enum Conv {
    Plain,
    Cr,
    Crnl,
}

impl Conv {
    /// The longest piece that is read for one packet, in bytes: written with this conversion, it still fits a packet.
    pub fn packet_cap(self) -> u16
        ensures { result ≡ packet_cap self }
    {
        match self {
            Conv::Plain | Conv::Cr => LONGEST_PACKET,
            Conv::Crnl => LONGEST_PACKET / 2,
        }
    }
}

/// A style of dump (socat(1), `-v` and `-x`; `Mixed` is both).
#[derive(Clone, Copy, PartialEq, Eq)]
pub enum Dump {
    Off,
    Text,
    Hex,
    Mixed,
}

/// Which directions are asked for: both, only left to right (`-u`), or only right to left (`-U`).
#[derive(Clone, Copy, PartialEq, Eq)]
pub enum Ways {
    Two,
    OnlyRight,
    OnlyLeft,
}

/// The family of addresses that a socket kind names.
#[derive(Clone, Copy, PartialEq, Eq)]
pub enum Family {
    Any,
    V4,
    V6,
}

/// The kind of an address with its parameters. The words of `Exec` are a program and its arguments.
#[derive(Drop)]
pub enum Target {
    Stdio,
    Stdin,
    Stdout,
    Stderr,
    Create(Text),
    FileAt(Text),
    GenericOpen(Text),
    Echo,
    NamedPipe(Text),
    Tcp {
        family: Family,
        host: Text,
        port: u16,
    },
    TcpListen {
        family: Family,
        port: u16,
    },
    Udp {
        family: Family,
        host: Text,
        port: u16,
    },
    UdpListen {
        family: Family,
        port: u16,
    },
    UdpRecvfrom {
        family: Family,
        port: u16,
    },
    UdpRecv {
        family: Family,
        port: u16,
    },
    UdpSendto {
        family: Family,
        host: Text,
        port: u16,
    },
    UnixConnect(Text),
    UnixListen(Text),
    Exec(Texts),
    System(Text),
    Socks {
        named: bool,
        server: Text,
        host: Text,
        port: u16,
    },
    Proxy {
        server: Text,
        host: Text,
        port: u16,
    },
}

impl Target {
    /// Whether the kind waits for a peer at a door.
    pub fn listens(&self) -> bool
        ensures { result ≡ listens self.now }
    {
        matches!(
            self,
            Target::TcpListen { .. }
                | Target::UdpListen { .. }
                | Target::UdpRecvfrom { .. }
                | Target::UnixListen(_)
        )
    }

    /// A copy.
    pub fn copy(&self) -> Result<Target, NoMemory>
        ensures { IfOk result (λ target. target ≡ self.now) }
    {
        match self {
            Target::Stdio => Ok(Target::Stdio),
            Target::Stdin => Ok(Target::Stdin),
            Target::Stdout => Ok(Target::Stdout),
            Target::Stderr => Ok(Target::Stderr),
            Target::Create(name) => Ok(Target::Create(name.copy()?)),
            Target::FileAt(name) => Ok(Target::FileAt(name.copy()?)),
            Target::GenericOpen(name) => Ok(Target::GenericOpen(name.copy()?)),
            Target::Echo => Ok(Target::Echo),
            Target::NamedPipe(name) => Ok(Target::NamedPipe(name.copy()?)),
            Target::Tcp { family, host, port } => Ok(Target::Tcp {
                family: *family,
                host: host.copy()?,
                port: *port,
            }),
            Target::TcpListen { family, port } => Ok(Target::TcpListen {
                family: *family,
                port: *port,
            }),
            Target::Udp { family, host, port } => Ok(Target::Udp {
                family: *family,
                host: host.copy()?,
                port: *port,
            }),
            Target::UdpListen { family, port } => Ok(Target::UdpListen {
                family: *family,
                port: *port,
            }),
            Target::UdpRecvfrom { family, port } => Ok(Target::UdpRecvfrom {
                family: *family,
                port: *port,
            }),
            Target::UdpRecv { family, port } => Ok(Target::UdpRecv {
                family: *family,
                port: *port,
            }),
            Target::UdpSendto { family, host, port } => Ok(Target::UdpSendto {
                family: *family,
                host: host.copy()?,
                port: *port,
            }),
            Target::UnixConnect(name) => Ok(Target::UnixConnect(name.copy()?)),
            Target::UnixListen(name) => Ok(Target::UnixListen(name.copy()?)),
            Target::Exec(words) => Ok(Target::Exec(words.copy()?)),
            Target::System(command) => Ok(Target::System(command.copy()?)),
            Target::Socks {
                named,
                server,
                host,
                port,
            } => {
                let server = server.copy()?;
                Ok(Target::Socks {
                    named: *named,
                    server,
                    host: host.copy()?,
                    port: *port,
                })
            }
            Target::Proxy { server, host, port } => {
                let server = server.copy()?;
                Ok(Target::Proxy {
                    server,
                    host: host.copy()?,
                    port: *port,
                })
            }
        }
    }
}

/// How a file is opened (open(2), `O_CREAT` to `O_TRUNC`; `rdonly` and `wronly` narrow the use).
#[derive(Clone, Copy, PartialEq, Eq)]
pub struct FileFlags {
    pub creat: bool,
    pub excl: bool,
    pub append: bool,
    pub trunc: bool,
    pub rdonly: bool,
    pub wronly: bool,
}

/// A network and its mask (socat(1), `range`).
#[derive(Clone, Copy, PartialEq, Eq)]
pub enum Range {
    V4 { net: [u8; 4], mask: [u8; 4] },
    V6 { net: [u8; 16], mask: [u8; 16] },
}

/// A local address; without a written port its port is 0.
#[derive(Clone, Copy, PartialEq, Eq)]
pub struct Bind {
    pub addr: Peer,
}

/// What an address does with what is read from it. An end is waited out with `ignoreeof`, and an empty datagram is
/// an end with `null-eof`; `readbytes` is the most bytes that are read, and `escape` a byte that ends them.
#[derive(Clone, Copy, PartialEq, Eq)]
pub struct InputOptions {
    pub ignoreeof: bool,
    pub readbytes: Option<u64>,
    pub escape: Option<u8>,
    pub null_eof: bool,
}

/// How often an address is tried anew when it can't be opened, and after how many milliseconds (socat(1), `retry`,
/// `forever` and `interval`).
#[derive(Clone, Copy, PartialEq, Eq)]
pub struct TryOptions {
    pub retry: u64,
    pub forever: bool,
    pub interval: u64,
}

/// Whether each peer of a door is a session of its own (socat(1), `fork`), how many of these live at a time
/// (`max-children`), and how many there are in all (`stop-after`).
#[derive(Clone, Copy, PartialEq, Eq)]
pub struct SessionOptions {
    pub fork: bool,
    pub max_children: u32,
    pub stop_after: u32,
}

/// Which peers a door lets in: from this network, from this port, only from a privileged port (socat(1), `range`,
/// `sourceport` and `lowport`).
#[derive(Clone, Copy, PartialEq, Eq)]
pub struct Admission {
    pub range: Option<Range>,
    pub sourceport: Option<u16>,
    pub lowport: bool,
}

/// How a socket is set up: its local address, and whether small writes go out at once (socat(1), `bind` and
/// `nodelay`).
#[derive(Clone, Copy, PartialEq, Eq)]
pub struct SocketOptions {
    pub bind: Option<Bind>,
    pub nodelay: bool,
}

/// Whether the name of a file, a pipe or a socket is removed before it is opened, and after it is closed (socat(1),
/// `unlink-early` and `unlink-close`).
#[derive(Clone, Copy, PartialEq, Eq)]
pub struct EntryOptions {
    pub unlink_early: bool,
    pub unlink_close: bool,
}

/// How a proxy is reached: the port of a SOCKS server and the user that it is told, and the port of an HTTP proxy
/// (socat(1), `socksport`, `socksuser` and `proxyport`).
#[derive(Drop)]
pub struct ProxyOptions {
    pub socksport: u16,
    pub socksuser: Text,
    pub proxyport: u16,
}

impl ProxyOptions {
    /// A copy.
    pub fn copy(&self) -> Result<ProxyOptions, NoMemory>
        ensures { IfOk result (λ options. options ≡ self.now) }
    {
        let socksuser = self.socksuser.copy()?;
        Ok(ProxyOptions {
            socksport: self.socksport,
            socksuser,
            proxyport: self.proxyport,
        })
    }
}

/// The options of one single address, grouped by what they are of. `conv` is of what is read and written, and
/// `shut` of how an end is passed on (socat(1), `shut-none` to `shut-null`).
#[derive(Drop)]
pub struct Options {
    pub conv: Conv,
    pub shut: Option<Shut>,
    pub input: InputOptions,
    pub tries: TryOptions,
    pub sessions: SessionOptions,
    pub admission: Admission,
    pub socket: SocketOptions,
    pub entry: EntryOptions,
    pub file: FileFlags,
    pub proxy: ProxyOptions,
}

impl Options {
    /// A copy.
    pub fn copy(&self) -> Result<Options, NoMemory>
        ensures { IfOk result (λ options. options ≡ self.now) }
    {
        let proxy = self.proxy.copy()?;
        Ok(Options {
            conv: self.conv,
            shut: self.shut,
            input: self.input,
            tries: self.tries,
            sessions: self.sessions,
            admission: self.admission,
            socket: self.socket,
            entry: self.entry,
            file: self.file,
            proxy,
        })
    }
}

/// One address with its options.
#[derive(Drop)]
pub struct Single {
    pub target: Target,
    pub options: Options,
}

impl Single {
    /// A copy.
    pub fn copy(&self) -> Result<Single, NoMemory>
        ensures { IfOk result (λ single. single ≡ self.now) }
    {
        let options = self.options.copy()?;
        match self.target.copy() {
            Ok(target) => Ok(Single { target, options }),
            Err(error) => {
                drop(options);
                Err(error)
            }
        }
    }
}

/// One side of the command: a single address, or a dual one (`A!!B`) that reads from A and writes to B.
#[derive(Drop)]
pub enum Address {
    One(Single),
    Two { reading: Single, writing: Single },
}

impl Address {
    /// A copy.
    pub fn copy(&self) -> Result<Address, NoMemory>
        ensures { IfOk result (λ address. address ≡ self.now) }
    {
        match self {
            Address::One(single) => Ok(Address::One(single.copy()?)),
            Address::Two { reading, writing } => {
                let reading = reading.copy()?;
                match writing.copy() {
                    Ok(writing) => Ok(Address::Two { reading, writing }),
                    Err(error) => {
                        drop(reading);
                        Err(error)
                    }
                }
            }
        }
    }
}

/// A relay as the command line asks for it. `closing` and `idle` are milliseconds; an `idle` of 0 is off.
/// `block` is in bytes. With `sloppy` a fault cuts its direction alone.
#[derive(Drop)]
pub struct Config {
    pub block: u32,
    pub closing: u64,
    pub idle: u64,
    pub ways: Ways,
    pub dump: Dump,
    pub sloppy: bool,
    pub left: Address,
    pub right: Address,
}

impl Config {
    /// A copy.
    pub fn copy(&self) -> Result<Config, NoMemory>
        ensures { IfOk result (λ config. config ≡ self.now) }
    {
        let left = self.left.copy()?;
        match self.right.copy() {
            Ok(right) => Ok(Config {
                block: self.block,
                closing: self.closing,
                idle: self.idle,
                ways: self.ways,
                dump: self.dump,
                sloppy: self.sloppy,
                left,
                right,
            }),
            Err(error) => {
                drop(left);
                Err(error)
            }
        }
    }
}
