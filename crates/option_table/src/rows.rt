// What is known of an option.
/// What an option is, one variant an option.
#[derive(Clone, Copy, Debug, PartialEq, Eq)]
pub enum OptionId {
    Cr,
    Crnl,
    Ignoreeof,
    NullEof,
    Readbytes,
    Escape,
    ShutNone,
    ShutDown,
    ShutClose,
    ShutNull,
    Creat,
    Excl,
    Append,
    Trunc,
    Rdonly,
    Wronly,
    UnlinkEarly,
    UnlinkClose,
    Reuseaddr,
    Nodelay,
    Bind,
    Retry,
    Interval,
    Forever,
    Fork,
    MaxChildren,
    StopAfter,
    Range,
    Sourceport,
    Lowport,
    Pipes,
    Socksport,
    Socksuser,
    Proxyport,
}

/// The groups of this relay's options. A kind of address takes the options of its groups.
#[derive(Clone, Copy, Debug, PartialEq, Eq)]
pub enum Group {
    Relay,
    File,
    Named,
    Socket,
    Tcp,
    Bind,
    Retry,
    Listen,
    Range,
    Child,
    Socks,
    Proxy,
}

/// When in the life of an address an option has its effect.
#[derive(Clone, Copy, Debug, PartialEq, Eq)]
pub enum Phase {
    Opening,
    Early,
    Connected,
    Relaying,
    Closing,
}

/// How an option's value is written. The bounds of a number are both allowed.
#[derive(Clone, Copy, Debug)]
pub enum Form {
    Bool,
    Number { least: u64, greatest: u64 },
    Time,
    Port,
    Range,
    Address,
    Text,
}

/// What is known of an option besides its name.
#[derive(Clone, Copy)]
pub struct OptionRow {
    pub id: OptionId,
    pub group: Group,
    pub phase: Phase,
    pub form: Form,
}

/// What an option's name stands for. `LeftOut` is an option of socat(1) that this relay doesn't offer.
#[derive(Clone, Copy)]
pub enum Lookup {
    Known(OptionRow),
    LeftOut,
    Unknown,
}
