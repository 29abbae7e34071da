// The defaults of the options, and a plain relay with them for tests.
ghost use Rattle.std.specs.Prelude.{◌≡◌, [], IfOk};
ghost use Rattle.relay_model.specs.PlainRelay.{plain_relay, standard, default_options};

use crate::commands::{
    Address, Admission, Config, Conv, Dump, EntryOptions, FileFlags, InputOptions, Options,
    ProxyOptions, SessionOptions, Single, SocketOptions, Target, TryOptions, Ways,
};
use crate::contents::{NoMemory, Text};
use std::alloc::Global;

const NO_FLAGS: FileFlags = FileFlags {
    creat: false,
    excl: false,
    append: false,
    trunc: false,
    rdonly: false,
    wronly: false,
};

impl Options {
    /// Every option at its default (socat(1)).
    pub fn defaults(alloc: Global) -> Result<Options, NoMemory>
        ensures { IfOk result (λ options. options ≡ default_options) }
    {
        let socksuser = Text::of(alloc, &[])?;
        Ok(Options {
            conv: Conv::Plain,
            shut: None,
            input: InputOptions {
                ignoreeof: false,
                readbytes: None,
                escape: None,
                null_eof: false,
            },
            tries: TryOptions {
                retry: 0,
                forever: false,
                interval: 1000,
            },
            sessions: SessionOptions {
                fork: false,
                max_children: u32::MAX,
                stop_after: u32::MAX,
            },
            admission: Admission {
                range: None,
                sourceport: None,
                lowport: false,
            },
            socket: SocketOptions {
                bind: None,
                nodelay: false,
            },
            entry: EntryOptions {
                unlink_early: false,
                unlink_close: false,
            },
            file: NO_FLAGS,
            proxy: ProxyOptions {
                socksport: 1080,
                socksuser,
                proxyport: 8080,
            },
        })
    }
}

impl Config {
    /// The relay of `-u STDIN STDOUT` with this block size, in bytes.
    pub fn plain(alloc: Global, block: u32) -> Result<Config, NoMemory>
        ensures { IfOk result (λ config. config ≡ plain_relay block) }
    {
        let reading = Options::defaults(alloc)?;
        let writing = Options::defaults(alloc)?;
        Ok(Config {
            block,
            closing: 500,
            idle: 0,
            ways: Ways::OnlyRight,
            dump: Dump::Off,
            sloppy: false,
            left: Address::One(Single {
                target: Target::Stdin,
                options: reading,
            }),
            right: Address::One(Single {
                target: Target::Stdout,
                options: writing,
            }),
        })
    }
}
