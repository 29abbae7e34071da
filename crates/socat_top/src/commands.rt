// The command of a generated run.
ghost use Rattle.std.specs.Prelude.{◌≡◌, IfOk};
ghost use Rattle.socat_top.specs.Command.{load_command};

use relay_model::{
    Address, Config, Dump, Family, NoMemory, Options, SessionOptions, Single, Target, Text, Ways,
};
use std::alloc::Global;

/// The command `TCP-LISTEN:1,fork,stop-after=50,max-children=8 TCP:localhost:2`, as its words would be read.
pub fn load_command(alloc: Global) -> Result<Config, NoMemory>
    ensures { IfOk result (λ config. config ≡ load_command) }
{
    let listening = Options::defaults(alloc)?;
    let connecting = Options::defaults(alloc)?;
    Ok(Config {
        block: 8192,
        closing: 500,
        idle: 0,
        ways: Ways::Two,
        dump: Dump::Off,
        sloppy: false,
        left: Address::One(Single {
            target: Target::TcpListen {
                family: Family::Any,
                port: 1,
            },
            options: Options {
                sessions: SessionOptions {
                    fork: true,
                    max_children: 8,
                    stop_after: 50,
                },
                ..listening
            },
        }),
        right: Address::One(Single {
            target: Target::Tcp {
                family: Family::Any,
                host: Text::of(alloc, b"localhost")?,
                port: 2,
            },
            options: connecting,
        }),
    })
}
