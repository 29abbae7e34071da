// The options that the relay offers, one row an option, and those of socat(1) that it leaves out.
ghost use Rattle.std.specs.Prelude.{◌≡◌, map};
ghost use Rattle.option_table.specs.Table.{found, is_listed, as_named};
ghost use Rattle.option_table.specs.Rows.{lookup_of};

use crate::names::same_name;
use crate::rows::{Form, Group, Lookup, OptionId, OptionRow, Phase};

const NUMBER: Form = Form::Number {
    least: 0,
    greatest: 0xffff_ffff_ffff_ffff,
};

const FROM_ONE: Form = Form::Number {
    least: 1,
    greatest: 0xffff_ffff_ffff_ffff,
};

const BYTE: Form = Form::Number {
    least: 0,
    greatest: 255,
};

const SESSIONS: Form = Form::Number {
    least: 1,
    greatest: 0xffff_ffff,
};

/// One option a line: its name, what it is, its group, its phase and its form.
macro_rules! options {
    ($($name:literal: $id:ident, $group:ident, $phase:ident, $form:expr;)*) => {
        [$(($name, OptionId::$id, Group::$group, Phase::$phase, $form)),*]
    };
}

type NamedRow = (&'static [u8], OptionId, Group, Phase, Form);

const OPTIONS: [NamedRow; 34] = options! {
    b"cr": Cr, Relay, Relaying, Form::Bool;
    b"crnl": Crnl, Relay, Relaying, Form::Bool;
    b"ignoreeof": Ignoreeof, Relay, Relaying, Form::Bool;
    b"null-eof": NullEof, Relay, Relaying, Form::Bool;
    b"readbytes": Readbytes, Relay, Relaying, FROM_ONE;
    b"escape": Escape, Relay, Relaying, BYTE;
    b"shut-none": ShutNone, Relay, Closing, Form::Bool;
    b"shut-down": ShutDown, Relay, Closing, Form::Bool;
    b"shut-close": ShutClose, Relay, Closing, Form::Bool;
    b"shut-null": ShutNull, Relay, Closing, Form::Bool;
    b"creat": Creat, File, Opening, Form::Bool;
    b"excl": Excl, File, Opening, Form::Bool;
    b"append": Append, File, Opening, Form::Bool;
    b"trunc": Trunc, File, Opening, Form::Bool;
    b"rdonly": Rdonly, File, Opening, Form::Bool;
    b"wronly": Wronly, File, Opening, Form::Bool;
    b"unlink-early": UnlinkEarly, Named, Early, Form::Bool;
    b"unlink-close": UnlinkClose, Named, Closing, Form::Bool;
    b"reuseaddr": Reuseaddr, Socket, Early, Form::Bool;
    b"nodelay": Nodelay, Tcp, Connected, Form::Bool;
    b"bind": Bind, Bind, Early, Form::Address;
    b"retry": Retry, Retry, Opening, NUMBER;
    b"interval": Interval, Retry, Opening, Form::Time;
    b"forever": Forever, Retry, Opening, Form::Bool;
    b"fork": Fork, Listen, Connected, Form::Bool;
    b"max-children": MaxChildren, Listen, Connected, SESSIONS;
    b"stop-after": StopAfter, Listen, Connected, SESSIONS;
    b"range": Range, Range, Connected, Form::Range;
    b"sourceport": Sourceport, Range, Connected, Form::Port;
    b"lowport": Lowport, Range, Connected, Form::Bool;
    b"pipes": Pipes, Child, Opening, Form::Bool;
    b"socksport": Socksport, Socks, Connected, Form::Port;
    b"socksuser": Socksuser, Socks, Connected, Form::Text;
    b"proxyport": Proxyport, Proxy, Connected, Form::Port;
};

const LEFT_OUT: [&[u8]; 42] = [
    b"raw",
    b"rawer",
    b"echo",
    b"ctty",
    b"setsid",
    b"pty",
    b"stderr",
    b"nofork",
    b"fdin",
    b"fdout",
    b"path",
    b"user",
    b"group",
    b"mode",
    b"perm",
    b"owner",
    b"su",
    b"su-d",
    b"setuid",
    b"setgid",
    b"chroot",
    b"lock",
    b"waitlock",
    b"seek",
    b"keepalive",
    b"backlog",
    b"linger",
    b"broadcast",
    b"tos",
    b"ttl",
    b"ipv6only",
    b"pf",
    b"sndbuf",
    b"rcvbuf",
    b"so-bindtodevice",
    b"cert",
    b"key",
    b"cafile",
    b"verify",
    b"end-close",
    b"cool-write",
    b"nonblock",
];

fn find_option(mut table: &[NamedRow], name: &[u8]) -> Option<OptionRow>
    ensures { result ≡ found (map as_named table.entry.now) name.now }
{
    while let [row, rest @ ..] = table {
        if same_name(row.0, name) {
            return Some(OptionRow {
                id: row.1,
                group: row.2,
                phase: row.3,
                form: row.4,
            });
        }
        table = rest;
    }
    None
}

fn is_left_out(mut table: &[&[u8]], name: &[u8]) -> bool
    ensures { result ≡ is_listed (map (λ known. known.now) table.entry.now) name.now }
{
    while let [known, rest @ ..] = table {
        if same_name(known, name) {
            return true;
        }
        table = rest;
    }
    false
}

/// What the name of an option stands for, in any ASCII case.
pub fn lookup(name: &[u8]) -> Lookup
    ensures { result ≡ lookup_of name.now }
{
    match find_option(&OPTIONS, name) {
        Some(row) => Lookup::Known(row),
        None if is_left_out(&LEFT_OUT, name) => Lookup::LeftOut,
        None => Lookup::Unknown,
    }
}
