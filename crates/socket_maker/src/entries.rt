// Sockets with an entry in the file system.
ghost use Rattle.std.specs.Prelude.{◌≡◌, IfSome, string_bytes};
ghost use Rattle.port_trait.specs.{IsAtOnce};
ghost use Rattle.socket_kinds.specs.{OnPort, Connected, Listening, sort_of, AnySocket};
ghost use Rattle.socket_ports.specs.{IsRemoval, fresh_port};
ghost use Rattle.socket_maker.specs.Unlinking.{UnlinksNamed};
ghost use Rattle.socket_maker.specs.Ports.{IsFreshPort, port_sort};
ghost use Rattle.socket_maker.specs.declared.port.HostPort.TheVariants as ports;

use crate::port::HostPort;
use crate::unlinking::{EntryCalls, unlink_early};
use mio::net::{UnixListener, UnixStream};
use mio::{Interest, Registry, Token};
use port_trait::Making;
use relay_model::{EntryOptions, Text};
use socket_kinds::{AnySocket, Listener, SocketDoor, SocketStream, StreamSocket};
use socket_ports::{Removal, SocketPort};
use std::alloc::Global;
use std::fs::Files;
use std::net::Net;
use std::sync::Arc;
use std::{io, str};

/// Connects to the entry of this name, and removes it before and after as the options say (socat(1),
/// `unlink-early` and `unlink-close`).
pub(crate) fn connect_unix<R, C>(
    rt: R,
    calls: &mut C,
    alloc: Global,
    registry: &Arc<Registry, Global>,
    key: usize,
    name: &Text,
    entry: EntryOptions,
) -> Making<HostPort>
where
    R: Net + Files + Copy + Drop,
    C: EntryCalls,
    ensures unlinked { UnlinksNamed entry name.now result (C.unlinked calls.old) (C.unlinked calls.new) }
    ensures fresh { OnPort IsFreshPort result }
    ensures sort { IfSome (port_sort result) (λ sort. sort ≡ Connected) }
    ensures at_once { IsAtOnce result }
{
    let Ok(path) = str::from_utf8(name.as_slice()) else {
        return Making::Failed;
    };
    let Ok(copy) = String::from_str(alloc, path) else {
        return Making::Memory;
    };
    unlink_early(calls, name, entry, path);
    let Ok(stream) = connect_at(&rt, name, path) else {
        return Making::Failed;
    };
    let removal = removal_of(entry, copy);
    let mut stream = SocketStream::Unix(stream);
    if !stream.enroll(registry, key) {
        return Making::Failed;
    }
    let socket = AnySocket::Stream(StreamSocket::new_connected(stream, None));
    Making::Made(with_entry(socket, name, entry, removal))
}

/// Makes the entry of this name, which the options remove before and after.
pub(crate) fn listen_unix<R, C>(
    rt: R,
    calls: &mut C,
    alloc: Global,
    registry: &Arc<Registry, Global>,
    key: usize,
    name: &Text,
    entry: EntryOptions,
) -> Making<HostPort>
where
    R: Net + Files + Copy + Drop,
    C: EntryCalls,
    ensures unlinked { UnlinksNamed entry name.now result (C.unlinked calls.old) (C.unlinked calls.new) }
    ensures fresh { OnPort IsFreshPort result }
    ensures sort { IfSome (port_sort result) (λ sort. sort ≡ Listening) }
    ensures at_once { IsAtOnce result }
{
    let Ok(path) = str::from_utf8(name.as_slice()) else {
        return Making::Failed;
    };
    let Ok(copy) = String::from_str(alloc, path) else {
        return Making::Memory;
    };
    unlink_early(calls, name, entry, path);
    let Ok(mut listener) = listen_at(&rt, name, path) else {
        return Making::Failed;
    };
    let removal = removal_of(entry, copy);
    if registry
        .register(&mut listener, Token(key), Interest::READABLE)
        .is_err()
    {
        return Making::Failed;
    }
    let socket = AnySocket::Door(SocketDoor::new(Listener::Unix(listener), false));
    Making::Made(with_entry(socket, name, entry, removal))
}

fn connect_at<R: Net>(rt: &R, name: &Text, path: &str) -> io::Result<UnixStream>
    requires { path.now ≡ name.now }
{
    let _connected_to = name;
    UnixStream::connect(rt, path)
}

fn listen_at<R>(rt: &R, name: &Text, path: &str) -> io::Result<UnixListener>
where
    R: Net + Files,
    requires { path.now ≡ name.now }
{
    let _listened_at = name;
    UnixListener::bind(rt, path)
}

/// What goes with the port, where the options say so.
fn removal_of(entry: EntryOptions, name: String) -> Option<Removal>
    ensures { IsRemoval entry.unlink_close (string_bytes name) result }
{
    Removal::only_if(entry.unlink_close, name)
}

/// The port of the socket, with which the entry goes where the options say so.
fn with_entry(
    socket: AnySocket,
    name: &Text,
    entry: EntryOptions,
    removal: Option<Removal>,
) -> HostPort
    requires { IsRemoval entry.unlink_close name.now removal }
    ensures { result ≡ ports.Socket (fresh_port socket) }
{
    let _removed_for = name;
    let _removed_by = entry;
    HostPort::Socket(SocketPort::new(socket, removal))
}
