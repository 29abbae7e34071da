// Which of the makers opens an address.
ghost use Rattle.std.specs.Prelude.{◌≡◌};
ghost use Rattle.relay_model.specs.declared.commands.Target.TheVariants as targets;
ghost use Rattle.real_maker.specs.declared.kinds.MakerKind.TheVariants as kinds;

use relay_model::{Single, Target};
use std::fs::Files;
use std::os::unix::fs::FileTypeExt;
use std::str;

/// What opens an address.
#[derive(Clone, Copy, PartialEq)]
pub(crate) enum MakerKind {
    Echo,
    File,
    Socket,
    Child,
    Proxied,
    /// A standard stream, or a kind whose ports aren't made here.
    Other,
}

/// The kind of the address. A `GOPEN` whose entry is a socket is one (socat(1), `GOPEN`).
pub(crate) fn kind_of<R: Files>(files: &R, single: &Single) -> MakerKind
    ensures { result ≡ kinds.Echo → single.now.target ≡ targets.Echo }
{
    match &single.target {
        Target::Echo => MakerKind::Echo,
        Target::Create(_) | Target::FileAt(_) | Target::NamedPipe(_) => MakerKind::File,
        Target::GenericOpen(name) if is_socket(files, name.as_slice()) => MakerKind::Socket,
        Target::GenericOpen(_) => MakerKind::File,
        Target::Tcp { .. } | Target::UnixConnect(_) => MakerKind::Socket,
        Target::Udp { .. } | Target::UdpSendto { .. } | Target::UdpRecv { .. } => MakerKind::Socket,
        Target::Exec(_) | Target::System(_) => MakerKind::Child,
        Target::Socks { .. } | Target::Proxy { .. } => MakerKind::Proxied,
        _ => MakerKind::Other,
    }
}

/// Whether the entry of this name is a socket.
fn is_socket<R: Files>(files: &R, name: &[u8]) -> bool {
    let Ok(name) = str::from_utf8(name) else {
        return false;
    };
    match files.metadata(name) {
        Ok(found) => found.file_type().is_socket(),
        Err(_) => false,
    }
}
