// What is opened to a host, once its address is known.
ghost use Rattle.std.specs.Prelude.{◌≡◌, None, Some, IfNone, IfSome};
ghost use Rattle.socket_maker.specs.Aims.{aim_of, host_of, way_sort};
ghost use Rattle.socket_maker.specs.Makings.{opened_sort};

use relay_model::{Family, Single, SocketOptions, Target, Text};

/// The socket that is opened: a connection by TCP, a partner of UDP that is connected to, or one of UDP that is sent to
/// (socat(1), `TCP`, `UDP` and `UDP-SENDTO`).
#[derive(Clone, Copy, PartialEq)]
pub enum SocketWay {
    Connection,
    Partner,
    Sending,
}

/// Which socket is opened, to which port, by which of the host's addresses, and how it is set up.
#[derive(Clone, Copy, PartialEq)]
pub struct Aim {
    pub way: SocketWay,
    pub family: Family,
    pub port: u16,
    pub options: SocketOptions,
}

/// What is opened for the address, and its host. `None` where the address has no host.
pub(crate) fn aim_at(single: &Single) -> Option<(Aim, &Text)>
    ensures aim { IfSome result (λ found. aim_of single.now.target single.now.options.socket ≡ Some found.0) }
    ensures host { IfSome result (λ found. host_of single.now.target ≡ Some found.1.now) }
    ensures sort { IfSome result (λ found. opened_sort single.now.target ≡ Some (way_sort found.0.way)) }
    ensures none { IfNone result (aim_of single.now.target single.now.options.socket ≡ None) }
{
    let (way, family, host, port) = match &single.target {
        Target::Tcp { family, host, port } => (SocketWay::Connection, *family, host, *port),
        Target::Udp { family, host, port } => (SocketWay::Partner, *family, host, *port),
        Target::UdpSendto { family, host, port } => (SocketWay::Sending, *family, host, *port),
        _ => return None,
    };
    let options = single.options.socket;
    Some((
        Aim {
            way,
            family,
            port,
            options,
        },
        host,
    ))
}
