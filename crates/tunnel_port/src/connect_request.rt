// The bytes of a request to an HTTP proxy.
ghost use Rattle.std.specs.Prelude.{◌≡◌, IfOk};
ghost use Rattle.tunnel_port.specs.ConnectRequests.{connect_request};

use std::alloc::{AllocError, Global};

/// The request to be connected to this host, without header fields.
pub(crate) fn request_bytes(alloc: Global, host: &[u8], port: u16) -> Result<Vec<u8>, AllocError>
    ensures { IfOk result (λ bytes. bytes.items ≡ connect_request host.now port) }
{
    let mut bytes = Vec::new(alloc);
    bytes.extend_from_slice(b"CONNECT ")?;
    bytes.extend_from_slice(host)?;
    let rest = format!(in alloc; ":{port} HTTP/1.0\r\n\r\n")?;
    bytes.extend_from_slice(rest.as_bytes())?;
    Ok(bytes)
}
