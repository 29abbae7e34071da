// The bytes of a request to a SOCKS4 or SOCKS4A server.
ghost use Rattle.std.specs.Prelude.{◌≡◌, ◌≤◌, ◌+◌, ◌++◌, ℕ, List, [], length, take};
ghost use Rattle.tunnel_port.specs.SocksRequests.{socks4, socks4a};

use std::marker::Model;

/// The bytes of a request, at most 520.
#[derive(Drop)]
pub struct Request {
    bytes: [u8; 520],
    len: usize,
}

impl Model for Request {
    ghost Value = { List ℕ };

    ghost view = { λ request. take request.len request.bytes };

    ghost invariant = { λ request. request.len ≤ 520 };
}

impl Request {
    fn new() -> Request
        ensures { result ≡ [] }
    {
        Request {
            bytes: [0; 520],
            len: 0,
        }
    }

    fn put(&mut self, bytes: &[u8])
        requires { length self.old + length bytes.now ≤ 520 }
        ensures { self.new ≡ self.old ++ bytes.now }
    {
        let end = self.len + bytes.len();
        self.bytes[self.len..end].copy_from_slice(bytes);
        self.len = end;
    }

    /// The bytes.
    pub fn as_slice(&self) -> &[u8]
        ensures { result.now ≡ self.now }
    {
        &self.bytes[..self.len]
    }
}

/// The request of SOCKS4 to be connected to this address and port, in the name of this user, of at most 255
/// bytes. The user ends at its first byte 0, if it has one.
pub fn request4(addr: [u8; 4], port: u16, user: &[u8]) -> Request
    requires { length user.now ≤ 255 }
    ensures { result ≡ socks4 addr port user.now }
{
    let mut request = Request::new();
    request.put(&[4, 1]);
    request.put(&port.to_be_bytes());
    request.put(&addr);
    request.put(user);
    request.put(&[0]);
    request
}

/// The request of SOCKS4A to be connected to this host, whose address the server looks up. Host and user have at
/// most 255 bytes, and end at their first byte 0, if they have one. The address is 0.0.0.1, which tells the
/// server that a name comes.
pub fn request4a(host: &[u8], port: u16, user: &[u8]) -> Request
    requires host { length host.now ≤ 255 }
    requires user { length user.now ≤ 255 }
    ensures { result ≡ socks4a host.now port user.now }
{
    let mut request = request4([0, 0, 0, 1], port, user);
    request.put(host);
    request.put(&[0]);
    request
}
