// Why a SOCKS server's reply grants nothing.

/// Why there is no connection through the server.
#[derive(Clone, Copy, PartialEq)]
pub enum SocksEnd {
    /// The server refused the request. By convention 91 is any refusal, and 92 and 93 are about the user.
    Denied { code: u8 },
    /// Eight bytes came that are no reply, since a reply begins with 0. This is the first of them.
    BadReply { first: u8 },
    /// The server ended after so many bytes of the reply, fewer than eight.
    Short { have: u8 },
}
