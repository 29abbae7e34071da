// Why a proxy's reply grants nothing.

/// Why there is no connection through the proxy.
#[derive(Clone, Copy, PartialEq)]
pub enum ConnectEnd {
    /// The proxy answered with a status outside 200 to 299.
    Denied { status: u16 },
    /// So many bytes came up to an empty line, and are no head of a response, or one with more than 64 fields.
    BadHead { have: u32 },
    /// 8,192 bytes came without an empty line at their end.
    TooLong,
    /// The proxy ended after so many bytes of the reply, before an empty line.
    Short { have: u32 },
}
