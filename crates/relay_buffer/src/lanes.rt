// What is asked for in one direction.
use line_ends::Convs;

/// How one direction passes bytes on.
#[derive(Clone, Copy, PartialEq, Eq)]
pub struct Lane {
    /// The most bytes that one read takes (socat(1), `-b`). At most twice as many wait.
    pub block: u32,
    pub how: Convs,
    /// How many bytes are read in all (socat(1), `readbytes`); no limit where None.
    pub readbytes: Option<u64>,
    /// The byte that ends the input, itself left out (socat(1), `escape`).
    pub escape: Option<u8>,
    /// The longest piece that is read for one packet, where each piece goes out as one packet; None for a stream.
    pub packets: Option<u32>,
}
