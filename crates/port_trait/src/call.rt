// What a call on a port adds to its account.
use relay_model::Shut;

/// Bytes that a port handed out, bytes that it accepted, or how it was told that no more will be written.
#[derive(Clone, Copy, Drop)]
pub enum PortCall<'a> {
    Gave(&'a [u8]),
    Took(&'a [u8]),
    Shut(Shut),
}
