// What a read, a write or a shut did at a place.
ghost use Rattle.std.specs.Prelude.{◌≡◌};

use relay_model::Shut;

/// The answer to a read, a write or a shut. `Wrote` has the number of bytes that were taken from the front of what
/// waits; a shut that failed counts as passed too.
#[derive(Clone, Copy)]
pub enum Transfer<'a> {
    Read(&'a [u8]),
    ReadEmpty,
    ReadEnd,
    ReadNotYet,
    ReadFailed,
    Wrote(usize),
    WriteNotYet,
    WriteFailed,
    Shut(Shut),
    ShutFailed(Shut),
}

impl Transfer<'_> {
    ghost use Rattle.relay_session.specs.Transfers.{moves_bytes, is_fault, is_read};

    /// Whether it answers a read.
    pub fn is_read(self) -> bool
        ensures { result ≡ is_read self.entry }
    {
        match self {
            Transfer::Read(_) | Transfer::ReadEmpty | Transfer::ReadEnd => true,
            Transfer::ReadNotYet | Transfer::ReadFailed => true,
            _ => false,
        }
    }

    /// Whether bytes passed.
    pub fn moves_bytes(self) -> bool
        ensures { result ≡ moves_bytes self.entry }
    {
        matches!(self, Transfer::Read(_) | Transfer::Wrote(_))
    }

    /// Whether a read or a write failed.
    pub fn is_fault(self) -> bool
        ensures { result ≡ is_fault self.entry }
    {
        matches!(self, Transfer::ReadFailed | Transfer::WriteFailed)
    }
}
