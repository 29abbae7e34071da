// Why a text has no tokens.
ghost use Rattle.std.specs.Prelude.{◌≡◌};
ghost use Rattle.addr_words.specs.declared.faults.WordFault.TheVariants.{Memory};

use std::alloc::{AllocError, AllocFailed};
use std::fmt;
use thiserror::Error;

/// What is wrong with a text. Offsets count bytes from 0.
#[derive(Drop, Error)]
pub enum WordFault {
    /// A quote or a bracket is open at the end; `at` is where the outermost of them begins.
    #[error("unclosed at {at}")]
    Unclosed { at: u32 },
    /// The text ends with a backslash that escapes nothing.
    #[error("lone backslash at {at}")]
    LoneBackslash { at: u32 },
    /// The text has more than 65,536 bytes.
    #[error("address too long")]
    TooLong,
    /// No memory was found.
    #[error("out of memory")]
    Memory,
}

/// The same text as it is displayed with.
impl fmt::Debug for WordFault {
    fn fmt<W: fmt::Write>(&self, f: &mut fmt::Formatter<W>) -> fmt::Result {
        fmt::Display::fmt(self, f)
    }
}

impl From<AllocError> for WordFault {
    ghost from_gives = { λ _ fault. fault ≡ Memory };

    fn from(_error: AllocError) -> WordFault {
        WordFault::Memory
    }
}

impl<T: Drop> From<AllocFailed<T>> for WordFault {
    ghost from_gives = { λ _ fault. fault ≡ Memory };

    fn from(_error: AllocFailed<T>) -> WordFault {
        WordFault::Memory
    }
}
