// Why a text spells no address.
ghost use Rattle.std.specs.Prelude.{◌≡◌};
ghost use Rattle.addr_grammar.specs.declared.faults.GrammarFault.TheVariants.{Memory};

use addr_words::WordFault;
use relay_model::NoMemory;
use std::alloc::{AllocError, AllocFailed};
use std::fmt;
use thiserror::Error;

/// What is wrong with a text: the first fault of its tokens, then of its halves, then in each half from left
/// to right. Offsets count bytes from 0.
#[derive(Drop, Error)]
pub enum GrammarFault {
    /// A quote or a bracket is open at the end; `at` is where the outermost of them begins.
    #[error("unclosed at {at}")]
    Unclosed { at: u32 },
    /// The text ends with a backslash that escapes nothing.
    #[error("lone backslash at {at}")]
    LoneBackslash { at: u32 },
    /// The text has more than 65,536 bytes.
    #[error("address too long")]
    TooLong,
    /// The keyword has no bytes.
    #[error("empty address")]
    Empty,
    /// A second `!!` stands at `at`.
    #[error("too many !! at {at}")]
    TooManyDuals { at: u32 },
    /// The option whose text begins at `at` has no name.
    #[error("empty option at {at}")]
    EmptyOption { at: u32 },
    /// No memory was found.
    #[error("out of memory")]
    Memory,
}

/// The same text as it is displayed with.
impl fmt::Debug for GrammarFault {
    fn fmt<W: fmt::Write>(&self, f: &mut fmt::Formatter<W>) -> fmt::Result {
        fmt::Display::fmt(self, f)
    }
}

impl From<NoMemory> for GrammarFault {
    ghost from_gives = { λ _ fault. fault ≡ Memory };

    fn from(_error: NoMemory) -> GrammarFault {
        GrammarFault::Memory
    }
}

impl From<AllocError> for GrammarFault {
    ghost from_gives = { λ _ fault. fault ≡ Memory };

    fn from(_error: AllocError) -> GrammarFault {
        GrammarFault::Memory
    }
}

impl<T: Drop> From<AllocFailed<T>> for GrammarFault {
    ghost from_gives = { λ _ fault. fault ≡ Memory };

    fn from(_error: AllocFailed<T>) -> GrammarFault {
        GrammarFault::Memory
    }
}

impl From<WordFault> for GrammarFault {
    ghost use Rattle.addr_grammar.specs.Grammar.{widened};

    ghost from_gives = { λ fault wide. wide ≡ widened fault };

    fn from(fault: WordFault) -> GrammarFault {
        match fault {
            WordFault::Unclosed { at } => GrammarFault::Unclosed { at },
            WordFault::LoneBackslash { at } => GrammarFault::LoneBackslash { at },
            WordFault::TooLong => GrammarFault::TooLong,
            WordFault::Memory => GrammarFault::Memory,
        }
    }
}
