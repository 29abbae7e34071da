// Why a text is no journal.
ghost use Rattle.std.specs.Prelude.{◌≡◌};
ghost use Rattle.journal_text.specs.declared.faults.JournalFault.TheVariants as journal_fault;
ghost use Rattle.journal_text.specs.declared.faults.LineFault.TheVariants as line_fault;

use relay_model::NoMemory;
use std::alloc::AllocFailed;

/// What keeps a text from being read.
#[derive(Clone, Copy)]
pub enum JournalFault {
    /// The first line, counted from 1, that no act spells. A last line without its newline is one.
    Line { number: u64 },
    /// No memory was found.
    Memory,
}

impl From<NoMemory> for JournalFault {
    ghost from_gives = { λ _ fault. fault ≡ journal_fault.Memory };

    fn from(_error: NoMemory) -> JournalFault {
        JournalFault::Memory
    }
}

/// What keeps a line from being read.
#[derive(Clone, Copy)]
pub(crate) enum LineFault {
    /// No act is spelt so.
    NoAct,
    /// No memory was found.
    Memory,
}

impl From<NoMemory> for LineFault {
    ghost from_gives = { λ _ fault. fault ≡ line_fault.Memory };

    fn from(_error: NoMemory) -> LineFault {
        LineFault::Memory
    }
}

impl<T: Drop> From<AllocFailed<T>> for LineFault {
    ghost from_gives = { λ _ fault. fault ≡ line_fault.Memory };

    fn from(_error: AllocFailed<T>) -> LineFault {
        LineFault::Memory
    }
}
