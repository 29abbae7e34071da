// Why a row can't be checked.
use relay_model::NoMemory;
use std::alloc::{AllocError, AllocFailed};

/// Why rows can't be checked: there was no memory, or the line with this number isn't understood.
#[derive(Clone, Copy, PartialEq, Eq)]
pub enum RowFault {
    Memory,
    Line(usize),
}

impl From<NoMemory> for RowFault {
    fn from(_error: NoMemory) -> RowFault {
        RowFault::Memory
    }
}

impl From<AllocError> for RowFault {
    fn from(_error: AllocError) -> RowFault {
        RowFault::Memory
    }
}

impl<T: Drop> From<AllocFailed<T>> for RowFault {
    fn from(_error: AllocFailed<T>) -> RowFault {
        RowFault::Memory
    }
}
