// One case, and how many there were.
ghost use Rattle.std.specs.Prelude.{◌≡◌, ◌+◌, ◌-◌, ◌^◌, min, true, false};

use relay_model::NoMemory;
use std::alloc::{AllocError, AllocFailed};
use std::num::ParseIntError;

/// A case: its name, the part that is asked, what it is asked, and what it must answer.
#[derive(Clone, Copy)]
pub struct CaseRow<'a> {
    pub name: &'a str,
    pub part: &'a str,
    pub inputs: &'a str,
    pub want: &'a str,
}

impl<'a> CaseRow<'a> {
    /// The case of this line. `=` stands between what is asked and what is to be answered.
    pub fn of(line: &'a str) -> Option<CaseRow<'a>> {
        let (asked, want) = line.split_once(" = ")?;
        let (name, asked) = asked.split_once(' ')?;
        let (part, inputs) = asked.split_once(' ')?;
        Some(CaseRow {
            name,
            part,
            inputs,
            want,
        })
    }
}

/// How many rows answered as they must, and how many didn't.
#[derive(Clone, Copy, Default)]
pub struct Tally {
    pub good: u64,
    pub differing: u64,
}

impl Tally {
    /// Counts one row. Each number stays at its last value.
    pub fn add(&mut self, is_good: bool)
        ensures good { is_good ≡ true → self.new ≡ record self.old { good = min (self.old.good + 1) (2 ^ 64 - 1) } }
        ensures differing { is_good ≡ false → self.new ≡ record self.old { differing = min (self.old.differing + 1) (2 ^ 64 - 1) } }
    {
        if is_good {
            self.good = self.good.saturating_add(1);
        } else {
            self.differing = self.differing.saturating_add(1);
        }
    }
}

/// That an answer was given, or why there is none.
pub type Answered = Result<(), CaseFault>;

/// Why a row has no answer.
#[derive(Clone, Copy, Debug, PartialEq, Eq)]
pub enum CaseFault {
    /// It isn't spelt as its part's rows are.
    NoRow,
    NoMemory,
}

impl From<NoMemory> for CaseFault {
    fn from(_error: NoMemory) -> CaseFault {
        CaseFault::NoMemory
    }
}

impl From<AllocError> for CaseFault {
    fn from(_error: AllocError) -> CaseFault {
        CaseFault::NoMemory
    }
}

impl<T: Drop> From<AllocFailed<T>> for CaseFault {
    fn from(_error: AllocFailed<T>) -> CaseFault {
        CaseFault::NoMemory
    }
}

impl From<ParseIntError> for CaseFault {
    fn from(_error: ParseIntError) -> CaseFault {
        CaseFault::NoRow
    }
}
