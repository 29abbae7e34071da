// An answer for each number.
ghost use Rattle.std.specs.Prelude.{◌≡◌, ◌==◌, ℕ, if◌then◌else◌, OnOk};
ghost use Rattle.history_facts.specs.Tables.{numbered};

use relay_model::NoMemory;
use std::alloc::Global;
use std::collections::BTreeMap;

/// An answer for each number: those that were set, and one for all others.
#[derive(Drop)]
pub struct Numbered<T> {
    known: BTreeMap<u64, T>,
    rest: T,
}

impl<T: Copy> Numbered<T> {
    /// The same answer for all numbers.
    pub fn new(alloc: Global, rest: T) -> Self
        ensures { (k : ℕ) → numbered result k ≡ rest }
    {
        Numbered {
            known: BTreeMap::new(alloc),
            rest,
        }
    }

    /// The answer for the number.
    pub fn at(&self, number: u64) -> T
        ensures { result ≡ numbered self.now number }
    {
        match self.known.get(&number) {
            Some(answer) => *answer,
            None => self.rest,
        }
    }

    /// Sets the answer for the number, and leaves all others.
    pub fn set(&mut self, number: u64, answer: T) -> Result<(), NoMemory>
        ensures { OnOk result ((k : ℕ) → numbered self.new k ≡ (if number == k then answer else numbered self.old k)) }
    {
        self.known.insert(number, answer)?;
        Ok(())
    }
}
