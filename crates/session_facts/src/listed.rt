// Bytes for each number.
ghost use Rattle.std.specs.Prelude.{◌≡◌, ◌==◌, ◌++◌, ℕ, [], if◌then◌else◌, OnOk};
ghost use Rattle.session_facts.specs.Owings.{listed};

use relay_model::NoMemory;
use std::alloc::Global;
use std::collections::BTreeMap;

/// Bytes for each number, none at first.
#[derive(Drop)]
pub struct ListedBytes {
    known: BTreeMap<u64, Vec<u8>>,
    alloc: Global,
}

impl ListedBytes {
    /// None for any number.
    pub fn new(alloc: Global) -> Self
        ensures { (k : ℕ) → listed result k ≡ [] }
    {
        ListedBytes {
            known: BTreeMap::new(alloc),
            alloc,
        }
    }

    /// The bytes of the number.
    pub fn at(&self, number: u64) -> &[u8]
        ensures { result.now ≡ listed self.now number }
    {
        match self.known.get(&number) {
            Some(bytes) => bytes.as_slice(),
            None => &[],
        }
    }

    /// Appends to the bytes of the number, and leaves all others.
    pub fn append(&mut self, number: u64, more: &[u8]) -> Result<(), NoMemory>
        ensures { OnOk result ((k : ℕ) → listed self.new k ≡ (if number == k then listed self.old k ++ more.now else listed self.old k)) }
    {
        let mut bytes = match self.known.remove(&number) {
            Some(bytes) => bytes,
            None => Vec::new(self.alloc),
        };
        bytes.extend_from_slice(more)?;
        self.known.insert(number, bytes)?;
        Ok(())
    }
}
