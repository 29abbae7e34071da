// Short waits, one after another.
use case_rows::CaseFault;
use port_trait::{KeyList, Poller};
use std::alloc::Global;

/// How many waits a step of a talk may take. A talk has fewer than ten steps.
pub(crate) const MOST: u32 = 1_000;

/// What waits, and the moment of its last wait.
#[derive(Drop)]
pub(crate) struct Waits<P> {
    alloc: Global,
    poller: P,
    at: u64,
}

impl<P: Poller> Waits<P> {
    /// No wait was made.
    pub(crate) fn new(alloc: Global, poller: P) -> Waits<P> {
        Waits {
            alloc,
            poller,
            at: 0,
        }
    }

    /// What gives memory.
    pub(crate) fn alloc(&self) -> Global {
        self.alloc
    }

    /// Waits for a millisecond at most.
    pub(crate) fn rest(&mut self) -> Result<(), CaseFault> {
        self.wait(1)?;
        Ok(())
    }

    /// Waits for so many milliseconds at most. Whether it was ended before.
    pub(crate) fn wait(&mut self, longest: u64) -> Result<bool, CaseFault> {
        let mut keys = KeyList::new(self.alloc)?;
        let until = self.at.saturating_add(longest);
        self.at = self.poller.poll(Some(until), &mut keys).at;
        Ok(self.at < until)
    }
}
