// Moments and places that a script remembers for good.
ghost use Rattle.std.specs.Prelude.{◌≡◌, ◌++◌, ◌∷◌, [], OnOk, OnErr};
ghost use Rattle.scripted_world.specs.Marks.{has_come, least_of, shut_fails};

use crate::script::earlier;
use relay_model::{NoMemory, Place};
use std::alloc::Global;
use std::marker::Model;

/// Moments or places, in the order in which they were added.
#[derive(Drop)]
pub struct Marks<T: Copy> {
    entries: Vec<T>,
}

impl<T: Copy> Model for Marks<T> {
    ghost use Rattle.std.specs.Prelude.{List};

    ghost Value = { List T };

    ghost view = { λ marks. marks.entries.items };
}

impl<T: Copy> Marks<T> {
    /// No marks; takes no memory.
    pub fn new(alloc: Global) -> Marks<T>
        ensures { result ≡ [] }
    {
        Marks {
            entries: Vec::new(alloc),
        }
    }

    /// Adds a mark at the end.
    pub fn add(&mut self, mark: T) -> Result<(), NoMemory>
        ensures added { OnOk result (self.new ≡ self.old ++ mark ∷ []) }
        ensures kept { OnErr result (self.new ≡ self.old) }
    {
        self.entries.push(mark)?;
        Ok(())
    }
}

impl Marks<u64> {
    /// Whether one of the moments has come by this one.
    pub fn has_come(&self, now: u64) -> bool
        ensures { result ≡ has_come self.now now }
    {
        self.entries.iter().any(|moment| *moment <= now)
    }

    /// The least of the moments.
    pub fn least(&self) -> Option<u64>
        ensures { result ≡ least_of self.now }
    {
        least_in(self.entries.as_slice())
    }
}

/// The least of these moments.
fn least_in(moments: &[u64]) -> Option<u64>
    ensures { result ≡ least_of moments.now }
{
    let mut least = None;
    for moment in moments {
        least = earlier(least, Some(*moment));
    }
    least
}

impl Marks<Place> {
    /// Whether the place is one of them.
    pub fn has(&self, place: Place) -> bool
        ensures { result ≡ shut_fails self.now place }
    {
        self.entries.iter().any(|mark| mark.is(place))
    }
}
