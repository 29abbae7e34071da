// The items of a script, each for one place or door, in the order in which they were added.
ghost use Rattle.std.specs.Prelude.{◌≡◌, ◌++◌, ◌∷◌, [], OnOk, OnErr, IfSome, ◌<◌, find, length, option_copied, position};
ghost use Rattle.relay_model.specs.{same_place};
ghost use Rattle.scripted_world.specs.Lines.{next_of, used_up};

use relay_model::{NoMemory, Place};
use std::alloc::Global;
use std::marker::Model;

/// One item of a place or door.
#[derive(Drop)]
pub struct PlacedItem<T: Drop> {
    pub place: Place,
    pub item: T,
}

/// The items of all places that aren't used up.
#[derive(Drop)]
pub struct PlacedItems<T: Drop> {
    pub entries: Vec<PlacedItem<T>>,
}

impl<T: Drop> Model for PlacedItems<T> {
    ghost use Rattle.std.specs.Prelude.{List};
    ghost use Rattle.scripted_world.specs.declared.lines.PlacedItem.{PlacedItem};

    ghost Value = { List (PlacedItem T) };

    ghost view = { λ lines. lines.entries.items };
}

impl<T: Drop> PlacedItems<T> {
    /// No items; takes no memory.
    pub fn new(alloc: Global) -> PlacedItems<T>
        ensures { result ≡ [] }
    {
        PlacedItems {
            entries: Vec::new(alloc),
        }
    }

    /// Adds an item at the end.
    pub fn add(&mut self, place: Place, item: T) -> Result<(), NoMemory>
        ensures added { OnOk result (self.new ≡ self.old ++ record { place = place; item = item } ∷ []) }
        ensures kept { OnErr result (self.new ≡ self.old) }
    {
        self.entries.push(PlacedItem { place, item })?;
        Ok(())
    }

    /// The next item of the place.
    pub fn next(&self, place: Place) -> Option<&T>
        ensures { option_copied result ≡ next_of self.now place }
    {
        match first_of(self.entries.as_slice(), place) {
            Some(line) => Some(&line.item),
            None => None,
        }
    }

    /// Takes the next item of the place out.
    pub fn use_up(&mut self, place: Place)
        ensures { self.new ≡ used_up self.old place }
    {
        match index_of(self.entries.as_slice(), place) {
            None => {}
            Some(index) => {
                let _ = self.entries.remove(index);
            }
        }
    }
}

/// The first of these of the place.
fn first_of<T: Drop>(lines: &[PlacedItem<T>], place: Place) -> Option<&PlacedItem<T>>
    ensures { option_copied result ≡ find (λ line. same_place line.place place) lines.now }
{
    lines.iter().find(|line| line.place.is(place))
}

/// The index of the first of these of the place.
pub fn index_of<T: Drop>(lines: &[PlacedItem<T>], place: Place) -> Option<usize>
    ensures is { result ≡ position (λ line. same_place line.place place) lines.now }
    ensures within { IfSome result (λ index. index < length lines.now) }
{
    lines.iter().position(|line| line.place.is(place))
}
