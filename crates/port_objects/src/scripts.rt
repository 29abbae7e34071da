// What a port in memory is to answer to its reads.
ghost use Rattle.std.specs.Prelude.{◌≡◌, ◌<◌, ◌∷◌, ◌++◌, [], length, slice_get, option_copied, Some, OnOk, OnErr};
ghost use Rattle.port_trait.specs.{Gives};
ghost use Rattle.port_objects.specs.Scripts.{IsFilled, IsWithin, IsPart, FitsRead, fresh_script, has_more, item_answer, at_after, got_bytes, scripted_read, after_read, given_of};

use port_trait::{Got, copy_front};
use relay_model::{Bytes, NoMemory};
use std::alloc::Global;
use std::marker::Model;

/// What one read answers; long bytes are given in parts.
#[derive(Drop)]
pub enum PortItem {
    Bytes(Bytes),
    Empty,
    End,
    NotYet,
    Fault,
}

/// The items, the first that wasn't used up, and how many of its bytes were given.
#[derive(Drop)]
pub struct PortScript {
    items: Vec<PortItem>,
    next: usize,
    at: usize,
}

impl Model for PortScript {
    ghost use Rattle.std.specs.Prelude.{◌≤◌, length, slice_get};
    ghost use Rattle.port_objects.specs.Scripts.{ScriptState, AllFilled, IsWithin};

    ghost Value = { ScriptState };

    ghost view = { λ script. record { items = script.items.items; next = script.next; at = script.at } };

    ghost invariant = { λ script. AllFilled script.items.items × (script.next ≤ length script.items.items)
        × IsWithin (slice_get script.items.items script.next) script.at };
}

impl PortScript {
    /// No items.
    pub fn new(alloc: Global) -> PortScript
        ensures { result ≡ fresh_script }
    {
        PortScript {
            items: Vec::new(alloc),
            next: 0,
            at: 0,
        }
    }

    /// Appends the item, or changes nothing.
    pub fn push(&mut self, item: PortItem) -> Result<(), NoMemory>
        requires { IsFilled item }
        ensures ok { OnOk result (self.new ≡ record self.old { items = self.old.items ++ item ∷ [] }) }
        ensures given { given_of self.new ≡ given_of self.old }
        ensures err { OnErr result (self.new ≡ self.old) }
    {
        self.items.push(item)?;
        Ok(())
    }

    /// Whether an item is left.
    pub fn has_more(&self) -> bool
        ensures { result ≡ has_more self.now }
    {
        self.next < self.items.len()
    }

    /// The next item.
    fn head(&self) -> Option<&PortItem>
        ensures { option_copied result ≡ slice_get self.now.items self.now.next }
    {
        if self.next < self.items.len() {
            return Some(&self.items[self.next]);
        }
        None
    }

    /// Uses the next item.
    pub fn read(&mut self, into: &mut [u8]) -> Got
        requires { 0 < length into.old }
        ensures answer { result ≡ scripted_read (slice_get self.old.items self.old.next) self.old.at (length into.new) }
        ensures used { self.new ≡ after_read (slice_get self.old.items self.old.next) self.old (length into.new) }
        ensures gives { Gives (Some (given_of self.old)) (Some (given_of self.new)) into.new result }
    {
        let Some(item) = self.head() else {
            return Got::NotYet;
        };
        let (got, left_at) = give(item, self.at, into);
        match left_at {
            Some(at) => {
                self.at = at;
                got
            }
            None => {
                self.next += 1;
                self.at = 0;
                got
            }
        }
    }
}

/// Answers as the item says, of which the first `at` bytes were given before. Where bytes of it stay, also
/// where they begin.
fn give(item: &PortItem, at: usize, into: &mut [u8]) -> (Got, Option<usize>)
    requires within { IsWithin (Some item.now) at }
    requires room { 0 < length into.old }
    ensures answer { result.0 ≡ item_answer item.now at (length into.new) }
    ensures left_at { result.1 ≡ at_after item.now at (length into.new) }
    ensures fits { FitsRead into.new result.0 }
    ensures bytes { IsPart item.now at (got_bytes into.new result.0) result.1 }
{
    match item {
        PortItem::Bytes(bytes) => give_bytes(bytes.as_slice(), at, into),
        PortItem::Empty => (Got::Empty, None),
        PortItem::End => (Got::End, None),
        PortItem::NotYet => (Got::NotYet, None),
        PortItem::Fault => (Got::Failed, None),
    }
}

#[tactic(auto, using(crate::proofs::Pieces::split_off))]
fn give_bytes(bytes: &[u8], at: usize, into: &mut [u8]) -> (Got, Option<usize>)
    requires within { at < length bytes.now }
    requires room { 0 < length into.old }
    ensures answer { result.0 ≡ item_answer (PortItem.Bytes bytes.now) at (length into.new) }
    ensures left_at { result.1 ≡ at_after (PortItem.Bytes bytes.now) at (length into.new) }
    ensures fits { FitsRead into.new result.0 }
    ensures bytes { IsPart (PortItem.Bytes bytes.now) at (got_bytes into.new result.0) result.1 }
{
    let (_, rest) = bytes.split_at(at);
    let count = copy_front(rest, into);
    if count < rest.len() {
        return (Got::Bytes(count), Some(at + count));
    }
    (Got::Bytes(count), None)
}
