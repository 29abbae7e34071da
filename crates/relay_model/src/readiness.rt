// What a turn names: halves of places that may be ready.
ghost use Rattle.std.specs.Prelude.{◌≡◌, ◌<◌, ◌≤◌, ◌∷◌, ◌++◌, ◌↔◌, [], length, slice_get, Some, IfOk, IsTrue};
ghost use Rattle.std.specs.Bool.{OnTrue, OnFalse};
ghost use Rattle.relay_model.specs.Readiness.{Listed, copied_list, fresh_list};

use crate::contents::NoMemory;
use crate::places::{Half, Place};
use std::alloc::Global;
use std::marker::Model;

/// A half of a place; the half of a door is `ToRead`.
#[derive(Clone, Copy, PartialEq, Eq)]
pub struct ReadyAt {
    pub place: Place,
    pub half: Half,
}

/// How many halves one turn names at most.
pub const MOST_READY: usize = 256;

/// What one turn names, at most 256 entries. A list that `new` made has room for all of them; a copy has room
/// for its entries alone.
#[derive(Drop)]
pub struct TurnList<T> {
    entries: Vec<T>,
    room: usize,
}

/// The halves of places that a turn names.
pub type ReadyList = TurnList<ReadyAt>;

impl<T> Model for TurnList<T> {
    ghost use Rattle.std.specs.Prelude.{◌≤◌, vec_len, vec_capacity};
    ghost use Rattle.relay_model.specs.Readiness.{ListOf};

    ghost Value = { ListOf T };

    ghost view = { λ list. record { entries = list.entries.items; room = list.room } };

    ghost invariant = { λ list. (list.room ≤ vec_capacity list.entries) × (vec_len list.entries ≤ 256) };
}

impl<T: Copy> TurnList<T> {
    /// No entries, with room for 256.
    pub fn new(alloc: Global) -> Result<TurnList<T>, NoMemory>
        ensures { IfOk result (λ list. list ≡ fresh_list) }
    {
        Ok(TurnList {
            entries: Vec::with_capacity(alloc, MOST_READY)?,
            room: MOST_READY,
        })
    }

    /// The number of entries.
    pub fn len(&self) -> usize
        ensures len { result ≡ length self.now.entries }
        ensures bounded { result ≤ 256 }
    {
        self.entries.len()
    }

    /// The entry at `i`, counted from 0.
    pub fn get(&self, i: usize) -> T
        requires { i < length self.now.entries }
        ensures { slice_get self.now.entries i ≡ Some result }
    {
        self.entries[i]
    }

    /// Takes all entries out.
    pub fn clear(&mut self)
        ensures { self.new ≡ record self.old { entries = [] } }
    {
        self.entries.clear();
    }

    /// Appends the entry. False exactly where 256 are held; then nothing changes.
    pub fn push(&mut self, entry: T) -> bool
        requires { 256 ≤ self.old.room }
        ensures full { IsTrue result ↔ (length self.old.entries < 256) }
        ensures pushed { OnTrue result (self.new ≡ record self.old { entries = self.old.entries ++ entry ∷ [] }) }
        ensures refused { OnFalse result (self.new ≡ self.old) }
    {
        if self.entries.len() >= MOST_READY {
            return false;
        }
        self.entries.push_reserved(entry);
        true
    }

    /// A copy, with room for its entries alone.
    pub fn copy(&self) -> Result<TurnList<T>, NoMemory>
        ensures { IfOk result (λ list. list ≡ copied_list self.now) }
    {
        Ok(TurnList {
            entries: Vec::from_slice(*self.entries.allocator(), self.entries.as_slice())?,
            room: 0,
        })
    }

    /// Makes these its entries, and takes no memory.
    pub fn set(&mut self, other: &TurnList<T>)
        requires { 256 ≤ self.old.room }
        ensures { self.new ≡ record self.old { entries = other.now.entries } }
    {
        self.entries.clear();
        let Ok(()) = self.entries.extend_from_slice(other.entries.as_slice()) else {
            unreachable!()
        };
    }
}
