// The history of a run: its acts, and what it asked to be opened.
ghost use Rattle.std.specs.Prelude.{◌≡◌, ◌<◌, ◌≤◌, ◌∷◌, ◌++◌, ◌-◌, [], length, map, reverse, slice_get, Some, IfOk, OnOk, OnErr};
ghost use Rattle.relay_model.specs.Journals.{Story, Asking};
ghost use Rattle.relay_model.specs.Acts.{copied_act};

use crate::acts::Act;
use crate::commands::Single;
use crate::contents::NoMemory;
use crate::places::Place;
use std::alloc::Global;
use std::marker::Model;

/// The acts of a run in order. Contracts see them newest first, beside the number of acts that it has
/// spare room for.
#[derive(Drop)]
pub struct Journal {
    items: Vec<Act>,
}

impl Model for Journal {
    ghost use Rattle.std.specs.Prelude.{◌-◌, reverse, vec_len, vec_capacity};
    ghost use Rattle.relay_model.specs.Journals.{Story};

    ghost Value = { Story };

    ghost view = { λ journal. record { acts = reverse journal.items.items; spare = vec_capacity journal.items - vec_len journal.items } };
}

impl Journal {
    /// No acts and no room; takes no memory.
    pub fn new(alloc: Global) -> Journal
        ensures { result.acts ≡ [] }
    {
        Journal {
            items: Vec::new(alloc),
        }
    }

    /// The number of acts.
    pub fn len(&self) -> usize
        ensures { result ≡ length self.now.acts }
    {
        self.items.len()
    }

    /// The act at `i`, counted from 0, the oldest first.
    pub fn get(&self, i: usize) -> &Act
        requires { i < length self.now.acts }
        ensures { slice_get (reverse self.now.acts) i ≡ Some result.now }
    {
        &self.items[i]
    }

    /// Makes room for `n` further acts.
    pub fn reserve(&mut self, n: usize) -> Result<(), NoMemory>
        ensures room { OnOk result (n ≤ self.new.spare) }
        ensures kept { self.old.spare ≤ self.new.spare }
        ensures acts { self.new.acts ≡ self.old.acts }
    {
        self.items.reserve(n)?;
        Ok(())
    }

    /// Appends the act into the room that was made, and takes no memory.
    pub fn put(&mut self, act: Act)
        requires { 0 < self.old.spare }
        ensures acts { self.new.acts ≡ act ∷ self.old.acts }
        ensures spare { self.new.spare ≡ self.old.spare - 1 }
    {
        self.items.push_reserved(act);
    }

    /// Appends the act, or changes nothing.
    pub fn push(&mut self, item: Act) -> Result<(), NoMemory>
        ensures ok { OnOk result (self.new.acts ≡ item ∷ self.old.acts) }
        ensures err { OnErr result (self.new.acts ≡ self.old.acts) }
    {
        self.items.push(item)?;
        Ok(())
    }

    /// A copy. The copy of a turn has room for its entries alone.
    #[tactic(auto, using(crate::proofs::Copies::copies_reversed))]
    pub fn copy(&self) -> Result<Journal, NoMemory>
        ensures { IfOk result (λ journal. journal.acts ≡ map copied_act self.now.acts) }
    {
        let items = copy_acts(*self.items.allocator(), self.items.as_slice())?;
        Ok(Journal { items })
    }
}

fn copy_acts(alloc: Global, acts: &[Act]) -> Result<Vec<Act>, NoMemory>
    ensures { IfOk result (λ copied. copied.items ≡ map copied_act acts.now) }
{
    let mut copied = Vec::with_capacity(alloc, acts.len())?;
    for act in acts {
        copied.push(act.copy()?)?;
    }
    Ok(copied)
}

/// What was asked to be opened or listened at, in order.
#[derive(Drop)]
pub struct Askings {
    items: Vec<(Place, Single)>,
}

impl Model for Askings {
    ghost use Rattle.std.specs.Prelude.{◌-◌, vec_len, vec_capacity};
    ghost use Rattle.relay_model.specs.Journals.{Asking, AskedFor};

    ghost Value = { AskedFor };

    ghost view = { λ asked. record { pairs = asked.items.items; spare = vec_capacity asked.items - vec_len asked.items } };
}

impl Askings {
    /// Nothing asked; takes no memory.
    pub fn new(alloc: Global) -> Askings
        ensures { result.pairs ≡ [] }
    {
        Askings {
            items: Vec::new(alloc),
        }
    }

    /// The number of pairs.
    pub fn len(&self) -> usize
        ensures { result ≡ length self.now.pairs }
    {
        self.items.len()
    }

    /// Makes room for `n` further pairs.
    pub fn reserve(&mut self, n: usize) -> Result<(), NoMemory>
        ensures room { OnOk result (n ≤ self.new.spare) }
        ensures pairs { self.new.pairs ≡ self.old.pairs }
    {
        self.items.reserve(n)?;
        Ok(())
    }

    /// Appends the pair into the room that was made, and takes no memory.
    pub fn put(&mut self, place: Place, single: Single)
        requires { 0 < self.old.spare }
        ensures pairs { self.new.pairs ≡ self.old.pairs ++ (place, single) ∷ [] }
        ensures spare { self.new.spare ≡ self.old.spare - 1 }
    {
        self.items.push_reserved((place, single));
    }
}

/// What a recorder kept of a run: its acts, and, for contracts alone, what was asked for.
#[derive(Drop)]
pub struct Kept {
    journal: Journal,
    asked: Askings,
}

impl Kept {
    /// Nothing kept; takes no memory.
    pub fn new(alloc: Global) -> Kept
        ensures journal { result.journal.acts ≡ [] }
        ensures asked { result.asked.pairs ≡ [] }
    {
        Kept {
            journal: Journal::new(alloc),
            asked: Askings::new(alloc),
        }
    }

    /// Its acts.
    pub fn journal(&self) -> &Journal
        ensures { result.now ≡ self.now.journal }
    {
        &self.journal
    }

    /// Makes room for `n` further acts.
    pub fn reserve(&mut self, n: usize) -> Result<(), NoMemory>
        ensures room { OnOk result (n ≤ self.new.journal.spare) }
        ensures kept { self.old.journal.spare ≤ self.new.journal.spare }
        ensures acts { self.new.journal.acts ≡ self.old.journal.acts }
        ensures asked { self.new.asked ≡ self.old.asked }
    {
        self.journal.reserve(n)
    }

    /// Makes room for `n` further askings.
    pub fn reserve_asking(&mut self, n: usize) -> Result<(), NoMemory>
        ensures room { OnOk result (n ≤ self.new.asked.spare) }
        ensures pairs { self.new.asked.pairs ≡ self.old.asked.pairs }
        ensures journal { self.new.journal ≡ self.old.journal }
    {
        self.asked.reserve(n)
    }

    /// Appends the act into the room that was made, and takes no memory.
    pub fn put(&mut self, act: Act)
        requires { 0 < self.old.journal.spare }
        ensures acts { self.new.journal.acts ≡ act ∷ self.old.journal.acts }
        ensures spare { self.new.journal.spare ≡ self.old.journal.spare - 1 }
        ensures asked { self.new.asked ≡ self.old.asked }
    {
        self.journal.put(act);
    }

    /// Appends what was asked into the room that was made, and takes no memory.
    pub fn put_asking(&mut self, place: Place, single: Single)
        requires { 0 < self.old.asked.spare }
        ensures pairs { self.new.asked.pairs ≡ self.old.asked.pairs ++ (place, single) ∷ [] }
        ensures spare { self.new.asked.spare ≡ self.old.asked.spare - 1 }
        ensures journal { self.new.journal ≡ self.old.journal }
    {
        self.asked.put(place, single);
    }
}
