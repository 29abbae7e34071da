// The live sessions in a slab, found by number.
ghost use Rattle.std.specs.Prelude.{◌≡◌, ◌≢◌, ℕ, suc, ◌<◌, ◌≤◌, ◌+◌, ◌-◌, ◌^◌, ◌&&◌, nat_lt, min, None, Some, true, OnOk, OnSome};
ghost use Rattle.std.specs.Option.{option_copied_mut};
ghost use Rattle.std.specs.Borrow.{sem};
ghost use Rattle.fork_table.specs.Tables.{HasRoom, IsFirstLive, SameBounds, SameRows, Changes, live_in, may_accept_in, row_of, with_session};
ghost use Rattle.fork_table.specs.Lends.{lends_session};

use crate::steps::Steps;
use key_map::KeyMap;
use relay_model::NoMemory;
use slab::Slab;
use std::alloc::Global;
use std::marker::Model;
use std::sync::ledger::Ledger;

/// The live sessions of a command with `fork`, each by its number, and how many may live and come.
#[derive(Drop)]
pub struct ForkTable<T> {
    /// The keys of the rows, by number.
    numbers: KeyMap,
    rows: Slab<T>,
    admitted: u32,
    live: u32,
    max_children: u32,
    stop_after: u32,
}

impl<T> Model for ForkTable<T> {
    ghost use Rattle.fork_table.specs.Tables.{Table, table_code, IsTable};

    ghost Value = { Table T };

    ghost coded = { table_code T.code };

    ghost view = { λ t. record { numbers = t.numbers; rows = t.rows; admitted = t.admitted; live = t.live; max_children = t.max_children; stop_after = t.stop_after } };

    ghost invariant = { λ t. IsTable
        (record
        { numbers = t.numbers; rows = t.rows; admitted = t.admitted; live = t.live; max_children = t.max_children; stop_after = t.stop_after }) };
}

impl<T> ForkTable<T> {
    /// No session; takes no memory.
    pub fn new(alloc: Global, max_children: u32, stop_after: u32) -> ForkTable<T>
        ensures rows { (number : ℕ) → row_of result number ≡ None }
        ensures admitted { result.admitted ≡ 0 }
        ensures children { result.max_children ≡ max_children }
        ensures stop { result.stop_after ≡ stop_after }
    {
        ForkTable {
            numbers: KeyMap::new(alloc),
            rows: Slab::new(alloc),
            admitted: 0,
            live: 0,
            max_children,
            stop_after,
        }
    }

    /// Makes room for one further session.
    pub fn reserve(&mut self) -> Result<(), NoMemory>
        ensures room { OnOk result (HasRoom self.new) }
        ensures rows { SameRows self.old self.new }
        ensures admitted { self.new.admitted ≡ self.old.admitted }
        ensures bounds { SameBounds self.old self.new }
    {
        self.numbers.reserve(1)?;
        self.rows.reserve(1)?;
        Ok(())
    }

    /// Whether fewer sessions live than may, and fewer came than are served.
    pub fn may_accept(&self) -> bool
        ensures { result ≡ may_accept_in self.now }
    {
        self.live < self.max_children && self.admitted < self.stop_after
    }

    /// How many sessions came, which is the number of the next one; none with that number or a greater one lives.
    pub fn next_number(&self) -> u32
        ensures admitted { result ≡ self.now.admitted }
        ensures none { (number : ℕ) → result ≤ number → row_of self.now number ≡ None }
    {
        self.admitted
    }

    /// How many sessions live.
    pub fn live(&self) -> u32
        ensures { result ≡ live_in self.now }
    {
        self.live
    }

    /// The least number from this one on whose session lives.
    pub fn first_from(&self, number: u32) -> Option<u32>
        ensures { IsFirstLive self.now number result }
    {
        self.numbers.first_from(number)
    }

    /// The next session lives from now on, under the next number.
    pub fn admit(&mut self, session: T)
        requires may_accept { may_accept_in self.old ≡ true }
        requires room { HasRoom self.old }
        ensures row { row_of self.new self.old.admitted ≡ Some session }
        ensures others { (number : ℕ) → number ≢ self.old.admitted → row_of self.new number ≡ row_of self.old number }
        ensures admitted { self.new.admitted ≡ self.old.admitted + 1 }
        ensures bounds { SameBounds self.old self.new }
    {
        let key = self.rows.insert_reserved(session);
        self.numbers.put(self.admitted, key);
        self.admitted += 1;
        self.live += 1;
    }

    /// The session with this number; None exactly where it doesn't live. That is one look.
    pub fn session_mut<L: Ledger>(&mut self, number: u32, steps: &mut Steps<L>) -> Option<&mut T>
        ensures* writes_back { sem 𝓛 (lends_session T.row self.entry number result) }
        ensures value { option_copied_mut result ≡ row_of self.old number }
        ensures changes { OnSome result ((session : T) → Changes self.old (with_session self.old number session) number session) }
        ensures ticks { steps.new.ticks ≡ min (steps.old.ticks + 1) (2 ^ 64 - 1) }
    {
        steps.tick();
        match self.numbers.get(number) {
            Some(key) => self.rows.get_mut(key),
            None => None,
        }
    }

    /// The session with this number, which lives no more.
    pub fn retire(&mut self, number: u32) -> Option<T>
        ensures value { result ≡ row_of self.old number }
        ensures row { row_of self.new number ≡ None }
        ensures others { (other : ℕ) → other ≢ number → row_of self.new other ≡ row_of self.old other }
        ensures admitted { self.new.admitted ≡ self.old.admitted }
        ensures bounds { SameBounds self.old self.new }
    {
        let key = self.numbers.remove(number)?;
        self.live -= 1;
        self.rows.try_remove(key)
    }
}
