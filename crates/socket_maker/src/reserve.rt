// Descriptors that are kept in reserve for what a peer's session opens.
ghost use Rattle.std.specs.Prelude.{◌≡◌, ◌≤◌, ◌<◌, ◌+◌, ◌-◌, true, false};

use mio::{Registry, Token, Waker};
use mio_poller::PROBE;
use std::alloc::Global;
use std::io;
use std::marker::Model;
use std::rc::Rc;

/// The most descriptors that are kept for one peer: one for its connection, and five for what is opened for it. The two
/// pipes of a program take four.
const MOST: usize = 6;

/// Descriptors that nothing else uses, so that they can be given up for others. They are copies of the poller's own.
#[derive(Drop)]
pub struct Reserve {
    alloc: Global,
    registry: Rc<Registry, Global>,
    spares: Vec<Registry>,
    wanted: usize,
}

impl Model for Reserve {
    ghost use Rattle.std.specs.Prelude.{◌≤◌, ◌<◌, length};
    ghost use Rattle.socket_maker.specs.Reserves.{ReserveState};

    ghost Value = { ReserveState };

    ghost view = { λ reserve. record { held = length reserve.spares.items; wanted = reserve.wanted } };

    ghost invariant = { λ reserve. (0 < reserve.wanted) × (length reserve.spares.items ≤ reserve.wanted) };
}

impl Reserve {
    /// Holds nothing yet.
    pub fn of(alloc: Global, registry: Rc<Registry, Global>) -> Reserve
        ensures { result.held ≡ 0 }
    {
        Reserve {
            alloc,
            registry,
            spares: Vec::new(alloc),
            wanted: MOST,
        }
    }

    /// Takes one more descriptor. False where all that are wanted are held, and where none can be had.
    fn take_one(&mut self) -> bool
        ensures taken { result ≡ true → self.new.held ≡ self.old.held + 1 }
        ensures refused { result ≡ false → self.new.held ≡ self.old.held }
        ensures wanted { self.new.wanted ≡ self.old.wanted }
    {
        if self.spares.len() >= self.wanted {
            return false;
        }
        match self.registry.try_clone() {
            Ok(spare) => self.spares.push(spare).is_ok(),
            Err(_) => false,
        }
    }

    /// Takes as many descriptors as are wanted, as far as they can be had. Answers how many are lacking.
    pub fn fill(&mut self) -> usize
        ensures lacking { result ≡ self.new.wanted - self.new.held }
        ensures full { result ≡ 0 → self.new.held ≡ self.new.wanted }
        ensures some { 0 < self.new.wanted }
        ensures more { self.old.held ≤ self.new.held }
        ensures wanted { self.new.wanted ≡ self.old.wanted }
    {
        self.take_many(0);
        self.wanted - self.spares.len()
    }

    /// Sees that all are held but one, which is left to the connection of a peer. Answers 0 where they are, and else how
    /// many are lacking, with that one. Whether the connection has a descriptor its accepting sees by itself.
    pub fn admit(&mut self) -> usize
        ensures given { result ≡ 0 → self.new.held + 1 ≡ self.new.wanted }
        ensures wanted { self.new.wanted ≡ self.old.wanted }
    {
        self.take_many(1);
        match self.wanted - self.spares.len() {
            0 => {
                let _given = self.give_one();
                0
            }
            1 => 0,
            lacking => lacking,
        }
    }

    /// Takes as many descriptors as are wanted but `left`, as far as they can be had.
    fn take_many(&mut self, left: usize)
        ensures more { self.old.held ≤ self.new.held }
        ensures wanted { self.new.wanted ≡ self.old.wanted }
    {
        for _ in left..self.wanted - self.spares.len() {
            if !self.take_one() {
                return;
            }
        }
    }

    /// Wants no more from now on than can be had now, while nothing is open that could be closed, but one at least.
    pub fn fit(&mut self) {
        self.fill();
        self.wanted = self.spares.len().max(1);
    }

    /// Gives one away, if any is held. Who lets it go can have a descriptor in its place.
    pub fn give_one(&mut self) -> Option<Registry>
        ensures held { self.new.held ≡ self.old.held - 1 }
        ensures wanted { self.new.wanted ≡ self.old.wanted }
    {
        self.spares.pop()
    }

    /// Gives up all, and answers true, where something is held and too few besides can be had.
    pub fn gives_up(&mut self) -> bool
        ensures given { result ≡ true → self.new.held ≡ 0 }
        ensures kept { result ≡ false → self.new.held ≡ self.old.held }
        ensures wanted { self.new.wanted ≡ self.old.wanted }
    {
        let registry = &self.registry;
        if self.spares.is_empty() || can_take(self.alloc, MOST, || registry.try_clone()) {
            return false;
        }
        self.spares.clear();
        true
    }
}

/// Whether so many descriptors can be had, each with an open file description of its own, as an accepting needs it. They
/// are taken (eventfd(2)) and given back. A copy of a descriptor is no test, since it shares the description of its
/// original: it can be had also while the system's table of open files is full (accept(2), `ENFILE`).
pub fn can_have(alloc: Global, registry: &Registry, count: usize) -> bool {
    can_take(alloc, count, || Waker::new(registry, Token(PROBE)))
}

/// Whether so many of these can be had. They are taken and given back.
fn can_take<T: Drop, F: Fn() -> io::Result<T>>(alloc: Global, count: usize, take: F) -> bool
    requires { F.IsAlwaysCallable take }
{
    let mut had = Vec::new(alloc);
    for _ in 0..count {
        let Ok(spare) = take() else {
            return false;
        };
        if had.push(spare).is_err() {
            return false;
        }
    }
    true
}
