// Spawners for tests: one that never fails, and one that fails where it is told to.
ghost use Rattle.std.specs.Prelude.{◌≡◌, ◌+◌, ◌-◌, ◌^◌, ◌==◌, min, true, false, not, Some};
ghost use Rattle.std.specs.List.{list_any};
ghost use Rattle.port_trait.specs.Counting.{Counted};

use port_trait::Spawner;
use relay_model::Bytes;
use std::marker::Model;
use std::thread::Threads;

/// Runs each work in a thread, or in the call where no thread can be made.
#[derive(Drop)]
pub struct SureSpawner<R> {
    threads: R,
}

impl<R: Threads> SureSpawner<R> {
    /// Starts threads with this handle.
    pub fn new(threads: R) -> SureSpawner<R> {
        SureSpawner { threads }
    }
}

impl<R: Threads> Spawner for SureSpawner<R> {
    type Runtime = R;

    ghost faults = { λ _. 0 };

    ghost sure = { λ _. true };

    fn refuses(&mut self) -> bool
        ensures { result ≡ false }
    {
        false
    }

    fn threads(&self) -> &R {
        &self.threads
    }

    fn works_here(&mut self) -> bool
        ensures { result ≡ true }
    {
        true
    }
}

/// Refuses the starts whose numbers, counted from 0, stand in its list.
#[derive(Drop)]
pub struct ListSpawner<R> {
    threads: R,
    fails: Bytes,
    started: u64,
    faults: u64,
}

impl<R> Model for ListSpawner<R> {
    ghost use Rattle.port_objects.specs.Spawners.{SpawnerState};

    ghost Value = { SpawnerState };

    ghost view = { λ spawner. record { fails = spawner.fails; started = spawner.started; faults = spawner.faults } };
}

impl<R: Threads> ListSpawner<R> {
    /// Starts threads with this handle.
    pub fn new(threads: R, fails: Bytes) -> ListSpawner<R>
        ensures { result ≡ record { fails = fails; started = 0; faults = 0 } }
    {
        ListSpawner {
            threads,
            fails,
            started: 0,
            faults: 0,
        }
    }
}

impl<R: Threads> Spawner for ListSpawner<R> {
    type Runtime = R;

    ghost faults = { λ spawner. spawner.faults };

    ghost script = { λ spawner. Some (record { fails = spawner.fails; started = spawner.started }) };

    ghost sure = { λ _. true };

    /// Counts the start, and refuses it where its number stands in the list.
    fn refuses(&mut self) -> bool
        ensures script { result ≡ list_any (λ fail. fail == self.old.started) self.old.fails }
        ensures started { self.new.started ≡ min (self.old.started + 1) (2 ^ 64 - 1) }
        ensures fails { self.new.fails ≡ self.old.fails }
        ensures counted { Counted result self.old.faults self.new.faults }
    {
        let number = self.started;
        self.started = number.saturating_add(1);
        if is_among(self.fails.as_slice(), number) {
            self.faults = self.faults.saturating_add(1);
            return true;
        }
        false
    }

    fn threads(&self) -> &R {
        &self.threads
    }

    fn works_here(&mut self) -> bool
        ensures here { result ≡ true }
        ensures kept { self.new ≡ self.old }
    {
        true
    }
}

fn is_among(fails: &[u8], number: u64) -> bool
    ensures { result ≡ list_any (λ fail. fail == number) fails.now }
{
    fails.iter().any(|fail| u64::from(*fail) == number)
}
