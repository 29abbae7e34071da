// Works are started in threads of their own; who waits for them is woken.
ghost use Rattle.std.specs.Prelude.{◌≡◌, ◌≤◌, ℕ, Bool, true, false, not, Option, None, IfOk, IfErr, OnErr, IsOk, IsErr};
ghost use Rattle.port_trait.specs.Counting.{Rose, Counted};
ghost use Rattle.port_trait.specs.Tasks.{TaskKeeps, TaskGives, StartScript, refuses_next, after_start};

use std::thread;
use std::thread::{Promise, PromisedHandle, Threads};

/// A work that was started, or one that was done in the call that was to start it.
#[derive(Drop)]
pub enum Task<T: Drop, Q: Promise<T>> {
    Running(PromisedHandle<T, Q>),
    Ended(T),
}

impl<T: Drop, Q: Promise<T>> Task<T, Q> {
    /// Waits until the work has ended, and hands out what it gave.
    pub fn join<R: Threads>(self, rt: &R) -> T
        ensures { TaskGives Q.kept_by self result }
    {
        match self {
            Task::Running(handle) => handle.join(rt),
            Task::Ended(given) => given,
        }
    }
}

/// What starts works.
pub trait Spawner {
    type Runtime: Threads;

    ghost faults: { Self → ℕ };
    // which starts it refuses from the outset, and how many came; None where it refuses none
    ghost script: { Self → Option StartScript } = { λ _. None };
    // whether a work for which no thread can be made is always done in the call
    ghost sure: { Self → Bool } = { λ _. false };

    /// Whether the next start is refused from the outset.
    fn refuses(&mut self) -> bool
        ensures refused { result ≡ refuses_next (script self.old) }
        ensures script { script self.new ≡ after_start (script self.old) }
        ensures sure { sure self.new ≡ sure self.old }
        ensures counted { Counted result (faults self.old) (faults self.new) };

    /// What threads are started with.
    fn threads(&self) -> &Self::Runtime;

    /// No thread could be made: whether the work is to be done in the call instead.
    fn works_here(&mut self) -> bool
        ensures here { sure self.old ≡ true → result ≡ true }
        ensures kept { (script self.new ≡ script self.old) × (sure self.new ≡ sure self.old) }
        ensures counted { Counted (not result) (faults self.old) (faults self.new) };

    /// Starts the work. Where it can't be started, the work is handed back.
    final fn start<T, Q, F>(&mut self, promise: Q, work: F) -> Result<Task<T, Q>, F>
    where
        Self: Sized,
        T: Send + Drop + 'static,
        Q: Promise<T> + Drop,
        F: FnOnce() -> T + Send + 'static,
        requires runs { F.pre work }
        requires keeps { (given : T) → F.post work given → Q.kept_by promise given }
        ensures refuses { refuses_next (script self.old) ≡ true → IsErr result }
        ensures starts { refuses_next (script self.old) ≡ false → sure self.old ≡ true → IsOk result }
        ensures script { (script self.new ≡ after_start (script self.old)) × (sure self.new ≡ sure self.old) }
        ensures grows { faults self.old ≤ faults self.new }
        ensures started { IfOk result (TaskKeeps Q.kept_by promise) }
        ensures refused { OnErr result (Rose (faults self.old) (faults self.new)) }
        ensures back { IfErr result (λ back. back ≡ work) }
    {
        if self.refuses() {
            return Err(work);
        }
        match thread::spawn_with(self.threads(), promise, work) {
            Ok(handle) => Ok(Task::Running(handle)),
            Err(refused) => {
                if self.works_here() {
                    Ok(Task::Ended((refused.value)()))
                } else {
                    Err(refused.value)
                }
            }
        }
    }
}

/// Starts each work in a thread of the system. A thread that can't be made is a fault.
#[derive(Drop)]
pub struct StdSpawner<R> {
    threads: R,
    faults: u64,
}

impl<R: Threads> StdSpawner<R> {
    /// Starts threads with this handle.
    pub fn new(threads: R) -> StdSpawner<R> {
        StdSpawner { threads, faults: 0 }
    }
}

impl<R: Threads> Spawner for StdSpawner<R> {
    type Runtime = R;

    ghost faults = { λ spawner. spawner.faults };

    fn refuses(&mut self) -> bool {
        false
    }

    fn threads(&self) -> &R {
        &self.threads
    }

    fn works_here(&mut self) -> bool {
        self.faults = self.faults.saturating_add(1);
        false
    }
}

/// What tells a waiting loop that it has something to do. It promises nothing.
pub trait Wake {
    fn wake(&self);
}
