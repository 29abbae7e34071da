// What the thread of a ring hands back.
ghost use Rattle.std.specs.Prelude.{◌≡◌};
ghost use Rattle.ring_queue.specs.declared.ending.ThreadEnding.TheVariants as endings;

use std::sync::Wait;
use std::thread;

/// What the thread came to, or nothing where its port was let go before.
#[derive(Drop)]
pub enum ThreadEnding<T> {
    Done(T),
    GaveUp,
}

impl<T> ThreadEnding<T> {
    /// What the thread came to. It gives up only once its port is gone, which then joins it no more: a port that did
    /// would wait for what never comes.
    pub fn take_result<R: Wait>(self, rt: &R) -> T
        ensures { self ≡ endings.Done result }
    {
        match self {
            ThreadEnding::Done(done) => done,
            ThreadEnding::GaveUp => {
                for _ in rt.forever() {
                    thread::yield_now();
                }
                unreachable!()
            }
        }
    }
}
