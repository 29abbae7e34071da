// How far a reader's port has come with its thread.
ghost use Rattle.std.specs.Prelude.{◌≡◌, true};
ghost use Rattle.ring_reader.specs.Readers.{is_begun, is_running, stage_of};

use crate::reader_start::FeedPromise;
use crate::reader_thread::Fed;
use port_trait::{Source, Task};
use ring_queue::ThreadEnding;

/// The thread that waits for the begin, a thread that couldn't be started, the thread at work, and the source
/// that it handed back.
#[derive(Drop)]
pub(crate) enum ReaderStage<S: Source + Drop> {
    Waiting(Task<ThreadEnding<Fed<S>>, FeedPromise<S>>),
    Refused,
    Running(Task<ThreadEnding<Fed<S>>, FeedPromise<S>>),
    Over(S),
}

impl<S: Source + Drop> ReaderStage<S> {
    /// The stage of a thread that was to be started.
    pub(crate) fn of(task: Option<Task<ThreadEnding<Fed<S>>, FeedPromise<S>>>) -> ReaderStage<S>
        ensures { result ≡ stage_of task }
    {
        match task {
            Some(task) => ReaderStage::Waiting(task),
            None => ReaderStage::Refused,
        }
    }

    pub(crate) fn is_begun(&self) -> bool
        ensures { result ≡ is_begun self.now }
    {
        match self {
            ReaderStage::Waiting(_) | ReaderStage::Refused => false,
            ReaderStage::Running(_) | ReaderStage::Over(_) => true,
        }
    }

    pub(crate) fn is_running(&self) -> bool
        ensures { result ≡ is_running self.now }
    {
        match self {
            ReaderStage::Running(_) => true,
            ReaderStage::Waiting(_) | ReaderStage::Refused | ReaderStage::Over(_) => false,
        }
    }
}
