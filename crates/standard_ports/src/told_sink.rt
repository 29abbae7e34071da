// What a thread's sink failed is told beside the ring: a failure after the last act of a run is in no history.

use port_trait::{Sink, SinkTook};
use relay_model::NoMemory;
use std::alloc::Global;
use std::sync::Arc;
use std::sync::atomic::{AtomicBool, Ordering};

/// Whether a sink has failed, seen from any thread.
#[derive(Drop)]
pub struct Failures {
    seen: Arc<AtomicBool, Global>,
}

impl Failures {
    /// None yet.
    pub fn none(alloc: Global) -> Result<Failures, NoMemory> {
        Ok(Failures {
            seen: Arc::new(alloc, AtomicBool::new(false))?,
        })
    }

    /// The same, for another thread.
    pub fn share(&self) -> Result<Failures, NoMemory> {
        Ok(Failures {
            seen: Arc::try_clone(&self.seen)?,
        })
    }

    /// Whether the sink has failed so far.
    pub fn any(&self) -> bool {
        self.seen.load(Ordering::SeqCst)
    }

    fn note(&self) {
        self.seen.store(true, Ordering::SeqCst);
    }
}

/// A sink that tells its failures. Each call is that call on the sink.
#[derive(Drop)]
pub struct ToldSink<K> {
    sink: K,
    failures: Failures,
}

impl<K: Sink> ToldSink<K> {
    /// This sink, whose failures are told there.
    pub fn new(sink: K, failures: Failures) -> ToldSink<K> {
        ToldSink { sink, failures }
    }
}

impl<K: Sink> Sink for ToldSink<K> {
    ghost took = { λ told. K.took told.sink };

    ghost holds = { λ told. K.holds told.sink };

    ghost faults = { λ told. K.faults told.sink };

    ghost finished = { λ told. K.finished told.sink };

    fn write(&mut self, bytes: &[u8]) -> SinkTook {
        let took = self.sink.write(bytes);
        if let SinkTook::Failed = took {
            self.failures.note();
        }
        took
    }

    fn finish(&mut self) -> bool {
        let finished = self.sink.finish();
        if !finished {
            self.failures.note();
        }
        finished
    }
}
