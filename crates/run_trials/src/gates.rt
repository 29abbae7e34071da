// A gate between two threads, a source that waits at it, and a sink that opens it.
ghost use Rattle.std.specs.Prelude.{Some};

use port_objects::{MemSink, MemSource};
use port_trait::{Sink, SinkTook, Source, SourceGot, Wake};
use relay_model::NoMemory;
use std::alloc::Global;
use std::sync::Arc;
use std::sync::atomic::{AtomicU64, Ordering};
use std::thread;
use worked_rows::Input;

/// The byte that opens a gate.
const KEY: u8 = b'r';

/// How often a source looks whether its gate is open.
const LOOKS: u32 = 5_000_000;

/// Opened once, by one thread for another.
#[derive(Drop)]
pub(crate) struct FileGate {
    opened: Arc<AtomicU64, Global>,
}

impl FileGate {
    /// A gate that is shut.
    fn shut(alloc: Global) -> Result<FileGate, NoMemory> {
        let opened = Arc::new(alloc, AtomicU64::new(0))?;
        Ok(FileGate { opened })
    }

    /// Another hand on it, where one is wanted.
    fn another_if(&self, is_wanted: bool) -> Result<Option<FileGate>, NoMemory> {
        if !is_wanted {
            return Ok(None);
        }
        match Arc::try_clone(&self.opened) {
            Ok(opened) => Ok(Some(FileGate { opened })),
            Err(_) => Err(NoMemory),
        }
    }

    pub(crate) fn open(&self) {
        self.opened.store(1, Ordering::SeqCst);
    }

    /// Waits until it is open. False where it wasn't at the last look.
    fn wait(&self) -> bool {
        for _ in 0..LOOKS {
            if self.opened.load(Ordering::SeqCst) == 1 {
                return true;
            }
            thread::yield_now();
        }
        false
    }
}

/// The hands on a row's gate: of its source, of its sink, and of the end of its run, which opens it for good.
#[derive(Drop)]
pub(crate) struct Gates {
    pub(crate) source: Option<FileGate>,
    pub(crate) sink: Option<FileGate>,
    pub(crate) end: FileGate,
}

impl Gates {
    /// The gate of this input.
    pub(crate) fn of(alloc: Global, input: Input) -> Result<Gates, NoMemory> {
        let end = FileGate::shut(alloc)?;
        let source = end.another_if(matches!(input, Input::Gated | Input::Held))?;
        let sink = end.another_if(matches!(input, Input::Gated))?;
        Ok(Gates { source, sink, end })
    }
}

/// A source in memory that waits at its gate, where it has one, and fails where that stays shut.
#[derive(Drop)]
pub(crate) struct GatedSource {
    gate: Option<FileGate>,
    source: MemSource,
    faults: u64,
    ends: u64,
}

impl GatedSource {
    pub(crate) fn new(gate: Option<FileGate>, source: MemSource) -> GatedSource {
        GatedSource {
            gate,
            source,
            faults: 0,
            ends: 0,
        }
    }

    fn is_let_through(&self) -> bool {
        match &self.gate {
            Some(gate) => gate.wait(),
            None => true,
        }
    }
}

impl Source for GatedSource {
    ghost faults = { λ source. source.faults };

    ghost ends = { λ source. source.ends };

    fn read(&mut self, into: &mut [u8]) -> SourceGot {
        if !self.is_let_through() {
            self.faults = self.faults.saturating_add(1);
            return SourceGot::Failed;
        }
        match self.source.read(into) {
            SourceGot::Bytes(count) => SourceGot::Bytes(count),
            SourceGot::End => {
                self.ends = self.ends.saturating_add(1);
                SourceGot::End
            }
            SourceGot::Failed => {
                self.faults = self.faults.saturating_add(1);
                SourceGot::Failed
            }
        }
    }
}

/// A sink in memory that opens its gate, where it has one, once it took the key.
#[derive(Drop)]
pub(crate) struct OpeningSink {
    gate: Option<FileGate>,
    sink: MemSink,
}

impl OpeningSink {
    pub(crate) fn new(gate: Option<FileGate>, sink: MemSink) -> OpeningSink {
        OpeningSink { gate, sink }
    }

    fn open_for(&self, taken: &[u8]) {
        if let Some(gate) = &self.gate {
            if taken.contains(&KEY) {
                gate.open();
            }
        }
    }
}

impl Sink for OpeningSink {
    ghost took = { λ sink. Some sink.sink.intake.bytes };

    ghost faults = { λ sink. sink.sink.faults };

    ghost finished = { λ sink. sink.sink.finished };

    fn write(&mut self, bytes: &[u8]) -> SinkTook {
        let took = self.sink.write(bytes);
        if let SinkTook::Took(count) = took {
            self.open_for(&bytes[..count]);
        }
        took
    }

    fn finish(&mut self) -> bool {
        self.sink.finish()
    }
}

/// The poller looks by itself, so nobody is woken.
#[derive(Drop)]
pub(crate) struct NoWake;

impl Wake for NoWake {
    fn wake(&self) {}
}
