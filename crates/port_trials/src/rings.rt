// Rings over sources and sinks in memory, and the calls.
use crate::calls::{PATIENCE, call_port};
use crate::memory::{sink_of, source_of};
use case_rows::{Answered, Answers, CaseFault, Inputs};
use port_objects::{ListSpawner, Tap};
use port_trait::{Sink, Source, Spawner, Wake};
use relay_model::Bytes;
use ring_reader::RingReader;
use ring_writer::RingWriter;
use std::alloc::Global;
use std::sync::Wait;
use std::thread::Threads;

/// Nobody sleeps, so nobody is woken.
#[derive(Drop)]
struct NoWake;

impl Wake for NoWake {
    fn wake(&self) {}
}

/// A ring that reads: whether its thread is started, its source, and the calls.
pub(crate) fn ask_reader<R>(
    rt: R,
    alloc: Global,
    inputs: &mut Inputs<'_>,
    answers: &mut Answers,
) -> Answered
where
    R: Threads + Wait + Copy + Send + 'static,
{
    let refused = refused_of(alloc, inputs)?;
    let source = source_of(alloc, inputs)?;
    call_reader(
        alloc,
        source,
        ListSpawner::new(rt, refused),
        inputs,
        answers,
    )
}

fn call_reader<S, P>(
    alloc: Global,
    source: S,
    spawner: P,
    inputs: &mut Inputs<'_>,
    answers: &mut Answers,
) -> Answered
where
    S: Source + Send + Drop + 'static,
    P: Spawner + Drop,
    P::Runtime: Threads + Wait + Copy + Send + 'static,
{
    let mut spawner = spawner;
    let ring = RingReader::new(alloc, source, &mut spawner, NoWake)?;
    call_port(alloc, ring, None, PATIENCE, inputs, answers)
}

/// A ring that writes: whether its thread is started, its sink, and the calls.
pub(crate) fn ask_writer<R>(
    rt: R,
    alloc: Global,
    inputs: &mut Inputs<'_>,
    answers: &mut Answers,
) -> Answered
where
    R: Threads + Wait + Copy + Send + 'static,
{
    let refused = refused_of(alloc, inputs)?;
    let sink = sink_of(alloc, inputs)?;
    let tap = sink.tap();
    call_writer(
        alloc,
        sink,
        &tap,
        ListSpawner::new(rt, refused),
        inputs,
        answers,
    )
}

fn call_writer<K, P>(
    alloc: Global,
    sink: K,
    tap: &Tap,
    spawner: P,
    inputs: &mut Inputs<'_>,
    answers: &mut Answers,
) -> Answered
where
    K: Sink + Send + Drop + 'static,
    P: Spawner + Drop,
    P::Runtime: Threads + Wait + Copy + Send + 'static,
{
    let mut spawner = spawner;
    let ring = RingWriter::new(alloc, sink, &mut spawner, NoWake)?;
    call_port(alloc, ring, Some(tap), PATIENCE, inputs, answers)
}

/// The numbers of the starts that a spawner refuses.
fn refused_of(alloc: Global, inputs: &mut Inputs<'_>) -> Result<Bytes, CaseFault> {
    match inputs.word()? {
        "started" => Ok(Bytes::of(alloc, &[])?),
        "refused" => Ok(Bytes::of(alloc, &[0])?),
        _ => Err(CaseFault::NoRow),
    }
}
