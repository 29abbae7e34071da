// Runs over a desk of ports, as the program has one, with a file of the journal in memory.
ghost use Rattle.std.specs.Prelude.{◌≡◌, [], IfSome};

use crate::files::{add_left, remove};
use crate::gates::{GatedSource, Gates, NoWake, OpeningSink};
use crate::servers::Server;
use crate::systems::over_program_maker;
use port_objects::{ListSpawner, MakeItem, MemMaker, MemPoller, MemPort, MemSink, MemSource, Tap};
use port_trait::{Port, Sink, Source};
use relay_model::{Bytes, NoMemory, Side, Text, Texts};
use ring_reader::RingReader;
use ring_writer::RingWriter;
use std::alloc::Global;
use std::fs::Files;
use std::net::Net;
use std::rt::HostRuntime;
use std::sync::Wait;
use std::thread::Threads;
use std::time::Clock;
use worked_rows::{
    DeskRun, Input, Line, Look, Output, ROOM, RowFault, RowSystem, RunResult, Setting, Streams,
    WorkedRow, carry_out, port_of, source_of,
};
use world_trait::Recorder;

/// A run of a row's words, and what its desk is made of and with.
#[derive(Clone, Copy)]
pub(crate) struct Trial<'a, R> {
    pub(crate) rt: R,
    pub(crate) host: HostRuntime,
    pub(crate) run: DeskRun<'a>,
    pub(crate) script: &'a [Line<'a>],
    pub(crate) setting: Setting<'a>,
}

/// Runs the words of the row over a desk that skips its history, and over one that keeps it.
pub(crate) fn run_row<R>(
    rt: R,
    host: HostRuntime,
    alloc: Global,
    row: &WorkedRow<'_>,
    words: &[Text],
) -> Result<Vec<RunResult>, RowFault>
where
    R: Files + Net + Clock + Threads + Wait + Copy + Send + Drop + 'static,
{
    let setting = Setting::of(row)?;
    let mut runs = Vec::new(alloc);
    for recorder in [Recorder::Skip, Recorder::Keep] {
        let trial = Trial {
            rt,
            host,
            run: DeskRun::of(alloc, row, words, recorder),
            script: row.script.as_slice(),
            setting,
        };
        runs.push(run_once(&trial)?)?;
    }
    Ok(runs)
}

/// Runs the words once, and looks at the file that they are to leave.
fn run_once<R>(trial: &Trial<'_, R>) -> Result<RunResult, RowFault>
where
    R: Files + Net + Clock + Threads + Wait + Copy + Send + Drop + 'static,
{
    let file = trial.setting.file;
    remove(&trial.host, file);
    let mut ran = match trial.setting.system {
        RowSystem::Served => beside_server(trial)?,
        _ => over_output(trial)?,
    };
    add_left(&trial.host, file, &mut ran)?;
    Ok(ran)
}

/// Runs them beside a server, whose address stands in place of the last word.
fn beside_server<R>(trial: &Trial<'_, R>) -> Result<RunResult, RowFault>
where
    R: Files + Net + Clock + Threads + Wait + Copy + Send + Drop + 'static,
{
    let Ok(server) = Server::start(&trial.rt, &trial.host) else {
        return Err(RowFault::Memory);
    };
    let ran = over_words_to(trial, server.port());
    server.join(&trial.rt, &trial.host);
    ran
}

fn over_words_to<R>(trial: &Trial<'_, R>, port: u16) -> Result<RunResult, RowFault>
where
    R: Files + Net + Clock + Threads + Wait + Copy + Send + Drop + 'static,
{
    let words = words_to(trial.run.alloc, trial.run.words, port)?;
    let run = DeskRun {
        words: words.as_slice(),
        ..trial.run
    };
    over_output(&Trial { run, ..*trial })
}

/// The words, with the address of this port in place of the last one.
fn words_to(alloc: Global, words: &[Text], port: u16) -> Result<Texts, NoMemory> {
    let others = match words {
        [others @ .., _] => others,
        [] => words,
    };
    let mut copies = Texts::new(alloc);
    for word in others {
        copies.push(word.copy()?)?;
    }
    let address = format!(in alloc; "TCP:127.0.0.1:{port}")?;
    copies.push(Text::of(alloc, address.as_bytes())?)?;
    Ok(copies)
}

/// Over the streams of the row.
fn over_output<R>(trial: &Trial<'_, R>) -> Result<RunResult, RowFault>
where
    R: Files + Net + Clock + Threads + Wait + Copy + Send + Drop + 'static,
{
    match trial.setting.output {
        Output::Memory => in_memory(trial),
        Output::Ring(room) => behind_rings(trial, room),
    }
}

/// Over streams in memory.
fn in_memory<R>(trial: &Trial<'_, R>) -> Result<RunResult, RowFault>
where
    R: Files + Net + Clock + Threads + Copy + Drop,
{
    let stdin = port_of(trial.run.alloc, trial.script, Side::Left, 0)?;
    let stdout = MemPort::new(trial.run.alloc, ROOM)?;
    let tap = stdout.tap();
    over_streams(trial, Streams { stdin, stdout }, tap)
}

/// Over streams behind rings.
fn behind_rings<R>(trial: &Trial<'_, R>, room: usize) -> Result<RunResult, RowFault>
where
    R: Files + Net + Clock + Threads + Wait + Copy + Send + Drop + 'static,
{
    let source = source_of(trial.run.alloc, trial.script)?;
    let output = MemSink::new(trial.run.alloc, room)?;
    behind_gates(trial, source, output)
}

/// Over a source and a sink with the gates of the row.
fn behind_gates<R>(
    trial: &Trial<'_, R>,
    source: MemSource,
    output: MemSink,
) -> Result<RunResult, RowFault>
where
    R: Files + Net + Clock + Threads + Wait + Copy + Send + Drop + 'static,
{
    let tap = output.tap();
    let gates = Gates::of(trial.run.alloc, trial.setting.input)?;
    let source = GatedSource::new(gates.source, source);
    let ran = over_rings(trial, source, OpeningSink::new(gates.sink, output), tap);
    gates.end.open();
    ran
}

/// Over rings of a source and a sink.
fn over_rings<R, S, K>(
    trial: &Trial<'_, R>,
    source: S,
    sink: K,
    tap: Tap,
) -> Result<RunResult, RowFault>
where
    R: Files + Net + Clock + Threads + Wait + Copy + Send + Drop + 'static,
    S: Source + Send + Drop + 'static,
    K: Sink + Send + Drop + 'static,
{
    let alloc = trial.run.alloc;
    let mut spawner = ListSpawner::new(trial.rt, refused_of(alloc, trial.setting.input)?);
    let stdin = RingReader::new(alloc, source, &mut spawner, NoWake)?;
    let stdout = RingWriter::new(alloc, sink, &mut spawner, NoWake)?;
    over_streams(trial, Streams { stdin, stdout }, tap)
}

/// The numbers of the threads that aren't started; that of standard input is the first.
fn refused_of(alloc: Global, input: Input) -> Result<Bytes, NoMemory> {
    match input {
        Input::Unstarted => Bytes::of(alloc, &[0]),
        _ => Bytes::of(alloc, &[]),
    }
}

/// Over these streams, which have passed no bytes. The tap is that of standard output.
fn over_streams<R, I: Port, O: Port>(
    trial: &Trial<'_, R>,
    streams: Streams<I, O>,
    tap: Tap,
) -> Result<RunResult, RowFault>
where
    R: Files + Net + Clock + Threads + Copy + Drop,
    requires given { IfSome (I.seen streams.stdin).gave (λ all. all ≡ []) }
    requires taken { IfSome (O.seen streams.stdout).took (λ all. all ≡ []) }
{
    match trial.setting.system {
        RowSystem::Memory => over_memory(trial, streams, tap),
        _ => over_program_maker(trial, streams, tap),
    }
}

/// Over a maker of one port, which gives what the script says at the right.
fn over_memory<R, I: Port, O: Port>(
    trial: &Trial<'_, R>,
    streams: Streams<I, O>,
    tap: Tap,
) -> Result<RunResult, RowFault>
    requires given { IfSome (I.seen streams.stdin).gave (λ all. all ≡ []) }
    requires taken { IfSome (O.seen streams.stdout).took (λ all. all ≡ []) }
{
    let made = port_of(trial.run.alloc, trial.script, Side::Right, ROOM)?;
    over_made(trial.run, streams, tap, made)
}

/// Over a maker of this port.
fn over_made<I: Port, O: Port>(
    run: DeskRun<'_>,
    streams: Streams<I, O>,
    tap: Tap,
    made: MemPort,
) -> Result<RunResult, RowFault>
    requires given { IfSome (I.seen streams.stdin).gave (λ all. all ≡ []) }
    requires taken { IfSome (O.seen streams.stdout).took (λ all. all ≡ []) }
{
    let looks = [
        Look {
            name: "stdout",
            tap,
        },
        Look {
            name: "made",
            tap: made.tap(),
        },
    ];
    match maker_of(run.alloc, made) {
        Ok(maker) => carry_out(run, streams, maker, MemPoller::new(), &looks),
        Err(NoMemory) => Err(RowFault::Memory),
    }
}

/// A maker of one port.
fn maker_of(alloc: Global, port: MemPort) -> Result<MemMaker, NoMemory> {
    let mut maker = MemMaker::new(alloc);
    maker.add(MakeItem::Port(port))?;
    Ok(maker)
}
