// A run as the program makes one: over a desk of these ports, with a file of the journal in memory.
ghost use Rattle.std.specs.Prelude.{◌≡◌, [], IfSome};

use crate::faults::RowFault;
use crate::rows::WorkedRow;
use crate::runs::{RunResult, part};
use crate::seen::{Look, back_line, taken_lines};
use port_desk::{Desk, Standard};
use port_objects::{MemPort, MemSink, Tap};
use port_trait::{Maker, Poller, Port};
use relay_model::{NoMemory, Text};
use socat_top::{Shipped, Written, run_written};
use std::alloc::Global;
use world_trait::Recorder;

/// For how many bytes a port in memory has room.
pub const ROOM: usize = 65_536;

/// What is run, and by which desk.
#[derive(Clone, Copy)]
pub struct DeskRun<'a> {
    pub alloc: Global,
    pub words: &'a [Text],
    pub turns: u64,
    /// For how many bytes the file of the journal has room.
    pub room: usize,
    pub recorder: Recorder,
}

impl<'a> DeskRun<'a> {
    /// The run of a row's words by such a desk.
    pub fn of(
        alloc: Global,
        row: &WorkedRow<'_>,
        words: &'a [Text],
        recorder: Recorder,
    ) -> DeskRun<'a> {
        DeskRun {
            alloc,
            words,
            turns: row.turns,
            room: row.room,
            recorder,
        }
    }
}

/// Standard input and output.
#[derive(Drop)]
pub struct Streams<I, O> {
    pub stdin: I,
    pub stdout: O,
}

/// Carries out the words over a desk of these ports, which have passed no bytes yet.
pub fn carry_out<M, P, I: Port, O: Port>(
    run: DeskRun<'_>,
    streams: Streams<I, O>,
    maker: M,
    poller: P,
    looks: &[Look],
) -> Result<RunResult, RowFault>
where
    M: Maker + Drop,
    P: Poller + Drop,
    requires given { IfSome (I.seen streams.stdin).gave (λ all. all ≡ []) }
    requires taken { IfSome (O.seen streams.stdout).took (λ all. all ≡ []) }
{
    let Streams { stdin, stdout } = streams;
    let stderr = MemPort::new(run.alloc, ROOM)?;
    let mut file = MemSink::new(run.alloc, run.room)?;
    let (said, saved) = (stderr.tap(), file.tap());
    let standard = Standard {
        stdin,
        stdout,
        stderr,
    };
    let written = run_over_desk(run, standard, maker, poller, &mut file)?;
    collect_run(run.alloc, &written, &said, &saved, looks)
}

/// The run over a new desk, without what its clauses say of its end: nothing here asks for that.
fn run_over_desk<M, P, I: Port, O: Port>(
    run: DeskRun<'_>,
    standard: Standard<I, O, MemPort>,
    maker: M,
    poller: P,
    file: &mut MemSink,
) -> Result<Written<I, O, MemPort>, NoMemory>
where
    M: Maker + Drop,
    P: Poller + Drop,
    requires given { IfSome (I.seen standard.stdin).gave (λ all. all ≡ []) }
    requires taken { IfSome (O.seen standard.stdout).took (λ all. all ≡ []) }
    requires silent { standard.stderr.intake.bytes ≡ [] }
{
    let desk = Desk::new(run.alloc, standard, maker, poller, run.recorder)?;
    Ok(run_written(run.alloc, desk, run.words, run.turns, file))
}

/// What the run left.
fn collect_run<I: Port, O: Port>(
    alloc: Global,
    written: &Written<I, O, MemPort>,
    said: &Tap,
    saved: &Tap,
    looks: &[Look],
) -> Result<RunResult, RowFault> {
    let Shipped {
        outcome,
        standard,
        kept,
        ..
    } = &written.shipped;
    let mut ports = taken_lines(alloc, looks)?;
    ports.push(back_line(alloc, "stdin", &standard.stdin)?)?;
    ports.push(back_line(alloc, "stdout", &standard.stdout)?)?;
    Ok(RunResult {
        outcome: *outcome,
        status: written.status,
        said: said.bytes()?,
        journal: part(alloc, kept.journal())?.journal,
        saving: written.saving,
        saved: saved.bytes()?,
        ports,
    })
}
