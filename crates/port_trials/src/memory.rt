// Ports in memory, and ports over sources and sinks that are called at once.
ghost use Rattle.std.specs.Prelude.{◌≡◌, IfOk};
ghost use Rattle.port_objects.specs.{IsFilled, given_of};

use crate::calls::{call_port, read_boxed};
use case_rows::{Answered, Answers, CaseFault, Inputs, bytes_of, step_parts};
use port_objects::{EchoPort, MemPort, MemSink, MemSource, PortItem};
use port_trait::{DirectReader, DirectWriter, Port, StdSource};
use relay_model::Bytes;
use std::alloc::Global;

/// Asks a port that no thread works for.
pub(crate) fn ask(
    alloc: Global,
    part: &str,
    inputs: &mut Inputs<'_>,
    answers: &mut Answers,
) -> Answered {
    match part {
        "port" => ask_port(alloc, inputs, answers),
        "source" => ask_source(alloc, inputs, answers),
        "boxed" => ask_boxed(alloc, inputs, answers),
        "sink" => ask_sink(alloc, inputs, answers),
        "reader" => ask_reader(alloc, inputs, answers),
        "echo" => ask_echo(alloc, inputs, answers),
        _ => Err(CaseFault::NoRow),
    }
}

/// A port: its room, the items of its script, `calls`, and the calls.
fn ask_port(alloc: Global, inputs: &mut Inputs<'_>, answers: &mut Answers) -> Answered {
    let mut port = MemPort::new(alloc, inputs.word()?.parse::<usize>()?)?;
    add_items(alloc, &mut port, "calls", inputs)?;
    let tap = port.tap();
    call_port(alloc, port, Some(&tap), 1, inputs, answers)
}

/// Adds the items of the next words, up to the word `end`.
pub(crate) fn add_items(
    alloc: Global,
    port: &mut MemPort,
    end: &str,
    inputs: &mut Inputs<'_>,
) -> Answered
    ensures given { given_of port.new.script ≡ given_of port.old.script }
    ensures taken { port.new.intake ≡ port.old.intake }
{
    for _ in 0..u64::MAX {
        let word = inputs.word()?;
        if word == end {
            return Ok(());
        }
        port.add(item_of(alloc, word)?)?;
    }
    Err(CaseFault::NoRow)
}

fn item_of(alloc: Global, word: &str) -> Result<PortItem, CaseFault>
    ensures { IfOk result IsFilled }
{
    match step_parts(word) {
        ("bytes", value) => {
            let bytes = bytes_of(alloc, value)?;
            if bytes.is_empty() {
                return Err(CaseFault::NoRow);
            }
            Ok(PortItem::Bytes(Bytes::of(alloc, bytes.as_slice())?))
        }
        ("empty", _) => Ok(PortItem::Empty),
        ("end", _) => Ok(PortItem::End),
        ("not-yet", _) => Ok(PortItem::NotYet),
        ("fault", _) => Ok(PortItem::Fault),
        _ => Err(CaseFault::NoRow),
    }
}

/// The source of the next words: `ends` or `fails`, as it does behind its bytes, and the bytes.
pub(crate) fn source_of(alloc: Global, inputs: &mut Inputs<'_>) -> Result<MemSource, CaseFault> {
    let ends = match inputs.word()? {
        "ends" => true,
        "fails" => false,
        _ => return Err(CaseFault::NoRow),
    };
    let bytes = inputs.bytes(alloc)?;
    Ok(MemSource::new(Bytes::of(alloc, bytes.as_slice())?, ends))
}

/// The sink of the next word, which is its room.
pub(crate) fn sink_of(alloc: Global, inputs: &mut Inputs<'_>) -> Result<MemSink, CaseFault> {
    let room = inputs.word()?.parse::<usize>()?;
    Ok(MemSink::new(alloc, room)?)
}

/// A port that reads a source, and the calls.
fn ask_source(alloc: Global, inputs: &mut Inputs<'_>, answers: &mut Answers) -> Answered {
    let port = DirectReader::new(source_of(alloc, inputs)?);
    call_port(alloc, port, None, 1, inputs, answers)
}

/// The same port in a box, which begins, and how many bytes each read asks for.
fn ask_boxed(alloc: Global, inputs: &mut Inputs<'_>, answers: &mut Answers) -> Answered {
    let port = DirectReader::new(source_of(alloc, inputs)?);
    let mut port: Box<dyn Port> = Box::new(alloc, port)?;
    read_boxed(alloc, &mut *port, inputs, answers)
}

/// A port that writes to a sink, and the calls.
fn ask_sink(alloc: Global, inputs: &mut Inputs<'_>, answers: &mut Answers) -> Answered {
    let sink = sink_of(alloc, inputs)?;
    let tap = sink.tap();
    call_port(
        alloc,
        DirectWriter::new(sink),
        Some(&tap),
        1,
        inputs,
        answers,
    )
}

/// A port that reads a reader of std over these bytes, and the calls.
fn ask_reader(alloc: Global, inputs: &mut Inputs<'_>, answers: &mut Answers) -> Answered {
    let bytes = inputs.bytes(alloc)?;
    let port = DirectReader::new(StdSource::new(bytes.as_slice()));
    call_port(alloc, port, None, 1, inputs, answers)
}

/// The echo pipe: how many bytes it holds, and the calls.
fn ask_echo(alloc: Global, inputs: &mut Inputs<'_>, answers: &mut Answers) -> Answered {
    let port = EchoPort::new(alloc, inputs.word()?.parse::<usize>()?)?;
    call_port(alloc, port, None, 1, inputs, answers)
}
