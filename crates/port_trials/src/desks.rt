// The desk of a row.
use crate::memory::add_items;
use crate::waits::make_waits;
use case_rows::{Answered, Answers, CaseFault, Inputs};
use port_desk::{Desk, Standard};
use port_objects::{MakeItem, MemMaker, MemPoller, MemPort};
use port_trait::{KeyList, Maker, Poller, Port};
use relay_model::{Half, NoMemory, Part, Place, Side};
use std::alloc::Global;
use world_trait::Recorder;

/// The place at the right of a command that passes bytes both ways.
const PLACE: Place = Place {
    session: 0,
    side: Side::Right,
    part: Part::Both,
    door: false,
};

/// For how many bytes the port has room.
const ROOM: usize = 1;

/// Makes the calls on the desk of these words.
pub(crate) fn ask(
    alloc: Global,
    recorder: &str,
    inputs: &mut Inputs<'_>,
    answers: &mut Answers,
) -> Answered {
    let recorder = recorder_of(recorder)?;
    let maker = maker_of(alloc, inputs)?;
    let poller = MemPoller::naming(keys_of(alloc, inputs)?);
    over_desk(alloc, standard(alloc)?, maker, poller, recorder, answers)
}

/// Makes the calls on a desk of these ports.
fn over_desk<M, P, S: Port>(
    alloc: Global,
    standard: Standard<S, S, S>,
    maker: M,
    poller: P,
    recorder: Recorder,
    answers: &mut Answers,
) -> Answered
where
    M: Maker + Drop,
    P: Poller + Drop,
{
    let mut desk = Desk::new(alloc, standard, maker, poller, recorder)?;
    let made = make_waits(alloc, &mut desk, PLACE, answers);
    drop(desk);
    made
}

fn recorder_of(word: &str) -> Result<Recorder, CaseFault> {
    match word {
        "skip" => Ok(Recorder::Skip),
        "keep" => Ok(Recorder::Keep),
        _ => Err(CaseFault::NoRow),
    }
}

/// Standard streams of which nothing is asked.
fn standard(alloc: Global) -> Result<Standard<MemPort, MemPort, MemPort>, NoMemory> {
    Ok(Standard {
        stdin: MemPort::new(alloc, 0)?,
        stdout: MemPort::new(alloc, 0)?,
        stderr: MemPort::new(alloc, 0)?,
    })
}

/// A maker of one port, with the items of the next words, up to `poll`.
fn maker_of(alloc: Global, inputs: &mut Inputs<'_>) -> Result<MemMaker, CaseFault> {
    let mut port = MemPort::new(alloc, ROOM)?;
    add_items(alloc, &mut port, "poll", inputs)?;
    let mut maker = MemMaker::new(alloc);
    maker.add(MakeItem::Port(port))?;
    Ok(maker)
}

/// The key of the next word, and the half of the one behind it.
fn keys_of(alloc: Global, inputs: &mut Inputs<'_>) -> Result<KeyList, CaseFault> {
    let key = inputs.word()?.parse::<usize>()?;
    let half = match inputs.word()? {
        "to-read" => Half::ToRead,
        "to-write" => Half::ToWrite,
        _ => return Err(CaseFault::NoRow),
    };
    let mut keys = KeyList::new(alloc)?;
    keys.push((key, half));
    Ok(keys)
}
