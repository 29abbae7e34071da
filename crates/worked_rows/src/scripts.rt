// What a script makes ports and sources answer to their reads.
ghost use Rattle.std.specs.Prelude.{◌≡◌, [], IfOk};
ghost use Rattle.port_objects.specs.{IsFilled, given_of};

use crate::faults::RowFault;
use crate::rows::Line;
use crate::spelling::{act_of, unquote};
use port_objects::{MemPort, MemSource, PortItem};
use relay_model::{Act, Bytes, Side};
use std::alloc::Global;

/// What a read answers, and at which side.
#[derive(Drop)]
struct ScriptedRead {
    side: Side,
    answer: PortItem,
}

/// What the line of a script says. There is no moment but 0.
fn item_of(alloc: Global, line: Line<'_>) -> Result<ScriptedRead, RowFault>
    ensures { IfOk result (λ item. IsFilled item.answer) }
{
    let (moment, act) = line.parts();
    let act = unquote(alloc, act)?.ok_or(line.fault())?;
    if moment != "0" {
        return Err(line.fault());
    }
    let act = act_of(alloc, act.as_str())?.ok_or(line.fault())?;
    answer_of(&act, line)
}

/// What a read answers in the act of this line.
fn answer_of(act: &Act, line: Line<'_>) -> Result<ScriptedRead, RowFault>
    ensures { IfOk result (λ item. IsFilled item.answer) }
{
    match act {
        Act::Read(place, bytes) if bytes.len() > 0 => Ok(ScriptedRead {
            side: place.side,
            answer: PortItem::Bytes(bytes.copy()?),
        }),
        Act::ReadEnd(place) => Ok(ScriptedRead {
            side: place.side,
            answer: PortItem::End,
        }),
        Act::ReadNotYet(place) => Ok(ScriptedRead {
            side: place.side,
            answer: PortItem::NotYet,
        }),
        Act::ReadFault(place) => Ok(ScriptedRead {
            side: place.side,
            answer: PortItem::Fault,
        }),
        _ => Err(line.fault()),
    }
}

/// The port at this side of a script, which has given nothing yet, with room for so many bytes.
pub fn port_of(
    alloc: Global,
    script: &[Line<'_>],
    side: Side,
    room: usize,
) -> Result<MemPort, RowFault>
    ensures { IfOk result (λ port. given_of port.script ≡ []) }
{
    let mut port = MemPort::new(alloc, room)?;
    for line in script {
        let item = item_of(alloc, *line)?;
        if item.side == side {
            port.add(item.answer)?;
        }
    }
    Ok(port)
}

/// The source at the left of a script. Behind its bytes it ends or fails, as the last line says.
pub fn source_of(alloc: Global, script: &[Line<'_>]) -> Result<MemSource, RowFault> {
    let mut bytes = Vec::new(alloc);
    let mut ends = true;
    for line in script {
        let item = item_of(alloc, *line)?;
        if item.side == Side::Right {
            continue;
        }
        match item.answer {
            PortItem::Bytes(more) => bytes.extend_from_slice(more.as_slice())?,
            PortItem::End => ends = true,
            PortItem::Fault => ends = false,
            PortItem::Empty | PortItem::NotYet => return Err(line.fault()),
        }
    }
    Ok(MemSource::new(Bytes::of(alloc, bytes.as_slice())?, ends))
}
