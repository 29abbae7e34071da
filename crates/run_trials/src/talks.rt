// What two ends say to each other.
ghost use Rattle.std.specs.Prelude.{◌<◌, length};

use crate::meetings::MeetingEnds;
use crate::waits::{MOST, Waits};
use case_rows::{Answered, Answers, CaseFault};
use port_trait::{Got, Poller, Port, Took};
use relay_model::Shut;

/// What passes between two ends.
#[derive(Clone, Copy)]
pub(crate) enum Passing {
    /// Bytes, and then the end of each half by itself.
    Stream,
    Packets,
}

/// The peer hears what was said to it, and answers. What each heard is told, and whether each heard the other's end.
pub(crate) fn talk<Q: Port, P: Poller>(
    ends: &mut MeetingEnds<Q>,
    waits: &mut Waits<P>,
    passing: Passing,
    answers: &mut Answers,
) -> Answered {
    fall_silent(&mut ends.caller, passing);
    let first = tell(&mut ends.peer, waits, passing, answers)?;
    if !say(&mut ends.peer, waits, b"pong")? {
        answers.word("unsaid");
        return Ok(());
    }
    fall_silent(&mut ends.peer, passing);
    let second = tell(&mut ends.caller, waits, passing, answers)?;
    answers.word_if("ended", first && second);
    Ok(())
}

/// Says that nothing more will come, where that can be said.
fn fall_silent<Q: Port>(port: &mut Q, passing: Passing) {
    if let Passing::Stream = passing {
        port.shut(Shut::Down);
    }
}

/// Tells what the port gives. Whether it came to its end.
fn tell<Q: Port, P: Poller>(
    port: &mut Q,
    waits: &mut Waits<P>,
    passing: Passing,
    answers: &mut Answers,
) -> Result<bool, CaseFault> {
    let mut heard = Vec::new(waits.alloc());
    let ended = hear(port, waits, passing, &mut heard)?;
    answers.bytes(heard.as_slice());
    Ok(ended)
}

/// What the port gives: all up to its end where that is a stream's, and one packet else. Whether it came to its end.
fn hear<Q: Port, P: Poller>(
    port: &mut Q,
    waits: &mut Waits<P>,
    passing: Passing,
    into: &mut Vec<u8>,
) -> Result<bool, CaseFault> {
    let mut block = [0u8; 64];
    for _ in 0..MOST {
        match port.read(&mut block) {
            Got::Bytes(count) => {
                into.extend_from_slice(&block[..count])?;
                if let Passing::Packets = passing {
                    return Ok(false);
                }
            }
            Got::End => return Ok(true),
            Got::NotYet => waits.rest()?,
            Got::Empty | Got::Failed => return Ok(false),
        }
    }
    Ok(false)
}

/// Writes the bytes in one call. Whether all were taken.
pub(crate) fn say<Q: Port, P: Poller>(
    port: &mut Q,
    waits: &mut Waits<P>,
    bytes: &[u8],
) -> Result<bool, CaseFault>
    requires { 0 < length bytes.now }
{
    for _ in 0..MOST {
        match port.write(bytes) {
            Took::Took(count) => return Ok(count == bytes.len()),
            Took::NotYet => waits.rest()?,
            Took::Failed => return Ok(false),
        }
    }
    Ok(false)
}
