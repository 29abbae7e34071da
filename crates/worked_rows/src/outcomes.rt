// How a row spells the end of a run.
use exit_status::{EndWhy, Op, Outcome};
use relay_model::{Part, Place, Side};
use std::alloc::{AllocError, Global};

fn end_word(why: EndWhy) -> &'static str {
    match why {
        EndWhy::Finished => "finished",
        EndWhy::ClosingTime => "closingtime",
        EndWhy::Idle => "idle",
        EndWhy::Served => "served",
    }
}

fn op_word(op: Op) -> &'static str {
    match op {
        Op::Reading => "reading",
        Op::Writing => "writing",
    }
}

fn side_word(side: Side) -> &'static str {
    match side {
        Side::Left => "left",
        Side::Right => "right",
    }
}

fn side_letter(side: Side) -> char {
    match side {
        Side::Left => 'L',
        Side::Right => 'R',
    }
}

fn part_letter(part: Part) -> char {
    match part {
        Part::Both => 'B',
        Part::Reading => 'I',
        Part::Writing => 'O',
    }
}

fn fault_text(alloc: Global, place: Place, op: Op) -> Result<String, AllocError> {
    let session = place.session;
    let side = side_letter(place.side);
    let part = part_letter(place.part);
    let door = if place.door { 'd' } else { '-' };
    let op = op_word(op);
    format!(in alloc; "faulted {session}{side}{part}{door} {op}")
}

/// How the run ended, as rows spell it.
pub(crate) fn outcome_text(alloc: Global, outcome: &Outcome) -> Result<String, AllocError> {
    match outcome {
        Outcome::Ended(why) => String::from_str(alloc, end_word(*why)),
        Outcome::Told => String::from_str(alloc, "told"),
        Outcome::Loaded => String::from_str(alloc, "loaded"),
        Outcome::Refused(_) => String::from_str(alloc, "refused"),
        Outcome::OpenFailed { side, attempts } => {
            let side = side_word(*side);
            format!(in alloc; "openfailed {side} {attempts}")
        }
        Outcome::ListenFailed { attempts } => format!(in alloc; "listenfailed {attempts}"),
        Outcome::AcceptFailed => String::from_str(alloc, "acceptfailed"),
        Outcome::Faulted { place, op } => fault_text(alloc, *place, *op),
        Outcome::Stopped { turns } => format!(in alloc; "stopped {turns}"),
        Outcome::Memory => String::from_str(alloc, "memory"),
    }
}
