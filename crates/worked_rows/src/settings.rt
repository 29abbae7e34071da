// What the desk of a row is made of.
use crate::faults::RowFault;
use crate::rows::{Line, WorkedRow};

/// What standard input is: a port in memory, or a ring over a source. That source may wait at a gate, until standard output
/// took the key or until the run is over, or the thread of the ring may not be started.
#[derive(Clone, Copy)]
pub enum Input {
    Memory,
    Ring,
    Gated,
    Held,
    Unstarted,
}

/// What standard output is: a port in memory, or a ring over a sink with so much room.
#[derive(Clone, Copy)]
pub enum Output {
    Memory,
    Ring(usize),
}

/// What makes all other ports, and what waits for them.
#[derive(Clone, Copy)]
pub enum RowSystem {
    /// Both in memory.
    Memory,
    /// The program's maker and its poller.
    Watched,
    /// The same, where a server in a thread answers at the last address and the run is stopped in the end.
    Served,
    /// The program's maker alone, with a poller in memory.
    Unwatched,
    /// The same, with a poller that keeps time.
    Ticking,
}

/// The desk of a row, and the file that its run is to leave.
#[derive(Clone, Copy)]
pub struct Setting<'a> {
    pub input: Input,
    pub output: Output,
    pub system: RowSystem,
    pub file: Option<&'a str>,
}

impl<'a> Setting<'a> {
    /// What the row says.
    pub fn of(row: &WorkedRow<'a>) -> Result<Setting<'a>, RowFault> {
        let mut setting = Setting {
            input: Input::Memory,
            output: Output::Memory,
            system: RowSystem::Memory,
            file: None,
        };
        for line in row.over.as_slice() {
            setting.take(*line)?;
        }
        if setting.is_known() {
            Ok(setting)
        } else {
            Err(row.head.fault())
        }
    }

    /// Whether runs are made over such a desk: both streams are in memory, or both stand behind rings.
    fn is_known(&self) -> bool {
        matches!(self.input, Input::Memory) == matches!(self.output, Output::Memory)
    }

    fn take(&mut self, line: Line<'a>) -> Result<(), RowFault> {
        let (part, kind) = line.parts();
        match part {
            "stdin" => self.input = input_of(kind).ok_or(line.fault())?,
            "stdout" => self.output = output_of(kind).ok_or(line.fault())?,
            "system" => self.system = system_of(kind).ok_or(line.fault())?,
            "file" => self.file = Some(kind),
            _ => return Err(line.fault()),
        }
        Ok(())
    }
}

fn input_of(kind: &str) -> Option<Input> {
    match kind {
        "ring" => Some(Input::Ring),
        "gated" => Some(Input::Gated),
        "held" => Some(Input::Held),
        "unstarted" => Some(Input::Unstarted),
        _ => None,
    }
}

/// A ring with so much room behind it.
fn output_of(kind: &str) -> Option<Output> {
    let room = kind.strip_prefix("ring ")?.parse().ok()?;
    Some(Output::Ring(room))
}

fn system_of(kind: &str) -> Option<RowSystem> {
    match kind {
        "watched" => Some(RowSystem::Watched),
        "served" => Some(RowSystem::Served),
        "unwatched" => Some(RowSystem::Unwatched),
        "ticking" => Some(RowSystem::Ticking),
        _ => None,
    }
}
