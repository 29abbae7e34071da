// What is seen of ports after a run, a line each.
use crate::faults::RowFault;
use crate::spelling::push_digits;
use port_objects::Tap;
use port_table::Back;
use std::alloc::{AllocError, Global};

/// How rows name a port in memory, and a look at what that takes.
#[derive(Drop)]
pub struct Look {
    pub name: &'static str,
    pub tap: Tap,
}

/// What is seen there.
pub(crate) fn taken_lines(alloc: Global, looks: &[Look]) -> Result<Vec<String>, RowFault> {
    let mut lines = Vec::new(alloc);
    for look in looks {
        let taken = look.tap.bytes()?;
        lines.push(taken_line(alloc, look.name, taken.as_slice())?)?;
    }
    Ok(lines)
}

/// What was taken under this name.
pub fn taken_line(alloc: Global, name: &str, taken: &[u8]) -> Result<String, AllocError> {
    let mut line = format!(in alloc; "{name} took x")?;
    push_digits(&mut line, taken)?;
    Ok(line)
}

/// How the desk gave this port back.
pub(crate) fn back_line<T>(
    alloc: Global,
    name: &str,
    back: &Back<T>,
) -> Result<String, AllocError> {
    let word = match back {
        Back::Joined(_) => "joined",
        Back::Left(_) => "left",
    };
    format!(in alloc; "{name} back {word}")
}
