// How bytes are converted, as lists of all of them or of a further piece.
ghost use Rattle.std.specs.Prelude.{◌≡◌, ◌==◌, IfOk};
ghost use Rattle.std.specs.List.{before_first, list_any};
ghost use Rattle.relay_model.specs.{read_converted, write_converted, first_bytes, before_escape, due_of, holds_escape, is_met};

use relay_model::{Conv, NoMemory};
use std::alloc::Global;

/// The bytes as a place gives them.
fn read_converted(alloc: Global, conv: Conv, bytes: &[u8]) -> Result<Vec<u8>, NoMemory>
    ensures { IfOk result (λ read. read.items ≡ read_converted conv bytes.now) }
{
    match conv {
        Conv::Plain => Ok(Vec::from_slice(alloc, bytes)?),
        Conv::Cr => Ok(
            bytes
                .iter()
                .map(|b| if *b == b'\r' { b'\n' } else { *b })
                .collect(alloc)?,
        ),
        Conv::Crnl => Ok(
            bytes
                .iter()
                .copied()
                .filter(|b| *b != b'\r')
                .collect(alloc)?,
        ),
    }
}

/// The bytes as a place takes them.
fn write_converted(alloc: Global, conv: Conv, bytes: &[u8]) -> Result<Vec<u8>, NoMemory>
    ensures { IfOk result (λ written. written.items ≡ write_converted conv bytes.now) }
{
    match conv {
        Conv::Plain => Ok(Vec::from_slice(alloc, bytes)?),
        Conv::Cr => Ok(
            bytes
                .iter()
                .map(|b| if *b == b'\n' { b'\r' } else { *b })
                .collect(alloc)?,
        ),
        Conv::Crnl => with_both(alloc, bytes),
    }
}

/// Each newline as a carriage return and a newline.
fn with_both(alloc: Global, mut bytes: &[u8]) -> Result<Vec<u8>, NoMemory>
    ensures { IfOk result (λ written. written.items ≡ write_converted Conv.Crnl bytes.entry.now) }
{
    let mut written = Vec::new(alloc);
    while let [byte, rest @ ..] = bytes {
        if *byte == b'\n' {
            written.push(b'\r')?;
        }
        written.push(*byte)?;
        bytes = rest;
    }
    Ok(written)
}

/// The first bytes, as many as may be read.
fn first_bytes(readbytes: Option<u64>, bytes: &[u8]) -> &[u8]
    ensures { result.now ≡ first_bytes readbytes bytes.now }
{
    match readbytes {
        None => bytes,
        Some(most) => {
            let count = bytes.len().min(most as usize);
            &bytes[..count]
        }
    }
}

fn before_byte(byte: u8, bytes: &[u8]) -> &[u8]
    ensures { result.now ≡ before_first (λ b. b == byte) bytes.now }
{
    let mut rest = bytes;
    let mut count = 0;
    while let [first, more @ ..] = rest {
        if *first == byte {
            return &bytes[..count];
        }
        count += 1;
        rest = more;
    }
    bytes
}

/// The bytes before the first escape byte.
fn before_escape(escape: Option<u8>, bytes: &[u8]) -> &[u8]
    ensures { result.now ≡ before_escape escape bytes.now }
{
    match escape {
        None => bytes,
        Some(e) => before_byte(e, bytes),
    }
}

/// What is to be written of these bytes.
pub fn convert_bytes(
    alloc: Global,
    reading: Conv,
    writing: Conv,
    readbytes: Option<u64>,
    escape: Option<u8>,
    bytes: &[u8],
) -> Result<Vec<u8>, NoMemory>
    ensures { IfOk result (λ owed. owed.items ≡ due_of reading writing readbytes escape bytes.now) }
{
    let counted = before_escape(escape, first_bytes(readbytes, bytes));
    let read = read_converted(alloc, reading, counted)?;
    write_converted(alloc, writing, read.as_slice())
}

fn holds_byte(byte: u8, bytes: &[u8]) -> bool
    ensures { result ≡ list_any (λ b. b == byte) bytes.now }
{
    bytes.iter().any(|b| *b == byte)
}

fn holds_escape(escape: Option<u8>, bytes: &[u8]) -> bool
    ensures { result ≡ holds_escape escape bytes.now }
{
    match escape {
        None => false,
        Some(e) => holds_byte(e, bytes),
    }
}

/// Whether the escape byte stands among the bytes that count.
pub fn is_met(readbytes: Option<u64>, escape: Option<u8>, bytes: &[u8]) -> bool
    ensures { result ≡ is_met readbytes escape bytes.now }
{
    holds_escape(escape, first_bytes(readbytes, bytes))
}
