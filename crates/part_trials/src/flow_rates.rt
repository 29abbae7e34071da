// How many megabytes a second a flow passes on, for each way of passing them.
ghost use Rattle.std.specs.Prelude.{◌≡◌, None};

use crate::random::next;
use circular_buffer::HeapCircularBuffer;
use line_ends::Convs;
use relay_buffer::{Flow, Lane, new_block};
use relay_model::Conv;
use std::alloc::Global;
use std::io;
use std::rt::Clock;
use std::time::Instant;

const BLOCK: usize = 8192;

const LINE: usize = 40;

/// Where the random letters begin, so that each run passes the same text.
const SEED: u64 = 1;

/// What was passed on, and in what time. `seen` depends on the bytes, so that the work can't be left out.
#[derive(Clone, Copy)]
struct SpentTime {
    bytes: u64,
    micros: u128,
    seen: u8,
}

/// Fills in one block and takes it. Answers how many bytes were filled in, and a byte of what was taken.
fn pass(flow: &mut Flow, source: &[u8]) -> (usize, u8) {
    let room = flow.room().min(source.len());
    flow.fill(&source[..room]);
    (room, take(flow))
}

/// The same for a block that the flow may keep.
fn pass_block(flow: &mut Flow, block: &mut Vec<u8>) -> (usize, u8) {
    let room = flow.room().min(block.len());
    flow.fill_block(block, room);
    (room, take(flow))
}

/// Takes what waits. Answers a byte of it.
fn take(flow: &mut Flow) -> u8 {
    let mut seen = 0;
    for _ in 0..2 {
        let piece = flow.pending();
        let len = piece.len();
        seen ^= piece.last().copied().unwrap_or(0);
        flow.took(len);
    }
    seen
}

/// The same for the ring alone.
fn pass_ring(ring: &mut HeapCircularBuffer<u8>, source: &[u8]) -> (usize, u8) {
    let count = ring.fill_from_slice(source);
    let (front, back) = ring.as_slices();
    let seen = last_of(front) ^ last_of(back);
    ring.truncate_front(0);
    (count, seen)
}

fn last_of(piece: &[u8]) -> u8 {
    piece.last().copied().unwrap_or(0)
}

fn flow_rate(
    clock: &impl Clock,
    flow: &mut Flow,
    source: &[u8],
    rounds: u64,
) -> io::Result<SpentTime> {
    let start = Instant::now(clock)?;
    let mut bytes = 0u64;
    let mut seen = 0;
    for _ in 0..rounds {
        let (count, byte) = pass(flow, source);
        bytes = bytes.saturating_add(count as u64);
        seen ^= byte;
    }
    let micros = start.elapsed(clock)?.as_micros();
    Ok(SpentTime {
        bytes,
        micros,
        seen,
    })
}

fn block_rate(
    clock: &impl Clock,
    flow: &mut Flow,
    block: &mut Vec<u8>,
    rounds: u64,
) -> io::Result<SpentTime> {
    let start = Instant::now(clock)?;
    let mut bytes = 0u64;
    let mut seen = 0;
    for _ in 0..rounds {
        let (count, byte) = pass_block(flow, block);
        bytes = bytes.saturating_add(count as u64);
        seen ^= byte;
    }
    let micros = start.elapsed(clock)?.as_micros();
    Ok(SpentTime {
        bytes,
        micros,
        seen,
    })
}

fn ring_rate(
    clock: &impl Clock,
    ring: &mut HeapCircularBuffer<u8>,
    source: &[u8],
    rounds: u64,
) -> io::Result<SpentTime> {
    let start = Instant::now(clock)?;
    let mut bytes = 0u64;
    let mut seen = 0;
    for _ in 0..rounds {
        let (count, byte) = pass_ring(ring, source);
        bytes = bytes.saturating_add(count as u64);
        seen ^= byte;
    }
    let micros = start.elapsed(clock)?.as_micros();
    Ok(SpentTime {
        bytes,
        micros,
        seen,
    })
}

fn copy_rate(
    clock: &impl Clock,
    source: &[u8],
    out: &mut [u8],
    rounds: u64,
) -> io::Result<SpentTime> {
    let start = Instant::now(clock)?;
    let len = source.len().min(out.len());
    let mut bytes = 0u64;
    let mut seen = 0;
    for i in 0..rounds {
        out[..len].copy_from_slice(&source[..len]);
        bytes = bytes.saturating_add(len as u64);
        let at = (i % 4096) as usize;
        if at < out.len() {
            seen ^= out[at];
            out[at] = seen;
        }
    }
    let micros = start.elapsed(clock)?.as_micros();
    Ok(SpentTime {
        bytes,
        micros,
        seen,
    })
}

fn report(rt: &impl Print, name: &str, spent: SpentTime) -> io::Result<()> {
    let SpentTime {
        bytes,
        micros,
        seen,
    } = spent;
    let megabytes = u128::from(bytes) / micros.max(1);
    println!(rt; "{name}: {megabytes} MB/s in {micros} us ({seen})")
}

/// Prints how fast a flow by this lane passes `source` on.
fn measure(
    rt: &(impl Clock + Print),
    alloc: Global,
    name: &str,
    lane: Lane,
    source: &[u8],
    rounds: u64,
) -> io::Result<SpentTime>
    requires { lane.packets ≡ None }
{
    let Ok(mut flow) = Flow::new(alloc, lane) else {
        return Err(io::ErrorKind::OutOfMemory.into());
    };
    let spent = flow_rate(rt, &mut flow, source, rounds)?;
    report(rt, name, spent)?;
    Ok(spent)
}

/// Prints how fast a flow by this lane passes blocks on that it may keep.
fn measure_blocks(
    rt: &(impl Clock + Print),
    alloc: Global,
    name: &str,
    lane: Lane,
    rounds: u64,
) -> io::Result<()>
    requires { lane.packets ≡ None }
{
    let Ok(mut flow) = Flow::new(alloc, lane) else {
        return Err(io::ErrorKind::OutOfMemory.into());
    };
    let Ok(mut block) = new_block(alloc, lane.block) else {
        return Err(io::ErrorKind::OutOfMemory.into());
    };
    let spent = block_rate(rt, &mut flow, &mut block, rounds)?;
    report(rt, name, spent)
}

/// Prints how the time of the one stands to that of the other, in hundredths.
fn report_ratio(rt: &impl Print, name: &str, base: SpentTime, spent: SpentTime) -> io::Result<()> {
    let hundredths = base.micros.saturating_mul(100) / spent.micros.max(1);
    println!(rt; "{name}: {}.{:02}", hundredths / 100, hundredths % 100)
}

fn lane(read: Conv, write: Conv, escape: Option<u8>) -> Lane
    ensures { result.packets ≡ None }
{
    Lane {
        block: BLOCK as u32,
        how: Convs { read, write },
        readbytes: None,
        escape,
        packets: None,
    }
}

fn letter(state: u64) -> u8 {
    let place = (state >> 32) % 26;
    b'a' + place as u8
}

/// One block of lines of 40 bytes, of random letters. They end in a newline, or in a carriage return and a newline.
fn lines(alloc: Global, returns: bool) -> io::Result<Vec<u8>> {
    let mut text = vec![in alloc; 0; BLOCK]?;
    let mut state = SEED;
    for (i, byte) in text.iter_mut().enumerate() {
        state = next(state);
        *byte = if i % LINE == LINE - 1 {
            b'\n'
        } else if returns && i % LINE == LINE - 2 {
            b'\r'
        } else {
            letter(state)
        };
    }
    Ok(text)
}

/// Prints the rates of a copy, of the ring alone, and of a flow for each way of passing bytes on, over so many blocks.
pub(crate) fn measure_all(rt: &(impl Clock + Print), alloc: Global, rounds: u64) -> io::Result<()> {
    let text = lines(alloc, false)?;
    let mut out = vec![in alloc; 0u8; BLOCK]?;
    let copy = copy_rate(rt, &text, &mut out, rounds)?;
    report(rt, "memcpy", copy)?;
    let mut ring = HeapCircularBuffer::with_capacity(alloc, 2 * BLOCK)?;
    let alone = ring_rate(rt, &mut ring, &text, rounds)?;
    report(rt, "ring", alone)?;
    let plain = lane(Conv::Plain, Conv::Plain, None);
    let passed = measure(rt, alloc, "plain", plain, &text, rounds)?;
    report_ratio(rt, "plain to memcpy", copy, passed)?;
    report_ratio(rt, "plain to ring", alone, passed)?;
    measure_blocks(rt, alloc, "plain in blocks", plain, rounds)?;
    measure_conversions(rt, alloc, &text, rounds)
}

/// Prints the rates of a flow that looks at each byte.
fn measure_conversions(
    rt: &(impl Clock + Print),
    alloc: Global,
    text: &[u8],
    rounds: u64,
) -> io::Result<()> {
    let escape = lane(Conv::Plain, Conv::Plain, Some(1));
    measure(
        rt,
        alloc,
        "escape byte that never comes",
        escape,
        text,
        rounds,
    )?;
    let writing = lane(Conv::Plain, Conv::Crnl, None);
    measure(rt, alloc, "crnl writing", writing, text, rounds)?;
    let reading = lane(Conv::Crnl, Conv::Plain, None);
    let returns = lines(alloc, true)?;
    measure(rt, alloc, "crnl reading", reading, &returns, rounds)?;
    Ok(())
}
