// What a set and a due of a timer cost together, with few keys and with many.
ghost use Rattle.std.specs.Prelude.{◌≤◌};

use crate::random::next;
use std::alloc::Global;
use std::io;
use std::rt::Clock;
use std::time::Instant;
use timer_set::TimerSet;

const SIZES: [u32; 3] = [10, 1_000, 100_000];

/// Sets each key below `keys`, in rising order, to a random moment.
fn set_all(timers: &mut TimerSet, keys: u32, mut state: u64) -> u64
    requires { keys ≤ timers.old.room }
{
    for key in 0..keys {
        state = next(state);
        timers.set(key, state >> 32);
    }
    state
}

/// Takes the keys out as they fall due, and answers a number that depends on their order.
fn due_all(timers: &mut TimerSet, keys: u32) -> u64 {
    let mut seen = 0;
    for _ in 0..keys {
        if let Some(key) = timers.due(u64::MAX) {
            seen = next(seen ^ u64::from(key));
        }
    }
    seen
}

fn measure(rt: &(impl Clock + Print), alloc: Global, keys: u32, rounds: u64) -> io::Result<()> {
    let mut timers = TimerSet::new(alloc);
    let mut state = 1;
    let mut seen = 0;
    let start = Instant::now(rt)?;
    for _ in 0..rounds {
        if timers.reserve(keys as usize).is_err() {
            return Err(io::ErrorKind::OutOfMemory.into());
        }
        state = set_all(&mut timers, keys, state);
        seen = next(seen ^ due_all(&mut timers, keys));
    }
    let nanos = start.elapsed(rt)?.as_nanos();
    let pairs = u128::from(rounds).saturating_mul(u128::from(keys));
    let each = nanos / pairs.max(1);
    println!(rt; "{keys} keys: {each} ns for a set and a due ({seen})")
}

/// Prints it for each number of keys, of so many pairs each.
pub(crate) fn measure_all(rt: &(impl Clock + Print), alloc: Global, pairs: u64) -> io::Result<()> {
    for keys in SIZES {
        let rounds = (pairs / u64::from(keys)).max(1);
        measure(rt, alloc, keys, rounds)?;
    }
    Ok(())
}
