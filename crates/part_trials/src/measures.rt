// Measures of a part by itself: `flow` and the number of blocks that are passed on, or `timers` and how many pairs of a set
// and a due are timed at each number of keys.
use crate::{flow_rates, timer_rates};
use std::env::Env;
use std::rt::Clock;
use std::{env, io};

/// The count where the word is no number.
const USUAL: u64 = 1000;

/// Measures the part that the arguments name after `measure`. False where they ask for no measure.
pub(crate) fn measure_asked<R: Env + Clock + Print + AllocGlobal>(rt: &R) -> io::Result<bool> {
    let mut words = env::args(rt)?.skip(1);
    let (Some(first), Some(part), Some(count)) = (words.next(), words.next(), words.next()) else {
        return Ok(false);
    };
    if first.as_str() != "measure" {
        return Ok(false);
    }
    let count = count.as_str().parse::<u64>().unwrap_or(USUAL);
    measure(rt, part.as_str(), count)?;
    Ok(true)
}

fn measure<R: Clock + Print + AllocGlobal>(rt: &R, part: &str, count: u64) -> io::Result<()> {
    match part {
        "flow" => flow_rates::measure_all(rt, rt.alloc(), count),
        "timers" => timer_rates::measure_all(rt, rt.alloc(), count),
        _ => Ok(()),
    }
}
