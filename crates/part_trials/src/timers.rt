// Timers that are set, cleared and taken out step by step. Moments are milliseconds.
use case_rows::{Answered, Answers, CaseFault, Inputs, step_parts};
use std::alloc::Global;
use timer_set::TimerSet;

pub(crate) fn ask(alloc: Global, inputs: &mut Inputs<'_>, answers: &mut Answers) -> Answered {
    let mut timers = TimerSet::new(alloc);
    for _ in 0..u64::MAX {
        let Some(step) = inputs.step() else {
            break;
        };
        make_step(&mut timers, step, answers)?;
    }
    Ok(())
}

fn make_step(timers: &mut TimerSet, step: &str, answers: &mut Answers) -> Answered {
    let (name, value) = step_parts(step);
    match name {
        "set" => set(timers, value),
        "clear" => {
            timers.clear(value.parse::<u32>()?);
            Ok(())
        }
        "first" => {
            say_first(timers.first(), answers);
            Ok(())
        }
        "due" => {
            say_due(timers.due(value.parse::<u64>()?), answers);
            Ok(())
        }
        _ => Err(CaseFault::NoRow),
    }
}

/// Sets a timer, written as its key, a colon and its moment.
fn set(timers: &mut TimerSet, value: &str) -> Answered {
    let (key, at) = step_parts(value);
    let key = key.parse::<u32>()?;
    let at = at.parse::<u64>()?;
    timers.reserve(1)?;
    timers.set(key, at);
    Ok(())
}

fn say_first(first: Option<(u64, u32)>, answers: &mut Answers) {
    match first {
        None => answers.word("none"),
        Some((at, key)) => answers.pair(u64::from(key), at),
    }
}

fn say_due(due: Option<u32>, answers: &mut Answers) {
    match due {
        None => answers.word("none"),
        Some(key) => answers.number(u64::from(key)),
    }
}
