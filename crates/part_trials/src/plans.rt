// Failed tries at a place: the number of retries, `forever` or `-`, the interval, and then the steps.
use case_rows::{Answered, Answers, CaseFault, Inputs, step_parts};
use retry_plan::{NextTry, Plan};

pub(crate) fn ask(inputs: &mut Inputs<'_>, answers: &mut Answers) -> Answered {
    let retry = inputs.number()?;
    let is_endless = inputs.word()? == "forever";
    let interval = inputs.number()?;
    let mut plan = Plan::new(retry, is_endless, interval);
    for _ in 0..u64::MAX {
        let Some(step) = inputs.step() else {
            break;
        };
        make_step(&mut plan, step, answers)?;
    }
    Ok(())
}

fn make_step(plan: &mut Plan, step: &str, answers: &mut Answers) -> Answered {
    let (name, value) = step_parts(step);
    match name {
        "failed" => {
            plan.failed(value.parse::<u64>()?);
            Ok(())
        }
        "next" => {
            say_next(plan.next(), answers);
            Ok(())
        }
        _ => Err(CaseFault::NoRow),
    }
}

fn say_next(next: NextTry, answers: &mut Answers) {
    match next {
        NextTry::Now => answers.word("now"),
        NextTry::At(at) => answers.number(at),
        NextTry::Never => answers.word("never"),
        NextTry::GiveUp { attempts } => answers.word_and_number("given-up", attempts),
    }
}
