// The answer of a run.
ghost use Rattle.std.specs.Prelude.{◌≡◌, Some, true, is_some};
ghost use Rattle.exit_status.specs.declared.outcomes.Outcome.TheVariants as outcomes;
ghost use Rattle.relay_model.specs.declared.acts.Why.TheVariants as whys;
ghost use Rattle.session_loop.specs.Answers.{outcome_for as answer_for};

use crate::faults::Fault;
use exit_status::{EndWhy, Outcome};
use relay_model::Why;
use relay_session::GivenUp;

/// The outcome of a run whose session ended for this reason: what was given up at an own door and at a place, the first
/// fault, and the turns that were made. What failed is known, and no session ends for a refused peer.
pub fn outcome_for(
    why: Why,
    listening: Option<u64>,
    opening: Option<GivenUp>,
    fault: Option<Fault>,
    made: u64,
) -> Outcome
    requires { is_some (answer_for why listening opening fault made) ≡ true }
    ensures answer { answer_for why listening opening fault made ≡ Some result }
    ensures memory { result ≡ outcomes.Memory → why ≡ whys.Memory }
{
    match (why, listening, opening, fault) {
        (Why::Memory, _, _, _) => Outcome::Memory,
        (Why::Stopped, _, _, _) => Outcome::Stopped { turns: made },
        (Why::AcceptFailed, _, _, _) => Outcome::AcceptFailed,
        (Why::ListenFailed, Some(attempts), _, _) => Outcome::ListenFailed { attempts },
        (Why::OpenFailed, _, Some(GivenUp { side, attempts }), _) => {
            Outcome::OpenFailed { side, attempts }
        }
        (Why::Faulted | Why::ClosingTime | Why::Idle, _, _, Some(Fault { place, op })) => {
            Outcome::Faulted { place, op }
        }
        (Why::ClosingTime, _, _, None) => Outcome::Ended(EndWhy::ClosingTime),
        (Why::Idle, _, _, None) => Outcome::Ended(EndWhy::Idle),
        (Why::Finished, _, _, _) => Outcome::Ended(EndWhy::Finished),
        (Why::Served, _, _, _) => Outcome::Ended(EndWhy::Served),
        _ => unreachable!(),
    }
}
