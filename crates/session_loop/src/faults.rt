// What failed first.
ghost use Rattle.std.specs.Prelude.{◌≡◌, Some, Option};
ghost use Rattle.relay_model.specs.{or_else};
ghost use Rattle.relay_model.specs.declared.outcomes.RunOutcome.TheVariants as whole;
ghost use Rattle.exit_status.specs.{half_of};

use exit_status::Op;
use relay_model::Place;

/// A read or a write that failed.
#[derive(Clone, Copy, PartialEq, Eq)]
pub struct Fault {
    pub place: Place,
    pub op: Op,
}

ghost use Rattle.session_loop.specs.Answers.{told_fault};

/// The first fault, after one more.
pub fn first_of(earlier: Option<Fault>, place: Place, op: Op) -> Option<Fault>
    ensures { told_fault result ≡ or_else (told_fault earlier) (Some (whole.Faulted place (half_of op))) }
{
    match earlier {
        Some(fault) => Some(fault),
        None => Some(Fault { place, op }),
    }
}
