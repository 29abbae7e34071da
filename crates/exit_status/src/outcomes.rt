// The outcomes of a run and their exit statuses.
ghost use Rattle.std.specs.Prelude.{◌≡◌};
ghost use Rattle.exit_status.specs.Outcomes.{OneAnswer};
ghost use Rattle.exit_status.specs.Statuses.{exit_code};

use relay_model::{Place, Refused, Side};

/// Why a relay that was in order ended: all bytes passed, the closing time after the first end, no transfer
/// for the time of `-T`, or with `fork` as many sessions served as were asked for.
#[derive(Clone, Copy, PartialEq, Eq)]
pub enum EndWhy {
    Finished,
    ClosingTime,
    Idle,
    Served,
}

/// What was being done at a place that failed.
#[derive(Clone, Copy, PartialEq, Eq)]
pub enum Op {
    Reading,
    Writing,
}

/// How a run ended. `attempts` counts the failed tries, `turns` the waits that were made.
#[derive(Clone, Copy, PartialEq, Eq)]
pub enum Outcome {
    Ended(EndWhy),
    /// Usage or version was printed.
    Told,
    /// The generated run was made and summed up.
    Loaded,
    Refused(Refused),
    OpenFailed { side: Side, attempts: u64 },
    ListenFailed { attempts: u64 },
    AcceptFailed,
    Faulted { place: Place, op: Op },
    /// A turn that said stop, or the last allowed turn, cut the run short.
    Stopped { turns: u64 },
    Memory,
}

/// The exit status: 0 where all went as asked, 1 for a refusal or a failure, 2 for want of memory, 3 for a
/// run that was stopped.
pub fn status(outcome: &Outcome) -> u8
    ensures { result ≡ exit_code outcome.now }
{
    match outcome {
        Outcome::Ended(_) | Outcome::Told | Outcome::Loaded => 0,
        Outcome::Refused(_)
        | Outcome::OpenFailed { .. }
        | Outcome::ListenFailed { .. }
        | Outcome::AcceptFailed
        | Outcome::Faulted { .. } => 1,
        Outcome::Memory => 2,
        Outcome::Stopped { .. } => 3,
    }
}

/// A law of outcomes: at most one answer fits the acts of a run.
pub fn one_answer_fits()
    ensures { OneAnswer }
{}
