// Small choices: of moments, of which there may be none, and of tests.
ghost use Rattle.std.specs.Prelude.{◌≡◌, ℕ, Option};
ghost use Rattle.relay_model.specs.{earlier as least, later, reached};
ghost use Rattle.relay_session.specs.Timers.{one_of as single, reachable, after};

/// Whether the moment isn't later than now.
pub fn is_reached(moment: Option<u64>, now: u64) -> bool
    ensures { (m : Option ℕ) → moment ≡ reachable m → result ≡ reached m now }
{
    match moment {
        Some(moment) => moment <= now,
        None => false,
    }
}

/// The moment, where it is later than now.
pub fn ahead(now: u64, moment: Option<u64>) -> Option<u64>
    ensures plain { result ≡ later now moment }
    ensures stands { (m : Option ℕ) → moment ≡ reachable m → result ≡ later now m }
{
    moment.filter(|moment| *moment > now)
}

/// So much later, as far as a clock of 64 bits can reach.
pub fn later_by(moment: Option<u64>, wait: u64) -> Option<u64>
    ensures { result ≡ reachable (after wait moment) }
{
    match moment {
        Some(moment) => moment.checked_add(wait),
        None => None,
    }
}

/// The lesser of two moments.
pub fn earlier(one: Option<u64>, other: Option<u64>) -> Option<u64>
    ensures { result ≡ least one other }
{
    match (one, other) {
        (None, other) => other,
        (one, None) => one,
        (Some(one), Some(other)) => Some(one.min(other)),
    }
}

/// The moment that there is, where there is exactly one.
pub fn one_of(one: Option<u64>, other: Option<u64>) -> Option<u64>
    ensures { result ≡ single one other }
{
    match (one, other) {
        (Some(moment), None) | (None, Some(moment)) => Some(moment),
        _ => None,
    }
}
