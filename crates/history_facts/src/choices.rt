// Small choices: the first of two answers, the lesser of two moments.
ghost use Rattle.std.specs.Prelude.{◌≡◌};
ghost use Rattle.relay_model.specs.{or_else, earlier, later};

/// The first moment where there is one, else the second.
pub fn or_else(one: Option<u64>, other: Option<u64>) -> Option<u64>
    ensures { result ≡ or_else one other }
{
    match one {
        None => other,
        Some(moment) => Some(moment),
    }
}

/// The lesser of two moments, where there are two.
pub fn earlier(one: Option<u64>, other: Option<u64>) -> Option<u64>
    ensures { result ≡ earlier one other }
{
    match one {
        None => other,
        Some(first) => match other {
            None => Some(first),
            Some(second) => Some(first.min(second)),
        },
    }
}

/// A moment that is later than now and that a clock can reach.
pub fn later(at: u64, moment: Option<u128>) -> Option<u64>
    ensures { result ≡ later at moment }
{
    match moment {
        None => None,
        Some(m) => {
            if m > at as u128 && m <= u64::MAX as u128 {
                Some(m as u64)
            } else {
                None
            }
        }
    }
}
