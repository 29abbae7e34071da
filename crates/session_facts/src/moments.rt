// The moments of a session: when it last moved, when its directions were done, and when its timers fall due.
ghost use Rattle.std.specs.Prelude.{◌≡◌};
ghost use Rattle.relay_model.specs.{passed_at, passed, broken_at, broken, done_at, done, after_one, closing_moment, is_unfinished, idle_moment};
ghost use Rattle.relay_model.specs.{reached};

use command_places::{input, is_formed, output};
use history_facts::{Past, moved_at, or_else, read_fault_at, shut_at, write_fault_at};
use relay_model::Way;

/// The moment at which the direction passed its end.
pub fn passed_at(past: &Past, session: u32, way: Way) -> Option<u64>
    ensures { result ≡ passed_at past.now.config past.now.acts session way }
{
    let config = past.config();
    shut_at(past, output(config, session, way))
}

/// Whether the direction passed its end on.
pub fn has_passed(past: &Past, session: u32, way: Way) -> bool
    ensures { result ≡ passed past.now.config past.now.acts session way }
{
    passed_at(past, session, way).is_some()
}

/// The moment at which a fault broke the direction; only with `-s` does one.
pub fn broken_at(past: &Past, session: u32, way: Way) -> Option<u64>
    ensures { result ≡ broken_at past.now.config past.now.acts session way }
{
    let config = past.config();
    if config.sloppy {
        or_else(
            read_fault_at(past, input(config, session, way)),
            write_fault_at(past, output(config, session, way)),
        )
    } else {
        None
    }
}

/// Whether a fault broke the direction; only with `-s` does one.
pub fn is_broken(past: &Past, session: u32, way: Way) -> bool
    ensures { result ≡ broken past.now.config past.now.acts session way }
{
    broken_at(past, session, way).is_some()
}

/// The moment at which the direction was done: it had passed its end or was broken.
pub fn done_at(past: &Past, session: u32, way: Way) -> Option<u64>
    ensures { result ≡ done_at past.now.config past.now.acts session way }
{
    or_else(passed_at(past, session, way), broken_at(past, session, way))
}

/// Whether the direction passed its end on or was broken.
pub fn is_done(past: &Past, session: u32, way: Way) -> bool
    ensures { result ≡ done past.now.config past.now.acts session way }
{
    done_at(past, session, way).is_some()
}

/// Where exactly one of two directions is done, the moment that lies so much later.
fn after_one(closing: u64, one: Option<u64>, other: Option<u64>) -> Option<u128>
    ensures { result ≡ after_one closing one other }
{
    match one {
        Some(first) => match other {
            None => Some(first as u128 + closing as u128),
            Some(_) => None,
        },
        None => match other {
            None => None,
            Some(second) => Some(second as u128 + closing as u128),
        },
    }
}

/// The moment, in milliseconds, at which the closing time (`-t`) is over, where one of two directions is done and the
/// other isn't.
pub fn closing_moment(past: &Past, session: u32) -> Option<u128>
    ensures { result ≡ closing_moment past.now.config past.now.acts session }
{
    let config = past.config();
    if is_formed(config, Way::LeftToRight) && is_formed(config, Way::RightToLeft) {
        after_one(
            config.closing,
            done_at(past, session, Way::LeftToRight),
            done_at(past, session, Way::RightToLeft),
        )
    } else {
        None
    }
}

/// Whether some formed direction isn't done.
pub fn is_unfinished(past: &Past, session: u32) -> bool
    ensures { result ≡ is_unfinished past.now.config past.now.acts session }
{
    let config = past.config();
    is_formed(config, Way::LeftToRight) && !is_done(past, session, Way::LeftToRight)
        || is_formed(config, Way::RightToLeft) && !is_done(past, session, Way::RightToLeft)
}

/// The moment, in milliseconds, at which the session has been idle for as long as `-T` says, where it is given and a
/// direction isn't done.
pub fn idle_moment(past: &Past, session: u32) -> Option<u128>
    ensures { result ≡ idle_moment past.now.config past.now.acts session }
{
    let config = past.config();
    if config.idle > 0 && is_unfinished(past, session) {
        Some(moved_at(past, session) as u128 + config.idle as u128)
    } else {
        None
    }
}

/// Whether there is such a moment and it isn't later than `at`.
pub fn is_reached(moment: Option<u128>, at: u64) -> bool
    ensures { result ≡ reached moment at }
{
    match moment {
        None => false,
        Some(m) => m <= at as u128,
    }
}
