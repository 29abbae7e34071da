// How an input stands: whether it is worth asking, and when one that met an end is asked again.
ghost use Rattle.std.specs.Prelude.{◌≡◌, if◌then◌else◌};
ghost use Rattle.relay_model.specs.Arming.{arming_moment, is_armed};
ghost use Rattle.relay_model.specs.declared.armings.Arming.TheVariants as armings;
ghost use Rattle.relay_model.specs.Choices.{later};

/// How long after an end an input is asked again, in milliseconds (socat(1), `ignoreeof`).
const PAUSE_AFTER_END: u64 = 1000;

/// How an input stands.
#[derive(Clone, Copy, PartialEq, Eq)]
pub enum Arming {
    /// Not worth asking.
    Disarmed,
    /// Worth asking now.
    Armed,
    /// It met an end at this moment, in milliseconds, and is worth asking again only after a pause.
    AtEnd(u64),
}

impl Arming {
    /// Whether the input is worth asking at this moment.
    pub fn is_armed(self, at: u64) -> bool
        ensures { result ≡ is_armed self at }
    {
        match self {
            Arming::Disarmed => false,
            Arming::Armed => true,
            Arming::AtEnd(met) => match met.checked_add(PAUSE_AFTER_END) {
                Some(due) => due <= at,
                None => false,
            },
        }
    }

    /// The moment, later than this one, from which an input that met an end is asked again.
    pub fn moment(self, at: u64) -> Option<u64>
        ensures { result ≡ later at (arming_moment self) }
    {
        match self {
            Arming::Disarmed | Arming::Armed => None,
            Arming::AtEnd(met) => match met.checked_add(PAUSE_AFTER_END) {
                Some(due) if at < due => Some(due),
                _ => None,
            },
        }
    }

    /// Armed where the input was opened or named, and else as before.
    pub fn armed_where(self, named: bool) -> Arming
        ensures { result ≡ (if named then armings.Armed else self) }
    {
        if named { Arming::Armed } else { self }
    }
}
