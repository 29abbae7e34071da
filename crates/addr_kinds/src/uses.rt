// What an address is used for.
ghost use Rattle.std.specs.Prelude.{◌≡◌};
ghost use Rattle.addr_kinds.specs.Kinds.{offers};

/// What an address is asked for: to be read and written, to be read, or to be written.
#[derive(Clone, Copy, PartialEq, Eq)]
pub enum Asked {
    TwoWay,
    Reading,
    Writing,
}

/// The uses that a kind is offered for.
#[derive(Clone, Copy)]
pub(crate) enum Uses {
    Any,
    AllButWriting,
    AllButReading,
    OnlyReading,
    OnlyWriting,
}

impl Uses {
    /// Whether the use is among them.
    pub(crate) fn offer(self, asked: Asked) -> bool
        ensures { result ≡ offers self asked }
    {
        match self {
            Uses::Any => true,
            Uses::AllButWriting => !matches!(asked, Asked::Writing),
            Uses::AllButReading => !matches!(asked, Asked::Reading),
            Uses::OnlyReading => matches!(asked, Asked::Reading),
            Uses::OnlyWriting => matches!(asked, Asked::Writing),
        }
    }
}
