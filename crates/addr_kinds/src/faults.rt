// Why an address is none that the relay can open.
ghost use Rattle.std.specs.Prelude.{◌≡◌};
ghost use Rattle.addr_kinds.specs.declared.faults.KindFault.TheVariants.{Memory};

use relay_model::NoMemory;
use std::fmt;
use thiserror::Error;

/// What is wrong with an address: first its kind, then its parameters, then its options from left to right, then
/// its use. Places count from 1, options and parameters apart. A place or a count above 4,294,967,295 stays
/// there.
#[derive(Drop, Error)]
pub enum KindFault {
    /// No option has this name.
    #[error("unknown option {place}")]
    UnknownOption { place: u32 },
    /// An option of socat(1) that this relay doesn't offer.
    #[error("left-out option {place}")]
    LeftOutOption { place: u32 },
    /// The option is of a group that the kind doesn't take.
    #[error("option {place} of another group")]
    WrongGroup { place: u32 },
    /// The value isn't written as the option's values are, is out of range, or is a port where none may stand.
    #[error("bad value of option {place}")]
    BadValue { place: u32 },
    /// No kind has this keyword.
    #[error("unknown address kind")]
    UnknownKind,
    /// A kind of socat(1) that this relay doesn't offer.
    #[error("address kind left out")]
    LeftOutKind,
    /// The kind has another number of parameters.
    #[error("parameters want {want} have {have}")]
    Parameters { want: u32, have: u32 },
    /// The first parameter that isn't as its kind wants it.
    #[error("bad parameter {place}")]
    BadParameter { place: u32 },
    /// The kind isn't offered for the asked use, or its options exclude it.
    #[error("wrong use")]
    WrongUse,
    /// No memory was found.
    #[error("out of memory")]
    Memory,
}

/// The same text as it is displayed with.
impl fmt::Debug for KindFault {
    fn fmt<W: fmt::Write>(&self, f: &mut fmt::Formatter<W>) -> fmt::Result {
        fmt::Display::fmt(self, f)
    }
}

impl From<NoMemory> for KindFault {
    ghost from_gives = { λ _ fault. fault ≡ Memory };

    fn from(_error: NoMemory) -> KindFault {
        KindFault::Memory
    }
}
