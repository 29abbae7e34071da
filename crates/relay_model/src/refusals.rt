// Why a command line is refused.

/// What is wrong with a word. Offsets count bytes from 0; places count options and parameters from 1.
#[derive(Clone, Copy, PartialEq, Eq)]
pub enum Refusal {
    Unclosed { at: u32 },
    LoneBackslash { at: u32 },
    TooLong,
    Empty,
    TooManyDuals { at: u32 },
    EmptyOption { at: u32 },
    UnknownOption { place: u32 },
    LeftOutOption { place: u32 },
    WrongGroup { place: u32 },
    BadValue { place: u32 },
    UnknownKind,
    LeftOutKind,
    Parameters { want: u32, have: u32 },
    BadParameter { place: u32 },
    WrongUse,
    ForkPlace,
    UnknownFlag,
    NoValue,
    BadFlagValue,
    AddressCount { have: u32 },
    NoDirection,
}

/// A refusal with the word it is about, counted from 1, and the half of a dual address, 1 or 2. A 0 stands
/// for no word and for no half.
#[derive(Clone, Copy, PartialEq, Eq)]
pub struct Refused {
    pub word: u32,
    pub half: u8,
    pub why: Refusal,
}
