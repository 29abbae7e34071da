// What the flags in front of the addresses set.
use relay_model::{Dump, Ways};

/// What the flags set: the block size in bytes, the closing time and the time of inactivity in milliseconds
/// (0 is off), the directions, the dump, whether a fault cuts its direction alone, and whether options of any
/// group are taken.
#[derive(Clone, Copy)]
pub struct Settings {
    pub block: u32,
    pub closing: u64,
    pub idle: u64,
    pub ways: Ways,
    pub dump: Dump,
    pub sloppy: bool,
    pub general: bool,
}

impl Settings {
    /// The settings without a flag.
    pub const DEFAULT: Settings = Settings {
        block: 8192,
        closing: 500,
        idle: 0,
        ways: Ways::Two,
        dump: Dump::Off,
        sloppy: false,
        general: false,
    };
}

/// A flag without a value. `Messages` is for the levels of messages, which change nothing here.
#[derive(Clone, Copy)]
pub enum Switch {
    OnlyRight,
    OnlyLeft,
    TextDump,
    HexDump,
    AnyGroup,
    Sloppy,
    Messages,
}

/// A flag whose value sets something.
#[derive(Clone, Copy)]
pub enum Measure {
    Block,
    Closing,
    Idle,
}

/// What is asked for in place of a relay.
#[derive(Clone, Copy)]
pub enum Instead {
    Usage,
    Version,
    Load(u64),
}

/// What a flag does.
#[derive(Clone, Copy)]
pub enum FlagStep {
    /// It stands alone, and these are the settings behind it.
    Alone(Settings),
    /// The next word is its value, and these are the settings behind that.
    WithNext(Settings),
    /// Nothing more is read.
    Stop(Instead),
}

/// What the flags lead to.
#[derive(Clone, Copy)]
pub enum Flagged {
    /// A relay with these settings. The addresses begin with the word at `first`, counted from 0.
    Relay { settings: Settings, first: usize },
    Instead(Instead),
}
