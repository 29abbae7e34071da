// The flags, which stand in front of the addresses (socat(1), "OPTIONS").
ghost use Rattle.std.specs.Prelude.{◌≡◌, map, option_map, option_copied, IfOk, IfSome};
ghost use Rattle.cmd_words.specs.Flags.{begins_addresses, measured, with_text, with_hex, switched, set_to, plain_flag, found, as_named, step_of, plain_step, measure_step, load_of, IsBounded, IsSound};

use crate::settings::{FlagStep, Instead, Measure, Settings, Switch};
use option_table::{read_number, read_time};
use relay_model::{Dump, Refusal, Ways};

/// A flag to which no value is attached. That of `Load` is the next word.
#[derive(Clone, Copy)]
pub enum Plain {
    Switch(Switch),
    Usage,
    Version,
    Load,
}

type FlagRow = (&'static [u8], Plain);

const FLAGS: [FlagRow; 14] = [
    (b"-u", Plain::Switch(Switch::OnlyRight)),
    (b"-U", Plain::Switch(Switch::OnlyLeft)),
    (b"-v", Plain::Switch(Switch::TextDump)),
    (b"-x", Plain::Switch(Switch::HexDump)),
    (b"-g", Plain::Switch(Switch::AnyGroup)),
    (b"-s", Plain::Switch(Switch::Sloppy)),
    (b"-d", Plain::Switch(Switch::Messages)),
    (b"-dd", Plain::Switch(Switch::Messages)),
    (b"-ddd", Plain::Switch(Switch::Messages)),
    (b"-dddd", Plain::Switch(Switch::Messages)),
    (b"-h", Plain::Usage),
    (b"-?", Plain::Usage),
    (b"-V", Plain::Version),
    (b"--load", Plain::Load),
];

/// Whether the addresses begin with this word. Those that begin with `-` are standard input and output, with
/// options or another half behind it.
pub fn begins_addresses(word: &[u8]) -> bool
    ensures { result ≡ begins_addresses word.now }
{
    match word {
        [b'-'] | [b'-', b',', ..] | [b'-', b'!', b'!', ..] => true,
        [b'-', ..] => false,
        _ => true,
    }
}

fn find_flag(mut table: &[FlagRow], word: &[u8]) -> Option<Plain>
    ensures { result ≡ found (map as_named table.entry.now) word.now }
{
    while let [row, rest @ ..] = table {
        if row.0 == word {
            return Some(row.1);
        }
        table = rest;
    }
    None
}

#[tactic(auto, unfolding(crate::specs::Flags::plain_flag, crate::specs::Flags::known_flags))]
fn plain_flag(word: &[u8]) -> Option<Plain>
    ensures { result ≡ plain_flag word.now }
{
    find_flag(&FLAGS, word)
}

/// The flag with a value that this word is, and what is attached to it.
fn find_measure(word: &[u8]) -> Option<(Measure, &[u8])>
    ensures { option_map (λ m. (m.0, m.1.now)) result ≡ measured word.now }
{
    match word {
        [b'-', b'b', value @ ..] => Some((Measure::Block, value)),
        [b'-', b't', value @ ..] => Some((Measure::Closing, value)),
        [b'-', b'T', value @ ..] => Some((Measure::Idle, value)),
        _ => None,
    }
}

fn with_text(dump: Dump) -> Dump
    ensures { result ≡ with_text dump }
{
    match dump {
        Dump::Off | Dump::Text => Dump::Text,
        Dump::Hex | Dump::Mixed => Dump::Mixed,
    }
}

fn with_hex(dump: Dump) -> Dump
    ensures { result ≡ with_hex dump }
{
    match dump {
        Dump::Off | Dump::Hex => Dump::Hex,
        Dump::Text | Dump::Mixed => Dump::Mixed,
    }
}

impl Settings {
    fn with_switch(mut self, switch: Switch) -> Settings
        requires { IsBounded self }
        ensures value { result ≡ switched self switch }
        ensures bounded { IsBounded result }
    {
        match switch {
            Switch::OnlyRight => self.ways = Ways::OnlyRight,
            Switch::OnlyLeft => self.ways = Ways::OnlyLeft,
            Switch::TextDump => self.dump = with_text(self.dump),
            Switch::HexDump => self.dump = with_hex(self.dump),
            Switch::AnyGroup => self.general = true,
            Switch::Sloppy => self.sloppy = true,
            Switch::Messages => {}
        }
        self
    }

    fn set_to(mut self, measure: Measure, value: &[u8]) -> Option<Settings>
        requires { IsBounded self }
        ensures value { result ≡ set_to self measure value.now }
        ensures bounded { IfSome result IsBounded }
    {
        match measure {
            Measure::Block => {
                let block = read_number(value)?;
                if block < 1 || block > 1_048_576 {
                    return None;
                }
                self.block = block as u32;
            }
            Measure::Closing => self.closing = read_time(value)?,
            Measure::Idle => self.idle = read_time(value)?,
        }
        Some(self)
    }
}

fn measure_step(
    settings: Settings,
    measure: Measure,
    attached: &[u8],
    next: Option<&[u8]>,
) -> Result<FlagStep, Refusal>
    requires { IsBounded settings }
    ensures exact { result ≡ measure_step settings measure attached.now (option_copied next.entry) }
    ensures sound { IfOk result (IsSound (option_copied next.entry)) }
{
    if !attached.is_empty() {
        let changed = settings.set_to(measure, attached);
        return changed.map(FlagStep::Alone).ok_or(Refusal::BadFlagValue);
    }
    let value = next.ok_or(Refusal::NoValue)?;
    let changed = settings.set_to(measure, value);
    changed.map(FlagStep::WithNext).ok_or(Refusal::BadFlagValue)
}

fn load_of(next: Option<&[u8]>) -> Result<FlagStep, Refusal>
    ensures exact { result ≡ load_of (option_copied next.entry) }
    ensures sound { IfOk result (IsSound (option_copied next.entry)) }
{
    let value = next.ok_or(Refusal::NoValue)?;
    let number = read_number(value).ok_or(Refusal::BadFlagValue)?;
    Ok(FlagStep::Stop(Instead::Load(number)))
}

fn plain_step(settings: Settings, flag: Plain, next: Option<&[u8]>) -> Result<FlagStep, Refusal>
    requires { IsBounded settings }
    ensures exact { result ≡ plain_step settings flag (option_copied next.entry) }
    ensures sound { IfOk result (IsSound (option_copied next.entry)) }
{
    match flag {
        Plain::Switch(switch) => Ok(FlagStep::Alone(settings.with_switch(switch))),
        Plain::Usage => Ok(FlagStep::Stop(Instead::Usage)),
        Plain::Version => Ok(FlagStep::Stop(Instead::Version)),
        Plain::Load => load_of(next),
    }
}

/// What the flag does that this word is, with the word behind it.
#[tactic(auto, unfolding(crate::specs::Flags::step_of))]
pub fn step_of(settings: Settings, word: &[u8], next: Option<&[u8]>) -> Result<FlagStep, Refusal>
    requires { IsBounded settings }
    ensures exact { result ≡ step_of settings word.now (option_copied next.entry) }
    ensures sound { IfOk result (IsSound (option_copied next.entry)) }
{
    match find_measure(word) {
        Some((measure, attached)) => measure_step(settings, measure, attached, next),
        None => match plain_flag(word) {
            Some(flag) => plain_step(settings, flag, next),
            None => Err(Refusal::UnknownFlag),
        },
    }
}
