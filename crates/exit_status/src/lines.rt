// What is said of an outcome, and what usage and version say.
ghost use Rattle.std.specs.Prelude.{◌≡◌, ◌++◌, IfOk, string_bytes, if◌then◌else◌, ◌==◌, [], decimal};
ghost use Rattle.exit_status.specs.Lines.{line, refused_line, side_text, op_text, refusal_code, refusal_text, numbered, usage, version};

use crate::outcomes::{Op, Outcome};
use relay_model::{Bytes, NoMemory, Refusal, Refused, Side};
use std::alloc::{AllocError, Global};

fn side_name(side: Side) -> &'static str
    ensures { result.now ≡ side_text side }
{
    match side {
        Side::Left => "left",
        Side::Right => "right",
    }
}

fn op_name(op: Op) -> &'static str
    ensures { result.now ≡ op_text op }
{
    match op {
        Op::Reading => "read",
        Op::Writing => "write",
    }
}

/// The two digits by which a refusal is known.
fn code_of(why: Refusal) -> &'static str
    ensures { result.now ≡ refusal_code why }
{
    match why {
        Refusal::Unclosed { .. } => "01",
        Refusal::LoneBackslash { .. } => "02",
        Refusal::TooLong => "03",
        Refusal::Empty => "05",
        Refusal::TooManyDuals { .. } => "06",
        Refusal::EmptyOption { .. } => "07",
        Refusal::UnknownOption { .. } => "08",
        Refusal::LeftOutOption { .. } => "09",
        Refusal::WrongGroup { .. } => "10",
        Refusal::BadValue { .. } => "11",
        Refusal::UnknownKind => "12",
        Refusal::LeftOutKind => "13",
        Refusal::Parameters { .. } => "14",
        Refusal::BadParameter { .. } => "15",
        Refusal::WrongUse => "16",
        Refusal::ForkPlace => "17",
        Refusal::UnknownFlag => "18",
        Refusal::NoValue => "19",
        Refusal::BadFlagValue => "20",
        Refusal::AddressCount { .. } => "21",
        Refusal::NoDirection => "22",
    }
}

/// What is wrong, in words.
#[tactic(auto, unfolding(crate::specs::Lines::refusal_text))]
fn reason_of(alloc: Global, why: Refusal) -> Result<String, AllocError>
    ensures { IfOk result (λ text. string_bytes text ≡ refusal_text why) }
{
    match why {
        Refusal::Unclosed { at } => format!(in alloc; "unclosed at {at}"),
        Refusal::LoneBackslash { at } => format!(in alloc; "lone backslash at {at}"),
        Refusal::TooLong => String::from_str(alloc, "address too long"),
        Refusal::Empty => String::from_str(alloc, "empty address"),
        Refusal::TooManyDuals { at } => format!(in alloc; "too many !! at {at}"),
        Refusal::EmptyOption { at } => format!(in alloc; "empty option at {at}"),
        Refusal::UnknownOption { place } => format!(in alloc; "unknown option {place}"),
        Refusal::LeftOutOption { place } => format!(in alloc; "left-out option {place}"),
        Refusal::WrongGroup { place } => format!(in alloc; "option {place} of another group"),
        Refusal::BadValue { place } => format!(in alloc; "bad value of option {place}"),
        Refusal::UnknownKind => String::from_str(alloc, "unknown address kind"),
        Refusal::LeftOutKind => String::from_str(alloc, "address kind left out"),
        Refusal::Parameters { want, have } => {
            format!(in alloc; "parameters want {want} have {have}")
        }
        Refusal::BadParameter { place } => format!(in alloc; "bad parameter {place}"),
        Refusal::WrongUse => String::from_str(alloc, "wrong use"),
        Refusal::ForkPlace => String::from_str(alloc, "fork not here"),
        Refusal::UnknownFlag => String::from_str(alloc, "unknown flag"),
        Refusal::NoValue => String::from_str(alloc, "flag without value"),
        Refusal::BadFlagValue => String::from_str(alloc, "bad flag value"),
        Refusal::AddressCount { have } => format!(in alloc; "addresses want 2 have {have}"),
        Refusal::NoDirection => String::from_str(alloc, "no direction"),
    }
}

/// The label and the number, or nothing for 0.
#[tactic(auto, unfolding(crate::specs::Lines::numbered))]
fn labelled_number(alloc: Global, label: &str, number: u32) -> Result<String, AllocError>
    ensures { IfOk result (λ text. string_bytes text ≡ numbered label.now number) }
{
    if number == 0 {
        return Ok(String::new(alloc));
    }
    format!(in alloc; "{label}{number}")
}

#[tactic(auto, unfolding(crate::specs::Lines::refused_line))]
fn line_of_refused(alloc: Global, refused: &Refused) -> Result<String, AllocError>
    ensures { IfOk result (λ text. string_bytes text ≡ refused_line refused.now) }
{
    let code = code_of(refused.why);
    let word = labelled_number(alloc, " word ", refused.word)?;
    let half = labelled_number(alloc, " half ", u32::from(refused.half))?;
    let reason = reason_of(alloc, refused.why)?;
    format!(in alloc; "socat: E{code}{word}{half}: {reason}\n")
}

#[tactic(auto, unfolding(crate::specs::Lines::line))]
fn text_of(alloc: Global, outcome: &Outcome) -> Result<String, AllocError>
    ensures { IfOk result (λ text. string_bytes text ≡ line outcome.now) }
{
    match outcome {
        Outcome::Ended(_) | Outcome::Told | Outcome::Loaded => Ok(String::new(alloc)),
        Outcome::Refused(refused) => line_of_refused(alloc, refused),
        Outcome::OpenFailed { side, attempts } => {
            let side = side_name(*side);
            format!(in alloc; "socat: open failed on the {side} after {attempts} attempts\n")
        }
        Outcome::ListenFailed { attempts } => {
            format!(in alloc; "socat: listen failed after {attempts} attempts\n")
        }
        Outcome::AcceptFailed => String::from_str(alloc, "socat: accept failed\n"),
        Outcome::Faulted { place, op } => {
            let op = op_name(*op);
            let side = side_name(place.side);
            format!(in alloc; "socat: {op} failed on the {side}\n")
        }
        Outcome::Stopped { turns } => format!(in alloc; "socat: stopped after {turns} turns\n"),
        Outcome::Memory => String::from_str(alloc, "socat: out of memory\n"),
    }
}

/// The line that is said of an outcome on standard error, with its newline; nothing where all went as asked.
pub fn line_of(alloc: Global, outcome: &Outcome) -> Result<Bytes, NoMemory>
    ensures { IfOk result (λ bytes. bytes ≡ line outcome.now) }
{
    let text = text_of(alloc, outcome)?;
    Bytes::of(alloc, text.as_bytes())
}

/// What `-h` and `-?` print.
#[tactic(auto, unfolding(crate::specs::Lines::usage))]
pub fn usage_text(alloc: Global) -> Result<Bytes, NoMemory>
    ensures { IfOk result (λ bytes. bytes ≡ usage) }
{
    Bytes::of(
        alloc,
        b"usage: socat [options] <address> <address>\noptions: -b<size> -t<time> -T<time> -u -U -s -v -x -g -d -h -V\n",
    )
}

/// What `-V` prints.
#[tactic(auto, unfolding(crate::specs::Lines::version))]
pub fn version_text(alloc: Global) -> Result<Bytes, NoMemory>
    ensures { IfOk result (λ bytes. bytes ≡ version) }
{
    Bytes::of(alloc, b"socat relay, profile of 1.7\n")
}
