// Why a list of words makes no command.
ghost use Rattle.std.specs.Prelude.{◌≡◌, ◌+◌, ◌<◌, ◌^◌};
ghost use Rattle.cmd_words.specs.Flags.{refused_at};
ghost use Rattle.cmd_words.specs.Commands.{wrong_at, text_fault, kind_fault};

use addr_grammar::GrammarFault;
use addr_kinds::{KindFault, report_number};
use relay_model::{NoMemory, Refusal, Refused};
use std::fmt;
use thiserror::Error;

/// Why a list of words makes no command. A refusal is the first there is: of the flags from left to right, then
/// of the number of addresses, then of each address, then of the directions.
#[derive(Drop, Error)]
pub enum CommandFault {
    /// What is wrong, and with which word.
    #[error("refused at word {}, half {}", .0.word, .0.half)]
    Refused(Refused),
    /// No memory was found.
    #[error("out of memory")]
    Memory,
}

/// The same text as it is displayed with.
impl fmt::Debug for CommandFault {
    fn fmt<W: fmt::Write>(&self, f: &mut fmt::Formatter<W>) -> fmt::Result {
        fmt::Display::fmt(self, f)
    }
}

/// A refusal of the word at this place, counted from 0, and of a half of its address.
pub fn refused_at(at: usize, half: u8, why: Refusal) -> Refused
    requires { at + 1 < 2 ^ 64 }
    ensures { result ≡ refused_at at half why }
{
    Refused {
        word: report_number(at + 1),
        half,
        why,
    }
}

/// The fault of a half of the address at this place; half 0 stands for the whole word.
pub fn wrong_at(at: usize, half: u8, why: Refusal) -> CommandFault
    requires { at + 1 < 2 ^ 64 }
    ensures { result ≡ wrong_at at half why }
{
    CommandFault::Refused(refused_at(at, half, why))
}

/// The fault of an address that no text spells.
pub fn text_fault(at: usize, fault: GrammarFault) -> CommandFault
    requires { at + 1 < 2 ^ 64 }
    ensures { result ≡ text_fault at fault }
{
    let why = match fault {
        GrammarFault::Unclosed { at } => Refusal::Unclosed { at },
        GrammarFault::LoneBackslash { at } => Refusal::LoneBackslash { at },
        GrammarFault::TooLong => Refusal::TooLong,
        GrammarFault::Empty => Refusal::Empty,
        GrammarFault::TooManyDuals { at } => Refusal::TooManyDuals { at },
        GrammarFault::EmptyOption { at } => Refusal::EmptyOption { at },
        GrammarFault::Memory => return CommandFault::Memory,
    };
    wrong_at(at, 0, why)
}

/// The fault of a half that asks for nothing that can be opened.
pub fn kind_fault(at: usize, half: u8, fault: KindFault) -> CommandFault
    requires { at + 1 < 2 ^ 64 }
    ensures { result ≡ kind_fault at half fault }
{
    let why = match fault {
        KindFault::UnknownOption { place } => Refusal::UnknownOption { place },
        KindFault::LeftOutOption { place } => Refusal::LeftOutOption { place },
        KindFault::WrongGroup { place } => Refusal::WrongGroup { place },
        KindFault::BadValue { place } => Refusal::BadValue { place },
        KindFault::UnknownKind => Refusal::UnknownKind,
        KindFault::LeftOutKind => Refusal::LeftOutKind,
        KindFault::Parameters { want, have } => Refusal::Parameters { want, have },
        KindFault::BadParameter { place } => Refusal::BadParameter { place },
        KindFault::WrongUse => Refusal::WrongUse,
        KindFault::Memory => return CommandFault::Memory,
    };
    wrong_at(at, half, why)
}
