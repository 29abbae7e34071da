// What a command line asks for.
ghost use Rattle.std.specs.Prelude.{◌≡◌, ◌≢◌, ◌+◌, ◌<◌, ◌^◌, ◌||◌, None, length, IfOk, IfSome, MatchOption};
ghost use Rattle.relay_model.specs.{Config, Fit, formed};
ghost use Rattle.relay_model.specs.declared.places.Way.TheVariants.{LeftToRight, RightToLeft};
ghost use Rattle.relay_model.specs.declared.places.Side.TheVariants.{Left, Right};
ghost use Rattle.cmd_words.specs.Flags.{IsBounded};
ghost use Rattle.cmd_words.specs.Commands.{Answers, IsFit, whole, misplaced_fork, instead_of, directed, config_of, between, command, IsRelayOf};

use crate::addresses::address_at;
use crate::faults::CommandFault;
use crate::leading::read_flags;
use crate::settings::{Flagged, Instead, Settings};
use addr_kinds::report_number;
use command_places::is_formed;
use relay_model::{Address, Config, NoMemory, Refusal, Refused, Side, Text, Way};
use std::alloc::Global;

/// What a command line asks for: a relay, the usage, the version, or the run that is generated from a number.
#[derive(Drop)]
pub enum Command {
    Relay(Config),
    Usage,
    Version,
    Load(u64),
}

fn instead_of(what: Instead) -> Command
    ensures { result ≡ instead_of what }
{
    match what {
        Instead::Usage => Command::Usage,
        Instead::Version => Command::Version,
        Instead::Load(number) => Command::Load(number),
    }
}

/// A refusal of no word in particular.
fn whole(why: Refusal) -> CommandFault
    ensures { result ≡ whole why }
{
    CommandFault::Refused(Refused {
        word: 0,
        half: 0,
        why,
    })
}

/// Whether some direction is read on one side and written on the other.
fn has_direction(config: &Config) -> bool
    ensures { result ≡ (formed config.now LeftToRight || formed config.now RightToLeft) }
{
    is_formed(config, Way::LeftToRight) || is_formed(config, Way::RightToLeft)
}

/// The relay between two addresses, where they form a direction.
#[tactic(auto, using(crate::proofs::Fitting::fit_of))]
fn relay_between(settings: Settings, left: Address, right: Address) -> Result<Command, CommandFault>
    requires bounded { IsBounded settings }
    requires left { misplaced_fork Left left ≡ None }
    requires right { misplaced_fork Right right ≡ None }
    ensures exact { result ≡ directed (config_of settings left right) }
    ensures fit { IfOk result IsFit }
{
    let config = Config {
        block: settings.block,
        closing: settings.closing,
        idle: settings.idle,
        ways: settings.ways,
        dump: settings.dump,
        sloppy: settings.sloppy,
        left,
        right,
    };
    if has_direction(&config) {
        return Ok(Command::Relay(config));
    }
    drop(config);
    Err(whole(Refusal::NoDirection))
}

/// The relay between the addresses that are the words from the place `first` on.
#[tactic(auto, unfolding(crate::specs::Commands::between))]
fn between(
    alloc: Global,
    settings: Settings,
    first: usize,
    words: &[Text],
) -> Result<Command, CommandFault>
    requires bounded { IsBounded settings }
    requires within { first + length words.now < 2 ^ 64 }
    ensures exact { Answers result (between settings first words.now) }
    ensures fit { IfOk result IsFit }
{
    let [left, right] = words else {
        let have = report_number(words.len());
        return Err(whole(Refusal::AddressCount { have }));
    };
    let left = address_at(alloc, settings, first, Side::Left, left.as_slice())?;
    match address_at(alloc, settings, first + 1, Side::Right, right.as_slice()) {
        Ok(right) => relay_between(settings, left, right),
        Err(fault) => {
            drop(left);
            Err(fault)
        }
    }
}

/// What a command line asks for (socat(1), "SYNOPSIS"); the words don't include the program's name. Words that
/// ask for nothing are answered with the first refusal there is.
#[tactic(auto, unfolding(crate::specs::Commands::command))]
pub fn command_of(alloc: Global, words: &[Text]) -> Result<Command, CommandFault>
    // It is the command that the words make, or their first refusal; memory may run out at any place.
    ensures exact { Answers result (command words.now) }
    // A relay that is asked for can be run.
    ensures fit { IfOk result IsFit }
{
    match read_flags(words) {
        Ok(Flagged::Relay { settings, first }) => between(alloc, settings, first, &words[first..]),
        Ok(Flagged::Instead(what)) => Ok(instead_of(what)),
        Err(refused) => Err(CommandFault::Refused(refused)),
    }
}

/// The relay that a command asks for, where it asks for one.
fn relay_in(command: Command) -> Option<Config>
    ensures { MatchOption result ((c : Config) → command ≢ Command.Relay c) (λ c. command ≡ Command.Relay c) }
{
    match command {
        Command::Relay(config) => Some(config),
        Command::Usage | Command::Version | Command::Load(_) => None,
    }
}

/// The relay for which the words ask, where they ask for one.
pub fn relay_of(alloc: Global, words: &[Text]) -> Result<Option<Config>, NoMemory>
    // It is the relay that the words make, and none only where they make none.
    ensures exact { IfOk result (IsRelayOf words.now) }
    // It can be run.
    ensures fit { IfOk result (λ relay. IfSome relay Fit) }
{
    match command_of(alloc, words) {
        Ok(command) => Ok(relay_in(command)),
        Err(CommandFault::Refused(_)) => Ok(None),
        Err(CommandFault::Memory) => Err(NoMemory),
    }
}
