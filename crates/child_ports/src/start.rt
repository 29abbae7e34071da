// Starting a program.
ghost use Rattle.std.specs.Prelude.{◌≡◌, false, None, Some, Ok, is_some, IfOk, IfErr, MatchOption, OnOk};
ghost use Rattle.std.specs.Process.{SameProgramAndArgs, SameEnv, clears_env};
ghost use Rattle.child_ports.specs.Commands.{RunsWords, AddsArgument, SetsTexts, TellsTexts, IsCommandOf, shell_words, words_of, told_texts};
ghost use Rattle.port_trait.specs.{IsAtOnce};
ghost use Rattle.port_trait.specs.declared.makers.Making.TheVariants as makings;
ghost use Rattle.file_ports.specs.{AreOf, OnMade, reads_by, writes_by};
ghost use Rattle.socket_ports.specs.{IsFreshPort};
ghost use Rattle.child_ports.specs.Programs.{runs_program, IsWordless, IsUnstarted, Starts};

use crate::calls::ProgramCalls;
use crate::peers::PeerTexts;
use crate::port::ChildPort;
use crate::unreaped::UnreapedChildren;
use mio::Registry;
use port_trait::Making;
use relay_model::{NoMemory, Part, Peer, Target, Text, Texts};
use socket_ports::SocketPort;
use std::alloc::Global;
use std::io::{PipeReader, PipeWriter};
use std::process::{Command, Stdio, SystemProcess};
use std::{io, str};

/// Starts the program of an `EXEC` or the shell of a `SYSTEM` (socat(1)), once, and has the registry report its pipes
/// under `key`. The stream that the part doesn't use is this process's own, as is standard error. `Failed` where the
/// address is none of these, where a text of it isn't UTF-8, and where the system refuses; then nothing was started. A
/// program that outlives its port goes to the unreaped.
#[tactic(auto, using(crate::proofs::Words::runs_on))]
pub fn make_child<C: ProgramCalls>(
    calls: &mut C,
    alloc: Global,
    registry: &Registry,
    key: usize,
    unreaped: &UnreapedChildren<SystemProcess>,
    target: &Target,
    part: Part,
    peer: Option<Peer>,
) -> Making<ChildPort>
    ensures fresh { OnMade result IsFreshPort }
    ensures halves { OnMade result (λ port. AreOf part port.socket) }
    ensures at_once { IsAtOnce result }
    ensures other { runs_program target.now ≡ false → result ≡ makings.Failed }
    ensures started { Starts target.now peer result (C.started calls.old) (C.started calls.new) }
    ensures failed { result ≡ makings.Failed
        → IsUnstarted (C.refuses calls.old) (C.lacks_pipes calls.old) (C.reports_none calls.old) target.now peer }
{
    let mut command = match command_for(alloc, target, peer) {
        Ok(Some(command)) => command,
        Ok(None) => return Making::Failed,
        Err(NoMemory) => return Making::Memory,
    };
    let Ok(PipeEnds { output, input }) = pipe_ends(&*calls, &mut command, part) else {
        return Making::Failed;
    };
    let Some(pipes) = calls.enroll(registry, key, output, input) else {
        return Making::Failed;
    };
    let Ok(ward) = unreaped.empty_ward() else {
        return Making::Memory;
    };
    match calls.start(&mut command) {
        Ok(child) => Making::Made(ChildPort::new(SocketPort::new(pipes, ()), ward.with(child))),
        Err(_) => Making::Failed,
    }
}

/// The program with its arguments, which is told of the peer that it serves. `None` where the address names none.
#[tactic(auto, using(crate::proofs::Words::told_after))]
fn command_for(
    alloc: Global,
    target: &Target,
    peer: Option<Peer>,
) -> Result<Option<Command>, NoMemory>
    ensures command { IfOk result (λ found. MatchOption found (IsWordless (words_of target.now)) (IsCommandOf target.now peer)) }
    ensures other { runs_program target.now ≡ false → result ≡ Ok None }
{
    let Some(mut command) = command_of(alloc, target)? else {
        return Ok(None);
    };
    set_peer(alloc, &mut command, peer)?;
    Ok(Some(command))
}

/// The program and its arguments.
fn command_of(alloc: Global, target: &Target) -> Result<Option<Command>, NoMemory>
    ensures words { IfOk result (λ found. MatchOption found (IsWordless (words_of target.now)) (RunsWords (words_of target.now))) }
    ensures other { runs_program target.now ≡ false → result ≡ Ok None }
{
    match target {
        Target::Exec(words) => command_of_words(alloc, words),
        Target::System(text) => shell_command(alloc, text),
        _ => Ok(None),
    }
}

fn command_of_words(alloc: Global, words: &Texts) -> Result<Option<Command>, NoMemory>
    ensures { IfOk result (λ found. MatchOption found (IsWordless words.now) (RunsWords words.now)) }
{
    if words.len() == 0 {
        return Ok(None);
    }
    let Ok(program) = str::from_utf8(words.get(0).as_slice()) else {
        return Ok(None);
    };
    let mut command = Command::new(alloc, program)?;
    for i in 1..words.len() {
        let Ok(word) = str::from_utf8(words.get(i).as_slice()) else {
            return Ok(None);
        };
        add_argument(&mut command, word)?;
    }
    Ok(Some(command))
}

fn add_argument(command: &mut Command, argument: &str) -> Result<(), NoMemory>
    ensures { OnOk result (AddsArgument command.old command.new argument.now) }
{
    command.arg(argument)?;
    Ok(())
}

fn shell_command(alloc: Global, text: &Text) -> Result<Option<Command>, NoMemory>
    ensures { IfOk result (λ found. MatchOption found (IsWordless (shell_words text.now)) (RunsWords (shell_words text.now))) }
{
    let Ok(text) = str::from_utf8(text.as_slice()) else {
        return Ok(None);
    };
    let mut command = Command::new(alloc, "/bin/sh")?;
    add_argument(&mut command, "-c")?;
    add_argument(&mut command, text)?;
    Ok(Some(command))
}

/// Tells the child of the peer that it serves. Of a peer without an address it isn't told that of another.
fn set_peer(alloc: Global, command: &mut Command, peer: Option<Peer>) -> Result<(), NoMemory>
    ensures { clears_env command.old ≡ false → OnOk result (TellsTexts (told_texts peer) command.old command.new) }
{
    let Some(peer) = peer else {
        return Ok(());
    };
    match PeerTexts::of(alloc, peer)? {
        Some(texts) => set_texts(command, texts.address.as_str(), texts.port.as_str()),
        None => unset_texts(command),
    }
}

fn set_texts(command: &mut Command, address: &str, port: &str) -> Result<(), NoMemory>
    ensures { OnOk result (SetsTexts command.old command.new (Some (address.now, port.now))) }
{
    command.env("SOCAT_PEERADDR", address)?;
    command.env("SOCAT_PEERPORT", port)?;
    Ok(())
}

fn unset_texts(command: &mut Command) -> Result<(), NoMemory>
    ensures { clears_env command.old ≡ false → OnOk result (SetsTexts command.old command.new None) }
{
    command.env_remove("SOCAT_PEERADDR")?;
    command.env_remove("SOCAT_PEERPORT")?;
    Ok(())
}

/// This process's ends of a program's pipes.
#[derive(Drop)]
struct PipeEnds {
    output: Option<PipeReader>,
    input: Option<PipeWriter>,
}

/// Gives the program the other ends of pipes. These are of io::pipe, since the writer of a `Child` keeps SIGPIPE away by
/// three more system calls for each write, and this process ignores that signal.
fn pipe_ends<C: ProgramCalls>(calls: &C, command: &mut Command, part: Part) -> io::Result<PipeEnds>
    ensures call { OnOk result (SameProgramAndArgs command.old command.new) }
    ensures environment { OnOk result (SameEnv command.old command.new) }
    ensures ends { IfOk result (λ ends. (is_some ends.output ≡ reads_by part) × (is_some ends.input ≡ writes_by part)) }
    ensures none { IfErr result (λ _. C.lacks_pipes calls.now) }
{
    let input = input_for(calls, command, part)?;
    let output = output_of(calls, command, part)?;
    command.stderr(Stdio::inherit());
    Ok(PipeEnds { output, input })
}

/// What the program reads from is written here, where the part writes.
fn input_for<C: ProgramCalls>(
    calls: &C,
    command: &mut Command,
    part: Part,
) -> io::Result<Option<PipeWriter>>
    ensures call { OnOk result (SameProgramAndArgs command.old command.new) }
    ensures environment { OnOk result (SameEnv command.old command.new) }
    ensures end { IfOk result (λ input. is_some input ≡ writes_by part) }
    ensures none { IfErr result (λ _. C.lacks_pipes calls.now) }
{
    match part {
        Part::Reading => {
            command.stdin(Stdio::inherit());
            Ok(None)
        }
        Part::Writing | Part::Both => {
            let (theirs, ours) = calls.pipe()?;
            command.stdin(Stdio::from(theirs));
            Ok(Some(ours))
        }
    }
}

/// What the program writes is read here, where the part reads.
fn output_of<C: ProgramCalls>(
    calls: &C,
    command: &mut Command,
    part: Part,
) -> io::Result<Option<PipeReader>>
    ensures call { OnOk result (SameProgramAndArgs command.old command.new) }
    ensures environment { OnOk result (SameEnv command.old command.new) }
    ensures end { IfOk result (λ output. is_some output ≡ reads_by part) }
    ensures none { IfErr result (λ _. C.lacks_pipes calls.now) }
{
    match part {
        Part::Writing => {
            command.stdout(Stdio::inherit());
            Ok(None)
        }
        Part::Reading | Part::Both => {
            let (ours, theirs) = calls.pipe()?;
            command.stdout(Stdio::from(theirs));
            Ok(Some(ours))
        }
    }
}
