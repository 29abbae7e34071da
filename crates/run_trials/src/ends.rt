// A case of two ends on this machine: an address that listens, and one that connects.
use crate::meetings::meet;
use crate::servers::any_port;
use crate::systems::{ProgramPoller, system_poller, wake_of, watched_maker};
use crate::talks::{Passing, talk};
use crate::waits::Waits;
use addr_grammar::{RawAddress, parse_address};
use addr_kinds::{Asked, resolve};
use case_rows::{Answered, Answers, CaseFault, Inputs};
use mio::net::{TcpListener, UdpSocket};
use port_trait::{Maker, Poller, Wake};
use relay_model::{NoMemory, Single};
use std::alloc::Global;
use std::fs::Files;
use std::net::Net;
use std::rt::HostRuntime;
use std::thread::Threads;
use std::time::Clock;
use std::{fs, io};

/// For how many milliseconds a wait that is to be ended by a wake would last.
const LONG: u64 = 60_000;

/// The entry of a socket in this folder. An earlier run may have left it.
const ENTRY: &str = "talk";

/// What passes between two ends, and their addresses.
#[derive(Drop)]
pub(crate) struct Pair {
    pub(crate) passing: Passing,
    pub(crate) listening: Single,
    pub(crate) connecting: Single,
}

/// Has the two ends of a case talk, as the program's maker makes them.
pub(crate) fn ask<R>(
    rt: R,
    host: HostRuntime,
    alloc: Global,
    part: &str,
    inputs: &mut Inputs<'_>,
    answers: &mut Answers,
) -> Answered
where
    R: Files + Net + Clock + Threads + Copy + Drop,
{
    let pair = pair_of(&rt, alloc, part, inputs)?;
    let _ = fs::remove_file(&host, ENTRY);
    let told = match system_poller(rt, alloc) {
        Ok(poller) => talk_beside(rt, host, alloc, poller, &pair, answers),
        Err(NoMemory) => Err(CaseFault::NoMemory),
    };
    drop(pair);
    told
}

/// Has the two ends talk beside this poller.
fn talk_beside<R>(
    rt: R,
    host: HostRuntime,
    alloc: Global,
    poller: ProgramPoller<R>,
    pair: &Pair,
    answers: &mut Answers,
) -> Answered
where
    R: Files + Net + Clock + Threads + Copy + Drop,
{
    let wake = wake_of(&poller)?;
    let maker = watched_maker(rt, host, alloc, &poller)?;
    tell(pair, maker, Waits::new(alloc, poller), &wake, answers)
}

/// Tells what comes of the talk, and before it whether a wake ended a wait.
fn tell<M: Maker + Drop, P: Poller + Drop, W: Wake>(
    pair: &Pair,
    maker: M,
    waits: Waits<P>,
    wake: &W,
    answers: &mut Answers,
) -> Answered {
    let mut maker = maker;
    let mut waits = waits;
    wake.wake();
    answers.word_if("woken", waits.wait(LONG)?);
    match meet(&mut maker, &mut waits, pair)? {
        Some(mut ends) => talk(&mut ends, &mut waits, pair.passing, answers),
        None => {
            answers.word("unmet");
            Ok(())
        }
    }
}

fn pair_of<R: Net>(
    rt: &R,
    alloc: Global,
    part: &str,
    inputs: &mut Inputs<'_>,
) -> Result<Pair, CaseFault> {
    let passing = passing_of(part).ok_or(CaseFault::NoRow)?;
    let port = free_port(rt, passing).ok().ok_or(CaseFault::NoMemory)?;
    let (listener, caller) = (inputs.word()?, inputs.word()?);
    let listening = address(alloc, listener, port)?;
    match address(alloc, caller, port) {
        Ok(connecting) => Ok(Pair {
            passing,
            listening,
            connecting,
        }),
        Err(fault) => {
            drop(listening);
            Err(fault)
        }
    }
}

fn passing_of(part: &str) -> Option<Passing> {
    match part {
        "stream" => Some(Passing::Stream),
        "packets" => Some(Passing::Packets),
        _ => None,
    }
}

/// A port of this machine at which nobody listens.
fn free_port<R: Net>(rt: &R, passing: Passing) -> io::Result<u16> {
    let free = match passing {
        Passing::Stream => TcpListener::bind(rt, any_port())?.local_addr()?,
        Passing::Packets => UdpSocket::bind(rt, any_port())?.local_addr()?,
    };
    Ok(free.port())
}

/// The address that the word spells. `PORT` stands for the port.
fn address(alloc: Global, word: &str, port: u16) -> Result<Single, CaseFault> {
    let (front, rest) = word.split_once("PORT").unwrap_or((word, ""));
    let text = if front.len() < word.len() {
        format!(in alloc; "{front}{port}{rest}")?
    } else {
        String::from_str(alloc, word)?
    };
    single_of(alloc, text.as_bytes())
}

fn single_of(alloc: Global, text: &[u8]) -> Result<Single, CaseFault> {
    match parse_address(alloc, text) {
        Ok(RawAddress::One(raw)) => {
            resolve(alloc, &raw, Asked::TwoWay, false).map_err(|_| CaseFault::NoRow)
        }
        Ok(RawAddress::Two(..)) | Err(_) => Err(CaseFault::NoRow),
    }
}
