// The runs of the program: of words that ask for a relay, and of others.

use crate::parts::{StartLack, take_made};
use mio_poller::MioPoller;
use port_desk::Standard;
use port_objects::{MemMaker, MemPoller};
use port_trait::Port;
use real_maker::RealMaker;
use relay_model::Text;
use socat_top::{JournalFile, carry_out, end_status};
use socket_ports::PeerPoller;
use standard_ports::Failures;
use std::alloc::Global;
use std::fs::Files;
use std::io::Write;
use std::net::Net;
use std::rt::HostRuntime;
use std::thread::Threads;
use std::time::Clock;

/// Carries out words that ask for no relay, and gives the status. Nothing is made and nothing waited for.
pub fn answer_words<I: Port, O: Port, E: Port, F: JournalFile, W: Write>(
    alloc: Global,
    standard: Standard<I, O, E>,
    words: &[Text],
    journal: &mut F,
    errors: &mut W,
) -> Result<u8, StartLack> {
    let maker = MemMaker::new(alloc);
    let written = carry_out(alloc, standard, maker, MemPoller::new(), words, journal)?;
    Ok(end_status(errors, &written, false))
}

/// Carries out words that ask for a relay over the ports that a maker opens, and gives the status. Files and programs are
/// the system's. In `main` the types would be known, and the prover compares more of them than its steps allow.
pub fn relay_words<R, I: Port, O: Port, E: Port, F: JournalFile, W: Write>(
    rt: R,
    system: HostRuntime,
    alloc: Global,
    poller: MioPoller<R>,
    standard: Standard<I, O, E>,
    words: &[Text],
    journal: &mut F,
    errors: &mut W,
    failures: &Failures,
) -> Result<u8, StartLack>
where
    R: Files + Net + Clock + Threads + Copy + Drop,
{
    let poller = PeerPoller::new(alloc, poller)?;
    let maker = take_made(RealMaker::on(rt, system, alloc, &poller))?;
    let written = carry_out(alloc, standard, maker, poller, words, journal)?;
    Ok(end_status(errors, &written, failures.any()))
}
