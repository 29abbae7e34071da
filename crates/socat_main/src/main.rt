// The program: it reads its words, makes what they need, and ends with the status of their run. Words that ask for no relay
// open nothing, start no thread and wait for nothing.
#![tactic(auto)]

mod parts;
mod runs;

use blocking_streams::{Blocking, InputSource, program_words};
use parts::{
    StartLack, bare_streams, closed_streams, make_poller, report_lack, sink_with_failures,
};
use port_desk::Standard;
use port_trait::{StdSink, StdSpawner};
use ring_reader::RingReader;
use ring_writer::RingWriter;
use runs::{answer_words, relay_words};
use socat_top::{Disk, DiskJournal, asks_for_relay, journal_flag};
use standard_ports::{
    ErrorParts, FreshErrors, FreshInput, FreshOutput, RingMaker, direct_input, direct_output,
    make_errors, open_errors,
};
use std::io::IsTerminal;
use std::process::ExitCode;

// The rings are made here: only here is the runtime a known one, and so what is made may go to a thread.
fn main(rt: HostRuntime) -> ExitCode {
    let alloc = rt.alloc();
    let mut errors = Blocking::new(rt.stderr());
    let Ok(words) = program_words(alloc, &rt) else {
        return report_lack(&mut errors, StartLack::Memory);
    };
    let Ok(relays) = asks_for_relay(alloc, words.as_slice()) else {
        return report_lack(&mut errors, StartLack::Memory);
    };
    let _closed = if relays || journal_flag(words.as_slice()).is_some() {
        closed_streams(&rt)
    } else {
        [None, None, None]
    };
    let mut journal = DiskJournal::new(Disk::new(rt));
    if !relays {
        let standard = bare_streams(&rt);
        return match answer_words(alloc, standard, words.as_slice(), &mut journal, &mut errors) {
            Ok(status) => ExitCode::from(status),
            Err(lack) => report_lack(&mut errors, lack),
        };
    }
    let Ok((sink, failures)) = sink_with_failures(alloc, StdSink::new(Blocking::new(rt.stdout())))
    else {
        return report_lack(&mut errors, StartLack::Memory);
    };
    let (poller, (reading, writing, noting)) = match make_poller(rt, alloc) {
        Ok(polling) => polling,
        Err(lack) => return report_lack(&mut errors, lack),
    };
    let mut spawner = StdSpawner::new(rt);
    let stdin = match direct_input(rt, alloc, &poller) {
        Some(port) => Ok(FreshInput::direct(port)),
        None => {
            let input = rt.stdin();
            let source = InputSource::new(Blocking::new(input), input.is_terminal());
            match RingReader::new(alloc, source, &mut spawner, reading) {
                Ok(ring) => Ok(FreshInput::ring(ring)),
                Err(error) => Err(error),
            }
        }
    };
    let stdout = match direct_output(rt, alloc, &poller) {
        Some(port) => Ok(FreshOutput::direct(port)),
        None => match RingWriter::new(alloc, sink, &mut spawner, writing) {
            Ok(ring) => Ok(FreshOutput::ring(ring)),
            Err(error) => Err(error),
        },
    };
    let (Ok(stdin), Ok(stdout)) = (stdin, stdout) else {
        return report_lack(&mut errors, StartLack::Memory);
    };
    // (the thread of standard error is started by its first line, by the runtime that is known here)
    let make: fn(ErrorParts) -> Option<FreshErrors> = |parts| make_errors(parts.system, parts);
    let parts = ErrorParts {
        system: rt,
        alloc,
        wake: noting,
    };
    let standard = Standard {
        stdin: stdin.into_port(),
        stdout: stdout.into_port(),
        stderr: open_errors(rt, parts, RingMaker::new(make), &poller),
    };
    let ended = relay_words(
        rt,
        rt,
        alloc,
        poller,
        standard,
        words.as_slice(),
        &mut journal,
        &mut errors,
        &failures,
    );
    match ended {
        Ok(status) => ExitCode::from(status),
        Err(lack) => report_lack(&mut errors, lack),
    }
}
