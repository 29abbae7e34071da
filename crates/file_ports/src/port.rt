// The port of a file.
ghost use Rattle.std.specs.Prelude.{◌≡◌, None, IfOk};
ghost use Rattle.port_trait.specs.{IsAtOnce};
ghost use Rattle.port_trait.specs.declared.makers.Making.TheVariants as makings;
ghost use Rattle.socket_ports.specs.{IsFreshPort, fresh_port};
ghost use Rattle.file_ports.specs.Halves.{AreOf};
ghost use Rattle.file_ports.specs.Opened.{file_named, AreEndsOf, IsRemovalOf, OnMade};
ghost use Rattle.file_ports.specs.Streams.{halves_of};

use crate::halves::Halves;
use crate::input::FileInput;
use crate::open::{FileEnds, OpenedFile, open_file};
use crate::pipes::{PipeOpenings, PipeRefusal};
use crate::stream::FileStream;
use crate::waiting::WaitingPipe;
use port_trait::Making;
use relay_model::{Part, Single};
use socket_ports::{Removal, SocketPort};
use std::alloc::Global;
use std::net::Net;
use std::rt::HostRuntime;
use std::thread::Threads;

/// The port of a file, which takes the entry with it where that is asked for.
pub type FilePort = SocketPort<FileStream, Option<Removal>>;

/// Opens the file of this address for this use, as `open_file` does, and has the registry of the openings report it under
/// `key`. A named pipe that is used one way is opened by a thread. `system` opens files, also where `rt` starts threads,
/// since only a known runtime may go to one.
pub fn make_file<R>(
    rt: &R,
    mut system: HostRuntime,
    alloc: Global,
    openings: &mut PipeOpenings,
    key: usize,
    single: &Single,
    part: Part,
) -> Making<FilePort>
where
    R: Net + Threads,
    ensures fresh { OnMade result IsFreshPort }
    ensures halves { OnMade result (λ port. AreOf part (halves_of port.socket)) }
    ensures at_once { IsAtOnce result }
    ensures other { file_named single.now.target ≡ None → result ≡ makings.Failed }
{
    let OpenedFile { ends, removal } = match open_file(&mut system, alloc, single, part) {
        Making::Made(opened) => opened,
        Making::Later(_) | Making::Failed => return Making::Failed,
        Making::Memory => return Making::Memory,
    };
    match stream_of(rt, system, openings, key, single, part, ends) {
        Ok(stream) => Making::Made(with_entry(stream, single, removal)),
        Err(PipeRefusal::Failed) => Making::Failed,
        Err(PipeRefusal::Memory) => Making::Memory,
    }
}

/// The port of a file whose entry goes with it where that is asked for.
fn with_entry(stream: FileStream, single: &Single, removal: Option<Removal>) -> FilePort
    requires { IsRemovalOf single.now removal }
    ensures { result ≡ fresh_port stream }
{
    let _removed_by = &single.options.entry;
    SocketPort::new(stream, removal)
}

/// The file with these ends, which the registry reports.
fn stream_of<R>(
    rt: &R,
    system: HostRuntime,
    openings: &mut PipeOpenings,
    key: usize,
    single: &Single,
    part: Part,
    ends: FileEnds,
) -> Result<FileStream, PipeRefusal>
where
    R: Net + Threads,
    requires { AreEndsOf single.now part ends }
    ensures { IfOk result (λ stream. AreOf part (halves_of stream)) }
{
    let registry = &*openings.registry;
    let halves = match ends {
        FileEnds::Reading(file) => {
            Halves::enroll(registry, key, Some(FileInput::of(file)), None)
        }
        FileEnds::Writing(file) => Halves::enroll(registry, key, None, Some(file)),
        FileEnds::Both(input, output) => {
            Halves::enroll(registry, key, Some(FileInput::of(input)), Some(output))
        }
        FileEnds::Waiting(pipe) => {
            let pipe = WaitingPipe::of(rt, system, openings, key, single, part, pipe)?;
            return Ok(FileStream::Waiting(pipe));
        }
    };
    Ok(FileStream::Open(halves.ok_or(PipeRefusal::Failed)?))
}
