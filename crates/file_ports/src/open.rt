// Files are opened by their addresses.
ghost use Rattle.std.specs.Prelude.{◌≡◌, None, Some, IfSome, IfNone, IsUtf8};
ghost use Rattle.std.specs.Fs.{IsValidOptions};
ghost use Rattle.port_trait.specs.declared.makers.Making.TheVariants as makings;
ghost use Rattle.file_ports.specs.Access.{access_of, options_of};
ghost use Rattle.file_ports.specs.Opened.{file_named, OnMade, AreOpened, IsAskedFile, IsOpened, Unlinks, UnlinksEntry};
ghost use Rattle.socket_ports.specs.{IsRemoval};

use crate::access::{Access, FileAddress};
use crate::opening::{FileCalls, open_asked};
use port_trait::Making;
use relay_model::{Part, Single, Target, Text};
use socket_ports::Removal;
use std::alloc::Global;
use std::fs::File;
use std::os::unix::fs::{FileTypeExt, MetadataExt};
use std::str;

/// What is read and what is written, by the use of the file.
#[derive(Drop)]
pub enum FileEnds {
    Reading(File),
    Writing(File),
    /// Two descriptors of one file, the first to read from.
    Both(File, File),
    /// A named pipe that is to be opened one way, which waits for its other end (fifo(7)).
    Waiting(NamedPipe),
}

/// A named pipe that is to be opened.
#[derive(Drop)]
pub struct NamedPipe {
    pub access: Access,
    pub name: String,
    pub entry: PipeEntry,
}

/// The entry that a named pipe had when its name was looked at (stat(2)).
#[derive(Clone, Copy, PartialEq)]
pub struct PipeEntry {
    pub device: u64,
    pub inode: u64,
}

/// A file that was opened, and what removes its entry when the port is let go (socat(1), `unlink-close`).
#[derive(Drop)]
pub struct OpenedFile {
    pub ends: FileEnds,
    pub removal: Option<Removal>,
}

/// Opens the file of this address for this use. It answers `Failed` where the address is none of a file, where its
/// name isn't UTF-8, where what is asked doesn't go together, and where the system refuses; a `PIPE` whose entry is no
/// named pipe fails too. It is never `Later`. A named pipe that is used one way is left to be opened. What is asked in
/// vain makes and removes nothing.
pub fn open_file<C: FileCalls>(
    calls: &mut C,
    alloc: Global,
    single: &Single,
    part: Part,
) -> Making<OpenedFile>
    ensures made { OnMade result
        (λ opened. IsOpened (C.opens calls.new) (C.empties calls.new) (C.copies calls.new) single.now part opened.ends
        opened.removal) }
    ensures unlinked { UnlinksEntry single.now result (C.unlinked calls.old) (C.unlinked calls.new) }
    ensures other { file_named single.now.target ≡ None → result ≡ makings.Failed }
    ensures unnamed { IfSome (file_named single.now.target) (λ file. ¬ (IsUtf8 file.1) → result ≡ makings.Failed) }
    ensures unfit { IfSome (file_named single.now.target)
        (λ file. ¬ (IsValidOptions (options_of (access_of file.0 single.now.options.file part)))
        → result ≡ makings.Failed) }
{
    let Some((kind, name)) = file_of(&single.target) else {
        return Making::Failed;
    };
    let access = Access::of(kind, single.options.file, part);
    if access.options().check().is_err() {
        return Making::Failed;
    }
    let Ok(name) = str::from_utf8(name.as_slice()) else {
        return Making::Failed;
    };
    unlink_early(calls, single, name);
    match open_ends(&*calls, alloc, kind, access, name, part) {
        Making::Made(ends) => keep_entry(alloc, ends, name, single.options.entry.unlink_close),
        Making::Later(_) | Making::Failed => Making::Failed,
        Making::Memory => Making::Memory,
    }
}

/// Removes the entry of this name where that is asked for (socat(1), `unlink-early`).
fn unlink_early<C: FileCalls>(calls: &mut C, single: &Single, name: &str)
    ensures { Unlinks single.now.options.entry.unlink_early name.now (C.unlinked calls.old) (C.unlinked calls.new) }
{
    if single.options.entry.unlink_early {
        let _ = calls.remove(name);
    }
}

/// The opened file, with what removes its entry where that is `wanted`.
fn keep_entry(alloc: Global, ends: FileEnds, name: &str, wanted: bool) -> Making<OpenedFile>
    ensures { OnMade result (λ opened. (opened.ends ≡ ends) × IsRemoval wanted name.now opened.removal) }
{
    match String::from_str(alloc, name) {
        Ok(name) => Making::Made(OpenedFile {
            ends,
            removal: Removal::only_if(wanted, name),
        }),
        Err(_) => Making::Memory,
    }
}

/// The kind and the name of an address of a file.
fn file_of(target: &Target) -> Option<(FileAddress, &Text)>
    ensures found { IfSome result (λ file. file_named target.now ≡ Some (file.0, file.1.now)) }
    ensures other { IfNone result (file_named target.now ≡ None) }
{
    match target {
        Target::Create(name) => Some((FileAddress::Create, name)),
        Target::FileAt(name) => Some((FileAddress::Open, name)),
        Target::GenericOpen(name) => Some((FileAddress::Generic, name)),
        Target::NamedPipe(name) => Some((FileAddress::Pipe, name)),
        _ => None,
    }
}

/// Opens what the address names.
fn open_ends<C: FileCalls>(
    calls: &C,
    alloc: Global,
    kind: FileAddress,
    access: Access,
    name: &str,
    part: Part,
) -> Making<FileEnds>
    ensures { OnMade result (AreOpened (C.opens calls.now) (C.empties calls.now) (C.copies calls.now) part access name.now) }
{
    let found = pipe_at(calls, name);
    if let Some(entry) = found {
        if !access.create_new && part != Part::Both {
            return match String::from_str(alloc, name) {
                Ok(name) => Making::Made(FileEnds::Waiting(NamedPipe {
                    access,
                    name,
                    entry,
                })),
                Err(_) => Making::Memory,
            };
        }
    } else if kind == FileAddress::Pipe {
        return Making::Failed;
    }
    if kind == FileAddress::Generic && !access.write && !access.create_new {
        make_missing(calls, name);
    }
    match open_asked(calls, access, name) {
        Ok(file) => ends_of(calls, access, name, file, part),
        Err(_) => Making::Failed,
    }
}

/// The entry of this name, where it is a named pipe.
fn pipe_at<C: FileCalls>(calls: &C, name: &str) -> Option<PipeEntry> {
    match calls.entry(name) {
        Ok(found) if found.file_type().is_fifo() => Some(PipeEntry {
            device: found.dev(),
            inode: found.ino(),
        }),
        _ => None,
    }
}

/// Makes a regular file where nothing is there.
fn make_missing<C: FileCalls>(calls: &C, name: &str) {
    let access = Access {
        create: true,
        create_new: true,
        ..Access::plain(false, true)
    };
    let _ = open_asked(calls, access, name);
}

/// The ends of an open file. Both have one position in the file.
fn ends_of<C: FileCalls>(
    calls: &C,
    access: Access,
    name: &str,
    file: File,
    part: Part,
) -> Making<FileEnds>
    requires { IsAskedFile (C.opens calls.now) (C.empties calls.now) access name.now file }
    ensures { OnMade result (AreOpened (C.opens calls.now) (C.empties calls.now) (C.copies calls.now) part access name.now) }
{
    match part {
        Part::Reading => Making::Made(FileEnds::Reading(file)),
        Part::Writing => Making::Made(FileEnds::Writing(file)),
        Part::Both => match calls.copy_of(&file) {
            Ok(copy) => Making::Made(FileEnds::Both(copy, file)),
            Err(_) => Making::Failed,
        },
    }
}
