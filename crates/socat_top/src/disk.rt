// A journal on the disk.
ghost use Rattle.std.specs.Prelude.{◌≡◌, ◌<◌, length, false, true, not, is_some, option_and_then, None, IfSome, IsUtf8};
ghost use Rattle.port_trait.specs.Counting.{Counted};
ghost use Rattle.std.specs.Io.KnownBytes.{Keeps};
ghost use Rattle.port_trait.specs.{SinkTakes, WriterTakes, sink_failed};
ghost use Rattle.port_trait.specs.declared.answers.SinkTook.TheVariants as tooks;
ghost use Rattle.socat_top.specs.Creating.{Created};

use crate::creating::FileCreator;
use crate::files::JournalFile;
use blocking_streams::write_blocking;
use port_trait::{Sink, SinkTook};
use std::io::Write;
use std::os::fd::AsRawFd;
use std::str;

/// A file that is made by its name. Before it was made each call is a fault.
#[derive(Drop)]
pub struct DiskJournal<D: FileCreator> {
    disk: D,
    file: Option<D::File>,
    faults: u64,
    finished: bool,
}

impl<D: FileCreator> DiskJournal<D> {
    /// No file yet; nothing is made or opened.
    pub fn new(disk: D) -> DiskJournal<D> {
        DiskJournal {
            disk,
            file: None,
            faults: 0,
            finished: false,
        }
    }
}

impl<D: FileCreator + Drop> Sink for DiskJournal<D> {
    ghost holds = { λ journal. option_and_then D.File.contents journal.file };

    ghost faults = { λ journal. journal.faults };

    ghost finished = { λ journal. journal.finished };

    fn write(&mut self, bytes: &[u8]) -> SinkTook
        requires { 0 < length bytes.now }
        ensures unmade { is_some self.old.file ≡ false → result ≡ tooks.Failed }
        ensures takes { SinkTakes None None bytes.now result }
        ensures holds { WriterTakes (option_and_then D.File.contents self.old.file) (option_and_then D.File.contents self.new.file) bytes.now result }
        ensures faults { Counted (sink_failed result) self.old.faults self.new.faults }
        ensures finished { self.new.finished ≡ false }
    {
        self.finished = false;
        let took = write_file(&mut self.file, bytes);
        if took == SinkTook::Failed {
            self.faults = self.faults.saturating_add(1);
        }
        took
    }

    fn finish(&mut self) -> bool
        ensures unmade { is_some self.old.file ≡ false → result ≡ false }
        ensures held { Keeps (option_and_then D.File.contents self.old.file) (option_and_then D.File.contents self.new.file) }
        ensures kept { ⟦<DiskJournal<D> as Sink>⟧.took self.new ≡ ⟦<DiskJournal<D> as Sink>⟧.took self.old }
        ensures faults { Counted (not result) self.old.faults self.new.faults }
        ensures finished { self.new.finished ≡ result }
    {
        self.finished = flush_file(&mut self.file);
        if !self.finished {
            self.faults = self.faults.saturating_add(1);
        }
        self.finished
    }
}

impl<D: FileCreator + Drop> JournalFile for DiskJournal<D> {
    // the file is the one that was made by that name
    ghost creates = { λ before name now. Created (D.makes before.disk name) now.file };

    // there is no file, and the disk was asked for it, if by a name that can be one
    ghost refuses = { λ before name now. (now.file ≡ None) × (IsUtf8 name → D.refuses before.disk name) };

    /// Names that are no UTF-8 can't be made, as those of files between which is relayed; and the system refuses an
    /// empty name and one with a byte 0. What was made before is let go.
    fn create(&mut self, name: &[u8]) -> bool
        ensures unnamed { ¬ (IsUtf8 name.now) → result ≡ false }
        ensures created { result ≡ true → Created (D.makes self.old.disk name.now) self.new.file }
        ensures refused { result ≡ false → (self.new.file ≡ None) × (IsUtf8 name.now → D.refuses self.old.disk name.now) }
        ensures kept { ⟦<DiskJournal<D> as Sink>⟧.took self.new ≡ ⟦<DiskJournal<D> as Sink>⟧.took self.old }
        ensures faults { Counted (not result) self.old.faults self.new.faults }
    {
        self.finished = false;
        self.file = create_now(&self.disk, name);
        if self.file.is_none() {
            self.faults = self.faults.saturating_add(1);
        }
        self.file.is_some()
    }
}

/// One write to the file, made again where a signal comes first. Taking nothing, and having no file, is a fault.
fn write_file<F: Write + AsRawFd>(file: &mut Option<F>, bytes: &[u8]) -> SinkTook
    requires { 0 < length bytes.now }
    ensures unmade { is_some file.old ≡ false → result ≡ tooks.Failed }
    ensures takes { SinkTakes None None bytes.now result }
    ensures holds { WriterTakes (option_and_then F.contents file.old) (option_and_then F.contents file.new) bytes.now result }
{
    match file {
        Some(file) => match write_blocking(file, bytes) {
            Ok(0) | Err(_) => SinkTook::Failed,
            Ok(count) => SinkTook::Took(count),
        },
        None => SinkTook::Failed,
    }
}

fn flush_file<F: Write>(file: &mut Option<F>) -> bool
    ensures unmade { is_some file.old ≡ false → result ≡ false }
    ensures held { Keeps (option_and_then F.contents file.old) (option_and_then F.contents file.new) }
{
    match file {
        Some(file) => file.flush().is_ok(),
        None => false,
    }
}

/// Makes the file of this name.
fn create_now<D: FileCreator>(disk: &D, name: &[u8]) -> Option<D::File>
    ensures unnamed { ¬ (IsUtf8 name.now) → result ≡ None }
    ensures created { IfSome result (D.makes disk.now name.now) }
    ensures refused { result ≡ None → IsUtf8 name.now → D.refuses disk.now name.now }
{
    let Ok(name) = str::from_utf8(name) else {
        return None;
    };
    disk.create_file(name).ok()
}
