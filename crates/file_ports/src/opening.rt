// The calls on the file system by which files are opened.
ghost use Rattle.std.specs.Prelude.{◌≡◌, ◌∷◌, ◌++◌, [], ℕ, List, Option, None, option_map, ⊤, IfOk, OnOk};
ghost use Rattle.std.specs.declared.fs.File.{File};
ghost use Rattle.std.specs.declared.fs.options.OpenOptions.{OpenOptions};
ghost use Rattle.file_ports.specs.Opened.{IsAskedFile};

use crate::access::Access;
use std::fs::{File, Metadata, OpenOptions};
use std::io;
use std::rt::{Files, HostRuntime};

/// The file system, as far as files are opened in it.
pub trait FileCalls {
    // the file came of an opening of this name by these options
    ghost opens: { Self → OpenOptions → List ℕ → File → Type 0 } = { λ _ _ _ _. ⊤ };
    // the file was emptied, unless it isn't a regular one
    ghost empties: { Self → File → Type 0 } = { λ _ _. ⊤ };
    // the second is another descriptor of the first
    ghost copies: { Self → File → File → Type 0 } = { λ _ _ _. ⊤ };

    // the names of the entries that it was asked to remove
    ghost unlinked: { Self → Option (List (List ℕ)) } = { λ _. None };

    /// Opens the file of this name (open(2)).
    fn open_by(&self, options: &OpenOptions, name: &str) -> io::Result<File>
        ensures { IfOk result (opens self.now options.now name.now) };

    /// Empties a regular file, and leaves any other as it is (ftruncate(2)).
    fn empty(&self, file: &File) -> io::Result<()>
        ensures { OnOk result (empties self.now file.now) };

    /// Another descriptor of the open file (dup(2)).
    fn copy_of(&self, file: &File) -> io::Result<File>
        ensures { IfOk result (copies self.now file.now) };

    /// What the entry of this name is (stat(2)).
    fn entry(&self, name: &str) -> io::Result<Metadata>;

    /// Removes the entry of this name (unlink(2)).
    fn remove(&mut self, name: &str) -> io::Result<()>
        ensures { unlinked self.new ≡ option_map (λ all. all ++ name.now ∷ []) (unlinked self.old) };
}

impl FileCalls for HostRuntime {
    fn open_by(&self, options: &OpenOptions, name: &str) -> io::Result<File> {
        self.open_file(options, name)
    }

    fn empty(&self, file: &File) -> io::Result<()> {
        if !file.metadata()?.file_type().is_file() {
            return Ok(());
        }
        file.set_len(0)
    }

    fn copy_of(&self, file: &File) -> io::Result<File> {
        file.try_clone()
    }

    fn entry(&self, name: &str) -> io::Result<Metadata> {
        self.metadata(name)
    }

    fn remove(&mut self, name: &str) -> io::Result<()> {
        self.remove_file(name)
    }
}

/// Opens the file of this name as it is asked.
pub(crate) fn open_asked<C: FileCalls>(calls: &C, access: Access, name: &str) -> io::Result<File>
    ensures { IfOk result (IsAskedFile (C.opens calls.now) (C.empties calls.now) access name.now) }
{
    let file = calls.open_by(&access.options(), name)?;
    if access.empty {
        calls.empty(&file)?;
    }
    Ok(file)
}
