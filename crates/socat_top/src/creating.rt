// How the file of a journal is made.
ghost use Rattle.std.specs.Prelude.{ℕ, List, IfOk, OnErr};

use std::fs::OpenOptions;
use std::io;
use std::io::{ErrorKind, Write};
use std::os::fd::AsRawFd;
use std::os::unix::fs::FileTypeExt;
use std::rt::Files;

/// What makes files by their names.
pub trait FileCreator {
    type File: Write + AsRawFd + Drop;

    // this is the file that was made by that name
    ghost makes: { Self → List ℕ → Self.File → Type 0 } = { λ _ _ _. Unit {0} };
    // it was asked for the file of that name, and made none
    ghost refuses: { Self → List ℕ → Type 0 } = { λ _ _. Unit {0} };

    /// Makes the file of this name, and empties one that is there.
    fn create_file(&self, name: &str) -> io::Result<Self::File>
        ensures made { IfOk result (λ file. makes self.now name.now file) }
        ensures refused { OnErr result (refuses self.now name.now) };
}

/// Makes files of the system.
#[derive(Drop)]
pub struct Disk<R>(R);

impl<R: Files> Disk<R> {
    /// By this runtime.
    pub fn new(files: R) -> Disk<R> {
        Disk(files)
    }
}

impl<R: Files> FileCreator for Disk<R>
where
    R::File: AsRawFd,
{
    type File = R::File;

    /// Opens the file for writing. It is made where it isn't there, and empty at first (open(2): `O_WRONLY`, `O_CREAT`
    /// and `O_TRUNC`). A named pipe is refused, since its opening would wait for a reader (fifo(7)).
    fn create_file(&self, name: &str) -> io::Result<R::File> {
        if let Ok(found) = self.0.metadata(name) {
            if found.file_type().is_fifo() {
                return Err(io::Error::from(ErrorKind::InvalidInput));
            }
        }
        let mut options = OpenOptions::new();
        options.write(true).create(true).truncate(true);
        self.0.open_file(&options, name)
    }
}
