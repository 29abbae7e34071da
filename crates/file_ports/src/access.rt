// How a file is to be opened, by its address and its use.
ghost use Rattle.std.specs.Prelude.{◌≡◌};
ghost use Rattle.file_ports.specs.Access.{access_of, options_of, plain_access, reads_by, writes_by};

use relay_model::{FileFlags, Part};
use std::fs::OpenOptions;

/// The addresses that open a file by its name (socat(1): `CREATE`, `OPEN`, `GOPEN`, `PIPE`).
#[derive(Clone, Copy, PartialEq)]
pub enum FileAddress {
    Create,
    Open,
    Generic,
    Pipe,
}

/// What is asked of the opening. The names are those of std's options: `create_new` makes the file, and fails where
/// something is there or where nothing is to be written. `empty` is no option: std opens no file to truncate it and to
/// append to it, so a regular file is emptied once it is open.
#[derive(Clone, Copy, PartialEq)]
pub struct Access {
    pub read: bool,
    pub write: bool,
    pub append: bool,
    pub truncate: bool,
    pub empty: bool,
    pub create: bool,
    pub create_new: bool,
}

impl Access {
    /// The access of an address of this kind with these flags, in this use. `excl` alone makes the file.
    pub fn of(kind: FileAddress, flags: FileFlags, part: Part) -> Access
        ensures { result ≡ access_of kind flags part }
    {
        let read = reads(part);
        let write = writes(part);
        let appends = write && flags.append;
        match kind {
            FileAddress::Create => Access {
                truncate: true,
                create: true,
                ..Access::plain(false, true)
            },
            FileAddress::Open => Access {
                append: appends,
                truncate: flags.trunc && !appends,
                empty: flags.trunc && appends && !flags.excl,
                create: flags.creat,
                create_new: flags.excl,
                ..Access::plain(read, write)
            },
            FileAddress::Generic => Access {
                append: write,
                truncate: flags.trunc && !write,
                empty: flags.trunc && write && !flags.excl,
                create: write,
                create_new: flags.excl,
                ..Access::plain(read, write)
            },
            FileAddress::Pipe => Access::plain(read, write),
        }
    }

    /// What is there, to be read or written.
    pub(crate) fn plain(read: bool, write: bool) -> Access
        ensures { result ≡ plain_access read write }
    {
        Access {
            read,
            write,
            append: false,
            truncate: false,
            empty: false,
            create: false,
            create_new: false,
        }
    }

    /// The options of std that ask just this.
    pub fn options(&self) -> OpenOptions
        ensures { result ≡ options_of self.now }
    {
        let mut options = OpenOptions::new();
        options.read(self.read);
        options.write(self.write);
        options.append(self.append);
        options.truncate(self.truncate);
        options.create(self.create);
        options.create_new(self.create_new);
        options
    }
}

/// Whether this use reads.
pub(crate) fn reads(part: Part) -> bool
    ensures { result ≡ reads_by part }
{
    matches!(part, Part::Both | Part::Reading)
}

/// Whether this use writes.
pub(crate) fn writes(part: Part) -> bool
    ensures { result ≡ writes_by part }
{
    matches!(part, Part::Both | Part::Writing)
}
