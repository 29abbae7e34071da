// The calls by which the entries of sockets are removed before they are opened.
ghost use Rattle.std.specs.Prelude.{◌≡◌, ◌∷◌, ◌++◌, [], ℕ, List, Option, None, option_map};
ghost use Rattle.socket_maker.specs.Unlinking.{Unlinks};

use relay_model::{EntryOptions, Text};
use std::fs::Files;
use std::io;

/// The file system, as far as entries are removed from it.
pub(crate) trait EntryCalls {
    // the names of the entries that it was asked to remove
    ghost unlinked: { Self → Option (List (List ℕ)) } = { λ _. None };

    /// Removes the entry of this name (unlink(2)).
    fn unlink(&mut self, name: &str) -> io::Result<()>
        ensures { unlinked self.new ≡ option_map (λ all. all ++ name.now ∷ []) (unlinked self.old) };
}

/// That of the system.
#[derive(Drop)]
pub(crate) struct SystemEntries<R> {
    pub(crate) files: R,
}

impl<R: Files> EntryCalls for SystemEntries<R> {
    fn unlink(&mut self, name: &str) -> io::Result<()> {
        self.files.remove_file(name)
    }
}

/// Removes the entry where the options say so (socat(1), `unlink-early`). A removal that fails is disregarded.
pub(crate) fn unlink_early<C: EntryCalls>(
    calls: &mut C,
    name: &Text,
    entry: EntryOptions,
    path: &str,
)
    requires { path.now ≡ name.now }
    ensures { Unlinks entry.unlink_early name.now (C.unlinked calls.old) (C.unlinked calls.new) }
{
    let _named = name;
    if entry.unlink_early {
        let _ = calls.unlink(path);
    }
}
