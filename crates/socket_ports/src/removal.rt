// An entry of the file system that goes with its port.
ghost use Rattle.std.specs.Prelude.{string_bytes};
ghost use Rattle.socket_ports.specs.Removals.{IsRemoval};

use std::marker::Model;

/// Removes the entry of this name when it is let go (unlink(2)). A removal that fails is disregarded.
pub struct Removal {
    entry: String,
}

impl Model for Removal {
    ghost use Rattle.std.specs.Prelude.{List, ℕ, string_bytes};

    ghost Value = { List ℕ };

    ghost view = { λ removal. string_bytes removal.entry };
}

impl Removal {
    /// Removes the entry where `wanted`, and leaves it otherwise (socat(1), `unlink-close`).
    pub fn only_if(wanted: bool, entry: String) -> Option<Removal>
        ensures { IsRemoval wanted (string_bytes entry) result }
    {
        if wanted {
            return Some(Removal { entry });
        }
        None
    }
}

impl Drop for Removal {
    fn drop(self) {
        let Removal { entry } = self;
        let _ = os::unlink(entry.as_bytes());
    }
}
