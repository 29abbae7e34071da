// The making of a journal's file, which comes before the run.
ghost use Rattle.std.specs.Prelude.{◌≡◌, true, false};
ghost use Rattle.port_desk.specs.{BeginsHistory, IsFree};

use crate::files::JournalFile;
use port_desk::{Desk, Modelled};
use port_trait::{Maker, Poller, Port};

/// Whether the journal's file was made. Only a desk that has just begun to keep its history gives one.
#[derive(Drop)]
pub struct Creation {
    made: bool,
}

impl Creation {
    /// Whether the file takes something.
    pub fn is_made(&self) -> bool
        ensures { result ≡ self.now.made }
    {
        self.made
    }
}

/// Has the desk keep its history from now on, for the file that was just made under this name, or that was asked for and
/// couldn't be.
pub fn keep_history<M, P, I: Port, O: Port, E: Port, F: JournalFile>(
    desk: &mut Desk<M, P, I, O, E>,
    _file: &F,
    _name: &[u8],
    made: bool,
) -> Creation
where
    M: Maker + Drop,
    P: Poller + Drop,
    requires created { made ≡ true → (before : F) × F.creates before _name.now _file.now }
    requires refused { made ≡ false → (before : F) × F.refuses before _name.now _file.now }
    requires untouched { (⟦<Desk<M, P, I, O, E> as Modelled>⟧.model desk.old).acted ≡ false }
    requires free { IsFree (⟦<Desk<M, P, I, O, E> as Modelled>⟧.model desk.old) }
    ensures made { result.made ≡ made }
    ensures begins { let model = ⟦<Desk<M, P, I, O, E> as Modelled>⟧.model in BeginsHistory (model desk.old) (model desk.new) }
{
    desk.keep();
    Creation { made }
}
