// Where a session pauses, and which closings end all sessions.
ghost use Rattle.std.specs.Prelude.{◌≡◌};
ghost use Rattle.session_loop.specs.Pauses.{SpreadIs, ends_all};

use relay_model::Why;
use relay_session::Wish;

/// Why a session makes no further call for now.
#[derive(Clone, Copy, PartialEq, Eq)]
pub enum Pause {
    /// It waits for a turn, until this moment in milliseconds.
    Sleep(Option<u64>),
    /// It holds nothing any more and has asked for its children.
    Done,
    /// Its next call is a closing for this reason, a stop or want of memory, which ends every session: all others are
    /// to be cut before it.
    Spreads(Why),
}

/// The reason of a closing that would end every session, if one is wished for.
pub fn spreading(wish: Wish) -> Option<Why>
    ensures { SpreadIs wish result }
{
    match wish {
        Wish::Close(_place, why) if ends_all(why) => Some(why),
        _ => None,
    }
}

/// A closing for this reason ends every session.
fn ends_all(why: Why) -> bool
    ensures { result ≡ ends_all why }
{
    match why {
        Why::Stopped | Why::Memory => true,
        _ => false,
    }
}
