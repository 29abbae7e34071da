// A session with what makes the texts of what it reads.
ghost use Rattle.std.specs.Prelude.{◌≡◌};
ghost use Rattle.relay_model.specs.{Side as End};
ghost use Rattle.session_driver.specs.{counted_at};

use relay_session::Session;
use session_driver::Dumper;
use std::alloc::Global;

/// One of many sessions.
#[derive(Drop)]
pub struct Member {
    pub session: Session,
    /// Makes the texts of what it reads.
    pub dumper: Dumper,
}

impl Member {
    /// A session that has read nothing yet. This takes no memory.
    pub fn new(alloc: Global, session: Session) -> Member
        ensures session { result.session ≡ session }
        ensures unread { (side : End) → counted_at result.dumper side ≡ 0 }
    {
        Member {
            session,
            dumper: Dumper::new(alloc),
        }
    }
}
