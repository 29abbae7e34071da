// Until when the loop waits.
use crate::all_sessions::Sessions;
use relay_session::earlier;

impl Sessions {
    ghost use Rattle.event_loop.specs.Waits.{IsLeast, WaitsFor};

    /// The least of this moment and of those that the sessions wait for, where there is one.
    pub fn least_until(&self, first: Option<u64>) -> Option<u64>
        ensures { IsLeast (WaitsFor first self.now) result }
    {
        match self.timers.first() {
            Some((at, _number)) => earlier(first, Some(at)),
            None => first,
        }
    }
}
