// What an act leaves as it is, and what it changes.
ghost use Rattle.relay_model.specs.{StepsChange, ElsewhereIsUntouched, StepsLeave, SessionsAreApart};
ghost use Rattle.relay_laws.specs.Stories.{SessionIsItsOwn, OutputIsOwn, MovesAlike};

/// An act elsewhere changes nothing that is said of a place or door.
pub fn elsewhere_is_untouched()
    ensures { ElsewhereIsUntouched }
{}

/// Each kind of act changes what it is about alone, and that at its own place alone.
pub fn steps_leave_the_rest()
    ensures { StepsLeave }
{}

/// What an act of each kind makes of what is said of its place, its session and the whole.
pub fn steps_change_their_own()
    ensures { StepsChange }
{}

/// An act of another session or of the program door changes nothing of a session that has begun, but for
/// turns, closings for a stop or want of memory, and a failed accepting at the program door.
pub fn sessions_are_apart()
    ensures { SessionsAreApart }
{}

/// Two histories of which the same reaches a session say the same of it, whatever else they hold: its own acts, the
/// turns, a stop, want of memory and a failed accepting at the program door decide it alone.
pub fn session_is_its_own()
    ensures { SessionIsItsOwn }
{}

/// In both the session has written the same bytes.
pub fn output_is_own()
    ensures { OutputIsOwn }
{}

/// While no dump is owed, it may read, write and pass ends on after one as after the other.
pub fn moves_alike()
    ensures { MovesAlike }
{}
