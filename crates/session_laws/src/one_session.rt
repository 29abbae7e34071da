// What the histories of a command of one session keep, each as the contract of a function that does nothing.
ghost use Rattle.session_laws.specs.OneSession.{StagesTell, UnshutIsOpen, HeldIsOwn, RestIsOfOne, UntilIsOfOne, CauseIsTold, FailureIsBlamed, StopIsTold, TriesAreCounted};

/// A thing stands for a world as its last opening, listening or closing says.
pub fn stages_tell()
    ensures { StagesTell }
{}

/// What can be used and was never shut is plainly open.
pub fn unshut_is_open()
    ensures { UnshutIsOpen }
{}

/// What is held is a place or a door of the one session.
pub fn held_is_own()
    ensures { HeldIsOwn }
{}

/// The whole may wait where its one session may.
pub fn rest_is_of_one()
    ensures { RestIsOfOne }
{}

/// The whole waits until the moment of its one session.
pub fn until_is_of_one()
    ensures { UntilIsOfOne }
{}

/// Once nothing is held, what ended the one session tells how the command ended.
pub fn cause_is_told()
    ensures { CauseIsTold }
{}

/// A session that failed has an act that is to blame for it.
pub fn failure_is_blamed()
    ensures { FailureIsBlamed }
{}

/// A session that stops was told so by a turn, or the turns are used up.
pub fn stop_is_told()
    ensures { StopIsTold }
{}

/// Where no try is left, one more failed than may be followed by a try.
pub fn tries_are_counted()
    ensures { TriesAreCounted }
{}
