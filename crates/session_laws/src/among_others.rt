// The sessions of one loop, each among all others: what they stand for while they wait, are awake or leave. Laws, each
// as the contract of a function that does nothing.

ghost use Rattle.session_laws.specs.AmongOthers.{ActsLeaveLeavers, ClosingsLeaveLeavers, EarlySleepersWake, FailedAcceptEndsAll, FallsAsleep, HearersAreAwake, LateSleepersWake, NamesOfOthersPass, SleepersRest, SleepersWake, SleepsThroughActs, SleepsThroughTurns, WakersStay};
ghost use Rattle.session_laws.specs.Wholes.{AllRestIsRest, DoorTellsOutcome, LeastWaitIsUntil};

/// A session that wishes to sleep waits.
pub fn falls_asleep()
    ensures { FallsAsleep }
{}

/// It sleeps on while others act.
pub fn sleeps_through_acts()
    ensures { SleepsThroughActs }
{}

/// It sleeps on through turns that say nothing to it.
pub fn sleeps_through_turns()
    ensures { SleepsThroughTurns }
{}

/// A session that waits rests, until the moment that it waits for.
pub fn sleepers_rest()
    ensures { SleepersRest }
{}

/// The turn that wakes it is heard as it came.
pub fn sleepers_wake()
    ensures { SleepersWake }
{}

/// What a turn names of others says nothing to a session.
pub fn names_of_others_pass()
    ensures { NamesOfOthersPass }
{}

/// A session that has heard a turn is awake.
pub fn hearers_are_awake()
    ensures { HearersAreAwake }
{}

/// One that slept through a turn is brought to now.
pub fn late_sleepers_wake()
    ensures { LateSleepersWake }
{}

/// One that slept through none is awake as it is.
pub fn early_sleepers_wake()
    ensures { EarlySleepersWake }
{}

/// Acts of others leave it awake.
pub fn wakers_stay()
    ensures { WakersStay }
{}

/// A failed accepting at the program door ends each session that is awake.
pub fn failed_accept_ends_all()
    ensures { FailedAcceptEndsAll }
{}

/// A closing elsewhere leaves those that were cut for the same reason.
pub fn closings_leave_leavers()
    ensures { ClosingsLeaveLeavers }
{}

/// Once one was made, so do other acts of others.
pub fn acts_leave_leavers()
    ensures { ActsLeaveLeavers }
{}

/// Where the door goes on and rests, and each session rests, a wait is in order.
pub fn all_rest_is_rest()
    ensures { AllRestIsRest }
{}

/// The whole waits until the least moment that the door or a session waits for.
pub fn least_wait_is_until()
    ensures { LeastWaitIsUntil }
{}

/// Once the door is done and no session holds anything, what ended the door's calls tells the outcome.
pub fn door_tells_outcome()
    ensures { DoorTellsOutcome }
{}
