// What a session stands for while others act, and while it sleeps: laws, each as the contract of a function that does nothing.

ghost use Rattle.session_laws.specs.Beginnings.{BeginsAfterRefusal, NextBegins};
ghost use Rattle.session_laws.specs.Laws.{EndSpreads, GroundIsKept, MemoryIsCause, SleepsRest, StandsIsKept, StopIsCause, WokenHears, WokenLate, WokenStands};

/// An act of others leaves all that a state says of the history.
pub fn ground_is_kept()
    ensures { GroundIsKept }
{}

/// While turns are left, it leaves what a session stands for.
pub fn stands_is_kept()
    ensures { StandsIsKept }
{}

/// A session that slept hears a turn as if it had just gone to sleep.
pub fn woken_hears()
    ensures { WokenHears }
{}

/// So does one that the turn stops.
pub fn woken_stands()
    ensures { WokenStands }
{}

/// A session that slept through a turn is brought to now by a turn that names nothing of it.
pub fn woken_late()
    ensures { WokenLate }
{}

/// A session that was cut for a reason stands through a closing elsewhere for it.
pub fn end_spreads()
    ensures { EndSpreads }
{}

/// The first closing for a stop is the cause of each session that nothing else has ended.
pub fn stop_is_cause()
    ensures { StopIsCause }
{}

/// So is one for want of memory.
pub fn memory_is_cause()
    ensures { MemoryIsCause }
{}

/// A session that wishes to sleep, and not just until now, rests until that moment.
pub fn sleeps_rest()
    ensures { SleepsRest }
{}

/// Where the program door calls for a peer, the next session begins with one that is permitted.
pub fn next_begins()
    ensures { NextBegins }
{}

/// So it does after another was refused under its number.
pub fn begins_after_refusal()
    ensures { BeginsAfterRefusal }
{}
