// Sessions that have to act before the next wait. Laws, each as the contract of a function that does nothing.

ghost use Rattle.session_laws.specs.Works.{EndedMustAct, MustActStays, WaitedForNow};

/// Acts of others leave a session that has to act so.
pub fn must_act_stays()
    ensures { MustActStays }
{}

/// A session that waited for a moment that had come has to act after a turn in which no time passed.
pub fn waited_for_now()
    ensures { WaitedForNow }
{}

/// A session that lives has to act once something has ended it.
pub fn ended_must_act()
    ensures { EndedMustAct }
{}
