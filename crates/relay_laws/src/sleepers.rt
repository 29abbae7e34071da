// Laws of sessions that sleep, each as the contract of a function that does nothing: whoever calls it knows the law.

ghost use Rattle.relay_laws.specs.Laws.{GoneRests, RestsThrough, SleptIsTick, SleptThrough, WakesAlike};

/// What comes while a session sleeps changes nothing of it but the clock and what was asked since the last turn.
pub fn slept_through()
    ensures { SleptThrough }
{}

/// A session that rests until some moment rests until that moment, whatever comes while it sleeps.
pub fn rests_through()
    ensures { RestsThrough }
{}

/// A turn says to a session that slept what it would have said when it fell asleep.
pub fn wakes_alike()
    ensures { WakesAlike }
{}

/// Whatever comes then says to it what it says after one turn that only sets the clock, or after none.
pub fn slept_is_tick()
    ensures { SleptIsTick }
{}

/// With `fork` a session that holds nothing any more rests for good.
pub fn gone_rests()
    ensures { GoneRests }
{}
