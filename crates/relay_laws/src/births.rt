// What is said of a session before it begins: laws, each as the contract of a function that does nothing.

ghost use Rattle.relay_laws.specs.Births.{UnbegunIsUnnamed, UnbegunIsUntouched, UntouchedIsNew};

/// No act is at a thing of a session that hasn't begun, but for the place that its peer comes to.
pub fn unbegun_is_untouched()
    ensures { UnbegunIsUntouched }
{}

/// What no act was at and no turn named says what it says at the beginning.
pub fn untouched_is_new()
    ensures { UntouchedIsNew }
{}

/// Where turns name only what is held, none named a thing of a session that hasn't begun.
pub fn unbegun_is_unnamed()
    ensures { UnbegunIsUnnamed }
{}
