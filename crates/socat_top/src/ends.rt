// What passes between standard streams by a legal history: laws, each as the contract of a function that does nothing.

ghost use Rattle.socat_top.specs.Ends.{PassedEnds};
ghost use Rattle.socat_top.specs.Behind.{BehindIsDue};

/// Of what came in at the source of a direction, what went out at its sink begins what is due, and is all of it where the
/// session has finished. At an end that stands alone on standard input or output, these are the bytes that passed its
/// port.
pub fn passed_ends()
    ensures { PassedEnds }
{}

/// The same by what is behind the ports of standard input and output, where they tell it, and what went out is all only
/// where no fault is behind the sink's.
pub fn behind_is_due()
    ensures { BehindIsDue }
{}
