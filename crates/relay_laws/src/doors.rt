// Doors, the program door of `fork` among them, and the sessions that it begins.
ghost use Rattle.relay_model.specs.{AdmittedIsBounded, CausedBeginsNothing, EndedStaysEnded, LiveIsBounded, ProgramDoorTells, ServedDoorStaysClosed};
ghost use Rattle.relay_model.specs.{ServedDoorStaysServed};

/// An accepting at the program door is for the next session, while fewer live than may and fewer were permitted
/// than are to be served.
pub fn program_door_tells()
    ensures { ProgramDoorTells }
{}

/// No more peers are permitted than `stop-after` says.
pub fn admitted_is_bounded()
    ensures { AdmittedIsBounded }
{}

/// A session that holds nothing any more never holds anything again.
pub fn ended_stays_ended()
    ensures { EndedStaysEnded }
{}

/// No more sessions live at once than `max-children` says.
pub fn live_is_bounded()
    ensures { LiveIsBounded }
{}

/// A session that has a cause opens, listens and accepts nothing any more.
pub fn caused_begins_nothing()
    ensures { CausedBeginsNothing }
{}

/// A door that was closed since it had served is listened at no more.
pub fn served_door_stays_closed()
    ensures { ServedDoorStaysClosed }
{}

/// Whatever comes, it stays a door that has served.
pub fn served_door_stays_served()
    ensures { ServedDoorStaysServed }
{}
