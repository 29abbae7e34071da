// What holds of the definitions by themselves.
ghost use Rattle.journal_table.specs.Rows.{ASessionBeginsOnce};

/// The sessions that have begun, which are those with a row, are just those that have a moment at which they began.
pub fn a_session_begins_once()
    ensures { ASessionBeginsOnce }
{}
