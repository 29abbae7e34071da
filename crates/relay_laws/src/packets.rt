// Directions that keep the borders of what they read.
ghost use Rattle.relay_laws.specs.Packets.{PacketsAreDue, PacketsKeepBorders};

/// Where borders are kept, the pieces due are those that were written, and after them all that is due and not yet
/// written, as one piece.
pub fn packets_are_due()
    ensures { PacketsAreDue }
{}

/// Where nothing is converted and nothing cut, each packet that was written is one that was read, whole and in order.
pub fn packets_keep_borders()
    ensures { PacketsKeepBorders }
{}
