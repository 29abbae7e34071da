// What the calls of a table of senders say of its rows, whatever calls come: laws, each as the contract of a function
// that does nothing.

ghost use Rattle.peer_demux.specs.Stories.{NobodyWaitsInVain, NothingIsLost, OneRowASender, PacketsAreTheSenders};

/// While a row is live, what was taken of it, and then what it holds, is what arrived there, packet after packet.
pub fn nothing_is_lost()
    ensures { NothingIsLost }
{}

/// What arrived at a live row came from its sender.
pub fn packets_are_the_senders()
    ensures { PacketsAreTheSenders }
{}

/// In a table by senders no two live rows have the same sender.
pub fn one_row_a_sender()
    ensures { OneRowASender }
{}

/// A live row that holds packets calls, unless whoever takes from it knows: since the last taking that found nothing, the
/// row was told of. So nobody who waits to be told waits in vain.
pub fn nobody_waits_in_vain()
    ensures { NobodyWaitsInVain }
{}
