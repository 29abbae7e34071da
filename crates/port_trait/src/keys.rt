// The halves of keyed things that a poll found ready.
use relay_model::{Half, TurnList};

/// Up to 256 pairs of a key and a half.
pub type KeyList = TurnList<(usize, Half)>;
