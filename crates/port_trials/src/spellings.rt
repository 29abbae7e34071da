// What ports answer, in the words of the rows.
use port_trait::{Begun, Hint, Settled, Shutting};

pub(crate) fn begun_word(begun: Begun) -> &'static str {
    match begun {
        Begun::Begun => "begun",
        Begun::Failed => "failed",
        Begun::Memory => "memory",
    }
}

pub(crate) fn settled_word(settled: Settled) -> &'static str {
    match settled {
        Settled::Ready => "ready",
        Settled::NotYet => "unsettled",
        Settled::Failed => "failed",
    }
}

pub(crate) fn shutting_word(shutting: Shutting) -> &'static str {
    match shutting {
        Shutting::Done => "done",
        Shutting::Failed => "failed",
    }
}

pub(crate) fn hint_word(hint: Hint) -> &'static str {
    match (hint.readable, hint.writable) {
        (true, true) => "readable-writable",
        (true, false) => "readable",
        (false, true) => "writable",
        (false, false) => "no-hint",
    }
}

pub(crate) fn truth_word(holds: bool) -> &'static str {
    if holds { "yes" } else { "no" }
}
