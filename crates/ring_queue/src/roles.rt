// The rule of the queue, and what each side knows of it.
ghost use Rattle.std.specs.Prelude.{◌≡◌, ◌++◌, ◌∷◌, [], List, true, false};
ghost use Rattle.ring_queue.specs.Order.{Ordered, IsSound, view_of};

use crossbeam_queue::protocol::{Join, Lesson, Outcome, Protocol, Split};
use std::collections::LinkedList;

/// A kind of item: which may follow on what was sent before, oldest first.
pub trait Item {
    ghost follows: { List Self → Self → Type 0 };
}

/// Whether a pass sends and takes, and what it has sent and taken, oldest first. No value of it is made.
pub struct PassView<T> {
    pub sends: bool,
    pub takes: bool,
    pub sent: LinkedList<T>,
    pub taken: LinkedList<T>,
}

/// The rule of an ordered queue.
pub struct OrderRule;

impl<T: Item> Protocol<T, PassView<T>> for OrderRule {
    ghost holds = { Ordered T.follows };

    ghost first = { view_of true true [] [] };
}

/// One side sends and the other takes.
pub(crate) struct Sides;

impl<T> Split<PassView<T>> for Sides {
    ghost left = { λ v. view_of true false v.sent [] };

    ghost right = { λ v. view_of false true [] v.taken };
}

impl<T> Join<PassView<T>> for Sides {
    ghost both = { λ v w. view_of true true v.sent w.taken };

    ghost spent = { view_of false false [] [] };
}

/// A push, and a queue that was found full.
pub(crate) struct Sending;

impl<T> Outcome<T, PassView<T>> for Sending {
    ghost then = { λ v x w. w ≡ view_of v.sends v.takes (v.sent ++ x ∷ []) v.taken };
}

impl<T> Lesson<T, PassView<T>> for Sending {
    ghost fact = { λ v items. (taken : List T) × (v.sent ≡ taken ++ items) };
}

/// A pop, and a queue that was found empty.
pub(crate) struct Taking;

impl<T: Item> Outcome<T, PassView<T>> for Taking {
    ghost then = { λ v x w. (w ≡ view_of v.sends v.takes v.sent (v.taken ++ x ∷ [])) × T.follows v.taken x };
}

impl<T: Item> Lesson<T, PassView<T>> for Taking {
    ghost fact = { λ v items. (sent : List T) × (sent ≡ v.taken ++ items) × IsSound T.follows [] sent };
}

/// Both sides in one hand.
pub(crate) struct Total;

impl<T: Item> Lesson<T, PassView<T>> for Total {
    ghost fact = { λ v items. (v.sent ≡ v.taken ++ items) × IsSound T.follows [] v.sent };
}
