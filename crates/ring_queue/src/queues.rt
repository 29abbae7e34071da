// The calls of the two sides.
ghost use Rattle.std.specs.Prelude.{length, ◌≡◌, ◌<◌, ◌++◌, ◌∷◌, [], List, true, false, IfOk, IsTrue, MatchResult, MatchOption};
ghost use Rattle.crossbeam_queue.specs.Passes.{view, IsPassOf, IsSamePass, ruled_capacity};
ghost use Rattle.crossbeam_queue.specs.Fifo.{Held};
ghost use Rattle.ring_queue.specs.Order.{IsSound, HasSent, HasTaken, view_of};

use crate::roles::{Item, OrderRule, PassView, Sending, Sides, Taking, Total};
use crossbeam_queue::{Pass, RuledArrayQueue};
use relay_model::NoMemory;
use std::alloc::Global;
use std::sync::Wait;

/// A queue under the rule.
pub type OrderedQueue<T> = RuledArrayQueue<T, PassView<T>, OrderRule>;

/// One side of a queue, or both in one hand.
pub type OrderedPass<T> = Pass<T, PassView<T>>;

/// An empty queue for so many items, with the sender's side and the taker's.
pub fn ordered_queue<T: Item>(
    alloc: Global,
    capacity: usize,
) -> Result<(OrderedQueue<T>, OrderedPass<T>, OrderedPass<T>), NoMemory>
    requires { 0 < capacity }
    ensures { IfOk result
        (λ made. (ruled_capacity made.0 ≡ capacity) × IsPassOf made.0 made.1 × IsPassOf made.0 made.2
        × (view made.1 ≡ view_of true false [] []) × (view made.2 ≡ view_of false true [] [])) }
{
    let (queue, mut sender) = OrderedQueue::<T>::ruled(alloc, capacity)?;
    let taker = queue.another::<Sides>(&mut sender);
    Ok((queue, sender, taker))
}

/// Sends the item. It comes back where the queue was full at a moment of this call.
pub fn put<T: Item, R: Wait>(
    rt: &R,
    queue: &OrderedQueue<T>,
    pass: &mut OrderedPass<T>,
    item: T,
) -> Result<(), T>
    requires queue { IsPassOf queue.now pass.old }
    requires sends { (view pass.old).sends ≡ true }
    requires follows { T.follows (view pass.old).sent item }
    ensures queue { IsSamePass pass.old pass.new }
    ensures sent { MatchResult result
        (λ _. view pass.new
        ≡ view_of (view pass.old).sends (view pass.old).takes ((view
        pass.old).sent ++ item ∷ []) (view pass.old).taken)
        (λ back. (back ≡ item) × (view pass.new ≡ view pass.old)
        × Held (ruled_capacity queue.now) (HasSent (view pass.old))) }
{
    queue.push_as::<Sending, R>(rt, pass, item)
}

/// Takes the oldest item, which fits those that were taken before. None where the queue was empty at a moment
/// of this call.
pub fn take<T: Item, R: Wait>(
    rt: &R,
    queue: &OrderedQueue<T>,
    pass: &mut OrderedPass<T>,
) -> Option<T>
    requires queue { IsPassOf queue.now pass.old }
    requires takes { (view pass.old).takes ≡ true }
    ensures queue { IsSamePass pass.old pass.new }
    ensures taken { MatchOption result ((view pass.new ≡ view pass.old) × Held 0 (HasTaken T.follows (view pass.old)))
        (λ item. (view pass.new
        ≡ view_of (view pass.old).sends (view pass.old).takes (view pass.old).sent ((view pass.old).taken ++ item ∷ []))
        × T.follows (view pass.old).taken item) }
{
    queue.pop_as::<Taking, R>(rt, pass)
}

/// True only where the queue was full at a moment of this call.
pub fn is_full<T: Item>(queue: &OrderedQueue<T>, pass: &mut OrderedPass<T>) -> bool
    requires queue { IsPassOf queue.now pass.old }
    requires sends { (view pass.old).sends ≡ true }
    ensures kept { IsSamePass pass.old pass.new × (view pass.new ≡ view pass.old) }
    ensures full { IsTrue result → Held (ruled_capacity queue.now) (HasSent (view pass.old)) }
{
    queue.is_full_as::<Sending>(pass)
}

/// True only where the queue was empty at a moment of this call.
pub fn is_empty<T: Item>(queue: &OrderedQueue<T>, pass: &mut OrderedPass<T>) -> bool
    requires queue { IsPassOf queue.now pass.old }
    requires takes { (view pass.old).takes ≡ true }
    ensures kept { IsSamePass pass.old pass.new × (view pass.new ≡ view pass.old) }
    ensures empty { IsTrue result → Held 0 (HasTaken T.follows (view pass.old)) }
{
    queue.is_empty_as::<Taking>(pass)
}

/// Puts both sides into one hand. What was taken is the front of what was sent.
pub fn settle<T: Item>(
    queue: &OrderedQueue<T>,
    sender: OrderedPass<T>,
    taker: OrderedPass<T>,
) -> OrderedPass<T>
    requires queue { IsPassOf queue.now sender × IsPassOf queue.now taker }
    requires sides { ((view sender).sends ≡ true) × ((view taker).takes ≡ true) }
    ensures queue { IsPassOf queue.now result }
    ensures view { view result ≡ view_of true true (view sender).sent (view taker).taken }
    ensures order { (rest : List T) × ((view sender).sent ≡ (view taker).taken ++ rest) × IsSound T.follows [] (view sender).sent }
{
    let mut both = sender;
    queue.absorb::<Sides>(&mut both, taker);
    queue.learn_as::<Total>(&mut both);
    both
}
