// What a reader's port does at its queues.
ghost use Rattle.std.specs.Prelude.{◌≡◌, ◌+◌, ◌++◌, ◌∷◌, [], true, IfSome, MatchOption};
ghost use Rattle.crossbeam_queue.specs.Fifo.{Held};
ghost use Rattle.crossbeam_queue.specs.Passes.{view, IsPassOf, IsSamePass};
ghost use Rattle.ring_queue.specs.{HasTaken, view_of, Follows, is_mark, is_end_mark, last_is, marks, asks};
ghost use Rattle.ring_reader.specs.Feeding.{Feeds, marks_sent};
ghost use Rattle.ring_reader.specs.Starting.{WillFeed};

use crate::reader_start::{FeedPromise, land};
use crate::reader_thread::Fed;
use port_trait::{Source, Task};
use ring_queue::{Lines, OrderedPass, RingItem, ThreadEnding, Word, is_empty, send, take, take_in};
use std::mem;
use std::snapshot::Snapshot;
use std::sync::Wait;
use std::thread::Threads;

/// Counts the items taken, so that a thread that sleeps at a full queue is woken once there is room for a batch.
#[derive(Drop)]
pub(crate) struct Pace {
    taken: u32,
}

impl Pace {
    pub(crate) fn new() -> Pace {
        Pace { taken: 0 }
    }

    /// True at each 32nd call.
    fn step(&mut self) -> bool {
        if self.taken < 31 {
            self.taken += 1;
            return false;
        }
        self.taken = 0;
        true
    }
}

/// Asks for more, where the last item was a mark.
pub(crate) fn ask_again<R: Wait>(
    rt: &R,
    lines: &Lines<Word>,
    words: &mut OrderedPass<Word>,
    marked: bool,
)
    requires queue { IsPassOf lines.now.back words.old }
    requires sends { (view words.old).sends ≡ true }
    ensures queue { IsSamePass words.old words.new }
    ensures sends { (view words.new).sends ≡ true }
    ensures asked { asks (view words.new).sent ≡ asks (view words.old).sent + marks_sent marked }
{
    if !marked {
        return;
    }
    send(rt, &lines.back, &lines.port, words, Word::Ask);
    lines.thread.ring();
}

/// Takes the next item. Before it says that there is none, it lets the thread know that the loop may sleep, and
/// looks once more.
pub(crate) fn next<R: Wait>(
    rt: &R,
    lines: &Lines<Word>,
    pace: &mut Pace,
    items: &mut OrderedPass<RingItem>,
) -> Option<RingItem>
    requires queue { IsPassOf lines.now.items items.old }
    requires takes { (view items.old).takes ≡ true }
    ensures queue { IsSamePass items.old items.new }
    ensures taken { MatchOption result ((view items.new ≡ view items.old) × Held 0 (HasTaken Follows (view items.old)))
        (λ item. (view items.new
        ≡ view_of (view items.old).sends (view items.old).takes (view items.old).sent ((view items.old).taken ++ item ∷ []))
        × Follows (view items.old).taken item) }
{
    if let Some(item) = take(rt, &lines.items, items) {
        if pace.step() {
            lines.thread.ring();
        }
        return Some(item);
    }
    lines.waits.set();
    lines.thread.ring();
    take(rt, &lines.items, items)
}

/// Whether the queue may hold something. Before it says no, it lets the thread know that the loop may sleep, and looks
/// once more: what the thread was told before may have been used up by a wake for an item that was taken long ago.
pub(crate) fn has_some(lines: &Lines<Word>, items: &mut OrderedPass<RingItem>) -> bool
    requires queue { IsPassOf lines.now.items items.old }
    requires takes { (view items.old).takes ≡ true }
    ensures kept { IsSamePass items.old items.new × (view items.new ≡ view items.old) }
{
    if !is_empty(&lines.items, items) {
        return true;
    }
    lines.waits.set();
    !is_empty(&lines.items, items)
}

/// Finds the queue empty. Nobody sends, so the first look does.
pub(crate) fn find_empty<R: Wait>(rt: &R, lines: &Lines<Word>, items: &mut OrderedPass<RingItem>)
    requires queue { IsPassOf lines.now.items items.old }
    requires takes { (view items.old).takes ≡ true }
    ensures queue { IsSamePass items.old items.new }
    ensures empty { (view items.new ≡ view items.old) × Held 0 (HasTaken Follows (view items.old)) }
{
    for _ in rt.forever() {
        if is_empty(&lines.items, items) {
            return;
        }
    }
    unreachable!()
}

/// Stops the thread, waits for it and takes its sides of the queues in. What was taken is all that it sent.
pub(crate) fn finish<S, R>(
    rt: &R,
    lines: &Lines<Word>,
    start: &Snapshot<S>,
    items: &mut OrderedPass<RingItem>,
    words: &mut OrderedPass<Word>,
    task: Task<ThreadEnding<Fed<S>>, FeedPromise<S>>,
) -> S
where
    S: Source + Drop,
    R: Threads + Wait,
    requires queues { IsPassOf lines.now.items items.old × IsPassOf lines.now.back words.old }
    requires sides { ((view items.old).takes ≡ true) × ((view words.old).sends ≡ true) }
    requires task { WillFeed S.left S.faults S.ends lines.now start.now.value task }
    requires marked { last_is is_mark (view items.old).taken ≡ true }
    requires asked { marks (view items.old).taken ≡ asks (view words.old).sent + 1 }
    ensures queues { IsPassOf lines.now.items items.new × IsPassOf lines.now.back words.new }
    ensures sides { ((view items.new).takes ≡ true) × ((view words.new).sends ≡ true) }
    ensures taken { (view items.new).taken ≡ (view items.old).taken }
    ensures feeds { Feeds (S.left start.now.value) (S.left result) (S.faults start.now.value) (S.faults result)
        (S.ends start.now.value) (S.ends result) (view items.old).taken }
    ensures spent { last_is is_end_mark (view items.old).taken ≡ true → IfSome (S.left result) (λ rest. rest ≡ []) }
{
    send(rt, &lines.back, &lines.port, words, Word::Stop);
    lines.thread.ring();
    let fed = land(rt, task, lines, start);
    let taker = mem::replace(items, fed.items);
    take_in(&lines.items, items, taker);
    take_in(&lines.back, words, fed.words);
    fed.source
}
