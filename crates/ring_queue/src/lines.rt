// The two queues between a port and its thread, and how each side sleeps and wakes the other.
ghost use Rattle.std.specs.Prelude.{◌≡◌, ◌<◌, ◌++◌, ◌∷◌, [], List, true, false, length, IfOk, MatchOption};
ghost use Rattle.crossbeam_queue.specs.Passes.{view, IsPassOf, IsSamePass, ruled_capacity};
ghost use Rattle.ring_queue.specs.Order.{view_of, IsSound};

use crate::items::RingItem;
use crate::pages::{Pages, Ready, Spent};
use crate::queues::{OrderedPass, OrderedQueue, ordered_queue, put, take};
use crate::roles::{Item, PassView};
use crossbeam_queue::protocol::{Join, Lesson};
use relay_model::NoMemory;
use std::alloc::Global;
use std::hint;
use std::marker::Model;
use std::sync::atomic::{AtomicU64, Ordering};
use std::sync::{Arc, Wait};

/// The items that a queue holds at most.
pub const ROOM: usize = 64;

/// How often a side looks whether it was rung before it sleeps, so that what comes soon needs no wake.
const LOOKS: u32 = 2000;

/// Nobody is at a wake_signal.
const AWAY: u64 = 0;

/// Somebody watches a wake_signal, and sees when it rings.
const WATCHING: u64 = 1;

/// Somebody sleeps at a wake_signal, and has to be woken.
const ASLEEP: u64 = 2;

/// The port hasn't begun yet.
const WAITING: u64 = 0;

/// The port has begun.
const BEGUN: u64 = 1;

/// The port was let go.
const GONE: u64 = 2;

/// Where one side sleeps while there is nothing to do for it. It watches first, then tries once more, and
/// sleeps only where nobody rang since: so the ring for what its try didn't see isn't lost.
#[derive(Drop)]
pub struct WakeSignal {
    rings: AtomicU64,
    listener: AtomicU64,
}

impl WakeSignal {
    pub fn new() -> WakeSignal {
        WakeSignal {
            rings: AtomicU64::new(0),
            listener: AtomicU64::new(AWAY),
        }
    }

    /// The number of rings so far. The next is heard.
    pub fn watch(&self) -> u64 {
        self.listener.store(WATCHING, Ordering::SeqCst);
        self.rings.load(Ordering::SeqCst)
    }

    /// Waits until the next ring after that number of them, or for a shorter time. It sleeps where none comes soon.
    pub fn sleep<R: Wait>(&self, rt: &R, seen: u64) {
        if self.rings_soon(seen) {
            return;
        }
        let sleeps = self
            .listener
            .compare_exchange(WATCHING, ASLEEP, Ordering::SeqCst, Ordering::SeqCst);
        if sleeps.is_ok() {
            self.rings.park(rt, (seen & 0xffff_ffff) as u32);
        }
    }

    /// Looks a short time whether it rings.
    fn rings_soon(&self, seen: u64) -> bool {
        for _ in 0..LOOKS {
            if self.rings.load(Ordering::SeqCst) != seen {
                return true;
            }
            hint::spin_loop();
        }
        false
    }

    /// Rings are heard no more.
    pub fn leave(&self) {
        self.listener.store(AWAY, Ordering::SeqCst);
    }

    /// Tells who watches, and wakes who sleeps. The next ring is heard only after the next watch, so that many in a
    /// row wake once.
    pub fn ring(&self) {
        if self.listener.load(Ordering::SeqCst) == AWAY {
            return;
        }
        let listener = self.listener.swap(AWAY, Ordering::SeqCst);
        if listener != AWAY {
            self.rings.fetch_add(1, Ordering::SeqCst);
        }
        if listener == ASLEEP {
            self.rings.wake_all();
        }
    }
}

/// Whether the loop found nothing to do at the port, and so may sleep.
#[derive(Drop)]
pub struct LoopWaits {
    waits: AtomicU64,
}

impl LoopWaits {
    pub fn new() -> LoopWaits {
        LoopWaits {
            waits: AtomicU64::new(0),
        }
    }

    pub fn set(&self) {
        self.waits.store(1, Ordering::SeqCst);
    }

    /// Whether it was set since the last call.
    pub fn fetch(&self) -> bool {
        self.waits.load(Ordering::SeqCst) != 0 && self.waits.swap(0, Ordering::SeqCst) != 0
    }
}

/// What a thread knows of its port: whether it has begun, and whether it was let go.
#[derive(Drop)]
pub struct KnownPort {
    state: AtomicU64,
}

impl KnownPort {
    pub fn new() -> KnownPort {
        KnownPort {
            state: AtomicU64::new(WAITING),
        }
    }

    fn set(&self, state: u64) {
        self.state.store(state, Ordering::SeqCst);
    }

    pub fn is_gone(&self) -> bool {
        self.state.load(Ordering::SeqCst) == GONE
    }

    /// Sleeps at this wake_signal until the port begins. False where it is gone.
    pub fn wait<R: Wait>(&self, rt: &R, wake_signal: &WakeSignal) -> bool {
        for _ in rt.forever() {
            let seen = wake_signal.watch();
            let state = self.state.load(Ordering::SeqCst);
            if state != WAITING {
                wake_signal.leave();
                return state == BEGUN;
            }
            wake_signal.sleep(rt, seen);
        }
        unreachable!()
    }
}

/// What a port and its thread share: the items, the words that go back, the pages that are free, and where each
/// side sleeps.
#[derive(Drop)]
pub struct Lines<B: Item> {
    pub items: OrderedQueue<RingItem>,
    pub back: OrderedQueue<B>,
    pub pages: Pages,
    pub thread: WakeSignal,
    pub port: WakeSignal,
    pub waits: LoopWaits,
    pub state: KnownPort,
}

impl<B: Item + Drop> Lines<B> {
    /// The lines of these queues. All pages are free.
    fn new(
        alloc: Global,
        items: OrderedQueue<RingItem>,
        back: OrderedQueue<B>,
    ) -> Result<Lines<B>, NoMemory>
        ensures { IfOk result (λ lines. (lines.items ≡ items) × (lines.back ≡ back)) }
    {
        Ok(Lines {
            items,
            back,
            pages: Pages::new(alloc)?,
            thread: WakeSignal::new(),
            port: WakeSignal::new(),
            waits: LoopWaits::new(),
            state: KnownPort::new(),
        })
    }
}

/// A port's hold on its thread. The thread begins when it is told to, and comes to its end soon after the hold was let
/// go. Clauses see whether it was told to begin.
pub struct ThreadHold<B: Item + Drop> {
    lines: Arc<Lines<B>, Global>,
    begun: bool,
}

impl<B: Item + Drop> Model for ThreadHold<B> {
    ghost use Rattle.std.specs.Prelude.{Bool};

    ghost Value = { Bool };

    ghost view = { λ hold. hold.begun };
}

impl<B: Item + Drop> ThreadHold<B> {
    /// Lets the thread begin.
    pub fn begin(&mut self)
        ensures { self.new ≡ true }
    {
        self.begun = true;
        self.lines.state.set(BEGUN);
        self.lines.thread.ring();
    }
}

impl<B: Item + Drop> Drop for ThreadHold<B> {
    fn drop(self) {
        let ThreadHold { lines, begun: _ } = self;
        lines.state.set(GONE);
        lines.thread.ring();
    }
}

/// The side that sends the items, takes the words that come back, and fills pages.
#[derive(Drop)]
pub struct SendingSide<B: Item> {
    pub items: OrderedPass<RingItem>,
    pub back: OrderedPass<B>,
    pub ready: Ready,
}

/// The side that takes the items, sends the words back, and uses pages up.
#[derive(Drop)]
pub struct TakingSide<B: Item> {
    pub items: OrderedPass<RingItem>,
    pub back: OrderedPass<B>,
    pub spent: Spent,
}

/// The lines, once for the port and once for the thread, the port's hold on the thread, and the two sides.
#[derive(Drop)]
pub struct LineEnds<B: Item + Drop> {
    pub port: Arc<Lines<B>, Global>,
    pub hold: ThreadHold<B>,
    pub thread: Arc<Lines<B>, Global>,
    pub sending: SendingSide<B>,
    pub taking: TakingSide<B>,
}

/// Empty queues: one for items, and one for so many words that go back.
pub fn make_lines<B: Item + Drop>(alloc: Global, back_room: usize) -> Result<LineEnds<B>, NoMemory>
    requires { 0 < back_room }
    ensures same { IfOk result (λ ends. ends.thread.value ≡ ends.port.value) }
    ensures unbegun { IfOk result (λ ends. ends.hold ≡ false) }
    ensures rooms { IfOk result (λ ends. (ruled_capacity ends.port.value.items ≡ 64) × (ruled_capacity ends.port.value.back ≡ back_room)) }
    ensures items { IfOk result
        (λ ends. IsPassOf ends.port.value.items ends.sending.items × IsPassOf ends.port.value.items ends.taking.items) }
    ensures back { IfOk result (λ ends. IsPassOf ends.port.value.back ends.taking.back × IsPassOf ends.port.value.back ends.sending.back) }
    ensures item_views { IfOk result
        (λ ends. (view ends.sending.items ≡ view_of true false [] [])
        × (view ends.taking.items ≡ view_of false true [] [])) }
    ensures back_views { IfOk result
        (λ ends. (view ends.taking.back ≡ view_of true false [] [])
        × (view ends.sending.back ≡ view_of false true [] [])) }
{
    let (items, sender, taker) = ordered_queue::<RingItem>(alloc, ROOM)?;
    let (back, back_sender, back_taker) = ordered_queue::<B>(alloc, back_room)?;
    let port = Arc::new(alloc, Lines::new(alloc, items, back)?)?;
    let thread = Arc::try_clone(&port)?;
    let hold = ThreadHold {
        lines: Arc::try_clone(&port)?,
        begun: false,
    };
    let sending = SendingSide {
        items: sender,
        back: back_taker,
        ready: Ready::new(alloc)?,
    };
    let taking = TakingSide {
        items: taker,
        back: back_sender,
        spent: Spent::new(alloc)?,
    };
    Ok(LineEnds {
        port,
        hold,
        thread,
        sending,
        taking,
    })
}

/// Sends the item, and sleeps while the queue is full.
pub fn send<T: Item + Drop, R: Wait>(
    rt: &R,
    queue: &OrderedQueue<T>,
    wake_signal: &WakeSignal,
    pass: &mut OrderedPass<T>,
    item: T,
)
    requires queue { IsPassOf queue.now pass.old }
    requires sends { (view pass.old).sends ≡ true }
    requires follows { T.follows (view pass.old).sent item }
    ensures queue { IsSamePass pass.old pass.new }
    ensures sent { view pass.new
        ≡ view_of (view pass.old).sends (view pass.old).takes ((view pass.old).sent ++ item ∷ []) (view
        pass.old).taken }
{
    let Err(back) = put(rt, queue, pass, item) else {
        return;
    };
    let mut item = back;
    for _ in rt.forever() {
        let seen = wake_signal.watch();
        match put(rt, queue, pass, item) {
            Ok(()) => {
                wake_signal.leave();
                return;
            }
            Err(back) => item = back,
        }
        wake_signal.sleep(rt, seen);
    }
    unreachable!()
}

/// Sends the item, and sleeps while the queue is full. False where the port is gone then, and the item is dropped.
pub fn send_to_port<T: Item + Drop, R: Wait>(
    rt: &R,
    queue: &OrderedQueue<T>,
    wake_signal: &WakeSignal,
    port: &KnownPort,
    pass: &mut OrderedPass<T>,
    item: T,
) -> bool
    requires queue { IsPassOf queue.now pass.old }
    requires sends { (view pass.old).sends ≡ true }
    requires follows { T.follows (view pass.old).sent item }
    ensures queue { IsSamePass pass.old pass.new }
    ensures sent { result ≡ true
        → view pass.new ≡ view_of (view pass.old).sends (view pass.old).takes ((view pass.old).sent ++ item ∷
        []) (view pass.old).taken }
{
    let Err(back) = put(rt, queue, pass, item) else {
        return true;
    };
    let mut item = back;
    for _ in rt.forever() {
        let seen = wake_signal.watch();
        if port.is_gone() {
            wake_signal.leave();
            return false;
        }
        match put(rt, queue, pass, item) {
            Ok(()) => {
                wake_signal.leave();
                return true;
            }
            Err(back) => item = back,
        }
        wake_signal.sleep(rt, seen);
    }
    unreachable!()
}

/// Takes the oldest item, and sleeps while the queue is empty. None where it is empty and the port is gone.
pub fn receive<T: Item + Drop, R: Wait>(
    rt: &R,
    queue: &OrderedQueue<T>,
    wake_signal: &WakeSignal,
    port: &KnownPort,
    pass: &mut OrderedPass<T>,
) -> Option<T>
    requires queue { IsPassOf queue.now pass.old }
    requires takes { (view pass.old).takes ≡ true }
    ensures queue { IsSamePass pass.old pass.new }
    ensures taken { MatchOption result (view pass.new ≡ view pass.old)
        (λ item. (view pass.new
        ≡ view_of (view pass.old).sends (view pass.old).takes (view pass.old).sent ((view pass.old).taken ++ item ∷ []))
        × T.follows (view pass.old).taken item) }
{
    if let Some(item) = take(rt, queue, pass) {
        return Some(item);
    }
    for _ in rt.forever() {
        let seen = wake_signal.watch();
        // what the port put before it was gone is seen after this
        let gone = port.is_gone();
        if let Some(item) = take(rt, queue, pass) {
            wake_signal.leave();
            return Some(item);
        }
        if gone {
            wake_signal.leave();
            return None;
        }
        wake_signal.sleep(rt, seen);
    }
    unreachable!()
}

// the sender's side takes in the taker's
struct Both;

impl<T> Join<PassView<T>> for Both {
    ghost both = { λ v w. view_of true true v.sent w.taken };

    ghost spent = { view_of false false [] [] };
}

struct Total;

impl<T: Item> Lesson<T, PassView<T>> for Total {
    ghost fact = { λ v items. (v.sent ≡ v.taken ++ items) × IsSound T.follows [] v.sent };
}

/// The sender's side takes in the taker's. What was taken is the front of what was sent.
pub fn take_in<T: Item>(queue: &OrderedQueue<T>, sender: &mut OrderedPass<T>, taker: OrderedPass<T>)
    requires queue { IsPassOf queue.now sender.old × IsPassOf queue.now taker }
    requires sides { ((view sender.old).sends ≡ true) × ((view taker).takes ≡ true) }
    ensures queue { IsSamePass sender.old sender.new }
    ensures view { view sender.new ≡ view_of true true (view sender.old).sent (view taker).taken }
    ensures order { (rest : List T) × ((view sender.old).sent ≡ (view taker).taken ++ rest) }
{
    queue.absorb::<Both>(sender, taker);
    queue.learn_as::<Total>(sender);
}
