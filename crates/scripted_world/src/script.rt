// What a scripted world is told to answer, and what its waits look at.
ghost use Rattle.std.specs.Prelude.{◌≡◌, ◌≤◌, ◌++◌, ◌∷◌, [], length, take, if◌then◌else◌};
ghost use Rattle.relay_model.specs.{earlier};
ghost use Rattle.scripted_world.specs.Lines.{next_of};
ghost use Rattle.scripted_world.specs.Looks.{name_of};
ghost use Rattle.scripted_world.specs.Scripts.{at_of, earliest, empty_script, is_ready, is_stop, least_moment, opening, ready_from, ready_ones};

use crate::accepting::DuePeer;
use crate::items::OpenItem;
use crate::lines::PlacedItems;
use crate::looking::{LookedAt, Lookout, WatchKind};
use crate::marks::Marks;
use crate::reading::DueRead;
use crate::writing::DueWrite;
use relay_model::{ChildEnd, MOST_READY, Place, ReadyAt, ReadyList};
use std::alloc::Global;

/// The items that aren't used up, each list in order, and what a wait looks at: that whose last answer was that there
/// is nothing yet, and that no turn has named since.
#[derive(Drop)]
pub struct Script {
    pub reads: PlacedItems<DueRead>,
    pub writes: PlacedItems<DueWrite>,
    pub opens: PlacedItems<OpenItem>,
    pub peers: PlacedItems<DuePeer>,
    pub reaps: PlacedItems<ChildEnd>,
    pub shut_faults: Marks<Place>,
    pub stops: Marks<u64>,
    pub looked: Lookout,
}

impl Script {
    /// No items; takes no memory.
    pub fn new(alloc: Global) -> Script
        ensures { result ≡ empty_script }
    {
        Script {
            reads: PlacedItems::new(alloc),
            writes: PlacedItems::new(alloc),
            opens: PlacedItems::new(alloc),
            peers: PlacedItems::new(alloc),
            reaps: PlacedItems::new(alloc),
            shut_faults: Marks::new(alloc),
            stops: Marks::new(alloc),
            looked: Lookout::new(alloc),
        }
    }

    /// What becomes of the next opening of the place or listening at the door: with no item left it opens.
    pub fn opening(&self, place: Place) -> OpenItem
        ensures { result ≡ opening (next_of self.now.opens place) }
    {
        match self.opens.next(place) {
            None => OpenItem::Opens,
            Some(item) => *item,
        }
    }

    /// What the next reaping of the place finds.
    pub fn end_of(&self, place: Place) -> Option<ChildEnd>
        ensures { result ≡ next_of self.now.reaps place }
    {
        self.reaps.next(place).copied()
    }

    pub fn allocator(&self) -> Global {
        *self.reads.entries.allocator()
    }

    /// The moment at which a wait ends that lasts until `until` at most: now, where nothing will ever happen.
    pub fn moment(&self, until: Option<u64>, clock: u64) -> u64
        ensures is { result ≡ at_of self.now until clock }
        ensures later { clock ≤ result }
    {
        match self.earliest(until) {
            Some(moment) => moment.max(clock),
            None => clock,
        }
    }

    /// The earliest moment at which a wait ends that lasts until `until` at most, if it ever ends.
    fn earliest(&self, until: Option<u64>) -> Option<u64>
        ensures { result ≡ earliest self.now until }
    {
        let ready = self.least_moment(self.looked.as_slice());
        let moment = earlier(self.stops.least(), ready);
        earlier(until, moment)
    }

    /// Whether a wait that ends at this moment answers a stop: a stop moment has come, or nothing will ever happen.
    pub fn is_stop(&self, until: Option<u64>, at: u64) -> bool
        ensures { result ≡ is_stop self.now until at }
    {
        self.earliest(until).is_none() || self.stops.has_come(at)
    }

    /// The earliest moment from which one of these is ready.
    fn least_moment(&self, entries: &[LookedAt]) -> Option<u64>
        ensures { result ≡ least_moment self.now entries.now }
    {
        let mut least = None;
        for entry in entries {
            least = earlier(least, self.ready_from(*entry));
        }
        least
    }

    /// The moment from which something is ready; none where no items are left for it. With no items left for writes
    /// it is ready at once.
    fn ready_from(&self, entry: LookedAt) -> Option<u64>
        ensures { result ≡ ready_from self.now entry }
    {
        match entry.watch {
            WatchKind::Read => self.reads.next(entry.place).map(|line| line.at),
            WatchKind::Write => {
                let next = self.writes.next(entry.place);
                Some(next.map_or(0, |line| line.at))
            }
            WatchKind::Peer => self.peers.next(entry.place).map(|line| line.at),
            WatchKind::Opening(_) => Some(0),
        }
    }

    /// Whether something is ready at this moment.
    fn is_ready(&self, entry: LookedAt, at: u64) -> bool
        ensures { result ≡ is_ready self.now at entry }
    {
        match self.ready_from(entry) {
            None => false,
            Some(moment) => moment <= at,
        }
    }

    /// Names what is looked at and ready at this moment, in order, as much as there is room for.
    pub fn name_ready(&self, at: u64, ready: &mut ReadyList)
        requires room { 256 ≤ ready.old.room }
        requires empty { ready.old.entries ≡ [] }
        ensures room { 256 ≤ ready.new.room }
        ensures named { ready.new.entries ≡ take 256 (ready_ones self.now at self.now.looked) }
    {
        self.name_those(self.looked.as_slice(), at, ready);
    }

    /// Names those of these that are ready at this moment, in order, as many as there is room for.
    fn name_those(&self, entries: &[LookedAt], at: u64, ready: &mut ReadyList)
        requires room { 256 ≤ ready.old.room }
        requires empty { ready.old.entries ≡ [] }
        ensures room { 256 ≤ ready.new.room }
        ensures named { ready.new.entries ≡ take 256 (ready_ones self.now at entries.now) }
    {
        for entry in entries {
            self.name_if_ready(*entry, at, ready);
        }
    }

    /// Names this, if it is ready at this moment and there is room for it.
    fn name_if_ready(&self, entry: LookedAt, at: u64, ready: &mut ReadyList)
        requires room { 256 ≤ ready.old.room }
        requires few { length ready.old.entries ≤ 256 }
        ensures room { 256 ≤ ready.new.room }
        ensures few { length ready.new.entries ≤ 256 }
        ensures named { ready.new.entries
            ≡ (if is_ready self.now at entry then take 256 (ready.old.entries ++ name_of entry ∷ []) else
            ready.old.entries) }
    {
        if self.is_ready(entry, at) {
            name(ready, entry.ready_entry());
        }
    }
}

/// Appends the entry, if there is room for it.
fn name(ready: &mut ReadyList, entry: ReadyAt)
    requires { 256 ≤ ready.old.room }
    ensures room { 256 ≤ ready.new.room }
    ensures few { length ready.new.entries ≤ 256 }
    ensures named { ready.new.entries ≡ take 256 (ready.old.entries ++ entry ∷ []) }
{
    if ready.len() < MOST_READY {
        let _ = ready.push(entry);
    }
}

/// The lesser of two moments, or the one that is there.
pub fn earlier(one: Option<u64>, other: Option<u64>) -> Option<u64>
    ensures { result ≡ earlier one other }
{
    match (one, other) {
        (None, other) => other,
        (one, None) => one,
        (Some(one), Some(other)) => Some(one.min(other)),
    }
}
