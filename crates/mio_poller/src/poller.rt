// The poller over the system's readiness, and what wakes it.
ghost use Rattle.std.specs.Prelude.{◌≡◌, ◌≤◌, ◌-◌, ◌*◌, ◌/◌, ◌^◌, ◌<◌, ◌++◌, ◌∷◌, [], length, min, false, Some, None, option_map, IfOk};
ghost use Rattle.std.specs.Duration.{as_nanos};
ghost use Rattle.port_trait.specs.{IsAtOnce};
ghost use Rattle.mio_poller.specs.Pollers.{named, event_keys, watch_key, later_moment, IfMade, IsMoment, WaitsOnce};

use crate::reserved::WAKE;
use crate::system::{Lack, Readiness, System};
use crate::watches::{Watch, Watches};
use mio::event::Event;
use mio::{Registry, Token, Waker};
use port_trait::{KeyList, Making, Polled, Poller, Wake};
use relay_model::{Half, NoMemory};
use std::alloc::Global;
use std::io;
use std::marker::Model;
use std::net::Net;
use std::sync::Arc;
use std::sync::atomic::{AtomicU64, Ordering};
use std::time::{Clock, Duration};

/// Ends the poller's sleep. Between two polls it writes at most once to the system's counter (eventfd(2)).
#[derive(Drop)]
struct PollSignal {
    waker: Waker,
    // 1 from a ring to the end of the poll that hears it
    rung: AtomicU64,
}

impl PollSignal {
    fn ring(&self) {
        if self.rung.load(Ordering::SeqCst) == 0 && self.rung.swap(1, Ordering::SeqCst) == 0 {
            let _ = self.waker.wake();
        }
    }

    fn hear(&self) {
        self.rung.store(0, Ordering::SeqCst);
    }
}

/// Wakes the poller from any thread.
#[derive(Drop)]
pub struct MioWake {
    wake_signal: Arc<PollSignal, Global>,
}

impl MioWake {
    /// Wakes the same poller.
    pub fn another(&self) -> Result<MioWake, NoMemory> {
        match Arc::try_clone(&self.wake_signal) {
            Ok(wake_signal) => Ok(MioWake { wake_signal }),
            Err(_) => Err(NoMemory),
        }
    }
}

impl Wake for MioWake {
    fn wake(&self) {
        self.wake_signal.ring();
    }
}

/// Waits for sockets and wakes, as this system tells them.
#[derive(Drop)]
pub struct SystemPoller<S> {
    system: S,
    wake_signal: Arc<PollSignal, Global>,
    watches: Watches,
    at: u64,
    asked: Option<u64>,
}

/// Waits for sockets and wakes (epoll(7), edge-triggered). A poll that the system refuses names nothing.
pub type MioPoller<R> = SystemPoller<System<R>>;

impl<S> Model for SystemPoller<S> {
    ghost use Rattle.mio_poller.specs.Pollers.{MioPollerState};

    ghost Value = { MioPollerState S };

    ghost view = { λ poller. record { system = poller.system; clock = poller.at; asked = poller.asked } };
}

impl<R: Net + Clock + Drop> SystemPoller<System<R>> {
    /// A poller of no sockets, whose clock begins now. Never `Later`.
    pub fn new(rt: R, alloc: Global) -> Making<SystemPoller<System<R>>>
        ensures at_once { IsAtOnce result }
        ensures fresh { IfMade result (λ poller. poller ≡ record { system = []; clock = 0; asked = None }) }
    {
        let system = match System::new(rt, alloc) {
            Ok(system) => system,
            Err(Lack::Refused) => return Making::Failed,
            Err(Lack::Memory) => return Making::Memory,
        };
        let Ok(waker) = Waker::new(system.registry(), Token(WAKE)) else {
            return Making::Failed;
        };
        let Ok(watches) = Watches::new(alloc) else {
            return Making::Memory;
        };
        match Arc::new(
            alloc,
            PollSignal {
                waker,
                rung: AtomicU64::new(0),
            },
        ) {
            Ok(wake_signal) => Making::Made(SystemPoller {
                system,
                wake_signal,
                watches,
                at: 0,
                asked: None,
            }),
            Err(_) => Making::Memory,
        }
    }

    /// What wakes this poller. Never `Later`.
    pub fn wake(&self) -> Making<MioWake>
        ensures { IsAtOnce result }
    {
        match Arc::try_clone(&self.wake_signal) {
            Ok(wake_signal) => Making::Made(MioWake { wake_signal }),
            Err(_) => Making::Memory,
        }
    }

    /// Its watch for a descriptor that is read, or for one that is written.
    pub fn watch(&self, half: Half) -> Result<Watch, NoMemory>
        ensures { IfOk result (λ watch. watch ≡ watch_key half) }
    {
        self.watches.share(half)
    }

    /// Where the sockets are registered that it waits for.
    pub fn registry(&self) -> &Registry {
        self.system.registry()
    }
}

impl<S: Readiness> Poller for SystemPoller<S> {
    ghost named = { λ poller. Some (named (S.seen poller.system)) };

    ghost stopped = { λ _. Some false };

    ghost stops = { λ _. 0 };

    ghost clock = { λ poller. poller.clock };

    ghost asked = { λ poller. poller.asked };

    /// Waits once, until the moment, a socket or a wake, and names the halves that the system found ready, at most
    /// 256.
    fn poll(&mut self, until: Option<u64>, ready: &mut KeyList) -> Polled
        requires { 256 ≤ ready.old.room }
        ensures answer { result ≡ record { at = self.new.clock; stop = false } }
        ensures asked { self.new.asked ≡ until }
        ensures clock { self.old.clock ≤ self.new.clock }
        ensures waits { WaitsOnce S.tells S.waits self.old.clock until self.old.system self.new.system }
        ensures at { IsMoment S.tells self.old.clock self.new.system self.new.clock }
        ensures ready { ready.new ≡ record ready.old { entries = named (S.seen self.new.system) } }
    {
        ready.clear();
        self.asked = until;
        self.at = wait_once(&mut self.system, self.at, until);
        self.wake_signal.hear();
        let events = self.system.events();
        self.watches.hear(events);
        name_events(events, ready);
        Polled {
            at: self.at,
            stop: false,
        }
    }
}

/// Waits at most until the moment, and answers the moment at which it returned.
pub(crate) fn wait_once<S: Readiness>(system: &mut S, last: u64, until: Option<u64>) -> u64
    ensures waits { WaitsOnce S.tells S.waits last until system.old system.new }
    ensures at { IsMoment S.tells last system.new result }
    ensures grows { last ≤ result }
{
    let now = moment_after(last, &system.time_since_start());
    // one that is refused names nothing
    let _ = system.wait(time_left(now, until));
    moment_after(last, &system.time_since_start())
}

/// The moment that is told after this one, where the system's clock answered so.
fn moment_after(last: u64, elapsed: &io::Result<Duration>) -> u64
    ensures { result ≡ later_moment last elapsed.now }
{
    match elapsed {
        Ok(elapsed) => last.max(whole_millis(*elapsed)),
        Err(_) => last,
    }
}

/// A moment beyond the range stays at its last value.
fn whole_millis(elapsed: Duration) -> u64
    ensures { result ≡ min (as_nanos elapsed / 1_000_000) (2 ^ 64 - 1) }
{
    elapsed.as_millis().min(u64::MAX as u128) as u64
}

/// How long to sleep at this moment.
fn time_left(now: u64, until: Option<u64>) -> Option<Duration>
    ensures { option_map as_nanos result ≡ option_map (λ moment. (moment - now) * 1_000_000) until }
{
    until.map(|moment| Duration::from_millis(moment.saturating_sub(now)))
}

/// Names the halves of these events.
fn name_events(events: &[Event], ready: &mut KeyList)
    requires room { 256 ≤ ready.old.room }
    requires fits { length events.now ≤ 128 }
    requires empty { ready.old.entries ≡ [] }
    ensures { ready.new ≡ record ready.old { entries = named events.now } }
{
    for event in events {
        name_event(event, ready);
    }
}

/// Names each half for which a call has something to answer, an end and a fault among them.
fn name_event(event: &Event, ready: &mut KeyList)
    requires room { 256 ≤ ready.old.room }
    requires fits { length ready.old.entries < 255 }
    ensures { ready.new ≡ record ready.old { entries = ready.old.entries ++ event_keys event.now } }
{
    if event.token() == Token(WAKE) {
        return;
    }
    let key = event.token().0;
    if event.is_readable() || event.is_read_closed() || event.is_error() {
        name_half(ready, key, Half::ToRead);
    }
    if event.is_writable() || event.is_write_closed() || event.is_error() {
        name_half(ready, key, Half::ToWrite);
    }
}

fn name_half(ready: &mut KeyList, key: usize, half: Half)
    requires room { 256 ≤ ready.old.room }
    requires fits { length ready.old.entries < 256 }
    ensures { ready.new ≡ record ready.old { entries = ready.old.entries ++ (key, half) ∷ [] } }
{
    ready.push((key, half));
}
