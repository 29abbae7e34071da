// A poller that takes what comes for peers which share a socket.
ghost use Rattle.std.specs.Prelude.{◌≡◌, ◌≤◌, ◌⊎◌, Some, true, false, IfSome, IfOk, length};
ghost use Rattle.port_trait.specs.Counting.{Counted};
ghost use Rattle.socket_ports.specs.Pollers.{AsksBeneath, AsksNoLater, NamesBeneath, has_shared};

use crate::crowds::Gathering;
use mio_poller::SHARED;
use port_trait::{KeyList, Polled, Poller};
use relay_model::{MOST_READY, NoMemory};
use std::alloc::Global;
use std::marker::Model;

/// Names what the poller beneath names, and then the ports of a gathering that got something. What doesn't fit comes
/// with the next poll, for which nothing else is asked.
#[derive(Drop)]
pub struct PeerPoller<P: Poller> {
    beneath: P,
    gathering: Gathering,
    // the moment of the last poll; none before the first
    at: Option<u64>,
    // whether ports are left that didn't fit
    owed: bool,
    asked: Option<u64>,
    named: KeyList,
    stopped: bool,
}

impl<P: Poller> Model for PeerPoller<P> {
    ghost use Rattle.std.specs.Prelude.{◌≡◌, ◌≤◌, IfSome};
    ghost use Rattle.socket_ports.specs.Pollers.{PeerPollerState};

    ghost Value = { PeerPollerState P };

    ghost view = { λ poller. record { beneath = poller.beneath; owed = poller.owed; asked = poller.asked; named = poller.named.entries; stopped = poller.stopped } };

    ghost invariant = { λ poller. IfSome poller.at (λ at. at ≡ P.clock poller.beneath) × (256 ≤ poller.named.room) };
}

impl<P: Poller + Drop> PeerPoller<P> {
    /// Over this poller, with no sockets that are shared.
    pub fn new(alloc: Global, beneath: P) -> Result<PeerPoller<P>, NoMemory>
        ensures { IfOk result (λ poller. poller.beneath ≡ beneath) }
    {
        Ok(PeerPoller {
            beneath,
            gathering: Gathering::new(alloc)?,
            at: None,
            owed: false,
            asked: None,
            named: KeyList::new(alloc)?,
            stopped: false,
        })
    }

    /// The poller beneath.
    pub fn beneath(&self) -> &P
        ensures { result.now ≡ self.now.beneath }
    {
        &self.beneath
    }

    /// The ports whose packets it takes.
    pub fn gathering(&self) -> Result<Gathering, NoMemory> {
        self.gathering.share()
    }

    /// Asks the poller beneath, which doesn't wait where a port of the gathering is to be named. Where only ports are owed
    /// that didn't fit before, it isn't asked.
    fn ask(&mut self, until: Option<u64>, ready: &mut KeyList) -> Polled
        requires { 256 ≤ ready.old.room }
        ensures room { ready.new.room ≡ ready.old.room }
        ensures clock { (P.clock self.old.beneath ≤ P.clock self.new.beneath) × (result.at ≡ P.clock self.new.beneath) }
        ensures stops { Counted result.stop (P.stops self.old.beneath) (P.stops self.new.beneath) }
        ensures asks { AsksNoLater (P.asked self.old.beneath) (P.asked self.new.beneath) until }
        ensures beneath { AsksBeneath P.polls self.old.owed self.old.beneath self.new.beneath result }
        ensures named { NamesBeneath self.old.owed (P.named self.new.beneath) ready.new.entries }
        ensures kept { self.new ≡ record self.old { beneath = self.new.beneath } }
    {
        if self.owed
            && let Some(at) = self.at
        {
            ready.clear();
            return Polled { at, stop: false };
        }
        let until = self.patience(until);
        let polled = self.beneath.poll(until, ready);
        self.at = Some(polled.at);
        polled
    }

    /// Until when to wait: not at all where a port of the gathering is to be named.
    fn patience(&self, until: Option<u64>) -> Option<u64>
        ensures { (result ≡ until) ⊎ (result ≡ Some 0) }
    {
        if self.gathering.is_waited_for() {
            Some(0)
        } else {
            until
        }
    }
}

impl<P: Poller + Drop> Poller for PeerPoller<P> {
    ghost named = { λ poller. Some poller.named };

    ghost stopped = { λ poller. Some poller.stopped };

    ghost stops = { λ poller. P.stops poller.beneath };

    ghost clock = { λ poller. P.clock poller.beneath };

    ghost asked = { λ poller. poller.asked };

    fn poll(&mut self, until: Option<u64>, ready: &mut KeyList) -> Polled
        requires { 256 ≤ ready.old.room }
        ensures asked { self.new.asked ≡ until }
        ensures room { ready.new.room ≡ ready.old.room }
        ensures named { self.new.named ≡ ready.new.entries }
        ensures stopped { self.new.stopped ≡ result.stop }
        ensures at { (P.clock self.old.beneath ≤ P.clock self.new.beneath) × (result.at ≡ P.clock self.new.beneath) }
        ensures stops { Counted result.stop (P.stops self.old.beneath) (P.stops self.new.beneath) }
        ensures asks { AsksNoLater (P.asked self.old.beneath) (P.asked self.new.beneath) until }
        ensures beneath { AsksBeneath P.polls self.old.owed self.old.beneath self.new.beneath result }
        ensures kept { NamesBeneath self.old.owed (P.named self.new.beneath) ready.new.entries }
        ensures owed { self.new.owed ≡ true → length ready.new.entries ≡ 256 }
    {
        let polled = self.ask(until, ready);
        if has_shared(ready) {
            self.gathering.stir();
        }
        self.gathering.gather(ready);
        self.owed = ready.len() == MOST_READY && self.gathering.is_waited_for();
        self.asked = until;
        self.named.set(ready);
        self.stopped = polled.stop;
        polled
    }
}

/// Whether a socket that is shared is named.
fn has_shared(ready: &KeyList) -> bool
    ensures { result ≡ has_shared ready.now.entries }
{
    for i in 0..ready.len() {
        let (key, _) = ready.get(i);
        if key == SHARED {
            return true;
        }
    }
    false
}
