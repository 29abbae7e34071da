// The world of a relay between ports.
ghost use Rattle.std.specs.Prelude.{◌≡◌, ◌≤◌, ◌<◌, ◌&&◌, ◌+◌, not, [], length, vec_len, vec_capacity, Some, true, false, is_some, IfOk, IfSome, OnOk};
ghost use Rattle.std.proofs.Props.{props};
ghost use Rattle.relay_model.specs.{Place};
ghost use Rattle.world_trait.specs.{NamesHeld, hold_found, KeepsNothing, told_by, IsFresh};
ghost use Rattle.port_trait.specs.Counting.{Counted};
ghost use Rattle.port_trait.specs.{Agrees};
ghost use Rattle.port_table.specs.{EndsSo, OnJoinedBack, handed, is_left};
ghost use Rattle.desk_places.specs.{IsSound, base_at, hold_at};
ghost use Rattle.port_desk.specs.Desks.{HasPortRoom, KeepsPorts};
ghost use Rattle.port_desk.specs.Keeping.{CanAsk};
ghost use Rattle.port_desk.specs.Following.{GoesOn, StartsInStep};
ghost use Rattle.port_desk.specs.Models.{BeginsHistory, HasPassed, IsFree, start_of};

use crate::beginnings::{Beginning, SinceBeginning, Unfollowed};
use crate::endings::{Backs, Ended};
use crate::models::Modelled;
use crate::records::Log;
use desk_places::{Ports, name_hinting, name_keyed};
use port_table::Standard;
use port_trait::{Joining, KeyList, Maker, Polled, Poller, Port};
use relay_model::{NoMemory, Place, ReadyList, Single};
use std::alloc::Global;
use std::marker::PhantomData;
use world_trait::{Recorder, Standing, World};

/// A world over ports: standard input, output and errors, and the ports of a maker for all other addresses. A poller
/// waits for them. Each call on a place is one call on its port, and each failure of a call is a fault that it counts.
/// One that is followed from a beginning on keeps what its standard streams passed in step with what its history tells.
#[derive(Drop)]
pub struct Desk<
    M: Maker + Drop,
    P: Poller + Drop,
    I: Port,
    O: Port,
    E: Port,
    B: Beginning = Unfollowed,
> {
    pub(crate) ports: Ports<M, I, O, E>,
    pub(crate) poller: P,
    // what the last poll named
    pub(crate) keys: KeyList,
    pub(crate) log: Log,
    // what the join of the port that the last closing let go answered; none where it wasn't joined
    pub(crate) joined: Option<Joining>,
    since: SinceBeginning<B>,
    ghost sound: { IsSound log.places.entries ports.table.made ports.listed } by { Prim.hlevel props },
    ghost reached: { log.last ≤ P.clock poller },
    ghost keys_room: { 256 ≤ keys.room },
    ghost parents_room: { length log.places.entries + vec_len ports.parents ≤ vec_capacity ports.parents },
    ghost follows: { ∥ GoesOn B.start log.recording.told (base_at log.places.entries) ports.table.input.port.gave
        ports.table.output.port.took ports.table.errors.port.took ports.table.input.port.ended ∥₁ },
}

impl<M: Maker + Drop, P: Poller + Drop, I: Port, O: Port, E: Port> Desk<M, P, I, O, E> {
    ghost use Rattle.port_desk.specs.Whole.{SameDesk};

    /// A desk at which nothing is held.
    pub fn new(
        alloc: Global,
        standard: Standard<I, O, E>,
        maker: M,
        poller: P,
        recorder: Recorder,
    ) -> Result<Desk<M, P, I, O, E>, NoMemory>
        ensures told { IfOk result (λ desk. (⟦<Desk<M, P, I, O, E> as World>⟧.seen desk).told ≡ told_by recorder
            (record { acts = []; spare = 0 }) (record { pairs = []; spare = 0 })) }
        ensures fresh { IfOk result (λ desk. IsFresh (⟦<Desk<M, P, I, O, E> as World>⟧.seen desk)) }
        ensures untouched { IfOk result (λ desk. (⟦<Desk<M, P, I, O, E> as Modelled>⟧.model desk).acted ≡ false) }
        ensures stdin { IfOk result (λ desk. (⟦<Desk<M, P, I, O, E> as Modelled>⟧.model desk).stdin
            ≡ record { port = I.seen standard.stdin; begun = false; finished = false }) }
        ensures stdout { IfOk result (λ desk. (⟦<Desk<M, P, I, O, E> as Modelled>⟧.model desk).stdout
            ≡ record { port = O.seen standard.stdout; begun = false; finished = false }) }
        ensures stderr { IfOk result (λ desk. (⟦<Desk<M, P, I, O, E> as Modelled>⟧.model desk).stderr
            ≡ record { port = E.seen standard.stderr; begun = false; finished = false }) }
    {
        Ok(Desk {
            ports: Ports::new(alloc, standard, maker),
            poller,
            keys: KeyList::new(alloc)?,
            log: Log::new(alloc, recorder),
            joined: None,
            since: SinceBeginning { of: PhantomData },
        })
    }

    /// Keeps the history from now on. No act was made before, and so nothing is held. Takes no memory.
    pub fn keep(&mut self)
        requires untouched { (⟦<Desk<M, P, I, O, E> as Modelled>⟧.model self.old).acted ≡ false }
        requires free { IsFree (⟦<Desk<M, P, I, O, E> as Modelled>⟧.model self.old) }
        ensures begins { let model = ⟦<Desk<M, P, I, O, E> as Modelled>⟧.model in BeginsHistory (model self.old) (model self.new) }
        ensures clock { let seen = ⟦<Desk<M, P, I, O, E> as World>⟧.seen in (seen self.new).clock ≡ (seen self.old).clock }
    {
        self.log.keep();
    }

    /// The desk, at which nothing is held, followed from here on.
    pub fn follow<B: Beginning>(self) -> Desk<M, P, I, O, E, B>
        requires free { IsFree (⟦<Desk<M, P, I, O, E> as Modelled>⟧.model self) }
        requires start { B.start ≡ Some (start_of (⟦<Desk<M, P, I, O, E> as Modelled>⟧.model self)) }
        ensures { SameDesk self result }
    {
        self.with_beginning()
    }
}

impl<M, P, I: Port, O: Port, E: Port, B: Beginning> Desk<M, P, I, O, E, B>
where
    M: Maker + Drop,
    P: Poller + Drop,
{
    ghost use Rattle.port_desk.specs.Whole.{KeepsDesk, Polls, SameDesk};

    /// The desk, followed no longer.
    pub fn unfollow(self) -> Desk<M, P, I, O, E>
        ensures same { SameDesk self result }
        ensures passed { let after = ⟦<Desk<M, P, I, O, E> as Modelled>⟧.model result in
            StartsInStep B.start → IfSome after.history (λ history. HasPassed history after) }
    {
        self.with_beginning()
    }

    /// The same desk, with another beginning.
    fn with_beginning<C: Beginning>(self) -> Desk<M, P, I, O, E, C>
        requires { GoesOn C.start self.log.recording.told (base_at self.log.places.entries)
            self.ports.table.input.port.gave self.ports.table.output.port.took self.ports.table.errors.port.took
            self.ports.table.input.port.ended }
        ensures { SameDesk self result }
    {
        let Desk {
            ports,
            poller,
            keys,
            log,
            joined,
            since: _,
        } = self;
        Desk {
            ports,
            poller,
            keys,
            log,
            joined,
            since: SinceBeginning { of: PhantomData },
        }
    }

    /// How the place stands; none where nothing is held there.
    pub fn standing(&self, place: Place) -> Option<Standing>
        ensures { hold_found result ≡ (⟦<Desk<M, P, I, O, E, B> as World>⟧.seen self.now).held place }
    {
        match self.log.places.find(place) {
            None => None,
            Some(entry) => Some(entry.standing),
        }
    }

    /// Ends the desk, at which nothing is held. Each standard port that has begun and wasn't told the end of its output
    /// is shut with `Close`; then each is joined. Takes no memory.
    pub fn end(self) -> Ended<I, O, E>
        requires { IsFree (⟦<Desk<M, P, I, O, E, B> as Modelled>⟧.model self) }
        ensures stdin { let stream = (⟦<Desk<M, P, I, O, E, B> as Modelled>⟧.model self).stdin in
            EndsSo (stream.begun && not stream.finished) stream.port (is_left result.standard.stdin) (I.seen (handed result.standard.stdin)) }
        ensures stdin_behind { OnJoinedBack (λ port. Agrees (I.seen port)) result.standard.stdin }
        ensures stdout { let stream = (⟦<Desk<M, P, I, O, E, B> as Modelled>⟧.model self).stdout in
            EndsSo (stream.begun && not stream.finished) stream.port (is_left result.standard.stdout) (O.seen (handed result.standard.stdout)) }
        ensures stdout_behind { OnJoinedBack (λ port. Agrees (O.seen port)) result.standard.stdout }
        ensures stderr { let stream = (⟦<Desk<M, P, I, O, E, B> as Modelled>⟧.model self).stderr in
            EndsSo (stream.begun && not stream.finished) stream.port (is_left result.standard.stderr) (E.seen (handed result.standard.stderr)) }
        ensures stderr_behind { OnJoinedBack (λ port. Agrees (E.seen port)) result.standard.stderr }
        ensures skipped { is_some (⟦<Desk<M, P, I, O, E, B> as Modelled>⟧.model self).history ≡ false → KeepsNothing result.kept }
        ensures kept { let history = (⟦<Desk<M, P, I, O, E, B> as Modelled>⟧.model self).history in is_some history ≡ true
            → history ≡ Some (record { acts = result.kept.journal.acts; asked = result.kept.asked.pairs }) }
        ensures counts { result.counts ≡ (⟦<Desk<M, P, I, O, E, B> as Modelled>⟧.model self).counts }
    {
        let Desk { ports, log, .. } = self;
        let Ports { table, .. } = ports;
        Ended {
            standard: Backs {
                stdin: table.input.end(),
                stdout: table.output.end(),
                stderr: table.errors.end(),
            },
            kept: log.recording.into_kept(),
            counts: log.counts,
        }
    }

    /// Makes room for one further place, its port, its act and its closing.
    pub(crate) fn prepare_port(&mut self) -> Result<(), NoMemory>
        ensures room { OnOk result (HasPortRoom self.new.log self.new.ports) }
        ensures kept { KeepsDesk self.old self.new }
    {
        self.log.reserve(2)?;
        self.log.places.reserve()?;
        self.ports.reserve(self.log.places.len() + 1)
    }

    /// The same for what is asked to be opened, and a copy of that where it is kept.
    pub(crate) fn prepare_opening(&mut self, single: &Single) -> Result<Option<Single>, NoMemory>
        ensures can { IfOk result (λ copy. CanAsk copy single.now self.new.log.recording) }
        ensures room { OnOk result (HasPortRoom self.new.log self.new.ports) }
        ensures kept { KeepsDesk self.old self.new }
    {
        self.prepare_port()?;
        self.log.copy_asking(single)
    }

    /// Names what is ready, and waits for it where nothing is ready yet. A poll tells of a half once, so what it names comes
    /// first: what hints goes on to do so where the list is full.
    pub(crate) fn poll(&mut self, until: Option<u64>, ready: &mut ReadyList) -> Polled
        requires room { 256 ≤ ready.old.room }
        requires empty { ready.old.entries ≡ [] }
        ensures room { ready.new.room ≡ ready.old.room }
        ensures named { NamesHeld (hold_at self.new.log.places.entries) ready.new.entries }
        ensures polls { Polls self.old self.new until ready.new.entries result }
        ensures ports { KeepsPorts self.old.ports self.new.ports }
        ensures log { self.new.log ≡ self.old.log }
        ensures at { (result.at ≡ P.clock self.new.poller) × (self.old.log.last ≤ result.at) }
        ensures stop { Counted result.stop (P.stops self.old.poller) (P.stops self.new.poller) }
    {
        let log = &self.log;
        name_hinting(&mut self.ports, &log.places, ready);
        if ready.len() > 0 {
            let hinting = ready.get(0);
            let polled = self.poller.poll(Some(log.last), &mut self.keys);
            ready.clear();
            name_keyed(&self.ports, &log.places, &self.keys, ready);
            name_hinting(&mut self.ports, &log.places, ready);
            if ready.len() == 0 {
                ready.push(hinting);
            }
            return polled;
        }
        let polled = self.poller.poll(until, &mut self.keys);
        name_keyed(&self.ports, &log.places, &self.keys, ready);
        name_hinting(&mut self.ports, &log.places, ready);
        polled
    }
}
