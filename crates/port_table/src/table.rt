// All ports of a desk, and the calls on them. Each call on a base is one call on one of its ports. No place stands on a
// key that has no port; a call on such a key fails.
ghost use Rattle.std.specs.Prelude.{◌≡◌, ◌≢◌, ◌<◌, None, Some, true, false, length, [], IfSome};
ghost use Rattle.slab.specs.Slab.{HasRoomFor, SameValues, get};
ghost use Rattle.port_trait.specs.Counting.{Counted, Rose};
ghost use Rattle.port_trait.specs.{IsWithin, peer_failed, peer_stalled, came_after, MovesNothing, Settles, Reads, Writes, Sends, Shuts, finishes};
ghost use Rattle.port_trait.specs.declared.answers.Begun.TheVariants as begins;
ghost use Rattle.port_trait.specs.declared.makers.MadePeer.TheVariants as peers;
ghost use Rattle.port_table.specs.Answers.{GotFits, SaidSo, TookFits, is_unsaid};
ghost use Rattle.port_table.specs.PortTables.{BeginsAt, CalledAt, EndsAt, MadeCall, SameStreams, StreamFailed, StreamNotes, StreamsStay, giving_port, hint_told, taking_port};

use crate::bases::Base;
use crate::entries::PortEntry;
use crate::streams::{Standard, StandardPort};
use port_trait::{Begun, Got, Hint, MadePeer, Maker, Port, Settled, Shutting, Took};
use relay_model::Shut;
use slab::Slab;
use std::alloc::Global;

/// The standard streams, and the made ports by their keys.
#[derive(Drop)]
pub struct PortTable<T: Port, I: Port, O: Port, E: Port> {
    pub input: StandardPort<I>,
    pub output: StandardPort<O>,
    pub errors: StandardPort<E>,
    pub made: Slab<PortEntry<T>>,
}

impl<T: Port, I: Port, O: Port, E: Port> PortTable<T, I, O, E> {
    /// The standard streams, and no made port; takes no memory.
    pub fn new(alloc: Global, standard: Standard<I, O, E>) -> PortTable<T, I, O, E>
        ensures made { result.made.slots ≡ [] }
        ensures input { (result.input.port ≡ I.seen standard.stdin) × (result.input.begun ≡ false) × (result.input.finished ≡ false) }
        ensures output { (result.output.port ≡ O.seen standard.stdout) × (result.output.begun ≡ false) × (result.output.finished ≡ false) }
        ensures errors { (result.errors.port ≡ E.seen standard.stderr) × (result.errors.begun ≡ false) × (result.errors.finished ≡ false) }
    {
        let Standard {
            stdin,
            stdout,
            stderr,
        } = standard;
        PortTable {
            input: StandardPort::new(stdin),
            output: StandardPort::new(stdout),
            errors: StandardPort::new(stderr),
            made: Slab::new(alloc),
        }
    }

    /// Begins the streams of the base, standard input first.
    pub fn begin(&mut self, base: Base) -> Begun
        ensures call { BeginsAt base self.old self.new result }
        ensures stay { StreamsStay self.old self.new }
        ensures failed { result ≡ begins.Failed → StreamFailed self.old self.new }
        ensures made { self.new.made ≡ self.old.made }
    {
        match base {
            Base::Input | Base::Made(_) => self.input.begin(),
            Base::Output => self.output.begin(),
            Base::Errors => self.errors.begin(),
            Base::Both => match self.input.begin() {
                Begun::Begun => self.output.begin(),
                answer => answer,
            },
        }
    }

    pub fn settle(&mut self, base: Base) -> Settled
        ensures { CalledAt (giving_port base) self.old self.new (λ old new. Settles old new result) }
    {
        match base {
            Base::Input | Base::Both => self.input.port.settle(),
            Base::Output => self.output.port.settle(),
            Base::Errors => self.errors.port.settle(),
            Base::Made(key) => match self.made.get_mut(key) {
                Some(entry) => entry.port.settle(),
                None => Settled::Failed,
            },
        }
    }

    pub fn read(&mut self, base: Base, into: &mut [u8]) -> Got
        requires some { 0 < length into.old }
        ensures fits { GotFits (length into.new) result }
        ensures call { CalledAt (giving_port base) self.old self.new (λ old new. Reads old new into.new result) }
    {
        match base {
            Base::Input | Base::Both => self.input.port.read(into),
            Base::Output => self.output.port.read(into),
            Base::Errors => self.errors.port.read(into),
            Base::Made(key) => match self.made.get_mut(key) {
                Some(entry) => entry.port.read(into),
                None => Got::Failed,
            },
        }
    }

    pub fn write(&mut self, base: Base, bytes: &[u8]) -> Took
        requires some { 0 < length bytes.now }
        ensures fits { TookFits (length bytes.now) result }
        ensures call { CalledAt (taking_port base) self.old self.new (λ old new. Writes old new bytes.now result) }
    {
        match base {
            Base::Input => self.input.port.write(bytes),
            Base::Output | Base::Both => self.output.port.write(bytes),
            Base::Errors => self.errors.port.write(bytes),
            Base::Made(key) => match self.made.get_mut(key) {
                Some(entry) => entry.port.write(bytes),
                None => Took::Failed,
            },
        }
    }

    pub fn send(&mut self, base: Base, bytes: &[u8]) -> Took
        requires some { 0 < length bytes.now }
        ensures call { CalledAt (taking_port base) self.old self.new (λ old new. Sends old new bytes.now result) }
    {
        match base {
            Base::Input => self.input.port.send(bytes),
            Base::Output | Base::Both => self.output.port.send(bytes),
            Base::Errors => self.errors.port.send(bytes),
            Base::Made(key) => match self.made.get_mut(key) {
                Some(entry) => entry.port.send(bytes),
                None => Took::Failed,
            },
        }
    }

    pub fn shut(&mut self, base: Base, how: Shut) -> Shutting
        ensures { EndsAt (finishes how) (taking_port base) self.old self.new (λ old new. Shuts old new how result) }
    {
        match base {
            Base::Input => self.input.shut(how),
            Base::Output | Base::Both => self.output.shut(how),
            Base::Errors => self.errors.shut(how),
            Base::Made(key) => match self.made.get_mut(key) {
                Some(entry) => entry.port.shut(how),
                None => Shutting::Failed,
            },
        }
    }

    /// Writes the whole text to standard error, which is begun first. None where there is no memory to begin it.
    pub fn note(&mut self, text: &[u8]) -> Option<Took>
        ensures call { StreamNotes self.old.errors self.new.errors text.now result }
        ensures made { self.new.made ≡ self.old.made }
        ensures streams { (self.new.input ≡ self.old.input) × (self.new.output ≡ self.old.output) }
        ensures said { SaidSo result self.old.errors.port.took self.new.errors.port.took text.now }
        ensures unshut { self.new.errors.port.shuts ≡ self.old.errors.port.shuts }
        ensures cause { is_unsaid result ≡ true → Rose self.old.errors.port.counts.faults self.new.errors.port.counts.faults }
    {
        match self.errors.begin() {
            Begun::Begun => Some(self.errors.port.put_all(text)),
            Begun::Failed => Some(Took::Failed),
            Begun::Memory => None,
        }
    }

    /// The halves that a hint of the port of the key may tell of; neither where there is no such port.
    pub fn may_hint(&self, key: usize) -> Hint
        ensures halves { IfSome (get self.now.made key) (λ entry. result ≡ entry.port.hinting) }
        ensures told { IfSome (get self.now.made key) (λ entry. IfSome entry.port.hints (λ hint. IsWithin result hint)) }
    {
        match self.made.get(key) {
            Some(entry) => entry.port.may_hint(),
            None => Hint::none(),
        }
    }

    /// What the ports of the base know of their readiness.
    pub fn hint(&mut self, base: Base) -> Hint
        ensures streams { SameStreams self.old self.new }
        ensures made { SameValues self.old.made self.new.made }
        ensures readable { IfSome (hint_told self.old.input.port.hints self.old.output.port.hints self.old.errors.port.hints self.old.made (giving_port base))
            (λ hint. result.readable ≡ hint.readable) }
        ensures writable { IfSome (hint_told self.old.input.port.hints self.old.output.port.hints self.old.errors.port.hints self.old.made (taking_port base))
            (λ hint. result.writable ≡ hint.writable) }
    {
        match base {
            Base::Input => self.input.port.hint(),
            Base::Output => self.output.port.hint(),
            Base::Both => Hint {
                readable: self.input.port.hint().readable,
                writable: self.output.port.hint().writable,
            },
            Base::Errors => self.errors.port.hint(),
            Base::Made(key) => match self.made.get_mut(key) {
                Some(entry) => entry.port.hint(),
                None => Hint::none(),
            },
        }
    }
}

/// Takes one peer at the door of the key.
pub fn accept_at<M: Maker, I: Port, O: Port, E: Port>(
    table: &mut PortTable<M::Made, I, O, E>,
    maker: &mut M,
    door: usize,
    key: usize,
) -> MadePeer<M::Made>
    ensures door { MadeCall table.old.made table.new.made door MovesNothing }
    ensures room { HasRoomFor table.old.made 1 → HasRoomFor table.new.made 1 }
    ensures next { table.new.made.vacant_key ≡ table.old.made.vacant_key }
    ensures streams { SameStreams table.old table.new }
    ensures made { result ≢ peers.Memory → M.accepts maker.old maker.new result }
    ensures came { (M.seen maker.new).came ≡ came_after (M.seen maker.old).came result }
    ensures faults { Counted (peer_failed result) (M.seen maker.old).faults (M.seen maker.new).faults }
    ensures stalls { Counted (peer_stalled result) (M.seen maker.old).stalls (M.seen maker.new).stalls }
{
    match table.made.get_mut(door) {
        Some(entry) => maker.accept(&mut entry.port, key),
        None => MadePeer::Memory,
    }
}
