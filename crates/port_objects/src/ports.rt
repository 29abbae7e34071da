// A port in memory.
ghost use Rattle.std.specs.Prelude.{◌≡◌, ◌<◌, ◌≤◌, ◌++◌, ◌∷◌, [], true, false, length, slice_get, Some, IfOk, OnOk, OnErr};
ghost use Rattle.port_trait.specs.{Tallied, Gives, Accepts, AcceptsWhole, AcceptsAll, is_end, read_event, write_event};
ghost use Rattle.port_trait.specs.declared.answers.Begun.TheVariants as begins;
ghost use Rattle.port_trait.specs.declared.answers.Settled.TheVariants as settles;
ghost use Rattle.port_trait.specs.declared.answers.Shutting.TheVariants as shuts;
ghost use Rattle.port_trait.specs.declared.answers.PortReap.TheVariants as reaps;
ghost use Rattle.port_trait.specs.declared.answers.Joining.TheVariants as joining;
ghost use Rattle.port_objects.specs.Scripts.{IsFilled, given_of, scripted_read, after_read};
ghost use Rattle.port_objects.specs.Ports.{fresh_port, mem_seen, scripted_hint, scripted_write, scripted_send, scripted_put_all, KeptByWrite};

use crate::intake::{Intake, Tap};
use crate::scripts::{PortItem, PortScript};
use port_trait::{Begun, Got, Hint, Joining, Port, PortCounts, PortReap, Settled, Shutting, Took};
use relay_model::{NoMemory, Shut};
use std::alloc::Global;
use std::marker::Model;

/// Reads answer what the script says, and `NotYet` after it. Writes are taken as far as there is room.
#[derive(Drop)]
pub struct MemPort {
    script: PortScript,
    intake: Intake,
    counts: PortCounts,
    begun: bool,
    ended: bool,
}

impl Model for MemPort {
    ghost use Rattle.port_objects.specs.Ports.{MemPortState};

    ghost Value = { MemPortState };

    ghost view = { λ port. record { script = port.script; intake = port.intake; counts = port.counts; begun = port.begun; ended = port.ended } };
}

impl MemPort {
    /// A port without items, with room for so many bytes.
    pub fn new(alloc: Global, room: usize) -> Result<MemPort, NoMemory>
        ensures { IfOk result (λ port. port ≡ fresh_port room) }
    {
        Ok(MemPort {
            script: PortScript::new(alloc),
            intake: Intake::new(alloc, room)?,
            counts: PortCounts::new(),
            begun: false,
            ended: false,
        })
    }

    /// Appends the item, or changes nothing. Bytes are at least one.
    pub fn add(&mut self, item: PortItem) -> Result<(), NoMemory>
        requires { IsFilled item }
        ensures ok { OnOk result
            (self.new
            ≡ record self.old { script = record self.old.script { items = self.old.script.items ++ item ∷ [] } }) }
        ensures given { given_of self.new.script ≡ given_of self.old.script }
        ensures err { OnErr result (self.new ≡ self.old) }
    {
        self.script.push(item)
    }

    /// Which halves are ready.
    fn readiness(&self) -> Hint
        ensures { result ≡ scripted_hint self.now }
    {
        Hint {
            readable: self.script.has_more(),
            writable: self.intake.room() > 0,
        }
    }

    /// A look at what the port took.
    pub fn tap(&self) -> Tap {
        self.intake.tap()
    }
}

impl Port for MemPort {
    ghost seen = { mem_seen };

    fn begin(&mut self) -> Begun
        ensures begun { result ≡ begins.Begun }
        ensures kept { self.new ≡ record self.old { begun = true } }
    {
        self.begun = true;
        Begun::Begun
    }

    fn settle(&mut self) -> Settled
        ensures ready { result ≡ settles.Ready }
        ensures kept { self.new ≡ self.old }
    {
        Settled::Ready
    }

    /// Uses the next item, long bytes in parts.
    fn read(&mut self, into: &mut [u8]) -> Got
        requires { 0 < length into.old }
        ensures answer { result
            ≡ scripted_read (slice_get self.old.script.items self.old.script.next) self.old.script.at (length
            into.new) }
        ensures used { self.new.script
            ≡ after_read (slice_get self.old.script.items self.old.script.next) self.old.script (length into.new) }
        ensures gives { Gives (Some (given_of self.old.script)) (Some (given_of self.new.script)) into.new result }
        ensures kept { (self.new.intake ≡ self.old.intake) × (self.new.begun ≡ self.old.begun) }
        ensures ended { self.new.ended ≡ is_end result }
        ensures counts { Tallied (read_event result) self.old.counts self.new.counts }
    {
        let got = self.script.read(into);
        self.count_read(got);
        got
    }

    /// Takes what fits, and answers `NotYet` exactly where nothing fits.
    fn write(&mut self, bytes: &[u8]) -> Took
        requires { 0 < length bytes.now }
        ensures answer { result ≡ scripted_write self.old.intake.room (length bytes.now) }
        ensures kept { KeptByWrite self.old self.new bytes.now result }
        ensures accepts { Accepts (Some self.old.intake.bytes) (Some self.new.intake.bytes) bytes.now result }
        ensures counts { Tallied (write_event result) self.old.counts self.new.counts }
    {
        let count = self.intake.put(bytes);
        if count > 0 {
            return Took::Took(count);
        }
        self.counts.count_stall();
        Took::NotYet
    }

    /// Takes all, and answers `NotYet` exactly where the bytes don't fit.
    fn send(&mut self, bytes: &[u8]) -> Took
        requires { 0 < length bytes.now }
        ensures answer { result ≡ scripted_send self.old.intake.room (length bytes.now) }
        ensures kept { KeptByWrite self.old self.new bytes.now result }
        ensures accepts { AcceptsWhole (Some self.old.intake.bytes) (Some self.new.intake.bytes) bytes.now result }
        ensures counts { Tallied (write_event result) self.old.counts self.new.counts }
    {
        if bytes.len() <= self.intake.room() {
            return Took::Took(self.intake.put(bytes));
        }
        self.counts.count_stall();
        Took::NotYet
    }

    /// Takes all, and answers `Failed` exactly where the bytes don't fit.
    fn put_all(&mut self, bytes: &[u8]) -> Took
        ensures answer { result ≡ scripted_put_all self.old.intake.room (length bytes.now) }
        ensures kept { KeptByWrite self.old self.new bytes.now result }
        ensures accepts { AcceptsAll (Some self.old.intake.bytes) (Some self.new.intake.bytes) bytes.now result }
        ensures counts { Tallied (write_event result) self.old.counts self.new.counts }
    {
        if bytes.len() <= self.intake.room() {
            return Took::Took(self.intake.put(bytes));
        }
        self.counts.count_fault();
        Took::Failed
    }

    fn shut(&mut self, _how: Shut) -> Shutting
        ensures done { result ≡ shuts.Done }
        ensures kept { self.new ≡ self.old }
    {
        Shutting::Done
    }

    /// Readable where an item is left, and writable where room is left.
    fn hint(&mut self) -> Hint
        ensures hinted { result ≡ scripted_hint self.old }
        ensures kept { self.new ≡ self.old }
    {
        self.readiness()
    }

    /// Only a call on the port changes what it hints.
    fn may_hint(&self) -> Hint
        ensures { result ≡ scripted_hint self.now }
    {
        self.readiness()
    }

    fn has_child(&self) -> bool
        ensures { result ≡ false }
    {
        false
    }

    fn reap(&mut self) -> PortReap
        ensures none { result ≡ reaps.NoChild }
        ensures kept { self.new ≡ self.old }
    {
        PortReap::NoChild
    }

    fn join(&mut self) -> Joining
        ensures joined { result ≡ joining.Joined }
        ensures kept { self.new ≡ self.old }
    {
        Joining::Joined
    }
}

impl MemPort {
    fn count_read(&mut self, got: Got)
        ensures kept { (self.new.script ≡ self.old.script) × (self.new.intake ≡ self.old.intake) × (self.new.begun ≡ self.old.begun) }
        ensures ended { self.new.ended ≡ is_end got }
        ensures counts { Tallied (read_event got) self.old.counts self.new.counts }
    {
        self.ended = false;
        match got {
            Got::Bytes(_) => {}
            Got::Empty => self.counts.count_empty(),
            Got::End => {
                self.ended = true;
                self.counts.count_end();
            }
            Got::NotYet => self.counts.count_stall(),
            Got::Failed => self.counts.count_fault(),
        }
    }
}
