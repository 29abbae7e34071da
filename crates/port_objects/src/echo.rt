// The echo pipe: a port that gives back what it took.
ghost use Rattle.std.specs.Prelude.{◌≡◌, ◌<◌, ◌++◌, true, false, length, Some, IfOk};
ghost use Rattle.port_trait.specs.{Reads, Writes, Sends, PutsAll, untold};
ghost use Rattle.port_trait.specs.declared.answers.Begun.TheVariants as begins;
ghost use Rattle.port_trait.specs.declared.answers.Settled.TheVariants as settles;
ghost use Rattle.port_trait.specs.declared.answers.Took.TheVariants as writes;
ghost use Rattle.port_trait.specs.declared.answers.Shutting.TheVariants as shuts;
ghost use Rattle.port_trait.specs.declared.answers.PortReap.TheVariants as reaps;
ghost use Rattle.port_trait.specs.declared.answers.Joining.TheVariants as joining;
ghost use Rattle.port_objects.specs.Echoes.{fresh_echo, room_of, echo_read, echo_write, echo_put_all, echo_hint, got_front, held_after, shut_after, KeptByTransfer};

use circular_buffer::HeapCircularBuffer;
use port_trait::{Begun, Got, Hint, Joining, Port, PortCounts, PortReap, Settled, Shutting, Took};
use relay_model::{NoMemory, Shut};
use std::alloc::Global;
use std::marker::Model;

/// A pipe whose two ends are one port.
#[derive(Drop)]
pub struct EchoPort {
    held: HeapCircularBuffer<u8>,
    is_shut: bool,
    counts: PortCounts,
    begun: bool,
    ended: bool,
}

impl Model for EchoPort {
    ghost use Rattle.port_objects.specs.Echoes.{EchoState};

    ghost Value = { EchoState };

    ghost view = { λ port. record {
      held = port.held.items;
      capacity = port.held.capacity;
      is_shut = port.is_shut;
      counts = port.counts;
      begun = port.begun;
      ended = port.ended;
    } };
}

impl EchoPort {
    /// An empty pipe for so many bytes.
    pub fn new(alloc: Global, capacity: usize) -> Result<EchoPort, NoMemory>
        ensures { IfOk result (λ port. port ≡ fresh_echo capacity) }
    {
        Ok(EchoPort {
            held: HeapCircularBuffer::with_capacity(alloc, capacity)?,
            is_shut: false,
            counts: PortCounts::new(),
            begun: false,
            ended: false,
        })
    }

    /// Which halves are ready.
    fn readiness(&self) -> Hint
        ensures { result ≡ echo_hint self.now }
    {
        Hint {
            readable: self.is_shut || self.held.len() > 0,
            writable: self.held.len() < self.held.capacity(),
        }
    }
}

impl Port for EchoPort {
    ghost seen = { λ port. record untold {
      hints = Some (echo_hint port);
      hinting = echo_hint port;
      counts = port.counts;
      begun = port.begun;
      ended = port.ended;
    } };

    fn begin(&mut self) -> Begun
        ensures begun { result ≡ begins.Begun }
        ensures kept { self.new ≡ record self.old { begun = true } }
    {
        self.begun = true;
        Begun::Begun
    }

    fn settle(&mut self) -> Settled
        ensures ready { result ≡ settles.Ready }
        ensures kept { self.new ≡ self.old }
    {
        Settled::Ready
    }

    /// Gives what is held, oldest first. With nothing held it answers `End` where the pipe was shut, and
    /// `NotYet` otherwise.
    #[tactic(auto, using(crate::proofs::Fronts::front_and_rest))]
    fn read(&mut self, into: &mut [u8]) -> Got
        requires { 0 < length into.old }
        ensures answer { result ≡ echo_read self.old.held self.old.is_shut (length into.new) }
        ensures bytes { self.old.held ≡ got_front into.new result ++ self.new.held }
        ensures kept { KeptByTransfer self.old self.new }
        ensures reads { let seen = ⟦<EchoPort as Port>⟧.seen in Reads (seen self.old) (seen self.new) into.new result }
    {
        let count = self.held.read_into(into);
        self.ended = false;
        if count > 0 {
            return Got::Bytes(count);
        }
        if self.is_shut {
            self.ended = true;
            self.counts.count_end();
            return Got::End;
        }
        self.counts.count_stall();
        Got::NotYet
    }

    /// Takes what fits, and answers `NotYet` exactly where the pipe is full.
    fn write(&mut self, bytes: &[u8]) -> Took
        requires { 0 < length bytes.now }
        ensures answer { result ≡ echo_write (room_of self.old) (length bytes.now) }
        ensures held { self.new.held ≡ held_after self.old.held bytes.now result }
        ensures kept { KeptByTransfer self.old self.new }
        ensures writes { let seen = ⟦<EchoPort as Port>⟧.seen in Writes (seen self.old) (seen self.new) bytes.now result }
    {
        let count = self.held.fill_from_slice(bytes);
        if count > 0 {
            return Took::Took(count);
        }
        self.counts.count_stall();
        Took::NotYet
    }

    fn send(&mut self, _bytes: &[u8]) -> Took
        ensures answer { result ≡ writes.Failed }
        ensures held { self.new.held ≡ self.old.held }
        ensures kept { KeptByTransfer self.old self.new }
        ensures sends { let seen = ⟦<EchoPort as Port>⟧.seen in Sends (seen self.old) (seen self.new) _bytes.now result }
    {
        self.counts.count_fault();
        Took::Failed
    }

    /// Takes all, and answers `Failed` exactly where the bytes don't fit.
    fn put_all(&mut self, bytes: &[u8]) -> Took
        ensures answer { result ≡ echo_put_all (room_of self.old) (length bytes.now) }
        ensures held { self.new.held ≡ held_after self.old.held bytes.now result }
        ensures kept { KeptByTransfer self.old self.new }
        ensures puts { let seen = ⟦<EchoPort as Port>⟧.seen in PutsAll (seen self.old) (seen self.new) bytes.now result }
    {
        if bytes.len() <= self.held.capacity() - self.held.len() {
            return Took::Took(self.held.fill_from_slice(bytes));
        }
        self.counts.count_fault();
        Took::Failed
    }

    /// Shuts the pipe at `Down` and `Close`.
    fn shut(&mut self, how: Shut) -> Shutting
        ensures done { result ≡ shuts.Done }
        ensures shut { self.new ≡ record self.old { is_shut = shut_after self.old.is_shut how } }
    {
        match how {
            Shut::Down | Shut::Close => self.is_shut = true,
            Shut::Nothing | Shut::Null => {}
        }
        Shutting::Done
    }

    /// Readable where something is held or the pipe was shut, and writable where it isn't full.
    fn hint(&mut self) -> Hint
        ensures hinted { result ≡ echo_hint self.old }
        ensures kept { self.new ≡ self.old }
    {
        self.readiness()
    }

    /// Only a call on the pipe makes it ready.
    fn may_hint(&self) -> Hint
        ensures { result ≡ echo_hint self.now }
    {
        self.readiness()
    }

    fn has_child(&self) -> bool
        ensures { result ≡ false }
    {
        false
    }

    fn reap(&mut self) -> PortReap
        ensures none { result ≡ reaps.NoChild }
        ensures kept { self.new ≡ self.old }
    {
        PortReap::NoChild
    }

    fn join(&mut self) -> Joining
        ensures joined { result ≡ joining.Joined }
        ensures kept { self.new ≡ self.old }
    {
        Joining::Joined
    }
}
