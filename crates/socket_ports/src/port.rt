// The port over a socket, which counts the answers.
ghost use Rattle.std.specs.Prelude.{◌≡◌, ◌<◌, ◌≤◌, ◌++◌, true, false, length, take, option_map, Some};
ghost use Rattle.port_trait.specs.{settle_event, read_event, write_event, shut_event, Settles, Reads, Writes, Sends, PutsAll, Shuts, untold, counted};
ghost use Rattle.port_trait.specs.declared.answers.Begun.TheVariants as begins;
ghost use Rattle.port_trait.specs.declared.answers.PortReap.TheVariants as reaps;
ghost use Rattle.port_trait.specs.declared.answers.Joining.TheVariants as joining;
ghost use Rattle.socket_ports.specs.Sockets.{fresh_port};

use port_trait::{
    Begun, Got, Hint, Joining, Port, PortCounts, PortReap, Settled, Shutting, Took, count_reading,
    count_settling, count_shutting, count_writing, is_end,
};
use relay_model::Shut;
use socket_kinds::Socket;
use std::marker::Model;

/// A socket whose answers are counted. What is kept is let go with the port.
#[derive(Drop)]
pub struct SocketPort<S, G> {
    pub(crate) socket: S,
    counts: PortCounts,
    begun: bool,
    ended: bool,
    kept: G,
}

impl<S, G> Model for SocketPort<S, G> {
    ghost use Rattle.socket_ports.specs.Sockets.{SocketPortState};

    ghost Value = { SocketPortState S };

    ghost view = { λ port. record { socket = port.socket; counts = port.counts; begun = port.begun; ended = port.ended } };
}

impl<S, G> SocketPort<S, G> {
    /// The port of this socket.
    pub fn new(socket: S, kept: G) -> SocketPort<S, G>
        ensures { result ≡ fresh_port socket }
    {
        SocketPort {
            socket,
            counts: PortCounts::new(),
            begun: false,
            ended: false,
            kept,
        }
    }

    /// The port of a socket that stands where another port stood, whose counts go on.
    pub fn with_counts(socket: S, kept: G, counts: PortCounts, begun: bool) -> SocketPort<S, G>
        ensures { result ≡ record { socket = socket; counts = counts; begun = begun; ended = false } }
    {
        SocketPort {
            socket,
            counts,
            begun,
            ended: false,
            kept,
        }
    }

    /// The socket.
    pub fn socket(&self) -> &S
        ensures { result.now ≡ self.now.socket }
    {
        &self.socket
    }
}

impl<S: Socket, G: Drop> Port for SocketPort<S, G> {
    ghost seen = { λ port. record untold {
      gave = S.gave port.socket;
      took = S.took port.socket;
      shuts = S.shuts port.socket;
      hints = Some (S.hints port.socket);
      hinting = S.hints port.socket;
      counts = port.counts;
      begun = port.begun;
      ended = port.ended;
    } };

    /// The socket was opened by what made it.
    fn begin(&mut self) -> Begun
        ensures begun { result ≡ begins.Begun }
        ensures kept { self.new ≡ record self.old { begun = true } }
    {
        self.begun = true;
        Begun::Begun
    }

    /// The socket is asked once.
    fn settle(&mut self) -> Settled
        ensures asked { S.answers_settle self.old.socket self.new.socket result }
        ensures settles { let seen = ⟦<SocketPort<S, G> as Port>⟧.seen in Settles (seen self.old) (seen self.new) result }
        ensures counted { self.new.counts ≡ counted (settle_event result) self.old.counts }
    {
        let settled = self.socket.settle();
        count_settling(&mut self.counts, settled);
        settled
    }

    fn read(&mut self, into: &mut [u8]) -> Got
        requires { 0 < length into.old }
        ensures asked { S.answers_receive self.old.socket self.new.socket into.new result }
        ensures reads { let seen = ⟦<SocketPort<S, G> as Port>⟧.seen in Reads (seen self.old) (seen self.new) into.new result }
        ensures counted { self.new.counts ≡ counted (read_event result) self.old.counts }
    {
        let got = self.socket.receive(into);
        self.ended = is_end(got);
        count_reading(&mut self.counts, got);
        got
    }

    fn write(&mut self, bytes: &[u8]) -> Took
        requires { 0 < length bytes.now }
        ensures asked { S.answers_transmit self.old.socket self.new.socket bytes.now result }
        ensures writes { let seen = ⟦<SocketPort<S, G> as Port>⟧.seen in Writes (seen self.old) (seen self.new) bytes.now result }
        ensures counted { self.new.counts ≡ counted (write_event result) self.old.counts }
    {
        let took = self.socket.transmit(bytes);
        count_writing(&mut self.counts, took);
        took
    }

    fn send(&mut self, bytes: &[u8]) -> Took
        requires { 0 < length bytes.now }
        ensures asked { S.answers_packet self.old.socket self.new.socket bytes.now result }
        ensures sends { let seen = ⟦<SocketPort<S, G> as Port>⟧.seen in Sends (seen self.old) (seen self.new) bytes.now result }
        ensures counted { self.new.counts ≡ counted (write_event result) self.old.counts }
    {
        let took = self.socket.transmit_packet(bytes);
        count_writing(&mut self.counts, took);
        took
    }

    /// Writes until all is accepted. Where the socket would block it fails, since no call of a socket waits.
    fn put_all(&mut self, bytes: &[u8]) -> Took
        ensures puts { let seen = ⟦<SocketPort<S, G> as Port>⟧.seen in PutsAll (seen self.old) (seen self.new) bytes.now result }
        ensures counted { self.new.counts ≡ counted (write_event result) self.old.counts }
    {
        let (count, failed) = transmit_front(&mut self.socket, bytes);
        if failed {
            self.counts.count_fault();
            return Took::Failed;
        }
        Took::Took(count)
    }

    fn shut(&mut self, how: Shut) -> Shutting
        ensures asked { S.answers_finish self.old.socket self.new.socket how result }
        ensures shuts { let seen = ⟦<SocketPort<S, G> as Port>⟧.seen in Shuts (seen self.old) (seen self.new) how result }
        ensures counted { self.new.counts ≡ counted (shut_event result) self.old.counts }
    {
        let shutting = self.socket.finish(how);
        count_shutting(&mut self.counts, shutting);
        shutting
    }

    /// What the socket knows by itself. What the system knows of it, the poller names.
    fn hint(&mut self) -> Hint
        ensures hinted { result ≡ S.hints self.old.socket }
        ensures kept { self.new ≡ self.old }
    {
        self.socket.hint()
    }

    fn may_hint(&self) -> Hint
        ensures { result ≡ S.hints self.now.socket }
    {
        self.socket.hint()
    }

    fn has_child(&self) -> bool
        ensures { result ≡ false }
    {
        false
    }

    fn reap(&mut self) -> PortReap
        ensures none { result ≡ reaps.NoChild }
        ensures kept { self.new ≡ self.old }
    {
        PortReap::NoChild
    }

    fn join(&mut self) -> Joining
        ensures joined { result ≡ joining.Joined }
        ensures kept { self.new ≡ self.old }
    {
        Joining::Joined
    }
}

/// Transmits until all bytes are accepted or the socket accepts no more, and counts what it accepted.
fn transmit_front<S: Socket>(socket: &mut S, bytes: &[u8]) -> (usize, bool)
    ensures bound { result.0 ≤ length bytes.now }
    ensures all { result.1 ≡ false → result.0 ≡ length bytes.now }
    ensures took { S.took socket.new ≡ option_map (λ all. all ++ take result.0 bytes.now) (S.took socket.old) }
    ensures kept { (S.gave socket.new ≡ S.gave socket.old) × (S.shuts socket.new ≡ S.shuts socket.old) }
{
    let mut count = 0;
    while count < bytes.len() {
        match socket.transmit(&bytes[count..]) {
            Took::Took(more) => count += more,
            Took::NotYet | Took::Failed => return (count, true),
        }
    }
    (count, false)
}
