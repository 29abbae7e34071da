// The socket whose packets are sorted.
ghost use Rattle.std.specs.Prelude.{◌≡◌, ◌≤◌, ℕ, List, length, Option, None};
ghost use Rattle.relay_model.specs.{longest_packet, Peer};
ghost use Rattle.peer_demux.specs.Links.{Receives, Sends, has_failed, has_stalled, has_packet, send_failed, send_stalled};
ghost use Rattle.peer_demux.specs.Tables.{risen_if};

use port_trait::Took;
use relay_model::Peer;

/// What a receiving came to: a packet of this sender, which fills so many bytes of the buffer; none for now; a fault.
#[derive(Clone, Copy, PartialEq)]
pub enum Received {
    Packet { from: Peer, len: usize },
    NotYet,
    Failed,
}

/// A socket of datagrams. No call waits.
pub trait Link: Drop {
    // how often it failed, had nothing or no room, and gave a packet. Each number stays at its last value
    ghost faults: { Self → ℕ };

    ghost stalls: { Self → ℕ };

    ghost packets: { Self → ℕ };
    // the packets that it gave with their senders, and those that it sent with whom they went to
    ghost gave: { Self → Option (List (Peer × List ℕ)) } = { λ _. None };

    ghost sent: { Self → Option (List (Peer × List ℕ)) } = { λ _. None };

    /// Takes the next packet.
    fn receive(&mut self, into: &mut [u8]) -> Received
        requires { longest_packet ≤ length into.old }
        ensures gives { Receives (gave self.old) (gave self.new) into.new result }
        ensures kept { sent self.new ≡ sent self.old }
        ensures faults { faults self.new ≡ risen_if (has_failed result) (faults self.old) }
        ensures stalls { stalls self.new ≡ risen_if (has_stalled result) (stalls self.old) }
        ensures packets { packets self.new ≡ risen_if (has_packet result) (packets self.old) };

    /// Sends the bytes as one packet, or none of them.
    fn send_to(&mut self, to: Peer, bytes: &[u8]) -> Took
        requires { length bytes.now ≤ longest_packet }
        ensures sends { Sends (sent self.old) (sent self.new) to bytes.now result }
        ensures kept { (gave self.new ≡ gave self.old) × (packets self.new ≡ packets self.old) }
        ensures faults { faults self.new ≡ risen_if (send_failed result) (faults self.old) }
        ensures stalls { stalls self.new ≡ risen_if (send_stalled result) (stalls self.old) };
}
