// Any of the sockets.
ghost use Rattle.socket_kinds.specs.Kinds.{SameSort, told_by};

use crate::datagram::DatagramSocket;
use crate::door::SocketDoor;
use crate::socket::Socket;
use crate::stream::StreamSocket;
use port_trait::{Got, Hint, Settled, Shutting, Took};
use relay_model::Shut;

/// A connection, a partner of datagrams or a door. Over any sockets of these sorts it tells what they tell.
#[derive(Drop)]
pub enum AnySocket<S = StreamSocket, D = DatagramSocket, L = SocketDoor> {
    Stream(S),
    Datagrams(D),
    Door(L),
}

impl AnySocket {
    /// Whether this is a door whose last accepting left off since no descriptor was free.
    pub fn is_starved(&self) -> bool {
        match self {
            AnySocket::Door(door) => door.starved,
            AnySocket::Stream(_) | AnySocket::Datagrams(_) => false,
        }
    }

    /// The port at which a door listens, as the system chose it. `None` where it has none.
    pub fn local_port(&self) -> Option<u16> {
        match self {
            AnySocket::Door(door) => door.local_port(),
            AnySocket::Stream(_) | AnySocket::Datagrams(_) => None,
        }
    }
}

impl<S: Socket, D: Socket, L: Socket> Socket for AnySocket<S, D, L> {
    ghost gave = { told_by S.gave D.gave L.gave };

    ghost took = { told_by S.took D.took L.took };

    ghost shuts = { told_by S.shuts D.shuts L.shuts };

    ghost hints = { told_by S.hints D.hints L.hints };

    ghost answers_settle = { λ old new settled. SameSort (λ before now. S.answers_settle before now settled)
        (λ before now. D.answers_settle before now settled) (λ before now. L.answers_settle before now settled) old new };

    ghost answers_receive = { λ old new into got. SameSort (λ before now. S.answers_receive before now into got)
        (λ before now. D.answers_receive before now into got) (λ before now. L.answers_receive before now into got) old new };

    ghost answers_transmit = { λ old new bytes took. SameSort (λ before now. S.answers_transmit before now bytes took)
        (λ before now. D.answers_transmit before now bytes took) (λ before now. L.answers_transmit before now bytes took) old new };

    ghost answers_packet = { λ old new bytes took. SameSort (λ before now. S.answers_packet before now bytes took)
        (λ before now. D.answers_packet before now bytes took) (λ before now. L.answers_packet before now bytes took) old new };

    ghost answers_finish = { λ old new how shutting. SameSort (λ before now. S.answers_finish before now how shutting)
        (λ before now. D.answers_finish before now how shutting) (λ before now. L.answers_finish before now how shutting) old new };

    fn settle(&mut self) -> Settled {
        match self {
            AnySocket::Stream(socket) => socket.settle(),
            AnySocket::Datagrams(socket) => socket.settle(),
            AnySocket::Door(door) => door.settle(),
        }
    }

    fn receive(&mut self, into: &mut [u8]) -> Got {
        match self {
            AnySocket::Stream(socket) => socket.receive(into),
            AnySocket::Datagrams(socket) => socket.receive(into),
            AnySocket::Door(door) => door.receive(into),
        }
    }

    fn transmit(&mut self, bytes: &[u8]) -> Took {
        match self {
            AnySocket::Stream(socket) => socket.transmit(bytes),
            AnySocket::Datagrams(socket) => socket.transmit(bytes),
            AnySocket::Door(door) => door.transmit(bytes),
        }
    }

    fn transmit_packet(&mut self, bytes: &[u8]) -> Took {
        match self {
            AnySocket::Stream(socket) => socket.transmit_packet(bytes),
            AnySocket::Datagrams(socket) => socket.transmit_packet(bytes),
            AnySocket::Door(door) => door.transmit_packet(bytes),
        }
    }

    fn finish(&mut self, how: Shut) -> Shutting {
        match self {
            AnySocket::Stream(socket) => socket.finish(how),
            AnySocket::Datagrams(socket) => socket.finish(how),
            AnySocket::Door(door) => door.finish(how),
        }
    }

    fn hint(&self) -> Hint {
        match self {
            AnySocket::Stream(socket) => socket.hint(),
            AnySocket::Datagrams(socket) => socket.hint(),
            AnySocket::Door(door) => door.hint(),
        }
    }
}
