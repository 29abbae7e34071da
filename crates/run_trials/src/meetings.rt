// How two ends meet: one listens, the other connects.
use crate::ends::Pair;
use crate::talks::say;
use crate::waits::{MOST, Waits};
use case_rows::CaseFault;
use port_trait::{Begun, MadePeer, Maker, Making, Poller, Port, Settled};
use relay_model::{Part, Place, Side, Single};

/// The place of the end that connects.
const CALLER: Place = Place {
    session: 0,
    side: Side::Right,
    part: Part::Both,
    door: false,
};

/// The ends.
#[derive(Drop)]
pub(crate) struct MeetingEnds<Q: Drop> {
    pub(crate) peer: Q,
    pub(crate) caller: Q,
}

/// The ends, after the caller's first word: a door of datagrams lets a peer in by that.
pub(crate) fn meet<M: Maker, P: Poller>(
    maker: &mut M,
    waits: &mut Waits<P>,
    pair: &Pair,
) -> Result<Option<MeetingEnds<M::Made>>, CaseFault> {
    let Some(mut door) = listen(maker, &pair.listening) else {
        return Ok(None);
    };
    let Some(mut caller) = connect(maker, &pair.connecting) else {
        return Ok(None);
    };
    if !is_ready(&mut caller, waits)? || !say(&mut caller, waits, b"ping")? {
        return Ok(None);
    }
    let peer = accept(maker, waits, &mut door)?;
    Ok(peer.map(|peer| MeetingEnds { peer, caller }))
}

/// The door of this address.
fn listen<M: Maker>(maker: &mut M, single: &Single) -> Option<M::Made> {
    match maker.listen(0, single) {
        Making::Made(door) => begin(door),
        Making::Later(_) | Making::Failed | Making::Memory => None,
    }
}

/// The end that connects.
fn connect<M: Maker>(maker: &mut M, single: &Single) -> Option<M::Made> {
    match maker.make(1, CALLER, single, None) {
        Making::Made(port) | Making::Later(port) => begin(port),
        Making::Failed | Making::Memory => None,
    }
}

/// Whether the port is ready after a while.
fn is_ready<Q: Port, P: Poller>(port: &mut Q, waits: &mut Waits<P>) -> Result<bool, CaseFault> {
    for _ in 0..MOST {
        match port.settle() {
            Settled::Ready => return Ok(true),
            Settled::NotYet => waits.rest()?,
            Settled::Failed => return Ok(false),
        }
    }
    Ok(false)
}

/// The peer that comes at the door.
fn accept<M: Maker, P: Poller>(
    maker: &mut M,
    waits: &mut Waits<P>,
    door: &mut M::Made,
) -> Result<Option<M::Made>, CaseFault> {
    for _ in 0..MOST {
        match maker.accept(door, 2) {
            MadePeer::Came(port, _) => return Ok(begin(port)),
            MadePeer::NoPeer => waits.rest()?,
            MadePeer::Failed | MadePeer::Memory => return Ok(None),
        }
    }
    Ok(None)
}

/// The port once it has begun.
fn begin<Q: Port>(port: Q) -> Option<Q> {
    let mut port = port;
    match port.begin() {
        Begun::Begun => Some(port),
        Begun::Failed | Begun::Memory => None,
    }
}
