// A port beside what its maker knows of its readiness.
ghost use Rattle.std.specs.Prelude.{◌≡◌, ◌≢◌};
ghost use Rattle.port_trait.specs.{IsWithin, Hint as HintSeen, making_failed, making_stalled, IsAtOnce};
ghost use Rattle.port_trait.specs.declared.makers.MadePeer.TheVariants as peers;
ghost use Rattle.socket_kinds.specs.{OnPort};
ghost use Rattle.relay_model.specs.{Target};
ghost use Rattle.real_maker.specs.Gates.{gate_halves};
ghost use Rattle.real_maker.specs.Kinds.{IsOpenedFor};
ghost use Rattle.real_maker.specs.Made.{lacking_of, is_shared, seen_at};

use crate::ports::RealPort;
use mio::Registry;
use port_trait::{
    Begun, Got, Hint, Joining, MadePeer, Making, Port, PortReap, Settled, Shutting, Took,
};
use relay_model::Shut;
use socket_maker::{can_have, is_starved};
use std::alloc::Global;
use std::marker::Model;
use std::rc::Rc;

/// What a door knows of its maker's descriptors.
#[derive(Drop)]
pub struct DoorGate {
    alloc: Global,
    registry: Rc<Registry, Global>,
    // whether descriptors are kept for each of its peers
    shared: bool,
    // how many the last accepting lacked; 0 where it had all
    lacking: usize,
}

impl Model for DoorGate {
    ghost use Rattle.real_maker.specs.Gates.{GateState};

    ghost Value = { GateState };

    ghost view = { λ gate. record { shared = gate.shared; lacking = gate.lacking } };
}

impl DoorGate {
    /// Of a door that lacks nothing. By the registry it tries whether descriptors can be had.
    pub(crate) fn new(alloc: Global, registry: Rc<Registry, Global>, shared: bool) -> DoorGate
        ensures { result ≡ record { shared = shared; lacking = 0 } }
    {
        DoorGate {
            alloc,
            registry,
            shared,
            lacking: 0,
        }
    }

    /// What it hints where the port beneath hints this.
    fn hint(&self, port: Hint) -> Hint
        ensures none { self.now.lacking ≡ 0 → result ≡ port }
        ensures within { (halves : HintSeen) → IsWithin halves port → IsWithin (gate_halves self.now.lacking halves) result }
    {
        if self.lacking == 0 {
            return port;
        }
        Hint {
            readable: can_have(self.alloc, &self.registry, self.lacking),
            writable: false,
        }
    }
}

/// Where a port's hints come from.
#[derive(Drop)]
pub enum Hints {
    /// The port alone.
    Own,
    /// It may always be ready, since no poller reports it.
    Always,
    /// The port, while its door lacks no descriptors.
    Gate(DoorGate),
}

/// A port as a maker hands it out. Each call but the hints is that call on the port. A door whose last accepting lacked
/// descriptors hints that a peer may be taken once they can be had.
#[derive(Drop)]
pub struct MadePort {
    pub(crate) port: RealPort,
    pub(crate) hints: Hints,
    // what it gives up for its connection, where that is made only once a name has been looked up
    pub(crate) spare: Option<Registry>,
}

impl MadePort {
    /// The made port of a peer.
    pub(crate) fn of_peer(port: RealPort) -> MadePort
        ensures { result.port ≡ port }
    {
        MadePort {
            port,
            hints: Hints::Own,
            spare: None,
        }
    }

    /// The made port of a door.
    pub(crate) fn door(port: RealPort, gate: DoorGate) -> MadePort
        ensures port { result.port ≡ port }
        ensures shared { is_shared result.hints ≡ gate.shared }
    {
        MadePort {
            port,
            hints: Hints::Gate(gate),
            spare: None,
        }
    }

    /// Whether descriptors are kept for each peer that comes here.
    pub(crate) fn is_shared(&self) -> bool
        ensures { result ≡ is_shared self.now.hints }
    {
        match &self.hints {
            Hints::Gate(gate) => gate.shared,
            Hints::Own | Hints::Always => false,
        }
    }

    /// Remembers how many descriptors an accepting lacked.
    pub(crate) fn lack(&mut self, lacking: usize)
        ensures port { self.new.port ≡ self.old.port }
        ensures shared { is_shared self.new.hints ≡ is_shared self.old.hints }
        ensures none { lacking ≡ 0 → lacking_of self.new.hints ≡ 0 }
    {
        if let Hints::Gate(gate) = &mut self.hints {
            gate.lacking = lacking;
        }
    }

    /// Remembers whether the accepting that came to this lacked a descriptor by itself.
    pub(crate) fn remember(&mut self, peer: &MadePeer<RealPort>)
        ensures port { self.new.port ≡ self.old.port }
        ensures shared { is_shared self.new.hints ≡ is_shared self.old.hints }
        ensures lacking { peer.now ≢ peers.NoPeer → lacking_of self.new.hints ≡ 0 }
    {
        match peer {
            MadePeer::NoPeer if self.is_starved() => self.lack(1),
            _ => self.lack(0),
        }
    }

    /// Whether the last accepting here met the limit.
    fn is_starved(&self) -> bool {
        match &self.port {
            RealPort::Socket(door) => is_starved(door),
            _ => false,
        }
    }
}

/// The made port of this one.
pub(crate) fn made_port(
    making: Making<RealPort>,
    hints: Hints,
    spare: Option<Registry>,
) -> Making<MadePort>
    ensures failed { making_failed result ≡ making_failed making }
    ensures stalled { making_stalled result ≡ making_stalled making }
    ensures at_once { IsAtOnce making → IsAtOnce result }
    ensures opened { (target : Target) → OnPort (IsOpenedFor target) making → OnPort (λ made. IsOpenedFor target made.port) result }
    ensures hints { OnPort (λ made. made.hints ≡ hints) result }
{
    match making {
        Making::Made(port) => Making::Made(MadePort {
            port,
            hints,
            spare: None,
        }),
        Making::Later(port) => Making::Later(MadePort { port, hints, spare }),
        Making::Failed => Making::Failed,
        Making::Memory => Making::Memory,
    }
}

impl Port for MadePort {
    ghost seen = { λ made. seen_at made.hints (⟦<RealPort as Port>⟧.seen made.port) };

    fn begin(&mut self) -> Begun {
        self.port.begin()
    }

    fn settle(&mut self) -> Settled {
        self.spare = None;
        self.port.settle()
    }

    fn read(&mut self, into: &mut [u8]) -> Got {
        self.port.read(into)
    }

    fn write(&mut self, bytes: &[u8]) -> Took {
        self.port.write(bytes)
    }

    fn send(&mut self, bytes: &[u8]) -> Took {
        self.port.send(bytes)
    }

    fn put_all(&mut self, bytes: &[u8]) -> Took {
        self.port.put_all(bytes)
    }

    fn shut(&mut self, how: Shut) -> Shutting {
        self.port.shut(how)
    }

    fn hint(&mut self) -> Hint {
        let hint = self.port.hint();
        match &self.hints {
            Hints::Own => hint,
            Hints::Always => Hint::all(),
            Hints::Gate(gate) => gate.hint(hint),
        }
    }

    fn may_hint(&self) -> Hint {
        match &self.hints {
            Hints::Own => self.port.may_hint(),
            Hints::Always => Hint::all(),
            Hints::Gate(gate) => {
                if gate.lacking == 0 {
                    return self.port.may_hint();
                }
                Hint {
                    readable: true,
                    writable: false,
                }
            }
        }
    }

    fn has_child(&self) -> bool {
        self.port.has_child()
    }

    fn reap(&mut self) -> PortReap {
        self.port.reap()
    }

    fn join(&mut self) -> Joining {
        self.port.join()
    }
}
