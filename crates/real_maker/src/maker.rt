// The maker of every address that isn't a standard stream.
ghost use Rattle.std.specs.Prelude.{◌≡◌, ◌≢◌, ◌<◌, ◌+◌, true, false, None, Some, IfSome, IfOk, is_some};
ghost use Rattle.relay_model.specs.{Single, Target, listens};
ghost use Rattle.port_trait.specs.{making_failed, making_stalled, IsAtOnce, Opens, Listens, LetsIn, MovesNothing};
ghost use Rattle.port_trait.specs.declared.makers.Making.TheVariants as makings;
ghost use Rattle.port_trait.specs.declared.makers.MadePeer.TheVariants as peers;
ghost use Rattle.relay_model.specs.declared.acts.Peer.TheVariants as whose;
ghost use Rattle.socket_kinds.specs.{OnBoth, OnPort, OnPeer, OnCame, Listening};
ghost use Rattle.socket_maker.specs.{opened_sort, HasPartnerAt, is_door_port, is_unix_door_port, port_sort, HostPort};
ghost use Rattle.socket_ports.specs.{PeerState, fresh_peer_port};
ghost use Rattle.file_ports.specs.{OnMade};
ghost use Rattle.mio_poller.specs.{is_reserved};
ghost use Rattle.real_maker.specs.Made.{lacking_of, is_shared};
ghost use Rattle.real_maker.specs.Makers.{seen_of, IsFreshMaker, SameBooks};
ghost use Rattle.real_maker.specs.Asking.{Asks};
ghost use Rattle.real_maker.specs.Kinds.{IsOpenedFor, IsDoorFor, ComesAt, IsOfPeer, is_local_door, gathers_senders};
ghost use Rattle.real_maker.specs.declared.ports.RealPort.TheVariants as ports;

use crate::kinds::{MakerKind, kind_of};
use crate::made::{DoorGate, Hints, MadePort, made_port};
use crate::opening::{OfSocket, make_echo};
use crate::ports::RealPort;
use crate::proxied::{Through, through_proxy, through_socks};
use child_ports::{UnreapedChildren, make_child};
use file_ports::{PipeOpenings, make_file};
use mio::{Poll, Registry};
use mio_poller::{MioPoller, is_reserved};
use port_trait::{MadePeer, Maker, Making, Port};
use relay_model::{NoMemory, Part, Peer, Place, Single, Target};
use socket_maker::{MakerTally, Reserve, SocketMaker, bind_door, door_address};
use socket_ports::{Gathering, PeerPoller, PeerPort};
use std::alloc::Global;
use std::fs::Files;
use std::marker::Model;
use std::net::Net;
use std::process::SystemProcess;
use std::rc::Rc;
use std::rt::HostRuntime;
use std::thread::Threads;
use std::time::Clock;

/// Makes echo pipes, sockets, files, programs and connections through proxies, which a poller reports.
#[derive(Drop)]
pub struct RealMaker<R> {
    rt: R,
    system: HostRuntime,
    alloc: Global,
    registry: Rc<Registry, Global>,
    gathering: Gathering,
    // none where no poller reports what is made
    sockets: Option<SocketMaker<R>>,
    reserve: Reserve,
    unreaped: UnreapedChildren<SystemProcess>,
    openings: PipeOpenings,
    tally: MakerTally,
}

impl<R> Model for RealMaker<R> {
    ghost use Rattle.real_maker.specs.Makers.{RealMakerState};

    ghost Value = { RealMakerState };

    ghost view = { λ maker. record { faults = maker.tally.faults; stalls = maker.tally.stalls; came = maker.tally.came; reserve = maker.reserve } };
}

impl<R> RealMaker<R>
where
    R: Files + Net + Clock + Threads + Copy + Drop,
{
    /// Its ports are registered with this poller. Files and programs are the system's: only a known runtime may go to a
    /// thread that opens a file or looks a name up. Never `Later`.
    pub fn on(
        rt: R,
        system: HostRuntime,
        alloc: Global,
        poller: &PeerPoller<MioPoller<R>>,
    ) -> Making<RealMaker<R>>
        ensures at_once { IsAtOnce result }
        ensures fresh { OnMade result IsFreshMaker }
    {
        let beneath = poller.beneath();
        let Ok(gathering) = poller.gathering() else {
            return Making::Memory;
        };
        let sockets = match SocketMaker::on(rt, system, alloc, beneath) {
            Making::Made(sockets) => sockets,
            Making::Later(_) | Making::Failed => return Making::Failed,
            Making::Memory => return Making::Memory,
        };
        RealMaker::of(
            rt,
            system,
            alloc,
            beneath.registry(),
            gathering,
            Some(sockets),
        )
    }

    /// No poller reports its ports: sockets answer `Failed`, which is counted, and files and programs may always be ready.
    /// Never `Later`.
    pub fn new(rt: R, system: HostRuntime, alloc: Global) -> Making<RealMaker<R>>
        ensures at_once { IsAtOnce result }
        ensures fresh { OnMade result IsFreshMaker }
    {
        let Ok(gathering) = Gathering::new(alloc) else {
            return Making::Memory;
        };
        match Poll::new(&rt) {
            Ok(unheard) => { RealMaker::of(rt, system, alloc, unheard.registry(), gathering, None) }
            Err(_) => Making::Failed,
        }
    }

    /// Its ports are registered here.
    fn of(
        rt: R,
        system: HostRuntime,
        alloc: Global,
        registry: &Registry,
        gathering: Gathering,
        sockets: Option<SocketMaker<R>>,
    ) -> Making<RealMaker<R>>
        ensures at_once { IsAtOnce result }
        ensures fresh { OnMade result IsFreshMaker }
    {
        let Ok(registry) = registry.try_clone() else {
            return Making::Failed;
        };
        let openings = match PipeOpenings::new(alloc, &registry) {
            Making::Made(openings) => openings,
            Making::Later(_) | Making::Failed => return Making::Failed,
            Making::Memory => return Making::Memory,
        };
        match RealMaker::with(rt, system, alloc, registry, gathering, openings, sockets) {
            Ok(maker) => Making::Made(maker),
            Err(NoMemory) => Making::Memory,
        }
    }

    fn with(
        rt: R,
        system: HostRuntime,
        alloc: Global,
        registry: Registry,
        gathering: Gathering,
        openings: PipeOpenings,
        sockets: Option<SocketMaker<R>>,
    ) -> Result<RealMaker<R>, NoMemory>
        ensures { IfOk result IsFreshMaker }
    {
        let unreaped = UnreapedChildren::new(alloc)?;
        let registry = Rc::new(alloc, registry)?;
        let reserve = Reserve::of(alloc, registry.clone()?);
        Ok(RealMaker {
            rt,
            system,
            alloc,
            registry,
            gathering,
            sockets,
            reserve,
            unreaped,
            openings,
            tally: MakerTally::new(),
        })
    }

    /// Opens the address, without counting. Where that fails for want of descriptors, those in reserve are given up, and it
    /// is tried once more.
    fn open(
        &mut self,
        key: usize,
        place: Place,
        single: &Single,
        behind: Option<Peer>,
    ) -> Making<RealPort>
        ensures same { SameBooks self.old self.new }
        ensures kind { OnPort (IsOpenedFor single.now.target) result }
    {
        match self.open_once(key, place, single, behind) {
            Making::Failed if self.reserve.gives_up() => {
                self.open_once(key, place, single, behind)
            }
            making => making,
        }
    }

    /// Opens the address, without counting. Programs that are left are asked for their ends first.
    fn open_once(
        &mut self,
        key: usize,
        place: Place,
        single: &Single,
        behind: Option<Peer>,
    ) -> Making<RealPort>
        ensures same { self.new ≡ self.old }
        ensures kind { OnPort (IsOpenedFor single.now.target) result }
    {
        self.unreaped.ask_all();
        match kind_of(&self.system, single) {
            MakerKind::Echo => make_echo(self.alloc),
            MakerKind::Socket => self.open_socket(key, place, single),
            MakerKind::File => self.open_file(key, place.part, single),
            MakerKind::Child => self.start_program(key, place.part, single, behind),
            MakerKind::Proxied => self.connect_through(key, single),
            MakerKind::Other => Making::Failed,
        }
    }

    fn open_socket(&mut self, key: usize, place: Place, single: &Single) -> Making<RealPort>
        ensures same { self.new ≡ self.old }
        ensures kind { OnPort (IsOpenedFor single.now.target) result }
    {
        let Some(sockets) = &mut self.sockets else {
            return Making::Failed;
        };
        of_socket(sockets.make(key, place, single, None))
    }

    fn open_file(&mut self, key: usize, part: Part, single: &Single) -> Making<RealPort>
        ensures same { self.new ≡ self.old }
        ensures kind { OnPort (IsOpenedFor single.now.target) result }
    {
        let (system, alloc) = (self.system, self.alloc);
        let openings = &mut self.openings;
        match make_file(&self.rt, system, alloc, openings, key, single, part) {
            Making::Made(port) => Making::Made(RealPort::File(port)),
            Making::Later(_) | Making::Failed => Making::Failed,
            Making::Memory => Making::Memory,
        }
    }

    fn start_program(
        &self,
        key: usize,
        part: Part,
        single: &Single,
        behind: Option<Peer>,
    ) -> Making<RealPort>
        ensures { OnPort (IsOpenedFor single.now.target) result }
    {
        let (registry, unreaped) = (&self.registry, &self.unreaped);
        let target = &single.target;
        let mut system = self.system;
        match make_child(
            &mut system,
            self.alloc,
            registry,
            key,
            unreaped,
            target,
            part,
            behind,
        ) {
            Making::Made(port) => Making::Made(RealPort::Child(port)),
            Making::Later(_) | Making::Failed => Making::Failed,
            Making::Memory => Making::Memory,
        }
    }

    fn connect_through(&mut self, key: usize, single: &Single) -> Making<RealPort>
        ensures same { self.new ≡ self.old }
        ensures kind { OnPort (IsOpenedFor single.now.target) result }
        ensures asks { OnPort (Asks single.now.target single.now.options) result }
    {
        let (alloc, options) = (self.alloc, &single.options);
        let Some(sockets) = &mut self.sockets else {
            return Making::Failed;
        };
        match &single.target {
            Target::Socks {
                named,
                server,
                host,
                port,
            } => {
                let through = Through {
                    server,
                    host,
                    port: *port,
                };
                through_socks(alloc, sockets, key, *named, through, options)
            }
            Target::Proxy { server, host, port } => {
                let through = Through {
                    server,
                    host,
                    port: *port,
                };
                through_proxy(alloc, sockets, key, through, options)
            }
            _ => Making::Failed,
        }
    }

    /// Listens at the address, without counting. A door of datagrams with `fork` shares its socket with its peers.
    fn open_door(&mut self, key: usize, single: &Single) -> Making<RealPort>
        ensures at_once { IsAtOnce result }
        ensures same { self.new ≡ self.old }
        ensures kind { OnPort (IsDoorFor single.now) result }
    {
        let Some(sockets) = &mut self.sockets else {
            return Making::Failed;
        };
        if gathers(single) {
            self.gather(key, single)
        } else {
            of_socket(sockets.listen(key, single))
        }
    }

    /// The door of datagrams of this address.
    fn gather(&self, key: usize, single: &Single) -> Making<RealPort>
        ensures at_once { IsAtOnce result }
        ensures kind { gathers_senders single.now ≡ true → OnPort (IsDoorFor single.now) result }
    {
        let Some(at) = door_address(single) else {
            return Making::Failed;
        };
        let Some(socket) = bind_door(&self.rt, single, at) else {
            return Making::Failed;
        };
        match PeerPort::door(self.alloc, &self.registry, &self.gathering, key, socket) {
            Making::Made(port) => Making::Made(RealPort::Peer(port)),
            Making::Later(_) | Making::Failed => Making::Failed,
            Making::Memory => Making::Memory,
        }
    }

    /// Takes a peer at the door, without counting. A door whose peers have sessions takes one only while all descriptors
    /// that are kept for a peer are held, but one that is left to its connection.
    fn take_peer(&mut self, door: &mut MadePort, key: usize) -> MadePeer<RealPort>
        ensures same { SameBooks self.old self.new }
        ensures kind { OnPeer (ComesAt door.old.port) result }
        ensures addressed { is_local_door door.old.port ≡ false → OnCame (λ peer. peer ≢ whose.Local) result }
        ensures partner { OnBoth IsOfPeer result }
        ensures unreserved { OnPeer (λ _. is_reserved key ≡ false) result }
        ensures door { MovesNothing (⟦<RealPort as Port>⟧.seen door.old.port) (⟦<RealPort as Port>⟧.seen door.new.port) }
        ensures kept { result ≢ peers.NoPeer → is_shared door.old.hints ≡ true → self.new.reserve.held + 1 ≡ self.new.reserve.wanted }
        ensures lacking { 0 < lacking_of door.new.hints → result ≡ peers.NoPeer }
    {
        if !self.admits(door) {
            return MadePeer::NoPeer;
        }
        let peer = self.accept_at(&mut door.port, key);
        door.remember(&peer);
        peer
    }

    /// Whether all descriptors that are kept for a peer are held but one, where the door is shared.
    fn admits(&mut self, door: &mut MadePort) -> bool
        ensures same { SameBooks self.old self.new }
        ensures port { door.new.port ≡ door.old.port }
        ensures shared { is_shared door.new.hints ≡ is_shared door.old.hints }
        ensures kept { result ≡ true → is_shared door.old.hints ≡ true → self.new.reserve.held + 1 ≡ self.new.reserve.wanted }
    {
        if !door.is_shared() {
            return true;
        }
        let lacking = self.reserve.admit();
        if lacking > 0 {
            door.lack(lacking);
            return false;
        }
        true
    }

    /// Accepts at the door of a socket. No port gets a key that is reserved.
    fn accept_at(&mut self, door: &mut RealPort, key: usize) -> MadePeer<RealPort>
        ensures same { self.new ≡ self.old }
        ensures kind { OnPeer (ComesAt door.old) result }
        ensures addressed { is_local_door door.old ≡ false → OnCame (λ peer. peer ≢ whose.Local) result }
        ensures partner { OnBoth IsOfPeer result }
        ensures unreserved { OnPeer (λ _. is_reserved key ≡ false) result }
        ensures door { MovesNothing (⟦<RealPort as Port>⟧.seen door.old) (⟦<RealPort as Port>⟧.seen door.new) }
    {
        match door {
            _ if is_reserved(key) => MadePeer::Failed,
            RealPort::Socket(socket) => peer_of(self.accept_socket(socket, key)),
            RealPort::Peer(door) => real_peer(door.accept(key)),
            _ => MadePeer::Failed,
        }
    }

    fn accept_socket(&mut self, socket: &mut OfSocket, key: usize) -> MadePeer<OfSocket>
        ensures same { self.new ≡ self.old }
        ensures no_door { is_door_port socket.old ≡ false → result ≡ peers.Failed }
        ensures addressed { is_unix_door_port socket.old ≡ false → OnCame (λ peer. peer ≢ whose.Local) result }
        ensures partner { OnBoth HasPartnerAt result }
        ensures sort { OnPeer (λ port. is_door_port port ≡ false) result }
        ensures door { MovesNothing (⟦<OfSocket as Port>⟧.seen socket.old) (⟦<OfSocket as Port>⟧.seen socket.new) }
    {
        let Some(sockets) = &mut self.sockets else {
            return MadePeer::Failed;
        };
        sockets.accept(socket, key)
    }

    /// The made port of what was opened. One that is under way gets a descriptor of those in reserve.
    fn made_opening(&mut self, making: Making<RealPort>) -> Making<MadePort>
        ensures same { SameBooks self.old self.new }
        ensures failed { making_failed result ≡ making_failed making }
        ensures stalled { making_stalled result ≡ making_stalled making }
        ensures opened { (target : Target) → OnPort (IsOpenedFor target) making → OnPort (λ made. IsOpenedFor target made.port) result }
    {
        let spare = self.spare_for(&making);
        made_port(making, self.opened_hints(), spare)
    }

    /// A descriptor for what is under way, of those in reserve.
    fn spare_for(&mut self, making: &Making<RealPort>) -> Option<Registry>
        ensures same { SameBooks self.old self.new }
    {
        match making {
            Making::Later(_) => self.reserve.give_one(),
            Making::Made(_) | Making::Failed | Making::Memory => None,
        }
    }

    /// Where the hints of what is opened come from.
    fn opened_hints(&self) -> Hints {
        match &self.sockets {
            Some(_) => Hints::Own,
            None => Hints::Always,
        }
    }

    /// The made port of a door.
    fn made_door(&mut self, making: Making<RealPort>, shared: bool) -> Making<MadePort>
        ensures same { SameBooks self.old self.new }
        ensures failed { making_failed result ≡ making_failed making }
        ensures at_once { IsAtOnce result }
        ensures door { (single : Single) → OnPort (IsDoorFor single) making → OnPort (λ made. IsDoorFor single made.port) result }
        ensures shared { OnPort (λ made. is_shared made.hints ≡ shared) result }
    {
        match making {
            Making::Made(port) => self.door_of(port, shared),
            Making::Later(port) => self.door_of(port, shared),
            Making::Failed => Making::Failed,
            Making::Memory => Making::Memory,
        }
    }

    /// The door of this port. From now on no more descriptors are kept for each of its peers than can be had now.
    fn door_of(&mut self, port: RealPort, shared: bool) -> Making<MadePort>
        ensures same { SameBooks self.old self.new }
        ensures failed { making_failed result ≡ false }
        ensures at_once { IsAtOnce result }
        ensures door { (single : Single) → IsDoorFor single port → OnPort (λ made. IsDoorFor single made.port) result }
        ensures shared { OnPort (λ made. is_shared made.hints ≡ shared) result }
    {
        let Ok(registry) = self.registry.clone() else {
            return Making::Memory;
        };
        if shared {
            self.reserve.fit();
        }
        Making::Made(MadePort::door(port, DoorGate::new(self.alloc, registry, shared)))
    }
}

/// Whether its door takes datagrams, each of whose senders has a session.
fn gathers(single: &Single) -> bool
    ensures { result ≡ gathers_senders single.now }
{
    match &single.target {
        Target::UdpListen { .. } => single.options.sessions.fork,
        _ => false,
    }
}

/// A socket as a port of any kind.
fn of_socket(making: Making<OfSocket>) -> Making<RealPort>
    ensures failed { making_failed result ≡ making_failed making }
    ensures stalled { making_stalled result ≡ making_stalled making }
    ensures opened { (target : Target) → IfSome (port_sort making) (λ sort. opened_sort target ≡ Some sort) → OnPort (IsOpenedFor target) result }
    ensures door { (single : Single) → gathers_senders single ≡ false
        → (listens single.target ≡ false → making ≡ makings.Failed) → IfSome (port_sort making) (λ sort. sort ≡ Listening)
        → OnPort (IsDoorFor single) result }
{
    match making {
        Making::Made(port) => Making::Made(RealPort::Socket(port)),
        Making::Later(port) => Making::Later(RealPort::Socket(port)),
        Making::Failed => Making::Failed,
        Making::Memory => Making::Memory,
    }
}

/// A peer's socket as a port of any kind.
fn peer_of(peer: MadePeer<OfSocket>) -> MadePeer<RealPort>
    ensures addressed { OnCame (λ who. who ≢ whose.Local) peer → OnCame (λ who. who ≢ whose.Local) result }
    ensures partner { OnBoth HasPartnerAt peer → OnBoth IsOfPeer result }
    ensures kind { (door : HostPort) → (is_door_port door ≡ false → peer ≡ peers.Failed)
        → OnPeer (λ port. is_door_port port ≡ false) peer → OnPeer (ComesAt (ports.Socket door)) result }
{
    match peer {
        MadePeer::Came(port, peer) => MadePeer::Came(RealPort::Socket(port), peer),
        MadePeer::NoPeer => MadePeer::NoPeer,
        MadePeer::Failed => MadePeer::Failed,
        MadePeer::Memory => MadePeer::Memory,
    }
}

/// A peer of a shared socket as a port of any kind.
fn real_peer(peer: MadePeer<PeerPort>) -> MadePeer<RealPort>
    ensures addressed { OnCame (λ who. who ≢ whose.Local) peer → OnCame (λ who. who ≢ whose.Local) result }
    ensures partner { OnBoth (λ port who. port ≡ fresh_peer_port (Some who)) peer → OnBoth IsOfPeer result }
    ensures kind { (door : PeerState) → OnPeer (ComesAt (ports.Peer door)) result }
{
    match peer {
        MadePeer::Came(port, peer) => MadePeer::Came(RealPort::Peer(port), peer),
        MadePeer::NoPeer => MadePeer::NoPeer,
        MadePeer::Failed => MadePeer::Failed,
        MadePeer::Memory => MadePeer::Memory,
    }
}

impl<R> Maker for RealMaker<R>
where
    R: Files + Net + Clock + Threads + Copy + Drop,
{
    type Made = MadePort;

    ghost seen = { seen_of };

    fn make(
        &mut self,
        key: usize,
        place: Place,
        single: &Single,
        behind: Option<Peer>,
    ) -> Making<MadePort>
        ensures kind { OnPort (λ made. IsOpenedFor single.now.target made.port) result }
        ensures unreserved { OnPort (λ _. is_reserved key ≡ false) result }
        ensures opens { Opens (seen_of self.old) (seen_of self.new) (record { place = place; single = single.now; behind = behind }) result }
    {
        if is_reserved(key) {
            self.tally.count_fault();
            return Making::Failed;
        }
        let opened = self.open(key, place, single, behind);
        let making = self.made_opening(opened);
        self.tally.count_making(&making);
        making
    }

    fn listen(&mut self, key: usize, single: &Single) -> Making<MadePort>
        ensures kind { OnPort (λ made. IsDoorFor single.now made.port) result }
        ensures shared { OnPort (λ made. is_shared made.hints ≡ single.now.options.sessions.fork) result }
        ensures unreserved { OnPort (λ _. is_reserved key ≡ false) result }
        ensures listens { Listens (seen_of self.old) (seen_of self.new) result }
    {
        if is_reserved(key) {
            self.tally.count_fault();
            return Making::Failed;
        }
        let opened = self.open_door(key, single);
        let making = self.made_door(opened, single.options.sessions.fork);
        self.tally.count_making(&making);
        making
    }

    fn accept(&mut self, door: &mut MadePort, key: usize) -> MadePeer<MadePort>
        ensures kind { OnPeer (λ made. ComesAt door.old.port made.port) result }
        ensures addressed { is_local_door door.old.port ≡ false → OnCame (λ peer. peer ≢ whose.Local) result }
        ensures partner { OnBoth (λ made peer. IsOfPeer made.port peer) result }
        ensures unreserved { OnPeer (λ _. is_reserved key ≡ false) result }
        ensures kept { result ≢ peers.NoPeer → is_shared door.old.hints ≡ true → self.new.reserve.held + 1 ≡ self.new.reserve.wanted }
        ensures lacking { 0 < lacking_of door.new.hints → result ≡ peers.NoPeer }
        ensures lets_in { let at = ⟦<MadePort as Port>⟧.seen in
            LetsIn (seen_of self.old) (seen_of self.new) (at door.old) (at door.new) result }
    {
        let peer = self.take_peer(door, key);
        self.tally.count_peer(&peer);
        match peer {
            MadePeer::Came(port, peer) => MadePeer::Came(MadePort::of_peer(port), peer),
            MadePeer::NoPeer => MadePeer::NoPeer,
            MadePeer::Failed => MadePeer::Failed,
            MadePeer::Memory => MadePeer::Memory,
        }
    }
}
