// The maker of sockets, which counts what it answers.
ghost use Rattle.std.specs.Prelude.{◌≡◌, ◌≢◌, true, false, None, Some, IfSome, is_some};
ghost use Rattle.port_trait.specs.{IsAtOnce, Opens, Listens, LetsIn};
ghost use Rattle.port_trait.specs.declared.makers.Making.TheVariants as makings;
ghost use Rattle.socket_maker.specs.Makers.{seen_of};
ghost use Rattle.port_trait.specs.declared.makers.MadePeer.TheVariants as peers;
ghost use Rattle.relay_model.specs.declared.acts.Peer.TheVariants as whose;
ghost use Rattle.socket_kinds.specs.{Listening, OnBoth, OnCame, OnPort, OnPeer};
ghost use Rattle.host_lookup.specs.{IsNameOf, WritesIp};
ghost use Rattle.socket_maker.specs.Aims.{aim_of, host_of, server_aim, way_sort};
ghost use Rattle.socket_maker.specs.Makings.{opened_sort};
ghost use Rattle.socket_maker.specs.Ports.{Aims, HasPartnerAt, IsFreshPort, has_left_off_at, is_door_port, is_unix_door_port, port_sort, sort_at};
ghost use Rattle.relay_model.specs.{listens};

use crate::aims::{Aim, SocketWay, aim_at};
use crate::looking::LookingPort;
use crate::making::{listen_socket, nameless, open_socket};
use crate::port::HostPort;
use crate::reaching::{reach_written, written_address};
use crate::tally::MakerTally;
use crate::unlinking::SystemEntries;
use host_lookup::{HostLookup, Lookups, WrittenHost, written_host};
use mio::Registry;
use mio_poller::MioPoller;
use port_trait::{MadePeer, Maker, Making, Port};
use relay_model::{Family, Peer, Place, Single, SocketOptions, Text};
use std::alloc::Global;
use std::fs::Files;
use std::marker::Model;
use std::net::{IpAddr, Net};
use std::rt::HostRuntime;
use std::sync::Arc;
use std::thread::Threads;
use std::time::Clock;

/// Makes sockets that a poller waits for.
#[derive(Drop)]
pub struct SocketMaker<R> {
    rt: R,
    system: HostRuntime,
    alloc: Global,
    registry: Arc<Registry, Global>,
    lookups: Lookups,
    tally: MakerTally,
}

impl<R> Model for SocketMaker<R> {
    ghost use Rattle.socket_maker.specs.Makers.{SocketMakerState};

    ghost Value = { SocketMakerState };

    ghost view = { λ maker. record { faults = maker.tally.faults; stalls = maker.tally.stalls; came = maker.tally.came } };
}

impl<R> SocketMaker<R>
where
    R: Net + Clock + Files + Threads + Copy + Drop,
{
    /// Its sockets are registered with this poller, which the end of a lookup wakes. Names are looked up by `system`, since
    /// only a known runtime may go to a thread, and what was looked up is opened by it. Never `Later`.
    pub fn on(
        rt: R,
        system: HostRuntime,
        alloc: Global,
        poller: &MioPoller<R>,
    ) -> Making<SocketMaker<R>>
        ensures at_once { IsAtOnce result }
        ensures fresh { OnPort (λ maker. maker ≡ record { faults = 0; stalls = 0; came = None }) result }
    {
        let Ok(registry) = poller.registry().try_clone() else {
            return Making::Failed;
        };
        let wake = match poller.wake() {
            Making::Made(wake) => wake,
            Making::Later(_) | Making::Failed => return Making::Failed,
            Making::Memory => return Making::Memory,
        };
        match Arc::new(alloc, registry) {
            Ok(registry) => Making::Made(SocketMaker {
                rt,
                system,
                alloc,
                registry,
                lookups: Lookups::new(system, alloc, wake),
                tally: MakerTally::new(),
            }),
            Err(_) => Making::Memory,
        }
    }

    /// Connects by TCP to the port of a host, without counting: the server of a proxy.
    pub fn connect(
        &mut self,
        key: usize,
        host: &Text,
        port: u16,
        options: SocketOptions,
    ) -> Making<HostPort>
        ensures same { self.new ≡ self.old }
        ensures fresh { OnPort IsFreshPort result }
        ensures aims { OnPort (Aims (server_aim port options) host.now) result }
    {
        let aim = Aim {
            way: SocketWay::Connection,
            family: Family::Any,
            port,
            options,
        };
        self.open_host(key, host, aim)
    }

    /// Begins to look the name up, or takes part in its lookup that is under way, without counting. It answers `Failed` where
    /// no lookup can be begun; never `Later`.
    pub fn begin_lookup(&mut self, name: &str) -> Making<HostLookup>
        ensures same { self.new ≡ self.old }
        ensures at_once { IsAtOnce result }
        ensures named { OnPort (λ lookup. lookup ≡ name.now) result }
    {
        self.lookups.begin(&self.rt, name)
    }

    /// Opens a socket to the host, without counting. One whose text writes an address in numbers is opened at once; a name
    /// is looked up first, and that is `Later`. It answers `Failed` where the text isn't UTF-8, where the system refuses,
    /// and where no lookup can be begun.
    fn open_host(&mut self, key: usize, host: &Text, aim: Aim) -> Making<HostPort>
        ensures same { self.new ≡ self.old }
        ensures fresh { OnPort IsFreshPort result }
        ensures aims { OnPort (Aims aim host.now) result }
        ensures sort { IfSome (port_sort result) (λ sort. sort ≡ way_sort aim.way) }
    {
        match written_host(host) {
            WrittenHost::Address(ip) => self.open_written(key, host, ip, &aim),
            WrittenHost::Name(name) => self.look_up(key, host, name, aim),
            WrittenHost::Unnamed => Making::Failed,
        }
    }

    fn open_written(&self, key: usize, host: &Text, ip: IpAddr, aim: &Aim) -> Making<HostPort>
        requires { WritesIp host.now ip }
        ensures fresh { OnPort IsFreshPort result }
        ensures aims { OnPort (Aims aim.now host.now) result }
        ensures sort { IfSome (port_sort result) (λ sort. sort ≡ way_sort aim.now.way) }
    {
        let (alloc, registry) = (self.alloc, &self.registry);
        let Some(addr) = written_address(host, ip, aim) else {
            return Making::Failed;
        };
        nameless(reach_written(&self.rt, alloc, registry, key, host, aim, addr))
    }

    fn look_up(&mut self, key: usize, host: &Text, name: &str, aim: Aim) -> Making<HostPort>
        requires { IsNameOf host.now name.now }
        ensures same { self.new ≡ self.old }
        ensures fresh { OnPort IsFreshPort result }
        ensures aims { OnPort (Aims aim host.now) result }
        ensures sort { IfSome (port_sort result) (λ sort. sort ≡ way_sort aim.way) }
    {
        let _named_by = host;
        let Ok(registry) = Arc::try_clone(&self.registry) else {
            return Making::Memory;
        };
        match self.begin_lookup(name) {
            Making::Made(lookup) => {
                let (system, alloc) = (self.system, self.alloc);
                let port = LookingPort::new(system, alloc, registry, key, aim, lookup);
                Making::Later(HostPort::Looking(port))
            }
            Making::Later(_) | Making::Failed => Making::Failed,
            Making::Memory => Making::Memory,
        }
    }

    /// Opens the address, without counting.
    fn open(&mut self, key: usize, single: &Single) -> Making<HostPort>
        ensures same { self.new ≡ self.old }
        ensures fresh { OnPort IsFreshPort result }
        ensures sort { IfSome (port_sort result) (λ sort. opened_sort single.now.target ≡ Some sort) }
        ensures other { opened_sort single.now.target ≡ None → result ≡ makings.Failed }
        ensures aims { IfSome (aim_of single.now.target single.now.options.socket)
            (λ aim. IfSome (host_of single.now.target) (λ host. OnPort (Aims aim host) result)) }
    {
        match aim_at(single) {
            Some((aim, host)) => self.open_host(key, host, aim),
            None => {
                let calls = &mut SystemEntries { files: self.rt };
                open_socket(self.rt, calls, self.alloc, &self.registry, key, single)
            }
        }
    }

    /// Takes a peer at the door, without counting.
    fn take_peer(&self, door: &mut HostPort, key: usize) -> MadePeer<HostPort>
        ensures fresh { OnPeer IsFreshPort result }
        ensures sort { OnPeer (λ port. is_door_port port ≡ false) result }
        ensures no_door { is_door_port door.old ≡ false → result ≡ peers.Failed }
        ensures left_off { has_left_off_at door.new ≡ true → result ≡ peers.NoPeer }
        ensures addressed { is_unix_door_port door.old ≡ false → OnCame (λ peer. peer ≢ whose.Local) result }
        ensures partner { OnBoth HasPartnerAt result }
    {
        let HostPort::Socket(door) = door else {
            return MadePeer::Failed;
        };
        match door.accept(self.alloc, &self.registry, key, None) {
            MadePeer::Came(port, peer) => MadePeer::Came(HostPort::Socket(port), peer),
            MadePeer::NoPeer => MadePeer::NoPeer,
            MadePeer::Failed => MadePeer::Failed,
            MadePeer::Memory => MadePeer::Memory,
        }
    }
}

/// Whether this is a door whose last accepting left off since no descriptor was free.
pub fn is_starved(door: &HostPort) -> bool {
    match door {
        HostPort::Socket(door) => door.socket().is_starved(),
        HostPort::Looking(_) => false,
    }
}

impl<R> Maker for SocketMaker<R>
where
    R: Net + Clock + Files + Threads + Copy + Drop,
{
    type Made = HostPort;

    ghost seen = { seen_of };

    fn make(
        &mut self,
        key: usize,
        _place: Place,
        single: &Single,
        _behind: Option<Peer>,
    ) -> Making<HostPort>
        ensures fresh { OnPort IsFreshPort result }
        ensures sort { IfSome (port_sort result) (λ sort. opened_sort single.now.target ≡ Some sort) }
        ensures other { opened_sort single.now.target ≡ None → result ≡ makings.Failed }
        ensures aims { IfSome (aim_of single.now.target single.now.options.socket)
            (λ aim. IfSome (host_of single.now.target) (λ host. OnPort (Aims aim host) result)) }
        ensures opens { Opens (seen_of self.old) (seen_of self.new) (record { place = _place; single = single.now; behind = _behind }) result }
    {
        let making = self.open(key, single);
        self.tally.count_making(&making);
        making
    }

    fn listen(&mut self, key: usize, single: &Single) -> Making<HostPort>
        ensures fresh { OnPort IsFreshPort result }
        ensures sort { IfSome (port_sort result) (λ sort. sort ≡ Listening) }
        ensures other { listens single.now.target ≡ false → result ≡ makings.Failed }
        ensures listens { Listens (seen_of self.old) (seen_of self.new) result }
    {
        let calls = &mut SystemEntries { files: self.rt };
        let making = listen_socket(self.rt, calls, self.alloc, &self.registry, key, single);
        self.tally.count_making(&making);
        making
    }

    fn accept(&mut self, door: &mut HostPort, key: usize) -> MadePeer<HostPort>
        ensures fresh { OnPeer IsFreshPort result }
        ensures sort { OnPeer (λ port. is_door_port port ≡ false) result }
        ensures no_door { is_door_port door.old ≡ false → result ≡ peers.Failed }
        ensures left_off { has_left_off_at door.new ≡ true → result ≡ peers.NoPeer }
        ensures addressed { is_unix_door_port door.old ≡ false → OnCame (λ peer. peer ≢ whose.Local) result }
        ensures partner { OnBoth HasPartnerAt result }
        ensures lets_in { let at = ⟦<HostPort as Port>⟧.seen in
            LetsIn (seen_of self.old) (seen_of self.new) (at door.old) (at door.new) result }
    {
        let peer = self.take_peer(door, key);
        self.tally.count_peer(&peer);
        peer
    }
}
