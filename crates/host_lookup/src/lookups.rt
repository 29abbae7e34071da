// Names are looked up by threads, one for each name, and the loop is woken when one is done.
ghost use Rattle.std.specs.Prelude.{◌≡◌, true, IfOk, IfSome};
ghost use Rattle.port_trait.specs.{IsAtOnce};
ghost use Rattle.host_lookup.specs.Found.{OnBegun};

use crate::hosts::HostAddresses;
use mio_poller::MioWake;
use port_trait::{Making, Wake};
use relay_model::NoMemory;
use std::alloc::Global;
use std::marker::Model;
use std::net::{IpAddr, Ipv4Addr, Net, SocketAddr};
use std::rt::HostRuntime;
use std::sync::{Arc, OnceLock};
use std::thread;
use std::thread::Threads;

/// The most names that are looked up at once. Each has a thread of its own, so that one that isn't answered holds up no
/// other.
const MOST_NAMES: usize = 16;

/// The most addresses of a host that are looked at.
const MOST_ADDRESSES: usize = 32;

/// What a lookup has come to.
#[derive(Clone, Copy)]
pub enum Looked {
    UnderWay,
    Found(HostAddresses),
    NotFound,
}

/// A name, and what its lookup has come to once that is told.
#[derive(Drop)]
struct AskedName {
    name: String,
    told: OnceLock<Looked>,
}

/// A lookup of one name, for all who want it while it is under way. Nobody waits for its thread: one that is still under
/// way ends with the program.
#[derive(Drop)]
pub struct HostLookup {
    asked: Arc<AskedName, Global>,
}

impl Model for HostLookup {
    ghost use Rattle.std.specs.Prelude.{List, ℕ, string_bytes};

    // the name
    ghost Value = { List ℕ };

    ghost view = { λ lookup. string_bytes lookup.asked.value.name };
}

impl HostLookup {
    /// A lookup of this name, of which nothing is told yet.
    fn of(alloc: Global, name: &str) -> Result<HostLookup, NoMemory>
        ensures { IfOk result (λ lookup. lookup ≡ name.now) }
    {
        let name = String::from_str(alloc, name)?;
        let asked = AskedName {
            name,
            told: OnceLock::new(),
        };
        Ok(HostLookup {
            asked: Arc::new(alloc, asked)?,
        })
    }

    /// What it has come to, without waiting.
    pub fn ask(&self) -> Looked {
        match self.asked.told.get() {
            Some(looked) => *looked,
            None => Looked::UnderWay,
        }
    }

    /// Whether it has come to its end.
    pub fn is_over(&self) -> bool {
        self.asked.told.get().is_some()
    }

    fn is_of(&self, name: &str) -> bool
        ensures { result ≡ true → self.now ≡ name.now }
    {
        self.asked.name.as_str() == name
    }

    fn share(&self) -> Result<HostLookup, NoMemory>
        ensures { IfOk result (λ lookup. lookup ≡ self.now) }
    {
        Ok(HostLookup {
            asked: Arc::try_clone(&self.asked)?,
        })
    }

    /// Looks the name up, which waits, and tells what came of it.
    fn answer<R: Net>(&self, rt: &R) {
        let looked = look_up(rt, self.asked.name.as_str(), self);
        let _ = self.asked.told.try_set(looked);
    }
}

/// The lookups that are under way.
#[derive(Drop)]
pub struct Lookups {
    system: HostRuntime,
    alloc: Global,
    wake: MioWake,
    begun: Vec<HostLookup>,
}

impl Lookups {
    /// None yet. The end of each will wake this. Names are looked up by `system`: only a known runtime may go to a thread.
    pub fn new(system: HostRuntime, alloc: Global, wake: MioWake) -> Lookups {
        Lookups {
            system,
            alloc,
            wake,
            begun: Vec::new(alloc),
        }
    }

    /// The lookup of this name that is under way, or else a new one. It answers `Failed` where 16 other names are looked
    /// up already, and where no thread can be made; never `Later`.
    pub fn begin<R: Threads>(&mut self, rt: &R, name: &str) -> Making<HostLookup>
        ensures at_once { IsAtOnce result }
        ensures named { OnBegun result (λ lookup. lookup ≡ name.now) }
    {
        self.begun.retain(|lookup| !lookup.is_over());
        if let Some(lookup) = self.of_name(name) {
            return share_lookup(lookup);
        }
        match self.begin_new(rt, name) {
            Ok(Some(lookup)) => Making::Made(lookup),
            Ok(None) => Making::Failed,
            Err(NoMemory) => Making::Memory,
        }
    }

    /// The lookup of this name that is under way.
    fn of_name(&self, name: &str) -> Option<&HostLookup>
        ensures { IfSome result (λ lookup. lookup.now ≡ name.now) }
    {
        for lookup in &self.begun {
            if lookup.is_of(name) {
                return Some(lookup);
            }
        }
        None
    }

    /// Has a thread look the name up. `None` where there are too many, or none can be made.
    fn begin_new<R: Threads>(&mut self, rt: &R, name: &str) -> Result<Option<HostLookup>, NoMemory>
        ensures { IfOk result (λ begun. IfSome begun (λ lookup. lookup ≡ name.now)) }
    {
        if self.begun.len() >= MOST_NAMES {
            return Ok(None);
        }
        let lookup = HostLookup::of(self.alloc, name)?;
        self.begun.reserve(1)?;
        let (kept, told) = (lookup.share()?, lookup.share()?);
        if !launch(rt, self.system, told, self.wake.another()?) {
            return Ok(None);
        }
        self.begun.push(kept)?;
        Ok(Some(lookup))
    }
}

/// Another share of a lookup.
fn share_lookup(lookup: &HostLookup) -> Making<HostLookup>
    ensures at_once { IsAtOnce result }
    ensures same { OnBegun result (λ shared. shared ≡ lookup.now) }
{
    match lookup.share() {
        Ok(shared) => Making::Made(shared),
        Err(NoMemory) => Making::Memory,
    }
}

/// Starts the thread, whose last act is the wake.
fn launch<R: Threads>(rt: &R, system: HostRuntime, lookup: HostLookup, wake: MioWake) -> bool {
    let work = move || {
        lookup.answer(&system);
        wake.wake();
    };
    thread::spawn(rt, work).is_ok()
}

/// Waits for the system's resolver, which is asked for the name of the lookup.
fn look_up<R: Net>(rt: &R, name: &str, lookup: &HostLookup) -> Looked
    requires { name.now ≡ lookup.now }
{
    let _asked_for = lookup;
    let nobody = SocketAddr::new(IpAddr::V4(Ipv4Addr::UNSPECIFIED), 0);
    let mut found = [nobody; MOST_ADDRESSES];
    match rt.lookup_host(name, 0, &mut found) {
        Ok(count) => Looked::Found(HostAddresses::among(&found[..count])),
        Err(_) => Looked::NotFound,
    }
}
