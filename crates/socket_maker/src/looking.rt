// A socket whose host is being looked up.
ghost use Rattle.std.specs.Prelude.{◌≡◌, false, List, ℕ, None, Some, IfSome};
ghost use Rattle.port_trait.specs.{counted, Tallied, Accepts, AcceptsWhole, Gives, is_end, read_event, settle_event, write_event};
ghost use Rattle.port_trait.specs.declared.answers.Settled.TheVariants as settles;
ghost use Rattle.port_trait.specs.declared.answers.Shutting.TheVariants as shuts;
ghost use Rattle.socket_kinds.specs.{sort_of};
ghost use Rattle.socket_ports.specs.{no_counts};
ghost use Rattle.socket_maker.specs.Aims.{way_sort};

use crate::aims::Aim;
use crate::reaching::reach;
use host_lookup::{HostAddresses, HostLookup, Looked};
use mio::Registry;
use port_trait::{
    Got, Hint, Making, PortCounts, Settled, Shutting, Took, count_reading, count_settling,
    count_writing,
};
use relay_model::Shut;
use socket_kinds::AnySocket;
use std::alloc::Global;
use std::marker::Model;
use std::rt::HostRuntime;
use std::sync::Arc;

/// What is opened once the host's address is known. Nobody waits for its lookup, also where it is let go before.
#[derive(Drop)]
pub struct LookingPort {
    system: HostRuntime,
    alloc: Global,
    registry: Arc<Registry, Global>,
    key: usize,
    aim: Aim,
    // none once it has come to its end
    lookup: Option<HostLookup>,
    pub(crate) counts: PortCounts,
    pub(crate) begun: bool,
}

impl Model for LookingPort {
    ghost use Rattle.socket_maker.specs.Looking.{LookingState};

    ghost Value = { LookingState };

    ghost view = { λ port. record { aim = port.aim; name = port.lookup; counts = port.counts; begun = port.begun } };
}

impl LookingPort {
    /// The registry will report the socket under `key`. It is opened by `system`.
    pub(crate) fn new(
        system: HostRuntime,
        alloc: Global,
        registry: Arc<Registry, Global>,
        key: usize,
        aim: Aim,
        lookup: HostLookup,
    ) -> LookingPort
        ensures { result ≡ record { aim = aim; name = Some lookup; counts = no_counts; begun = false } }
    {
        LookingPort {
            system,
            alloc,
            registry,
            key,
            aim,
            lookup: Some(lookup),
            counts: PortCounts::new(),
            begun: false,
        }
    }

    /// Asks, without waiting, what the lookup has come to. Once the address is known the socket is opened, and handed out
    /// where it stands or is under way. After a failure each further call fails.
    pub(crate) fn advance(&mut self) -> (Settled, Option<AnySocket>)
        ensures kept { self.new ≡ record self.old { counts = self.new.counts; name = self.new.name } }
        ensures sort { IfSome result.1 (λ socket. sort_of socket ≡ way_sort self.old.aim.way) }
        ensures stands { result.0 ≡ settles.Ready → result.1 ≡ None → ⊥ }
        ensures counted { self.new.counts ≡ counted (settle_event result.0) self.old.counts }
        ensures tallied { Tallied (settle_event result.0) self.old.counts self.new.counts }
    {
        let (settled, socket) = self.reach_socket();
        count_settling(&mut self.counts, settled);
        (settled, socket)
    }

    fn reach_socket(&mut self) -> (Settled, Option<AnySocket>)
        ensures kept { self.new ≡ record self.old { name = self.new.name } }
        ensures sort { IfSome result.1 (λ socket. sort_of socket ≡ way_sort self.old.aim.way) }
        ensures stands { result.0 ≡ settles.Ready → result.1 ≡ None → ⊥ }
    {
        let looked = match &self.lookup {
            Some(lookup) => lookup.ask(),
            None => Looked::NotFound,
        };
        match looked {
            Looked::UnderWay => (Settled::NotYet, None),
            Looked::Found(addresses) => {
                self.lookup = None;
                self.open(&addresses)
            }
            Looked::NotFound => {
                self.lookup = None;
                (Settled::Failed, None)
            }
        }
    }

    fn open(&self, addresses: &HostAddresses) -> (Settled, Option<AnySocket>)
        ensures sort { IfSome result.1 (λ socket. sort_of socket ≡ way_sort self.now.aim.way) }
        ensures stands { result.0 ≡ settles.Ready → result.1 ≡ None → ⊥ }
    {
        let aim = &self.aim;
        let Some(addr) = addresses.at(aim.family, aim.port) else {
            return (Settled::Failed, None);
        };
        match reach(
            &self.system,
            self.alloc,
            &self.registry,
            self.key,
            aim,
            addr,
        ) {
            Making::Made(socket) => (Settled::Ready, Some(socket)),
            Making::Later(socket) => (Settled::NotYet, Some(socket)),
            Making::Failed | Making::Memory => (Settled::Failed, None),
        }
    }

    /// A read that comes before the socket stands.
    pub(crate) fn barred_read(&mut self) -> Got
        ensures kept { self.new ≡ record self.old { counts = self.new.counts } }
        ensures none { (into : List ℕ) → Gives None None into result }
        ensures goes_on { is_end result ≡ false }
        ensures tallied { Tallied (read_event result) self.old.counts self.new.counts }
    {
        let got = match self.lookup {
            Some(_) => Got::NotYet,
            None => Got::Failed,
        };
        count_reading(&mut self.counts, got);
        got
    }

    /// A write that comes before the socket stands.
    pub(crate) fn barred_write(&mut self) -> Took
        ensures kept { self.new ≡ record self.old { counts = self.new.counts } }
        ensures none { (bytes : List ℕ) → Accepts None None bytes result × AcceptsWhole None None bytes result }
        ensures tallied { Tallied (write_event result) self.old.counts self.new.counts }
    {
        let took = match self.lookup {
            Some(_) => Took::NotYet,
            None => Took::Failed,
        };
        count_writing(&mut self.counts, took);
        took
    }

    /// A socket of which nothing more is wanted isn't opened any more.
    pub(crate) fn finish(&mut self, how: Shut) -> Shutting
        ensures kept { self.new ≡ record self.old { name = self.new.name } }
        ensures done { result ≡ shuts.Done }
    {
        match how {
            Shut::Down | Shut::Close => self.lookup = None,
            Shut::Nothing | Shut::Null => {}
        }
        Shutting::Done
    }

    /// Nothing before the lookup has come to its end, and then both halves.
    pub(crate) fn hint(&self) -> Hint {
        match &self.lookup {
            Some(lookup) if !lookup.is_over() => Hint::none(),
            _ => Hint::all(),
        }
    }
}
