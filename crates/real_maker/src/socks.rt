// A connection through a SOCKS server, also while the host that it is asked for is looked up.
ghost use Rattle.std.specs.Prelude.{◌≡◌, ◌<◌, None, true, false, IfSome, length};
ghost use Rattle.std.specs.Net.Addr.{ipv4_octets};
ghost use Rattle.std.specs.Net.Socket.{v4_ip};
ghost use Rattle.port_trait.specs.{untold};
ghost use Rattle.tunnel_port.specs.{socks4};
ghost use Rattle.real_maker.specs.Asking.{AsksFound};
ghost use Rattle.real_maker.specs.SocksStages.{ShutsBeneath, stage_hinting, stage_hints};

use crate::opening::OfSocket;
use host_lookup::{HostLookup, Looked};
use port_trait::{
    Begun, Got, Hint, Joining, Port, PortCounts, PortReap, Settled, Shutting, Took,
    count_beginning, count_reading, count_settling, count_shutting, count_writing, is_end,
};
use relay_model::{Shut, Text};
use std::marker::Model;
use std::mem;
use std::net::SocketAddrV4;
use tunnel_port::{Request, SocksPort, request4};

/// The most bytes of a user and of a host that a proxy is told.
pub(crate) const MOST: usize = 255;

/// A server, and the host and port that it will be asked for. Nothing went through the port to it.
#[derive(Drop)]
pub struct AskedLater<P: Port = OfSocket> {
    pub(crate) inner: P,
    pub(crate) lookup: HostLookup,
    pub(crate) port: u16,
    pub(crate) user: Text,
}

impl<P: Port> Model for AskedLater<P> {
    ghost use Rattle.std.specs.Prelude.{[]};
    ghost use Rattle.tunnel_port.specs.{IsOnly};
    ghost use Rattle.real_maker.specs.Socks.{AskedState};

    ghost Value = { AskedState P };

    ghost view = { λ asked. record { inner = asked.inner; name = asked.lookup; port = asked.port; user = asked.user } };

    ghost invariant = { λ asked. IsOnly [] (P.seen asked.inner).took × IsOnly [] (P.seen asked.inner).gave };
}

impl<P: Port> AskedLater<P> {
    #[tactic(auto, using(crate::proofs::Untold::nothing_kept))]
    fn begin(&mut self) -> Begun
        ensures { self.new ≡ record self.old { inner = self.new.inner } }
    {
        self.inner.begin()
    }

    #[tactic(auto, using(crate::proofs::Untold::nothing_kept))]
    fn shut(&mut self, how: Shut) -> Shutting
        ensures asked { P.answers_shut self.old.inner self.new.inner how result }
        ensures kept { self.new ≡ record self.old { inner = self.new.inner } }
    {
        self.inner.shut(how)
    }

    /// The port that asks the server for this address. `None` where the user is too long.
    fn into_port(self, octets: [u8; 4]) -> Option<SocksPort<P>>
        ensures asks { IfSome result (λ port. port.talk.request ≡ socks4 octets self.port self.user) }
        ensures too_long { result ≡ None → 255 < length self.user }
    {
        let AskedLater {
            inner,
            lookup: _,
            port,
            user,
        } = self;
        let request = request_to(octets, port, user.as_slice())?;
        Some(SocksPort::new(inner, request))
    }
}

/// The request of SOCKS4 to be connected to this address (socat(1), `SOCKS4`). `None` where the user is too long.
pub(crate) fn request_to(addr: [u8; 4], port: u16, user: &[u8]) -> Option<Request>
    ensures asked { IfSome result (λ request. request ≡ socks4 addr port user.now) }
    ensures too_long { result ≡ None → 255 < length user.now }
{
    if user.len() > MOST {
        return None;
    }
    Some(request4(addr, port, user))
}

/// How far it has come.
#[derive(Drop)]
pub enum SocksStage<P: Port = OfSocket> {
    Asking(AskedLater<P>),
    Talking(SocksPort<P>),
    Over,
}

/// A connection through a SOCKS server. Each answer is counted here, once.
#[derive(Drop)]
pub struct SocksOpening<P: Port = OfSocket> {
    stage: SocksStage<P>,
    counts: PortCounts,
    begun: bool,
    ended: bool,
}

impl<P: Port> Model for SocksOpening<P> {
    ghost use Rattle.real_maker.specs.SocksStages.{SocksOpeningState};

    ghost Value = { SocksOpeningState P };

    ghost view = { λ port. record { stage = port.stage; counts = port.counts; begun = port.begun; ended = port.ended } };
}

impl<P: Port> SocksOpening<P> {
    /// One of which nothing was asked yet.
    pub(crate) fn new(stage: SocksStage<P>) -> SocksOpening<P>
        ensures { result.stage ≡ stage }
    {
        SocksOpening {
            stage,
            counts: PortCounts::new(),
            begun: false,
            ended: false,
        }
    }

    /// Asks for the host once it is looked up, and goes on with the talk.
    fn advance(&mut self) -> Settled
        ensures kept { self.new ≡ record self.old { stage = self.new.stage } }
    {
        let looked = match &mut self.stage {
            SocksStage::Talking(port) => return port.settle(),
            SocksStage::Over => return Settled::Failed,
            SocksStage::Asking(asked) => asked.lookup.ask(),
        };
        match looked {
            Looked::UnderWay => Settled::NotYet,
            Looked::NotFound => self.give_up(),
            Looked::Found(addresses) => match addresses.ipv4 {
                Some(addr) => self.ask_for(addr),
                None => self.give_up(),
            },
        }
    }

    fn give_up(&mut self) -> Settled
        ensures kept { self.new ≡ record self.old { stage = self.new.stage } }
    {
        self.stage = SocksStage::Over;
        Settled::Failed
    }

    fn ask_for(&mut self, addr: SocketAddrV4) -> Settled
        ensures kept { self.new ≡ record self.old { stage = self.new.stage } }
        ensures asks { AsksFound (ipv4_octets (v4_ip addr)) self.old.stage self.new.stage }
    {
        let SocksStage::Asking(asked) = mem::replace(&mut self.stage, SocksStage::Over) else {
            return Settled::Failed;
        };
        let octets = addr.ip().octets();
        let Some(mut port) = asked.into_port(octets) else {
            return Settled::Failed;
        };
        let settled = port.settle();
        self.stage = SocksStage::Talking(port);
        settled
    }

    fn begin_inner(&mut self) -> Begun
        ensures kept { self.new ≡ record self.old { stage = self.new.stage } }
    {
        match &mut self.stage {
            SocksStage::Asking(asked) => asked.begin(),
            SocksStage::Talking(port) => port.begin(),
            SocksStage::Over => Begun::Failed,
        }
    }

    /// Shuts the port to the server, before the request as behind it.
    fn shut_inner(&mut self, how: Shut) -> Shutting
        ensures asked { ShutsBeneath P.answers_shut self.old.stage self.new.stage how result }
        ensures kept { self.new ≡ record self.old { stage = self.new.stage } }
    {
        match &mut self.stage {
            SocksStage::Asking(asked) => asked.shut(how),
            SocksStage::Talking(port) => port.shut(how),
            SocksStage::Over => Shutting::Done,
        }
    }
}

impl<P: Port> Port for SocksOpening<P> {
    ghost seen = { λ port. record untold {
      hints = stage_hints P.seen port.stage;
      hinting = stage_hinting P.seen port.stage;
      counts = port.counts;
      begun = port.begun;
      ended = port.ended;
    } };

    ghost answers_shut = { λ old new how shutting. ShutsBeneath P.answers_shut old.stage new.stage how shutting };

    fn begin(&mut self) -> Begun {
        if self.begun {
            return Begun::Begun;
        }
        let begun = self.begin_inner();
        self.begun = begun == Begun::Begun;
        count_beginning(&mut self.counts, begun);
        begun
    }

    fn settle(&mut self) -> Settled {
        let settled = self.advance();
        count_settling(&mut self.counts, settled);
        settled
    }

    #[tactic(auto, using(crate::proofs::Untold::gives_untold))]
    fn read(&mut self, into: &mut [u8]) -> Got {
        let got = match &mut self.stage {
            SocksStage::Asking(_) => Got::NotYet,
            SocksStage::Talking(port) => port.read(into),
            SocksStage::Over => Got::Failed,
        };
        self.ended = is_end(got);
        count_reading(&mut self.counts, got);
        got
    }

    #[tactic(auto, using(crate::proofs::Untold::accepts_untold))]
    fn write(&mut self, bytes: &[u8]) -> Took {
        let took = match &mut self.stage {
            SocksStage::Asking(_) => Took::NotYet,
            SocksStage::Talking(port) => port.write(bytes),
            SocksStage::Over => Took::Failed,
        };
        count_writing(&mut self.counts, took);
        took
    }

    /// A stream has no packets.
    fn send(&mut self, _bytes: &[u8]) -> Took {
        count_writing(&mut self.counts, Took::Failed);
        Took::Failed
    }

    #[tactic(auto, using(crate::proofs::Untold::accepts_all_untold))]
    fn put_all(&mut self, bytes: &[u8]) -> Took {
        let took = match &mut self.stage {
            SocksStage::Talking(port) => port.put_all(bytes),
            SocksStage::Asking(_) | SocksStage::Over => Took::Failed,
        };
        count_writing(&mut self.counts, took);
        took
    }

    fn shut(&mut self, how: Shut) -> Shutting {
        let shutting = self.shut_inner(how);
        count_shutting(&mut self.counts, shutting);
        shutting
    }

    fn hint(&mut self) -> Hint {
        match &mut self.stage {
            SocksStage::Asking(asked) if !asked.lookup.is_over() => Hint::none(),
            SocksStage::Talking(port) => port.hint(),
            _ => Hint::all(),
        }
    }

    fn may_hint(&self) -> Hint {
        match &self.stage {
            SocksStage::Talking(port) => port.may_hint(),
            SocksStage::Asking(_) | SocksStage::Over => Hint::all(),
        }
    }

    fn has_child(&self) -> bool {
        false
    }

    fn reap(&mut self) -> PortReap {
        PortReap::NoChild
    }

    /// No thread works for it: that of a lookup is nobody's to wait for.
    fn join(&mut self) -> Joining {
        Joining::Joined
    }
}
