// The port through an HTTP proxy.
ghost use Rattle.std.specs.Prelude.{◌≡◌, [], MatchResult};
ghost use Rattle.tunnel_port.specs.Talks.{IsOnly};
ghost use Rattle.tunnel_port.specs.Tunnels.{fresh_tunnel};
ghost use Rattle.tunnel_port.specs.ConnectReplies.{ConnectStands, refusal_of, fresh_talk};
ghost use Rattle.tunnel_port.specs.ConnectRequests.{connect_request};

use crate::connect_refusal::ConnectEnd;
use crate::connect_talk::ConnectTalk;
use crate::port::TunnelPort;
use crate::stage::TalkStage;
use port_trait::Port;
use std::alloc::Global;

/// A port to an HTTP proxy, and through it to a host: the request to connect goes first and the head of the reply
/// comes first, and nothing else goes through before the proxy has granted the request.
pub type ConnectPort<P> = TunnelPort<P, ConnectTalk>;

impl<P: Port> TunnelPort<P, ConnectTalk> {
    /// The port to a proxy, of which nothing was read or written yet, with the request to be connected to this
    /// host. Where memory is wanting it is given back.
    pub fn new(alloc: Global, inner: P, host: &[u8], port: u16) -> Result<ConnectPort<P>, P>
        requires untaken { IsOnly [] (P.seen inner).took }
        requires ungiven { IsOnly [] (P.seen inner).gave }
        ensures { MatchResult result (λ made. made ≡ fresh_tunnel inner (fresh_talk (connect_request host.now port))) (λ back. back ≡ inner) }
    {
        match ConnectTalk::new(alloc, host, port) {
            Ok(talk) => Ok(TunnelPort::over(inner, talk)),
            Err(_) => Err(inner),
        }
    }

    /// Why the proxy has granted nothing. None where it has, as long as the talk goes on, and where the port to
    /// the proxy has failed.
    pub fn refusal(&self) -> Option<ConnectEnd>
        ensures refusal { result ≡ refusal_of self.now.talk self.now.stage }
        ensures stands { ConnectStands self.now.talk self.now.stage }
    {
        let talk = self.talk();
        match self.stage() {
            TalkStage::Joining | TalkStage::Talking | TalkStage::Passed | TalkStage::Faulted =>
                None,
            TalkStage::Refused => talk.end(),
            TalkStage::Cut => Some(ConnectEnd::Short {
                have: talk.have() as u32,
            }),
        }
    }
}
