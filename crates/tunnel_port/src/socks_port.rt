// The port through a SOCKS server.
ghost use Rattle.std.specs.Prelude.{◌≡◌, []};
ghost use Rattle.tunnel_port.specs.Talks.{IsOnly};
ghost use Rattle.tunnel_port.specs.Tunnels.{fresh_tunnel};
ghost use Rattle.tunnel_port.specs.SocksReplies.{SocksStands, refusal_of};

use crate::port::TunnelPort;
use crate::socks_refusal::SocksEnd;
use crate::socks_request::Request;
use crate::socks_talk::SocksTalk;
use crate::stage::TalkStage;
use port_trait::Port;

/// A port to a SOCKS server, and through it to a host: the request goes first and the reply comes first, and
/// nothing else goes through before the server has granted the request.
pub type SocksPort<P> = TunnelPort<P, SocksTalk>;

impl<P: Port> TunnelPort<P, SocksTalk> {
    /// The port to a server, of which nothing was read or written yet, with a request to it.
    pub fn new(inner: P, request: Request) -> SocksPort<P>
        requires untaken { IsOnly [] (P.seen inner).took }
        requires ungiven { IsOnly [] (P.seen inner).gave }
        ensures { result ≡ fresh_tunnel inner (record { request = request; heard = [] }) }
    {
        TunnelPort::over(inner, SocksTalk::new(request))
    }

    /// Why the server has granted nothing. None where it has, as long as the talk goes on, and where the port to
    /// the server has failed.
    pub fn refusal(&self) -> Option<SocksEnd>
        ensures refusal { result ≡ refusal_of self.now.talk.heard self.now.stage }
        ensures stands { SocksStands self.now.talk.heard self.now.stage }
    {
        let heard = self.talk().reply_bytes();
        match self.stage() {
            TalkStage::Joining | TalkStage::Talking | TalkStage::Passed | TalkStage::Faulted =>
                None,
            TalkStage::Refused if heard[0] == 0 => Some(SocksEnd::Denied { code: heard[1] }),
            TalkStage::Refused => Some(SocksEnd::BadReply { first: heard[0] }),
            TalkStage::Cut => Some(SocksEnd::Short {
                have: heard.len() as u8,
            }),
        }
    }
}
