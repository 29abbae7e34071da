// The talk with a SOCKS server.
ghost use Rattle.std.specs.Prelude.{◌≡◌, []};
ghost use Rattle.tunnel_port.specs.SocksReplies.{Judges};

use crate::socks_request::Request;
use crate::talk::{HeardReply, Talk};
use std::marker::Model;

/// A request, and the bytes of the reply that came.
#[derive(Drop)]
pub struct SocksTalk {
    request: Request,
    reply: [u8; 8],
    have: usize,
}

impl Model for SocksTalk {
    ghost use Rattle.std.specs.Prelude.{◌≤◌, take};
    ghost use Rattle.tunnel_port.specs.SocksReplies.{SocksState};

    ghost Value = { SocksState };

    ghost view = { λ talk. record { request = talk.request; heard = take talk.have talk.reply } };

    ghost invariant = { λ talk. talk.have ≤ 8 };
}

impl SocksTalk {
    /// Nothing was heard yet.
    pub fn new(request: Request) -> SocksTalk
        ensures { result ≡ record { request = request; heard = [] } }
    {
        SocksTalk {
            request,
            reply: [0; 8],
            have: 0,
        }
    }

    /// The bytes of the reply that came.
    pub fn reply_bytes(&self) -> &[u8]
        ensures { result.now ≡ self.now.heard }
    {
        &self.reply[..self.have]
    }
}

impl Talk for SocksTalk {
    ghost asks = { λ talk. talk.request };

    ghost heard = { λ talk. talk.heard };

    ghost limit = { 8 };

    ghost judges = { λ talk. Judges talk.heard };

    fn request(&self) -> &[u8] {
        self.request.as_slice()
    }

    fn hear(&mut self, byte: u8) -> HeardReply {
        self.reply[self.have] = byte;
        self.have += 1;
        if self.have < 8 {
            return HeardReply::More;
        }
        if self.reply[0] == 0 && self.reply[1] == 90 {
            return HeardReply::Granted;
        }
        HeardReply::Refused
    }
}
