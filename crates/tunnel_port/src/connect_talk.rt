// The talk with an HTTP proxy.
ghost use Rattle.std.specs.Prelude.{◌≡◌, length, IfOk};
ghost use Rattle.tunnel_port.specs.ConnectRequests.{connect_request};
ghost use Rattle.tunnel_port.specs.ConnectReplies.{Judges, fresh_talk};

use crate::connect_head::{HeadVerdict, judge};
use crate::connect_refusal::ConnectEnd;
use crate::connect_request::request_bytes;
use crate::talk::{HeardReply, Talk};
use std::alloc::{AllocError, Global};
use std::marker::Model;

/// A request, the bytes of the reply that came, for which there is room, and why the reply grants nothing.
#[derive(Drop)]
pub struct ConnectTalk {
    request: Vec<u8>,
    head: Vec<u8>,
    end: Option<ConnectEnd>,
}

impl Model for ConnectTalk {
    ghost use Rattle.std.specs.Prelude.{◌≤◌, vec_capacity};
    ghost use Rattle.tunnel_port.specs.ConnectReplies.{ConnectState};

    ghost Value = { ConnectState };

    ghost view = { λ talk. record { request = talk.request.items; heard = talk.head.items; end = talk.end } };

    ghost invariant = { λ talk. 8192 ≤ vec_capacity talk.head };
}

impl ConnectTalk {
    /// Nothing was heard yet.
    pub fn new(alloc: Global, host: &[u8], port: u16) -> Result<ConnectTalk, AllocError>
        ensures { IfOk result (λ talk. talk ≡ fresh_talk (connect_request host.now port)) }
    {
        let request = request_bytes(alloc, host, port)?;
        let head = Vec::with_capacity(alloc, 8192)?;
        Ok(ConnectTalk {
            request,
            head,
            end: None,
        })
    }

    /// How many bytes of the reply came.
    pub fn have(&self) -> usize
        ensures { result ≡ length self.now.heard }
    {
        self.head.len()
    }

    /// Why the reply grants nothing, where it is whole or too long.
    pub fn end(&self) -> Option<ConnectEnd>
        ensures { result ≡ self.now.end }
    {
        self.end
    }
}

impl Talk for ConnectTalk {
    ghost asks = { λ talk. talk.request };

    ghost heard = { λ talk. talk.heard };

    ghost limit = { 8192 };

    ghost judges = { Judges };

    fn request(&self) -> &[u8] {
        self.request.as_slice()
    }

    /// There is room for the byte.
    fn hear(&mut self, byte: u8) -> HeardReply {
        let _kept = self.head.push(byte);
        match judge(self.head.as_slice()) {
            HeadVerdict::More => HeardReply::More,
            HeadVerdict::Granted => HeardReply::Granted,
            HeadVerdict::Refused(end) => {
                self.end = Some(end);
                HeardReply::Refused
            }
        }
    }
}
