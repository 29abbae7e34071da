// What the first bytes of a proxy's reply say.
ghost use Rattle.std.specs.Prelude.{◌≡◌, ◌≤◌, length, IfSome, None};
ghost use Rattle.httparse.specs.Grammar.{status_code};
ghost use Rattle.tunnel_port.specs.ConnectReplies.{is_ended, HasHead, HasNoHead, Means};

use crate::connect_refusal::ConnectEnd;
use httparse::Status;
use httparse::spans::{EMPTY_HEADER_SPAN, parse_response};

/// What the bytes of a reply say so far.
#[derive(Clone, Copy, PartialEq)]
pub(crate) enum HeadVerdict {
    More,
    Granted,
    Refused(ConnectEnd),
}

/// Whether the bytes end in an empty line.
fn is_ended(head: &[u8]) -> bool
    ensures { result ≡ is_ended head.now }
{
    head.ends_with(b"\n\n") || head.ends_with(b"\n\r\n")
}

/// The status of the response whose head these bytes are as a whole, with at most 64 header fields. None where
/// they are no such head.
#[tactic(auto, using(crate::proofs::Heads::found_head, crate::proofs::Heads::other_length))]
fn status_of(head: &[u8]) -> Option<u16>
    ensures found { IfSome result (λ status. HasHead head.now (λ h. status_code h ≡ status)) }
    ensures none { result ≡ None → HasNoHead head.now }
{
    let mut fields = [EMPTY_HEADER_SPAN; 64];
    match parse_response(head, &mut fields) {
        Ok(Status::Complete(spans)) => {
            if spans.len == head.len() {
                return Some(spans.code);
            }
            None
        }
        Ok(Status::Partial) => None,
        Err(_) => None,
    }
}

/// What these bytes of a reply say.
pub(crate) fn judge(head: &[u8]) -> HeadVerdict
    requires { length head.now ≤ 8192 }
    ensures { Means head.now result }
{
    if !is_ended(head) {
        if head.len() < 8192 {
            return HeadVerdict::More;
        }
        return HeadVerdict::Refused(ConnectEnd::TooLong);
    }
    match status_of(head) {
        Some(status) => {
            if status >= 200 && status <= 299 {
                return HeadVerdict::Granted;
            }
            HeadVerdict::Refused(ConnectEnd::Denied { status })
        }
        None => HeadVerdict::Refused(ConnectEnd::BadHead {
            have: head.len() as u32,
        }),
    }
}
