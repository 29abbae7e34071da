// Which peers a listening address lets in (socat(1), `range`, `sourceport` and `lowport`).
#![tactic(auto)]

ghost use Rattle.std.specs.Prelude.{◌≡◌, length};
ghost use Rattle.relay_model.specs.{is_permitted, is_port_permitted, is_same_under};

use relay_model::{Admission, Options, Peer, Range};
use std::marker::Model;

/// The highest port that `lowport` lets through: those below 1024 are privileged.
const HIGHEST_LOW_PORT: u16 = 1023;

/// What the options of one address ask of its peers.
#[derive(Clone, Copy)]
pub struct Filter {
    admission: Admission,
}

impl Model for Filter {
    ghost use Rattle.relay_model.specs.{Admission};

    ghost Value = { Admission };

    ghost view = { λ filter. filter.admission };

    ghost inverse = { λ admission. record { admission = admission } };
}

impl Filter {
    /// The filter that these options ask for.
    pub fn new(options: &Options) -> Filter
        ensures { result ≡ options.now.admission }
    {
        Filter {
            admission: options.admission,
        }
    }

    /// Whether this peer may come in. A peer at a Unix socket always may; one of the other family than the
    /// range's never may.
    pub fn permits(&self, peer: Peer) -> bool
        ensures { result ≡ is_permitted self.now peer }
    {
        match peer {
            Peer::Local => true,
            Peer::V4 { addr, port } => {
                let near = match self.admission.range {
                    None => true,
                    Some(Range::V4 { net, mask }) => agree_v4(mask, addr, net),
                    Some(Range::V6 { .. }) => false,
                };
                near && self.permits_port(port)
            }
            Peer::V6 { addr, port } => {
                let near = match self.admission.range {
                    None => true,
                    Some(Range::V6 { net, mask }) => agree_v6(mask, addr, net),
                    Some(Range::V4 { .. }) => false,
                };
                near && self.permits_port(port)
            }
        }
    }

    fn permits_port(&self, port: u16) -> bool
        ensures { result ≡ is_port_permitted self.now port }
    {
        let is_source_port = match self.admission.sourceport {
            None => true,
            Some(wanted) => port == wanted,
        };
        is_source_port && (!self.admission.lowport || port <= HIGHEST_LOW_PORT)
    }
}

fn agree_v4(mask: [u8; 4], one: [u8; 4], other: [u8; 4]) -> bool
    ensures { result ≡ is_same_under mask one other }
{
    agree_under(&mask, &one, &other)
}

fn agree_v6(mask: [u8; 16], one: [u8; 16], other: [u8; 16]) -> bool
    ensures { result ≡ is_same_under mask one other }
{
    agree_under(&mask, &one, &other)
}

/// Whether two addresses of one length are the same in each bit of the mask.
#[tactic(auto, using(crate::proofs::SameUnder::same_under_step))]
fn agree_under(mask: &[u8], one: &[u8], other: &[u8]) -> bool
    requires one_fits { length one.now ≡ length mask.now }
    requires other_fits { length other.now ≡ length mask.now }
    ensures { result ≡ is_same_under mask.now one.now other.now }
{
    for (i, m) in mask.iter().enumerate() {
        if one[i] & *m != other[i] & *m {
            return false;
        }
    }
    true
}
