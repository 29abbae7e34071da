// Ranges of addresses, and local addresses to bind to.
ghost use Rattle.std.specs.Prelude.{◌≡◌, length};
ghost use Rattle.option_table.specs.Networks.{octet_mask, leading_mask, masked, v4_network, v6_network, v4_by_bits, v4_by_mask, v6_by_bits, range_of, port_after, v4_address, v6_address, bind_of, writes_port};

use crate::literals::{inside_brackets, ipv4_literal, ipv6_literal, split_around};
use crate::numbers::read_short_number;
use relay_model::{Bind, Peer, Range};

/// An octet whose first bits are set; all 8 where there are more.
#[tactic(auto, unfolding(crate::specs::Networks::octet_mask))]
fn octet_of_bits(bits: u64) -> u8
    ensures { result ≡ octet_mask bits }
{
    match bits {
        0 => 0,
        1 => 0x80,
        2 => 0xc0,
        3 => 0xe0,
        4 => 0xf0,
        5 => 0xf8,
        6 => 0xfc,
        7 => 0xfe,
        _ => 0xff,
    }
}

/// Sets the first bits, and clears the others.
#[tactic(auto, unfolding(crate::specs::Networks::leading_mask))]
fn set_leading_bits(mask: &mut [u8], bits: u64)
    ensures { mask.new ≡ leading_mask (length mask.old) bits }
{
    let mut left = bits;
    for octet in mask.iter_mut() {
        *octet = octet_of_bits(left);
        left = left.saturating_sub(8);
    }
}

/// Clears the bits that the mask doesn't have.
#[tactic(auto, unfolding(crate::specs::Networks::masked))]
fn keep_masked(octets: &mut [u8], mask: &[u8])
    requires { length octets.old ≡ length mask.now }
    ensures { octets.new ≡ masked octets.old mask.now }
{
    for i in 0..octets.len() {
        octets[i] &= mask[i];
    }
}

fn v4_range(octets: [u8; 4], mask: [u8; 4]) -> Range
    ensures { result ≡ v4_network octets mask }
{
    let mut net = octets;
    keep_masked(&mut net, &mask);
    Range::V4 { net, mask }
}

fn v6_range(octets: [u8; 16], mask: [u8; 16]) -> Range
    ensures { result ≡ v6_network octets mask }
{
    let mut net = octets;
    keep_masked(&mut net, &mask);
    Range::V6 { net, mask }
}

#[tactic(auto, unfolding(crate::specs::Networks::v4_by_bits))]
fn read_v4_by_bits(text: &[u8]) -> Option<Range>
    ensures { result ≡ v4_by_bits text.now }
{
    let (literal, bits) = split_around(text, b'/')?;
    let octets = ipv4_literal(literal)?;
    let bits = read_short_number(bits, 3, 32)?;
    let mut mask = [0; 4];
    set_leading_bits(&mut mask, bits);
    Some(v4_range(octets, mask))
}

#[tactic(auto, unfolding(crate::specs::Networks::v4_by_mask))]
fn read_v4_by_mask(text: &[u8]) -> Option<Range>
    ensures { result ≡ v4_by_mask text.now }
{
    let (literal, mask) = split_around(text, b':')?;
    let octets = ipv4_literal(literal)?;
    let mask = ipv4_literal(mask)?;
    Some(v4_range(octets, mask))
}

#[tactic(auto, unfolding(crate::specs::Networks::v6_by_bits))]
fn read_v6_by_bits(text: &[u8]) -> Option<Range>
    ensures { result ≡ v6_by_bits text.now }
{
    let inner = inside_brackets(text)?;
    let (literal, bits) = split_around(inner, b'/')?;
    let octets = ipv6_literal(literal)?;
    let bits = read_short_number(bits, 3, 128)?;
    let mut mask = [0; 16];
    set_leading_bits(&mut mask, bits);
    Some(v6_range(octets, mask))
}

/// A range of addresses: `a.b.c.d/bits`, `a.b.c.d:m.m.m.m` or `[addr/bits]`. The network has no bit that the
/// mask doesn't have.
#[tactic(auto, unfolding(crate::specs::Networks::range_of))]
pub fn read_range(text: &[u8]) -> Option<Range>
    ensures { result ≡ range_of text.now }
{
    if let Some(range) = read_v4_by_bits(text) {
        return Some(range);
    }
    if let Some(range) = read_v4_by_mask(text) {
        return Some(range);
    }
    read_v6_by_bits(text)
}

#[tactic(auto, unfolding(crate::specs::Networks::port_after))]
fn read_port_after(text: &[u8]) -> Option<u16>
    ensures { result ≡ port_after text.now }
{
    match text {
        [] => Some(0),
        [b':', digits @ ..] => {
            let port = read_short_number(digits, 5, 65535)?;
            Some(port as u16)
        }
        _ => None,
    }
}

#[tactic(auto, unfolding(crate::specs::Networks::v4_address))]
fn read_v4_address(text: &[u8]) -> Option<Peer>
    ensures { result ≡ v4_address text.now }
{
    match split_around(text, b':') {
        Some((literal, digits)) => {
            let addr = ipv4_literal(literal)?;
            let port = read_short_number(digits, 5, 65535)?;
            Some(Peer::V4 {
                addr,
                port: port as u16,
            })
        }
        None => {
            let addr = ipv4_literal(text)?;
            Some(Peer::V4 { addr, port: 0 })
        }
    }
}

#[tactic(auto, unfolding(crate::specs::Networks::v6_address))]
fn read_v6_address(text: &[u8]) -> Option<Peer>
    ensures { result ≡ v6_address text.now }
{
    let [b'[', inner @ ..] = text else {
        return None;
    };
    let (literal, tail) = split_around(inner, b']')?;
    let addr = ipv6_literal(literal)?;
    let port = read_port_after(tail)?;
    Some(Peer::V6 { addr, port })
}

/// A local address: an IPv4 address, or an IPv6 address in `[ ]`, and after it `:` and a port or nothing.
#[tactic(auto, unfolding(crate::specs::Networks::bind_of))]
pub fn read_bind(text: &[u8]) -> Option<Bind>
    ensures { result ≡ bind_of text.now }
{
    if let Some(addr) = read_v4_address(text) {
        return Some(Bind { addr });
    }
    let addr = read_v6_address(text)?;
    Some(Bind { addr })
}

/// Whether a local address is written with a port.
#[tactic(auto, unfolding(crate::specs::Networks::writes_port))]
pub fn has_port(text: &[u8]) -> bool
    ensures { result ≡ writes_port text.now }
{
    match text {
        [b'[', .., last] => *last != b']',
        [b'['] => true,
        _ => text.contains(&b':'),
    }
}
