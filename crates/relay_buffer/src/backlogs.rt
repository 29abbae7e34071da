// Where the bytes that wait are kept. No call here takes memory.
ghost use Rattle.std.specs.Prelude.{◌≡◌, ◌+◌, ◌≤◌, ◌++◌, [], true, length, take, drop, vec_len};
ghost use Rattle.line_ends.specs.{converted};
ghost use Rattle.relay_buffer.specs.Backlogs.{held_bytes, held_capacity, is_packet, IsSameStore, IsTradable};

use crate::stream_stores::StreamStore;
use line_ends::{Convs, convert};
use relay_model::Conv;

/// How many bytes are converted at a time, and the room for twice as many.
const PIECE: usize = 256;

const CONVERTED: usize = 512;

/// A stream's bytes stand in a ring that is read while half free, those of a traded block before it; a packet's stand
/// together.
#[derive(Drop)]
pub(crate) enum Backlog {
    Stream(StreamStore),
    Packet(Vec<u8>),
}

impl Backlog {
    pub(crate) fn len(&self) -> usize
        ensures { result ≡ length (held_bytes self.now) }
    {
        match self {
            Backlog::Stream(store) => store.len(),
            Backlog::Packet(bytes) => bytes.len(),
        }
    }

    /// The first bytes, as many as lie together: one packet whole.
    pub(crate) fn first_piece(&self) -> &[u8]
        ensures front { result.now ≡ take (length result.now) (held_bytes self.now) }
        ensures some { result.now ≡ [] → held_bytes self.now ≡ [] }
        ensures whole { is_packet self.now ≡ true → result.now ≡ held_bytes self.now }
    {
        match self {
            Backlog::Stream(store) => store.first_piece(),
            Backlog::Packet(bytes) => bytes.as_slice(),
        }
    }

    /// Lets the first `count` bytes go.
    pub(crate) fn drop_first(&mut self, count: usize)
        requires within { count ≤ length (held_bytes self.old) }
        requires whole { is_packet self.old ≡ true → count ≡ length (held_bytes self.old) }
        ensures bytes { held_bytes self.new ≡ drop count (held_bytes self.old) }
        ensures store { IsSameStore self.old self.new }
    {
        match self {
            Backlog::Stream(store) => store.drop_first(count),
            Backlog::Packet(bytes) => bytes.clear(),
        }
    }

    /// Appends the conversion of these bytes.
    pub(crate) fn append_converted(&mut self, how: Convs, bytes: &[u8])
        requires { length (held_bytes self.old) + length (converted how bytes.now) ≤ held_capacity self.old }
        ensures bytes { held_bytes self.new ≡ held_bytes self.old ++ converted how bytes.now }
        ensures store { IsSameStore self.old self.new }
    {
        match (how.read, how.write) {
            (Conv::Plain, Conv::Plain) => self.append(bytes),
            _ => self.append_by_pieces(how, bytes),
        }
    }

    fn append_by_pieces(&mut self, how: Convs, bytes: &[u8])
        requires { length (held_bytes self.old) + length (converted how bytes.now) ≤ held_capacity self.old }
        ensures bytes { held_bytes self.new ≡ held_bytes self.old ++ converted how bytes.now }
        ensures store { IsSameStore self.old self.new }
    {
        let mut room = [0; CONVERTED];
        let mut rest = bytes;
        while !rest.is_empty() {
            let (piece, later) = rest.split_at(rest.len().min(PIECE));
            let len = convert(how, piece, &mut room);
            self.append(&room[..len]);
            rest = later;
        }
    }

    fn append(&mut self, bytes: &[u8])
        requires { length (held_bytes self.old) + length bytes.now ≤ held_capacity self.old }
        ensures bytes { held_bytes self.new ≡ held_bytes self.old ++ bytes.now }
        ensures store { IsSameStore self.old self.new }
    {
        match self {
            Backlog::Stream(store) => store.append(bytes),
            Backlog::Packet(packet) => match packet.extend_from_slice(bytes) {
                Ok(()) => {}
                Err(_no_memory) => unreachable!(),
            },
        }
    }

    /// Whether the first `count` bytes of this block may wait where they are.
    pub(crate) fn can_trade(&self, block: &Vec<u8>, count: usize) -> bool
        ensures { result ≡ true → IsTradable self.now block.now.items count }
    {
        match self {
            Backlog::Stream(store) => store.can_trade(block, count),
            Backlog::Packet(_) => false,
        }
    }

    /// Trades the own block, if none of its bytes wait and it is as long, for this one.
    pub(crate) fn trade_back(&mut self, block: &mut Vec<u8>)
        ensures bytes { held_bytes self.new ≡ held_bytes self.old }
        ensures store { IsSameStore self.old self.new }
        ensures block { vec_len block.new ≡ vec_len block.old }
    {
        if let Backlog::Stream(store) = self {
            store.trade_back(block);
        }
    }

    /// Trades this block for the own one. Its first `count` bytes wait from then on.
    pub(crate) fn trade(&mut self, block: &mut Vec<u8>, count: usize)
        requires within { count ≤ vec_len block.old }
        requires may { IsTradable self.old block.old.items count }
        ensures bytes { held_bytes self.new ≡ take count block.old.items }
        ensures store { IsSameStore self.old self.new }
        ensures block { vec_len block.new ≡ vec_len block.old }
    {
        match self {
            Backlog::Stream(store) => store.trade(block, count),
            Backlog::Packet(_) => unreachable!(),
        }
    }
}
