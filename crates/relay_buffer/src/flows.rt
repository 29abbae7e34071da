// A direction's bytes between its reads and its writes.
ghost use Rattle.std.specs.Prelude.{◌≡◌, ◌==◌, ◌+◌, ◌*◌, ◌≤◌, ◌++◌, ℕ, List, [], length, take, true, vec_len, IfOk, IfSome, IsSome};
ghost use Rattle.relay_model.specs.{before_escape, holds_escape, is_over, packet_cap};
ghost use Rattle.relay_buffer.specs.Flows.{IsFlow, IsPassedWhole, due, lowered, over_in, room_in, room_of, taken, waiting};
ghost use Rattle.relay_buffer.specs.declared.lanes.Lane.{Lane};

use crate::backlogs::Backlog;
use crate::lanes::Lane;
use crate::stream_stores::StreamStore;
use memchr::memchr;
use relay_model::{Conv, LONGEST_PACKET, NoMemory};
use std::alloc::Global;
use std::marker::Model;

/// What was read in one direction and isn't written yet. Of what is filled in, the bytes that count are converted,
/// and taken in that order. A flow takes memory when it is made, and never again.
#[derive(Drop)]
pub struct Flow {
    lane: Lane,
    left: Option<u64>,
    met: bool,
    held: Backlog,
}

impl Model for Flow {
    ghost use Rattle.relay_buffer.specs.Flows.{Flowing};

    ghost Value = { Flowing };

    ghost use Rattle.relay_buffer.specs.Backlogs.{held_bytes, CanHold};

    ghost view = { λ flow. record { lane = flow.lane; left = flow.left; met = flow.met; backlog = held_bytes flow.held } };

    ghost invariant = { λ flow. CanHold flow.lane flow.held };
}

impl Flow {
    /// A flow into which nothing was filled. `Err` is want of memory.
    pub fn new(alloc: Global, lane: Lane) -> Result<Flow, NoMemory>
        requires { IfSome lane.packets (λ cap. cap ≡ packet_cap lane.how.write) }
        ensures { IfOk result (λ flow. IsFlow lane [] [] flow) }
    {
        let most = 2 * lane.block as usize;
        let held = match lane.packets {
            None => Backlog::Stream(StreamStore::new(alloc, lane.block)?),
            Some(_) => Backlog::Packet(Vec::with_capacity(
                alloc,
                most.min(usize::from(LONGEST_PACKET)),
            )?),
        };
        Ok(Flow {
            lane,
            left: lane.readbytes,
            met: false,
            held,
        })
    }

    /// How many bytes the next read may ask for: 0 where the input is over.
    pub fn room(&self) -> usize
        ensures room { result ≡ room_in self.now }
        ensures size { (lane : Lane) (x y : List ℕ) → IsFlow lane x y self.now → result ≡ room_of lane x y }
    {
        if self.over() {
            return 0;
        }
        let block = self.lane.block as usize;
        let waiting = self.held.len();
        let most = match self.lane.packets {
            None => block.min((2 * block).saturating_sub(waiting) / 2),
            Some(cap) if waiting == 0 => block.min(cap as usize),
            Some(_) => 0,
        };
        match self.left {
            None => most,
            Some(left) => most.min(left as usize),
        }
    }

    /// Fills in what was read. The flow has room for it.
    pub fn fill(&mut self, bytes: &[u8])
        requires { length bytes.now ≤ room_in self.old }
        ensures lane { self.new.lane ≡ self.old.lane }
        ensures filled { (lane : Lane) (x y : List ℕ) → IsFlow lane x y self.old → IsFlow lane (x ++ bytes.now) y self.new }
    {
        if bytes.is_empty() {
            return;
        }
        let (kept, met) = up_to_escape(self.lane.escape, bytes);
        self.left = left_after(self.left, bytes.len());
        self.met = met;
        self.held.append_converted(self.lane.how, kept);
    }

    /// Gives the block that was traded for last back for this one, where none of its bytes wait: so all that a flow reads
    /// into and writes from is one block.
    pub fn trade_back(&mut self, block: &mut Vec<u8>)
        ensures same { self.new ≡ self.old }
        ensures block { vec_len block.new ≡ vec_len block.old }
    {
        self.held.trade_back(block);
    }

    /// Fills in the first `count` bytes of a block that was read, for which the flow has room. Where they may wait as they
    /// are, the flow keeps the block, and its own takes the place of it.
    pub fn fill_block(&mut self, block: &mut Vec<u8>, count: usize)
        requires within { count ≤ vec_len block.old }
        requires room { count ≤ room_in self.old }
        ensures lane { self.new.lane ≡ self.old.lane }
        ensures filled { (lane : Lane) (x y : List ℕ) → IsFlow lane x y self.old
            → IsFlow lane (x ++ take count block.old.items) y self.new }
        ensures block { vec_len block.new ≡ vec_len block.old }
    {
        if self.held.can_trade(block, count) && is_passed_whole(self.lane, &block[..count]) {
            self.left = left_after(self.left, count);
            self.held.trade(block, count);
        } else {
            self.fill(&block[..count]);
        }
    }

    /// The bytes to be written next: the first that wait, and for packets all of them.
    pub fn pending(&self) -> &[u8]
        ensures front { result.now ≡ take (length result.now) self.now.backlog }
        ensures some { result.now ≡ [] → self.now.backlog ≡ [] }
        ensures whole { IsSome self.now.lane.packets → result.now ≡ self.now.backlog }
        ensures bound { length self.now.backlog ≤ 2 * self.now.lane.block }
        ensures prefix { (lane : Lane) (x y : List ℕ) → IsFlow lane x y self.now → y ++ result.now ≡ take (length y + length result.now) (due lane x) }
    {
        self.held.first_piece()
    }

    /// Lets the first `n` of the bytes that wait go, since they were written. A packet goes whole.
    pub fn took(&mut self, n: usize)
        requires within { n ≤ length self.old.backlog }
        requires whole { IsSome self.old.lane.packets → n ≡ length self.old.backlog }
        ensures backlog { self.new ≡ taken n self.old }
        ensures took { (lane : Lane) (x y : List ℕ) → IsFlow lane x y self.old → IsFlow lane x (y ++ take n self.old.backlog) self.new }
    {
        self.held.drop_first(n);
    }

    /// Whether the bytes filled in end the input: as many as may be read, or the escape byte among them.
    pub fn over(&self) -> bool
        ensures over { result ≡ over_in self.now }
        ensures met { (lane : Lane) (x y : List ℕ) → IsFlow lane x y self.now → result ≡ is_over lane.readbytes lane.escape x }
    {
        self.left == Some(0) || self.met
    }

    /// How many bytes wait to be written.
    pub fn waiting(&self) -> usize
        ensures { result ≡ length self.now.backlog }
    {
        self.held.len()
    }

    /// Whether nothing waits to be written.
    pub fn spent(&self) -> bool
        ensures spent { result ≡ (length self.now.backlog == 0) }
        ensures empty { (lane : Lane) (x y : List ℕ) → IsFlow lane x y self.now → result ≡ (waiting lane x y == 0) }
    {
        self.held.len() == 0
    }
}

/// Whether these bytes go out as they are: into a stream, with no conversion and no escape byte.
fn is_passed_whole(lane: Lane, bytes: &[u8]) -> bool
    ensures { result ≡ true → IsPassedWhole lane bytes.now }
{
    match (lane.packets, lane.how.read, lane.how.write) {
        (None, Conv::Plain, Conv::Plain) => !up_to_escape(lane.escape, bytes).1,
        _ => false,
    }
}

/// How many bytes may be read after `count` more.
fn left_after(left: Option<u64>, count: usize) -> Option<u64>
    ensures { result ≡ lowered left count }
{
    match left {
        None => None,
        Some(left) => Some(left.saturating_sub(count as u64)),
    }
}

/// The bytes before the escape byte, and whether it stands among them.
fn up_to_escape(escape: Option<u8>, bytes: &[u8]) -> (&[u8], bool)
    ensures kept { result.0.now ≡ before_escape escape bytes.now }
    ensures met { result.1 ≡ holds_escape escape bytes.now }
{
    let Some(escape) = escape else {
        return (bytes, false);
    };
    match memchr(escape, bytes) {
        None => (bytes, false),
        Some(at) => (&bytes[..at], true),
    }
}
