// The two directions of a session, each where the command forms it.
ghost use Rattle.std.specs.Prelude.{◌≡◌, ℕ, ◌+◌, ◌-◌, ◌<◌, ◌≤◌, ◌&&◌, ◌||◌, if◌then◌else◌, ◌∷◌, ◌++◌, [], not, List, Option, length, take, true, false, is_some, vec_len, IfOk};
ghost use Rattle.relay_model.specs.{Act, Peer as Visitor, Config as Command, Way as Direct, ReadyAt as Entry, formed as forms, input, places, Fit};
ghost use Rattle.relay_model.specs.{now as last_moment, later, earlier, passed, broken, done, done_at, is_unfinished, running, each_formed};
ghost use Rattle.relay_model.specs.{some_formed, way_work, input_moment, MayRead, Listed};
ghost use Rattle.relay_model.specs.declared.acts.Act.TheVariants as acts;
ghost use Rattle.relay_model.specs.declared.places.Way.TheVariants.{LeftToRight, RightToLeft};
ghost use Rattle.place_openings.specs.{calls_among};
ghost use Rattle.session_direction.specs.{listed, IsDirection, steps_in, touches};
ghost use Rattle.relay_session.specs.Timers.{one_done_at};
ghost use Rattle.relay_session.specs.Transfers.{transfer_act, MayTransfer, price_of, affords_at, place_for, way_of};

use crate::moments::{earlier as lesser, one_of};
use crate::transfers::Transfer;
use crate::wishes::Wish;
use command_places::is_formed;
use relay_model::{Config, NoMemory, Place, ReadyAt, Side, Way};
use session_direction::{Direction, Want};
use std::alloc::Global;

/// How many calls a session makes at most between two turns.
const MOST_CALLS: usize = 64;

/// How many of them each of its directions makes at most for nothing.
const FREE_CALLS: usize = 4;

/// A direction, where the command forms it.
#[derive(Drop)]
pub enum SessionLane {
    Unformed,
    Formed(Direction),
}

impl SessionLane {
    ghost use Rattle.relay_session.specs.Lanes.{IsLane, read_price_in, waiting_in, keeps_pieces, lane_steps, LaneWishes};

    /// A direction of the session with this number, at the beginning; only one that is formed takes memory.
    pub fn new(
        alloc: Global,
        config: &Config,
        number: u32,
        way: Way,
    ) -> Result<SessionLane, NoMemory>
        requires { Fit config.now }
        ensures { IfOk result (λ lane. IsLane config.now [] number way lane) }
    {
        if is_formed(config, way) {
            Ok(SessionLane::Formed(Direction::new(alloc, config, number, way)?))
        } else {
            Ok(SessionLane::Unformed)
        }
    }

    /// The call that it wishes for while the session runs, if there is one that `extra` pays for.
    pub fn wish(&self, now: u64, extra: u8) -> Option<Wish>
        ensures { (c : Command) (past : List Act) (s : ℕ) (w : Direct) → IsLane c past s w self.now → now ≡ last_moment past
            → running c past s ≡ true → Fit c → LaneWishes c past s w self.now extra result }
    {
        let SessionLane::Formed(direction) = self else {
            return None;
        };
        match direction.want(now, extra) {
            Want::Shut(how) => Some(Wish::Shut(direction.sink(), how)),
            Want::Write => Some(Wish::Write(direction.sink())),
            Want::Send => Some(Wish::Send(direction.sink())),
            Want::Read(at_most) => Some(Wish::Read {
                place: direction.source(),
                at_most,
            }),
            Want::Nothing => None,
        }
    }

    pub fn is_formed(&self) -> bool
        ensures { (c : Command) (past : List Act) (s : ℕ) (w : Direct) → IsLane c past s w self.now → result ≡ forms c w }
    {
        match self {
            SessionLane::Unformed => false,
            SessionLane::Formed(_direction) => true,
        }
    }

    /// Whether it has passed its end on, or isn't formed.
    fn has_passed_if_formed(&self) -> bool
        ensures { (c : Command) (past : List Act) (s : ℕ) (w : Direct) → IsLane c past s w self.now
            → result ≡ (not (forms c w) || passed c past s w) }
    {
        match self {
            SessionLane::Unformed => true,
            SessionLane::Formed(direction) => direction.has_passed(),
        }
    }

    /// Whether it is done, or isn't formed.
    fn is_done_if_formed(&self) -> bool
        ensures { (c : Command) (past : List Act) (s : ℕ) (w : Direct) → IsLane c past s w self.now
            → result ≡ (not (forms c w) || done c past s w) }
    {
        match self {
            SessionLane::Unformed => true,
            SessionLane::Formed(direction) => direction.done_at().is_some(),
        }
    }

    /// Whether it is formed and a fault broke it.
    fn is_broken(&self) -> bool
        ensures { (c : Command) (past : List Act) (s : ℕ) (w : Direct) → IsLane c past s w self.now
            → result ≡ (forms c w && broken c past s w) }
    {
        match self {
            SessionLane::Unformed => false,
            SessionLane::Formed(direction) => direction.is_broken(),
        }
    }

    /// The moment at which it was done: it had passed its end or was broken.
    pub fn done_at(&self) -> Option<u64>
        ensures { (c : Command) (past : List Act) (s : ℕ) (w : Direct) → IsLane c past s w self.now → forms c w ≡ true
            → result ≡ done_at c past s w }
    {
        match self {
            SessionLane::Unformed => None,
            SessionLane::Formed(direction) => direction.done_at(),
        }
    }

    /// Whether armed work is left, so that a wait must return at once.
    pub fn works(&self, now: u64) -> bool
        ensures { (c : Command) (past : List Act) (s : ℕ) (w : Direct) → IsLane c past s w self.now → now ≡ last_moment past
            → running c past s ≡ true → result ≡ way_work c past s w }
    {
        match self {
            SessionLane::Unformed => false,
            SessionLane::Formed(direction) => direction.works(now),
        }
    }

    /// The moment, later than now, at which its input is asked again after an end.
    pub fn moment(&self, now: u64) -> Option<u64>
        ensures { (c : Command) (past : List Act) (s : ℕ) (w : Direct) → IsLane c past s w self.now → now ≡ last_moment past
            → running c past s ≡ true → result ≡ later (last_moment past) (input_moment c past s w) }
    {
        match self {
            SessionLane::Unformed => None,
            SessionLane::Formed(direction) => direction.moment(now),
        }
    }

    /// The front of what waits.
    pub fn pending(&self) -> &[u8]
        ensures front { result.now ≡ take (length result.now) (waiting_in self.now) }
        ensures some { result.now ≡ [] → waiting_in self.now ≡ [] }
        ensures whole { keeps_pieces self.now ≡ true → result.now ≡ waiting_in self.now }
    {
        match self {
            SessionLane::Unformed => &[],
            SessionLane::Formed(direction) => direction.pending(),
        }
    }

    /// A place was opened, or a peer was accepted there.
    pub fn hear_opening(&mut self, place: Place)
        ensures opened { (c : Command) (past : List Act) (s : ℕ) (w : Direct) → IsLane c past s w self.old
            → IsLane c (acts.Opened place ∷ past) s w self.new }
        ensures accepted { (c : Command) (past : List Act) (s : ℕ) (w : Direct) (peer : Visitor) → IsLane c past s w self.old
            → IsLane c (acts.Accepted place peer ∷ past) s w self.new }
        ensures same { lane_steps self.new ≡ lane_steps self.old }
    {
        if let SessionLane::Formed(direction) = self {
            direction.hear_opening(place);
        }
    }

    /// A read, a write or a shut of this direction was answered.
    pub fn hear(&mut self, now: u64, transfer: Transfer<'_>)
        ensures goes { (c : Command) (past : List Act) (s : ℕ) (w : Direct) → IsLane c past s w self.old → now ≡ last_moment past
            → MayTransfer c past (place_for c s w transfer.entry) (waiting_in self.old) transfer.entry
            → IsLane c (transfer_act (place_for c s w transfer.entry) (waiting_in self.old) transfer.entry ∷ past) s w self.new }
        ensures fewer { (c : Command) (past : List Act) (s : ℕ) (w : Direct) → IsLane c past s w self.old
            → MayTransfer c past (place_for c s w transfer.entry) (waiting_in self.old) transfer.entry
            → lane_steps self.new < lane_steps self.old + price_of self.old transfer.entry }
    {
        if let SessionLane::Formed(direction) = self {
            hear(direction, now, transfer);
        }
    }

    /// What a read at its input costs.
    fn read_price(&self) -> u8
        ensures { result ≡ read_price_in self.now }
    {
        match self {
            SessionLane::Unformed => 0,
            SessionLane::Formed(direction) => direction.read_price(),
        }
    }

    /// What this transfer costs. An end is passed on for nothing.
    fn price(&self, transfer: Transfer<'_>) -> u8
        ensures { result ≡ price_of self.now transfer.entry }
    {
        match (self, transfer) {
            (SessionLane::Unformed, _) => 0,
            (_, Transfer::Shut(_) | Transfer::ShutFailed(_)) => 0,
            (SessionLane::Formed(direction), transfer) => {
                if transfer.is_read() {
                    direction.read_price()
                } else {
                    direction.write_price()
                }
            }
        }
    }

    /// Gives the block that was traded for last back for this one, where none of its bytes wait.
    fn trade_back(&mut self, block: &mut Vec<u8>)
        ensures same { self.new ≡ self.old }
        ensures block { vec_len block.new ≡ vec_len block.old }
    {
        if let SessionLane::Formed(direction) = self {
            direction.trade_back(block);
        }
    }

    /// The first `count` bytes of this block were read at the direction's input. Where they may wait in it, the direction
    /// keeps it, and its own takes the place of it.
    fn hear_block(&mut self, block: &mut Vec<u8>, count: usize)
        requires { count ≤ vec_len block.old }
        ensures goes { (c : Command) (past : List Act) (s : ℕ) (w : Direct) → IsLane c past s w self.old
            → MayRead c past (input c s w) count
            → IsLane c (acts.Read (input c s w) (take count block.old.items) ∷ past) s w self.new }
        ensures fewer { (c : Command) (past : List Act) (s : ℕ) (w : Direct) → IsLane c past s w self.old
            → MayRead c past (input c s w) count → lane_steps self.new < lane_steps self.old + read_price_in self.old }
        ensures block { vec_len block.new ≡ vec_len block.old }
    {
        match self {
            SessionLane::Unformed => {}
            SessionLane::Formed(direction) => {
                let room = direction.room();
                direction.hear_block(block, count.min(room));
            }
        }
    }

    /// A law: an act that doesn't touch the direction leaves it, and so does a stop that a turn tells of.
    fn stay(&self)
        ensures untouched { (c : Command) (past : List Act) (s : ℕ) (w : Direct) (act : Act) → IsLane c past s w self.now
            → touches c s w act ≡ false → IsLane c (act ∷ past) s w self.now }
        ensures stopped { (c : Command) (past : List Act) (s : ℕ) (w : Direct) (until : Option ℕ) (at : ℕ) (ready : Listed)
            → IsLane c (acts.Turn until at ready false ∷ past) s w self.now
            → IsLane c (acts.Turn until at ready true ∷ past) s w self.now }
    {
        if let SessionLane::Formed(direction) = self {
            direction.stay();
        }
    }

    /// A wait has returned that names nothing yet.
    pub fn wake(&mut self)
        ensures { (c : Command) (past : List Act) (s : ℕ) (w : Direct) (until : Option ℕ) (at : ℕ)
            → IsLane c past s w self.old → IsLane c (acts.Turn until at (listed []) false ∷ past) s w self.new }
    {
        if let SessionLane::Formed(direction) = self {
            direction.wake();
        }
    }

    /// The last turn names this half too.
    pub fn hear_entry(&mut self, entry: ReadyAt)
        ensures { (c : Command) (past : List Act) (s : ℕ) (w : Direct) (until : Option ℕ) (at : ℕ) (names : List Entry)
            → IsLane c (acts.Turn until at (listed names) false ∷ past) s w self.old
            → IsLane c (acts.Turn until at (listed (names ++ entry ∷ [])) false ∷ past) s w self.new }
    {
        if let SessionLane::Formed(direction) = self {
            direction.hear_entry(entry);
        }
    }
}

/// The direction from left to right and the one from right to left, with what they share.
#[derive(Drop)]
pub struct Lanes {
    pub to_right: SessionLane,
    pub to_left: SessionLane,
    /// How much a turn grants them for asks beyond the first of each half, and how much of it is left.
    pub grant: u8,
    pub extra: u8,
}

impl Lanes {
    ghost use Rattle.relay_session.specs.Lanes.{AreLanes, LanesWish, can_read_at, lanes_steps, waiting_at, keeps_at};

    /// Both directions of the session with this number, at the beginning. So many calls are its openings' between two turns.
    pub fn new(
        alloc: Global,
        config: &Config,
        number: u32,
        opening_calls: usize,
    ) -> Result<Lanes, NoMemory>
        requires fit { Fit config.now }
        requires calls { opening_calls ≡ calls_among config.now (places config.now number) }
        requires within { opening_calls ≤ 28 }
        ensures { IfOk result (λ lanes. AreLanes config.now [] number lanes) }
    {
        let to_right = SessionLane::new(alloc, config, number, Way::LeftToRight)?;
        let to_left = SessionLane::new(alloc, config, number, Way::RightToLeft)?;
        let grant = granted(config, opening_calls);
        Ok(Lanes {
            to_right,
            to_left,
            grant,
            extra: grant,
        })
    }

    /// The call that a direction wishes for while the session runs, the one to the right first. While the other has work
    /// too, half of the grant is kept for it.
    pub fn wish(&self, now: u64) -> Option<Wish>
        ensures { (c : Command) (past : List Act) (s : ℕ) → AreLanes c past s self.now → now ≡ last_moment past
            → running c past s ≡ true → Fit c → LanesWish c past s self.now result }
    {
        let kept = if self.to_left.works(now) {
            self.grant / 2
        } else {
            0
        };
        match self.to_right.wish(now, self.extra.saturating_sub(kept)) {
            Some(wish) => Some(wish),
            None => self.to_left.wish(now, self.extra),
        }
    }

    /// Whether each formed direction has passed its end on.
    pub fn have_passed(&self) -> bool
        ensures { (c : Command) (past : List Act) (s : ℕ) → AreLanes c past s self.now → result ≡ each_formed c (passed c past s) }
    {
        self.to_right.has_passed_if_formed() & self.to_left.has_passed_if_formed()
    }

    /// Whether each formed direction is done: it has passed its end on or is broken.
    pub fn are_done(&self) -> bool
        ensures each { (c : Command) (past : List Act) (s : ℕ) → AreLanes c past s self.now → result ≡ each_formed c (done c past s) }
        ensures unfinished { (c : Command) (past : List Act) (s : ℕ) → AreLanes c past s self.now → not result ≡ is_unfinished c past s }
    {
        self.to_right.is_done_if_formed() & self.to_left.is_done_if_formed()
    }

    /// Whether a fault broke a direction.
    pub fn is_any_broken(&self) -> bool
        ensures { (c : Command) (past : List Act) (s : ℕ) → AreLanes c past s self.now → result ≡ some_formed c (broken c past s) }
    {
        self.to_right.is_broken() | self.to_left.is_broken()
    }

    /// Where exactly one of two directions is done, the moment at which it was.
    pub fn one_done_at(&self) -> Option<u64>
        ensures { (c : Command) (past : List Act) (s : ℕ) → AreLanes c past s self.now → result ≡ one_done_at c past s }
    {
        let both_formed = self.to_right.is_formed() & self.to_left.is_formed();
        if both_formed {
            one_of(self.to_right.done_at(), self.to_left.done_at())
        } else {
            None
        }
    }

    /// Whether armed work is left in a direction.
    pub fn work(&self, now: u64) -> bool
        ensures { (c : Command) (past : List Act) (s : ℕ) → AreLanes c past s self.now → now ≡ last_moment past
            → running c past s ≡ true → result ≡ (way_work c past s LeftToRight || way_work c past s RightToLeft) }
    {
        self.to_right.works(now) | self.to_left.works(now)
    }

    /// The least moment, later than now, at which an input is asked again after an end.
    pub fn moment(&self, now: u64) -> Option<u64>
        ensures { (c : Command) (past : List Act) (s : ℕ) → AreLanes c past s self.now → now ≡ last_moment past
            → running c past s ≡ true
            → result ≡ earlier (later (last_moment past) (input_moment c past s LeftToRight)) (later
            (last_moment past) (input_moment c past s RightToLeft)) }
    {
        lesser(self.to_right.moment(now), self.to_left.moment(now))
    }

    /// The front of what waits to be written at the place.
    pub fn pending(&self, place: Place) -> &[u8]
        ensures front { result.now ≡ take (length result.now) (waiting_at self.now place) }
        ensures some { result.now ≡ [] → waiting_at self.now place ≡ [] }
        ensures whole { keeps_at self.now place ≡ true → result.now ≡ waiting_at self.now place }
    {
        match place.side {
            Side::Right => self.to_right.pending(),
            Side::Left => self.to_left.pending(),
        }
    }

    /// A place was opened, or a peer was accepted there.
    pub fn hear_opening(&mut self, place: Place)
        ensures opened { (c : Command) (past : List Act) (s : ℕ) → AreLanes c past s self.old
            → AreLanes c (acts.Opened place ∷ past) s self.new }
        ensures accepted { (c : Command) (past : List Act) (s : ℕ) (peer : Visitor) → AreLanes c past s self.old
            → AreLanes c (acts.Accepted place peer ∷ past) s self.new }
        ensures same { lanes_steps self.new ≡ lanes_steps self.old }
    {
        self.to_right.hear_opening(place);
        self.to_left.hear_opening(place);
    }

    /// A read, a write or a shut was answered at the place.
    pub fn hear(&mut self, now: u64, place: Place, transfer: Transfer<'_>)
        ensures goes { (c : Command) (past : List Act) (s : ℕ) → AreLanes c past s self.old → now ≡ last_moment past
            → place.session ≡ s → MayTransfer c past place (waiting_at self.old place) transfer.entry
            → AreLanes c (transfer_act place (waiting_at self.old place) transfer.entry ∷ past) s self.new }
        ensures fewer { (c : Command) (past : List Act) (s : ℕ) → AreLanes c past s self.old → place.session ≡ s
            → MayTransfer c past place (waiting_at self.old place) transfer.entry
            → affords_at self.old place transfer.entry ≡ true → lanes_steps self.new < lanes_steps self.old }
    {
        match way_of(place, transfer) {
            Way::LeftToRight => {
                self.extra = self.extra.saturating_sub(self.to_right.price(transfer));
                self.to_right.hear(now, transfer);
                self.to_left.stay();
            }
            Way::RightToLeft => {
                self.extra = self.extra.saturating_sub(self.to_left.price(transfer));
                self.to_right.stay();
                self.to_left.hear(now, transfer);
            }
        }
    }

    /// Gives the block that was traded for last at the place back for this one, where none of its bytes wait.
    pub fn trade_back(&mut self, place: Place, block: &mut Vec<u8>)
        ensures same { self.new ≡ self.old }
        ensures block { vec_len block.new ≡ vec_len block.old }
    {
        match place.side {
            Side::Left => self.to_right.trade_back(block),
            Side::Right => self.to_left.trade_back(block),
        }
    }

    /// The first `count` bytes of this block were read at the place. Where they may wait in it, the direction keeps it, and
    /// its own takes the place of it.
    pub fn hear_block(&mut self, place: Place, block: &mut Vec<u8>, count: usize)
        requires { count ≤ vec_len block.old }
        ensures goes { (c : Command) (past : List Act) (s : ℕ) → AreLanes c past s self.old → place.session ≡ s
            → MayRead c past place count → AreLanes c (acts.Read place (take count block.old.items) ∷ past) s self.new }
        ensures fewer { (c : Command) (past : List Act) (s : ℕ) → AreLanes c past s self.old → place.session ≡ s
            → MayRead c past place count → can_read_at self.old place ≡ true
            → lanes_steps self.new < lanes_steps self.old }
        ensures block { vec_len block.new ≡ vec_len block.old }
    {
        match place.side {
            Side::Left => {
                self.extra = self.extra.saturating_sub(self.to_right.read_price());
                self.to_right.hear_block(block, count);
                self.to_left.stay();
            }
            Side::Right => {
                self.extra = self.extra.saturating_sub(self.to_left.read_price());
                self.to_right.stay();
                self.to_left.hear_block(block, count);
            }
        }
    }

    /// A wait has returned that names nothing yet.
    pub fn wake(&mut self)
        ensures { (c : Command) (past : List Act) (s : ℕ) (until : Option ℕ) (at : ℕ) → AreLanes c past s self.old
            → AreLanes c (acts.Turn until at (listed []) false ∷ past) s self.new }
    {
        self.to_right.wake();
        self.to_left.wake();
        self.extra = self.grant;
    }

    /// The last turn names this half too.
    pub fn hear_entry(&mut self, entry: ReadyAt)
        ensures { (c : Command) (past : List Act) (s : ℕ) (until : Option ℕ) (at : ℕ) (names : List Entry)
            → AreLanes c (acts.Turn until at (listed names) false ∷ past) s self.old
            → AreLanes c (acts.Turn until at (listed (names ++ entry ∷ [])) false ∷ past) s self.new }
    {
        self.to_right.hear_entry(entry);
        self.to_left.hear_entry(entry);
    }

    /// A law: an act that touches no direction leaves them, and so does a stop that a turn tells of.
    pub fn stay(&self)
        ensures untouched { (c : Command) (past : List Act) (s : ℕ) (act : Act) → AreLanes c past s self.now
            → touches c s LeftToRight act ≡ false → touches c s RightToLeft act ≡ false
            → AreLanes c (act ∷ past) s self.now }
        ensures stopped { (c : Command) (past : List Act) (s : ℕ) (until : Option ℕ) (at : ℕ) (ready : Listed)
            → AreLanes c (acts.Turn until at ready false ∷ past) s self.now
            → AreLanes c (acts.Turn until at ready true ∷ past) s self.now }
    {
        self.to_right.stay();
        self.to_left.stay();
    }
}

/// How much a turn grants the directions of a session: what the openings and the calls that cost nothing leave.
fn granted(config: &Config, opening_calls: usize) -> u8
    requires { opening_calls ≤ 28 }
    ensures { result ≡ 64 - opening_calls - (if forms config.now LeftToRight && forms config.now RightToLeft then 8 else 4) }
{
    let both = is_formed(config, Way::LeftToRight) && is_formed(config, Way::RightToLeft);
    let directions = if both { 2 } else { 1 };
    (MOST_CALLS - opening_calls - FREE_CALLS * directions) as u8
}

/// The direction of a transfer at this place.
fn way_of(place: Place, transfer: Transfer<'_>) -> Way
    ensures { result ≡ way_of place transfer.entry }
{
    match (place.side, transfer.is_read()) {
        (Side::Left, true) | (Side::Right, false) => Way::LeftToRight,
        (Side::Left, false) | (Side::Right, true) => Way::RightToLeft,
    }
}

/// Takes in a transfer of this direction.
fn hear(direction: &mut Direction, now: u64, transfer: Transfer<'_>)
    ensures goes { (c : Command) (past : List Act) (s : ℕ) (w : Direct) → IsDirection c past s w direction.old
        → now ≡ last_moment past
        → MayTransfer c past (place_for c s w transfer.entry) direction.old.flow.backlog transfer.entry
        → IsDirection c (transfer_act (place_for c s w transfer.entry) direction.old.flow.backlog transfer.entry ∷
        past) s w direction.new }
    ensures fewer { (c : Command) (past : List Act) (s : ℕ) (w : Direct) → IsDirection c past s w direction.old
        → MayTransfer c past (place_for c s w transfer.entry) direction.old.flow.backlog transfer.entry
        → steps_in direction.new < steps_in direction.old + price_of (SessionLane.Formed direction.old) transfer.entry }
{
    match transfer {
        Transfer::Read(bytes) => direction.hear_read(fit(bytes, direction.room())),
        Transfer::ReadEmpty => direction.hear_empty(),
        Transfer::ReadEnd => direction.hear_end(now),
        Transfer::ReadNotYet => direction.hear_read_not_yet(),
        Transfer::ReadFailed => direction.hear_read_failure(now),
        Transfer::Wrote(count) => direction.hear_write(count_taken(direction, count)),
        Transfer::WriteNotYet => direction.hear_write_not_yet(),
        Transfer::WriteFailed => direction.hear_write_failure(now),
        Transfer::Shut(_how) => direction.pass_end(now),
        Transfer::ShutFailed(_how) => direction.pass_end(now),
    }
}

/// The bytes, of which there is room for all.
fn fit(bytes: &[u8], room: usize) -> &[u8]
    ensures within { length result.now ≤ room }
    ensures same { length bytes.now ≤ room → result.now ≡ bytes.now }
{
    &bytes[..bytes.len().min(room)]
}

/// The number of bytes that were taken of those that wait: all, where they go out as one packet.
fn count_taken(direction: &Direction, count: usize) -> usize
    ensures within { result ≤ length direction.now.flow.backlog }
    ensures whole { is_some direction.now.flow.lane.packets ≡ true → result ≡ length direction.now.flow.backlog }
    ensures same { count ≤ length direction.now.flow.backlog
        → (is_some direction.now.flow.lane.packets ≡ true → count ≡ length direction.now.flow.backlog)
        → result ≡ count }
{
    let waiting = direction.waiting();
    if direction.keeps_borders() {
        waiting
    } else {
        count.min(waiting)
    }
}
