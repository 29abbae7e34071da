// The fields of a direction, what it wants, and what each act makes of it.
ghost use Rattle.std.specs.Prelude.{◌≡◌, ◌∷◌, ◌++◌, ◌+◌, ◌≤◌, ◌<◌, ◌*◌, ◌&&◌, ◌||◌, not, ℕ, List, [], true, false, Option, Some, None, IfOk, if◌then◌else◌, is_some, length, take, vec_len};
ghost use Rattle.relay_model.specs.{Act, Peer, Shut as Shutting, Config as Command, Way as WayOf, ReadyAt as Entry, Listed, later, Fit, formed};
ghost use Rattle.relay_model.specs.{input, output, keeps_borders, running, now, broken, done_at, passed, MayOffer, MayShut, MayWrite, input_moment};
ghost use Rattle.relay_model.specs.{owes_write, way_work, is_spent, over, greatest_read, backlog, armed_to_read, asked_to_write};
ghost use Rattle.relay_model.specs.declared.acts.Act.TheVariants as acts;
ghost use Rattle.relay_buffer.specs.{room_in};
ghost use Rattle.session_direction.specs.Directions.{IsDirection, Wants, WantsRead, Affords, FitsRoom, is_gathered, listed, terms_of};
ghost use Rattle.session_direction.specs.declared.directions.Want.TheVariants as wants;
ghost use Rattle.session_direction.specs.States.{can_read, can_write, read_price, write_price, steps_in};
ghost use Rattle.session_direction.specs.Touches.{touches};

use command_places::{how, input, keeps_borders, medium_of, options_of, output};
use line_ends::Convs;
use relay_buffer::{Flow, Lane};
use relay_model::{Arming, Config, Half, Medium, NoMemory, Place, ReadyAt, Shut, Way};
use std::alloc::Global;
use std::marker::Model;

/// What a further write costs, and a further read where the output wasn't asked since the last one.
const PRICE: u8 = 1;

/// What a further read costs where the output was asked since the last one: its bytes may be written for nothing.
const GRANTING_PRICE: u8 = 2;

/// How many bytes are gathered at the most: enough that small pieces don't cost a write each, and no more, since the other
/// side waits meanwhile.
const GATHERED: usize = 8192;

/// What a direction wants to be done. `Send` is a write of one packet, and `Read` has the most bytes to ask for.
#[derive(Clone, Copy, PartialEq, Eq)]
pub enum Want {
    Shut(Shut),
    Write,
    Send,
    Read(usize),
    Nothing,
}

/// One formed direction of a session. Moments are milliseconds since the run began.
#[derive(Drop)]
pub struct Direction {
    source: Place,
    sink: Place,
    ignores_end: bool,
    ends_at_empty: bool,
    sloppy: bool,
    how: Shut,
    /// Whether small pieces are gathered up to a block before they are written.
    gathers: bool,
    terms: Lane,
    flow: Flow,
    arming: Arming,
    armed_out: bool,
    asked_in: bool,
    asked_out: bool,
    ended: bool,
    passed_at: Option<u64>,
    broken_at: Option<u64>,
}

impl Model for Direction {
    ghost use Rattle.std.specs.Prelude.{◌≡◌};
    ghost use Rattle.session_direction.specs.States.{DirectionState};

    ghost Value = { DirectionState };

    ghost view = { λ d. record {
      source = d.source;
      sink = d.sink;
      ignores_end = d.ignores_end;
      ends_at_empty = d.ends_at_empty;
      sloppy = d.sloppy;
      how = d.how;
      gathers = d.gathers;
      flow = d.flow;
      arming = d.arming;
      armed_out = d.armed_out;
      asked_in = d.asked_in;
      asked_out = d.asked_out;
      ended = d.ended;
      passed_at = d.passed_at;
      broken_at = d.broken_at;
    } };

    ghost invariant = { λ d. d.flow.lane ≡ d.terms };
}

impl Direction {
    /// A direction of the session with this number, before anything happened.
    pub fn new(alloc: Global, config: &Config, number: u32, way: Way) -> Result<Direction, NoMemory>
        requires formed { formed config.now way ≡ true }
        ensures { IfOk result (λ direction. IsDirection config.now [] number way direction) }
    {
        let terms = terms_of(config, way);
        let source = input(config, number, way);
        let sink = output(config, number, way);
        let options = options_of(config, source);
        let flow = Flow::new(alloc, terms)?;
        Ok(Direction {
            source,
            sink,
            ignores_end: options.input.ignoreeof,
            ends_at_empty: options.input.null_eof,
            sloppy: config.sloppy,
            how: how(config, sink),
            gathers: is_gathered(medium_of(config, source)),
            terms,
            flow,
            arming: Arming::Disarmed,
            armed_out: false,
            asked_in: false,
            asked_out: false,
            ended: false,
            passed_at: None,
            broken_at: None,
        })
    }

    // ---- what it stands for

    /// The place that it is read from.
    pub fn source(&self) -> Place
        ensures { result ≡ self.now.source }
    {
        self.source
    }

    /// The place that it is written to.
    pub fn sink(&self) -> Place
        ensures { result ≡ self.now.sink }
    {
        self.sink
    }

    /// Whether the end was passed on; an end that couldn't be counts too.
    pub fn has_passed(&self) -> bool
        ensures state { result ≡ is_some self.now.passed_at }
        ensures stands { (c : Command) (past : List Act) (s : ℕ) (w : WayOf) → IsDirection c past s w self.now
            → result ≡ passed c past s w }
    {
        self.passed_at.is_some()
    }

    /// Whether a fault broke it.
    pub fn is_broken(&self) -> bool
        ensures state { result ≡ is_some self.now.broken_at }
        ensures stands { (c : Command) (past : List Act) (s : ℕ) (w : WayOf) → IsDirection c past s w self.now
            → result ≡ broken c past s w }
    {
        self.broken_at.is_some()
    }

    /// The moment at which it was done: it had passed its end or was broken.
    pub fn done_at(&self) -> Option<u64>
        ensures { (c : Command) (past : List Act) (s : ℕ) (w : WayOf) → IsDirection c past s w self.now → result ≡ done_at c past s w }
    {
        match self.passed_at {
            Some(passed) => Some(passed),
            None => self.broken_at,
        }
    }

    /// The bytes to be written next: the first that wait, and all of them where they are one packet.
    pub fn pending(&self) -> &[u8]
        ensures front { result.now ≡ take (length result.now) self.now.flow.backlog }
        ensures some { result.now ≡ [] → self.now.flow.backlog ≡ [] }
        ensures whole { is_some self.now.flow.lane.packets ≡ true → result.now ≡ self.now.flow.backlog }
        ensures bound { length self.now.flow.backlog ≤ 2 * self.now.flow.lane.block }
    {
        self.flow.pending()
    }

    /// How many bytes wait.
    pub fn waiting(&self) -> usize
        ensures state { result ≡ length self.now.flow.backlog }
        ensures stands { (c : Command) (past : List Act) (s : ℕ) (w : WayOf) → IsDirection c past s w self.now
            → result ≡ backlog c past s w }
    {
        self.flow.waiting()
    }

    /// How many bytes may be read next.
    pub fn room(&self) -> usize
        ensures state { result ≡ room_in self.now.flow }
        ensures stands { (c : Command) (past : List Act) (s : ℕ) (w : WayOf) → IsDirection c past s w self.now
            → over c past (input c s w) ≡ false → result ≡ greatest_read c past s w }
    {
        self.flow.room()
    }

    /// Whether each piece that was read goes out as one packet.
    pub fn keeps_borders(&self) -> bool
        ensures state { result ≡ is_some self.now.flow.lane.packets }
        ensures stands { (c : Command) (past : List Act) (s : ℕ) (w : WayOf) → IsDirection c past s w self.now
            → result ≡ keeps_borders c w }
    {
        self.terms.packets.is_some()
    }

    // ---- what it wants

    /// Whether nothing more counts of what may come.
    fn is_over(&self) -> bool
        ensures { (c : Command) (past : List Act) (s : ℕ) (w : WayOf) → IsDirection c past s w self.now
            → result ≡ over c past (input c s w) }
    {
        self.ended || self.flow.over()
    }

    /// Whether the input is over and all was written.
    fn is_spent(&self) -> bool
        ensures { (c : Command) (past : List Act) (s : ℕ) (w : WayOf) → IsDirection c past s w self.now → result ≡ is_spent c past s w }
    {
        self.is_over() && self.flow.spent()
    }

    /// Whether bytes wait for an output that is armed.
    fn may_write(&self) -> bool
        ensures { (c : Command) (past : List Act) (s : ℕ) (w : WayOf) → IsDirection c past s w self.now
            → running c past s ≡ true → broken c past s w ≡ false → result ≡ owes_write c past s w }
    {
        self.armed_out && !self.flow.spent()
    }

    /// What a read costs. The first one after a turn costs nothing.
    pub fn read_price(&self) -> u8
        ensures { result ≡ read_price self.now }
    {
        match (self.asked_in, self.asked_out) {
            (false, _) => 0,
            (true, false) => PRICE,
            (true, true) => GRANTING_PRICE,
        }
    }

    /// What a write costs. The first one after a turn or a read costs nothing.
    pub fn write_price(&self) -> u8
        ensures { result ≡ write_price self.now }
    {
        if self.asked_out { PRICE } else { 0 }
    }

    /// Whether `extra` pays for a read.
    fn can_read(&self, extra: u8) -> bool
        ensures { result ≡ can_read self.now extra }
    {
        self.read_price() <= extra
    }

    /// Whether `extra` pays for a write.
    fn can_write(&self, extra: u8) -> bool
        ensures { result ≡ can_write self.now extra }
    {
        self.write_price() <= extra
    }

    /// A write of the bytes that wait.
    fn want_to_write(&self) -> Want
        ensures wants { (c : Command) (past : List Act) (s : ℕ) (w : WayOf) → IsDirection c past s w self.now
            → passed c past s w ≡ false → owes_write c past s w ≡ true → Wants c past s w result }
        ensures affords { (extra : ℕ) → can_write self.now extra ≡ true → Affords self.now extra result }
        ensures fits { FitsRoom self.now result }
    {
        if self.terms.packets.is_some() {
            Want::Send
        } else {
            Want::Write
        }
    }

    /// What is to be done next while the session runs, where `at` is the moment of the last turn, and `extra` pays for what
    /// is asked more than once since then.
    pub fn want(&self, at: u64, extra: u8) -> Want
        ensures wants { (c : Command) (past : List Act) (s : ℕ) (w : WayOf) → IsDirection c past s w self.now → at ≡ now past
            → running c past s ≡ true → 1 ≤ c.block → Wants c past s w result }
        ensures affords { Affords self.now extra result }
        ensures fits { FitsRoom self.now result }
    {
        if self.is_broken() {
            return Want::Nothing;
        }
        if self.has_passed() {
            return Want::Nothing;
        }
        if self.is_spent() {
            return Want::Shut(self.how);
        }
        if self.reads_on() {
            if let Want::Read(room) = self.want_to_read(at, extra) {
                return Want::Read(room);
            }
        }
        if self.may_write() && self.can_write(extra) {
            return self.want_to_write();
        }
        if self.holds_enough() {
            return Want::Nothing;
        }
        self.want_to_read(at, extra)
    }

    /// Whether it gathers, was asked since the last turn, and less than a block waits, and less than is gathered: then it
    /// is read before it is written.
    fn reads_on(&self) -> bool {
        let enough = GATHERED.min(self.terms.block as usize);
        self.gathers && self.asked_in && self.flow.waiting() < enough
    }

    /// Whether it gathers, was asked since the last turn, and as much waits as is gathered, while the output takes nothing:
    /// to read further ahead would only fill the processor's caches.
    fn holds_enough(&self) -> bool
        ensures asked { result ≡ true → self.now.asked_in ≡ true }
        ensures waits { result ≡ true → self.now.armed_out ≡ false }
    {
        self.gathers && self.asked_in && !self.armed_out && self.flow.waiting() >= GATHERED
    }

    /// Whether the input is armed, and more of it counts.
    fn is_worth_asking(&self, at: u64) -> bool
        ensures { (c : Command) (past : List Act) (s : ℕ) (w : WayOf) → IsDirection c past s w self.now → at ≡ now past
            → result ≡ (armed_to_read past (input c s w) && not (over c past (input c s w))) }
    {
        self.arming.is_armed(at) && !self.is_over()
    }

    /// A read, where the input is worth asking. While more than a block waits, nothing more is read.
    fn want_to_read(&self, at: u64, extra: u8) -> Want
        ensures wants { (c : Command) (past : List Act) (s : ℕ) (w : WayOf) → IsDirection c past s w self.now → at ≡ now past
            → running c past s ≡ true → 1 ≤ c.block → broken c past s w ≡ false → passed c past s w ≡ false
            → is_spent c past s w ≡ false
            → (owes_write c past s w ≡ true → asked_to_write past (input c s w) (output c s w) ≡ true)
            → Wants c past s w result }
        ensures reads { (c : Command) (past : List Act) (s : ℕ) (w : WayOf) (n : ℕ) → IsDirection c past s w self.now
            → at ≡ now past → running c past s ≡ true → broken c past s w ≡ false → passed c past s w ≡ false
            → result ≡ wants.Read n → WantsRead c past s w n }
        ensures affords { Affords self.now extra result }
        ensures fits { FitsRoom self.now result }
    {
        if !self.can_read(extra) {
            return Want::Nothing;
        }
        if !self.is_worth_asking(at) {
            return Want::Nothing;
        }
        let room = self.flow.room();
        if room == 0 {
            return Want::Nothing;
        }
        if self.flow.waiting() > self.terms.block as usize {
            return Want::Nothing;
        }
        Want::Read(room)
    }

    /// Whether an armed half has work left, so that a wait must return at once.
    pub fn works(&self, at: u64) -> bool
        ensures { (c : Command) (past : List Act) (s : ℕ) (w : WayOf) → IsDirection c past s w self.now → at ≡ now past
            → running c past s ≡ true → result ≡ way_work c past s w }
    {
        if self.is_broken() {
            return false;
        }
        if self.flow.spent() {
            self.is_worth_asking(at)
        } else {
            self.armed_out
        }
    }

    /// The moment, later than this one, from which an input that met an end is asked again.
    pub fn moment(&self, at: u64) -> Option<u64>
        ensures { (c : Command) (past : List Act) (s : ℕ) (w : WayOf) → IsDirection c past s w self.now → at ≡ now past
            → running c past s ≡ true → result ≡ later (now past) (input_moment c past s w) }
    {
        if self.is_broken() || self.is_over() {
            None
        } else {
            self.arming.moment(at)
        }
    }

    // ---- what was done

    /// A place was opened, or a peer was accepted there.
    pub fn hear_opening(&mut self, place: Place)
        ensures opened { (c : Command) (past : List Act) (s : ℕ) (w : WayOf) → IsDirection c past s w self.old
            → IsDirection c (acts.Opened place ∷ past) s w self.new }
        ensures accepted { (c : Command) (past : List Act) (s : ℕ) (w : WayOf) (peer : Peer) → IsDirection c past s w self.old
            → IsDirection c (acts.Accepted place peer ∷ past) s w self.new }
        ensures same { steps_in self.new ≡ steps_in self.old }
    {
        self.arming = self.arming.armed_where(place.is(self.source));
        self.armed_out = place.is(self.sink) | self.armed_out;
    }

    /// Bytes were read.
    pub fn hear_read(&mut self, bytes: &[u8])
        requires { length bytes.now ≤ room_in self.old.flow }
        ensures goes { (c : Command) (past : List Act) (s : ℕ) (w : WayOf) → IsDirection c past s w self.old
            → passed c past s w ≡ false → IsDirection c (acts.Read (input c s w) bytes.now ∷ past) s w self.new }
        ensures fewer { steps_in self.new < steps_in self.old + read_price self.old }
    {
        self.asked_in = true;
        self.asked_out = false;
        self.flow.fill(bytes);
    }

    /// Gives the block that was traded for last back for this one, where none of its bytes wait.
    pub fn trade_back(&mut self, block: &mut Vec<u8>)
        ensures same { self.new ≡ self.old }
        ensures block { vec_len block.new ≡ vec_len block.old }
    {
        self.flow.trade_back(block);
    }

    /// The first `count` bytes of this block were read. Where they may wait in it, the direction keeps it, and its own takes
    /// the place of it.
    pub fn hear_block(&mut self, block: &mut Vec<u8>, count: usize)
        requires within { count ≤ vec_len block.old }
        requires room { count ≤ room_in self.old.flow }
        ensures goes { (c : Command) (past : List Act) (s : ℕ) (w : WayOf) → IsDirection c past s w self.old
            → passed c past s w ≡ false
            → IsDirection c (acts.Read (input c s w) (take count block.old.items) ∷ past) s w self.new }
        ensures fewer { steps_in self.new < steps_in self.old + read_price self.old }
        ensures block { vec_len block.new ≡ vec_len block.old }
    {
        self.asked_in = true;
        self.asked_out = false;
        self.flow.fill_block(block, count);
    }

    /// An empty packet was read.
    pub fn hear_empty(&mut self)
        ensures goes { (c : Command) (past : List Act) (s : ℕ) (w : WayOf) → IsDirection c past s w self.old
            → IsDirection c (acts.ReadEmpty (input c s w) ∷ past) s w self.new }
        ensures fewer { steps_in self.new < steps_in self.old + read_price self.old }
    {
        self.asked_in = true;
        self.ended = self.ends_at_empty | self.ended;
    }

    /// The end of the input was read.
    pub fn hear_end(&mut self, at: u64)
        ensures goes { (c : Command) (past : List Act) (s : ℕ) (w : WayOf) → IsDirection c past s w self.old → at ≡ now past
            → IsDirection c (acts.ReadEnd (input c s w) ∷ past) s w self.new }
        ensures fewer { steps_in self.new < steps_in self.old + read_price self.old }
    {
        self.asked_in = true;
        self.arming = Arming::AtEnd(at);
        self.ended = !self.ignores_end | self.ended;
    }

    /// A read found nothing yet.
    pub fn hear_read_not_yet(&mut self)
        ensures goes { (c : Command) (past : List Act) (s : ℕ) (w : WayOf) → IsDirection c past s w self.old
            → IsDirection c (acts.ReadNotYet (input c s w) ∷ past) s w self.new }
        ensures fewer { steps_in self.new < steps_in self.old + read_price self.old }
    {
        self.asked_in = true;
        self.arming = Arming::Disarmed;
    }

    /// A read failed, which breaks a sloppy direction.
    pub fn hear_read_failure(&mut self, at: u64)
        ensures goes { (c : Command) (past : List Act) (s : ℕ) (w : WayOf) → IsDirection c past s w self.old → at ≡ now past
            → IsDirection c (acts.ReadFault (input c s w) ∷ past) s w self.new }
        ensures fewer { steps_in self.new < steps_in self.old + read_price self.old }
    {
        self.asked_in = true;
        self.broken_at = broken_by_fault(self.sloppy, at);
    }

    /// So many of the bytes that wait were written.
    pub fn hear_write(&mut self, count: usize)
        requires within { count ≤ length self.old.flow.backlog }
        requires whole { is_some self.old.flow.lane.packets ≡ true → count ≡ length self.old.flow.backlog }
        ensures goes { (c : Command) (past : List Act) (s : ℕ) (w : WayOf) → IsDirection c past s w self.old → 1 ≤ count
            → passed c past s w ≡ false
            → IsDirection c (acts.Wrote (output c s w) (take count self.old.flow.backlog) ∷ past) s w self.new }
        ensures may { (c : Command) (past : List Act) (s : ℕ) (w : WayOf) → IsDirection c past s w self.old → 1 ≤ count
            → MayOffer c past (output c s w) → MayWrite c past (output c s w) (take count self.old.flow.backlog) }
        ensures fewer { steps_in self.new < steps_in self.old + write_price self.old }
    {
        self.asked_out = true;
        self.flow.took(count);
    }

    /// The output takes nothing yet.
    pub fn hear_write_not_yet(&mut self)
        ensures goes { (c : Command) (past : List Act) (s : ℕ) (w : WayOf) → IsDirection c past s w self.old
            → IsDirection c (acts.WriteNotYet (output c s w) ∷ past) s w self.new }
        ensures fewer { steps_in self.new < steps_in self.old + write_price self.old }
    {
        self.asked_out = true;
        self.armed_out = false;
    }

    /// A write failed, which breaks a sloppy direction.
    pub fn hear_write_failure(&mut self, at: u64)
        ensures goes { (c : Command) (past : List Act) (s : ℕ) (w : WayOf) → IsDirection c past s w self.old → at ≡ now past
            → broken c past s w ≡ false → IsDirection c (acts.WriteFault (output c s w) ∷ past) s w self.new }
        ensures fewer { steps_in self.new < steps_in self.old + write_price self.old }
    {
        self.asked_out = true;
        self.broken_at = broken_by_fault(self.sloppy, at);
    }

    /// The end was passed on, or failed to be.
    pub fn pass_end(&mut self, at: u64)
        ensures shut { (c : Command) (past : List Act) (s : ℕ) (w : WayOf) (way : Shutting) → IsDirection c past s w self.old
            → at ≡ now past → MayShut c past (output c s w) way
            → IsDirection c (acts.Shut (output c s w) way ∷ past) s w self.new }
        ensures failed { (c : Command) (past : List Act) (s : ℕ) (w : WayOf) (way : Shutting) → IsDirection c past s w self.old
            → at ≡ now past → MayShut c past (output c s w) way
            → IsDirection c (acts.ShutFault (output c s w) way ∷ past) s w self.new }
        ensures fewer { is_some self.old.passed_at ≡ false → steps_in self.new < steps_in self.old }
    {
        self.passed_at = Some(at);
    }

    /// A wait has returned, and names nothing yet.
    pub fn wake(&mut self)
        ensures { (c : Command) (past : List Act) (s : ℕ) (w : WayOf) (until : Option ℕ) (at : ℕ)
            → IsDirection c past s w self.old
            → IsDirection c (acts.Turn until at (listed []) false ∷ past) s w self.new }
    {
        self.asked_in = false;
        self.asked_out = false;
    }

    /// The last turn names this half too, which may be one of the direction's.
    pub fn hear_entry(&mut self, entry: ReadyAt)
        ensures goes { (c : Command) (past : List Act) (s : ℕ) (w : WayOf) (until : Option ℕ) (at : ℕ) (names : List Entry)
            → IsDirection c (acts.Turn until at (listed names) false ∷ past) s w self.old
            → IsDirection c (acts.Turn until at (listed (names ++ entry ∷ [])) false ∷ past) s w self.new }
        ensures same { steps_in self.new ≡ steps_in self.old }
    {
        match entry.half {
            Half::ToRead => self.arming = self.arming.armed_where(entry.place.is(self.source)),
            Half::ToWrite => self.armed_out = entry.place.is(self.sink) | self.armed_out,
        }
    }

    /// A law: an act that doesn't touch the direction leaves it, and so does a stop that a turn tells of.
    pub fn stay(&self)
        ensures untouched { (c : Command) (past : List Act) (s : ℕ) (w : WayOf) (act : Act) → touches c s w act ≡ false
            → IsDirection c past s w self.now → IsDirection c (act ∷ past) s w self.now }
        ensures stopped { (c : Command) (past : List Act) (s : ℕ) (w : WayOf) (until : Option ℕ) (at : ℕ) (ready : Listed)
            → IsDirection c (acts.Turn until at ready false ∷ past) s w self.now
            → IsDirection c (acts.Turn until at ready true ∷ past) s w self.now }
    {}
}

/// How the direction passes bytes on.
fn terms_of(config: &Config, way: Way) -> Lane
    ensures { result ≡ terms_of config.now way }
{
    let read = options_of(config, input(config, 0, way));
    let written = options_of(config, output(config, 0, way));
    let packets = if keeps_borders(config, way) {
        Some(u32::from(written.conv.packet_cap()))
    } else {
        None
    };
    Lane {
        block: config.block,
        how: Convs {
            read: read.conv,
            write: written.conv,
        },
        readbytes: read.input.readbytes,
        escape: read.input.escape,
        packets,
    }
}

/// Whether bytes from there come in small pieces, which are gathered.
fn is_gathered(medium: Medium) -> bool
    ensures { result ≡ is_gathered medium }
{
    match medium {
        Medium::Standard | Medium::Storage | Medium::Program => true,
        Medium::Connection | Medium::Datagrams => false,
    }
}

/// The moment at which a fault breaks a direction, if it does.
fn broken_by_fault(sloppy: bool, at: u64) -> Option<u64>
    ensures { result ≡ (if sloppy then Some at else None) }
{
    if sloppy { Some(at) } else { None }
}
