// The port of a source that a thread reads.
ghost use Rattle.std.specs.Prelude.{◌≡◌, ◌≤◌, true, IfOk};
ghost use Rattle.port_trait.specs.{Rose};
ghost use Rattle.ring_reader.specs.Readers.{fresh_reader};

use crate::held::HeldChunk;
use crate::reader_stage::ReaderStage;
use crate::reader_start::launch;
use crate::reader_steps::Pace;
use crate::reader_thread::{Block, Feeder};
use port_trait::{Account, Source, Spawner, Wake};
use relay_model::NoMemory;
use ring_queue::{Lines, OrderedPass, RingItem, RingTally, ThreadHold, Word, make_lines};
use std::alloc::Global;
use std::marker::Model;
use std::snapshot::Snapshot;
use std::sync::{Arc, Wait};
use std::thread::Threads;

/// The words that the queue that goes back has room for.
const WORDS: usize = 2;

/// A ring whose thread reads a source that may block. Its other half fails.
#[derive(Drop)]
pub struct RingReader<S, R>
where
    S: Source + Drop,
{
    pub(crate) rt: R,
    pub(crate) lines: Arc<Lines<Word>, Global>,
    pub(crate) hold: ThreadHold<Word>,
    pub(crate) start: Snapshot<S>,
    pub(crate) items: OrderedPass<RingItem>,
    pub(crate) words: OrderedPass<Word>,
    pub(crate) held: HeldChunk,
    pub(crate) marked: bool,
    pub(crate) ended: bool,
    pub(crate) stage: ReaderStage<S>,
    pub(crate) tally: RingTally,
    pub(crate) pace: Pace,
    pub(crate) account: Account,
}

impl<S, R> Model for RingReader<S, R>
where
    S: Source + Drop,
{
    ghost use Rattle.crossbeam_queue.specs.Passes.{view as known, IsPassOf};
    ghost use Rattle.ring_reader.specs.Readers.{ReaderState};

    ghost Value = { ReaderState };

    ghost use Rattle.std.specs.Prelude.{◌≡◌};
    ghost use Rattle.ring_reader.specs.Readers.{IsReading, is_begun, is_refused, behind_of};

    ghost view = { λ r. record {
      had = S.left r.start.value;
      taken = (known r.items).taken;
      held = r.held;
      marked = r.marked;
      ended = r.ended;
      begun = is_begun r.stage;
      refused = is_refused r.stage;
      tally = r.tally;
      behind = behind_of S.left S.faults S.ends r.start.value (known r.items).taken r.stage;
      shuts = r.account.passed.shuts;
    } };

    ghost invariant = { λ r. IsPassOf r.lines.value.items r.items × IsPassOf r.lines.value.back r.words
        × IsReading S.left S.faults S.ends r.lines.value r.start.value (known r.items) (known
        r.words) r.held r.marked r.ended r.tally.misuses r.tally.counts r.stage × (r.hold ≡ is_begun r.stage) };
}

impl<S: Source + Send + Drop + 'static, R: Threads + Wait + Copy + Send + 'static> RingReader<
    S,
    R,
> {
    /// A ring that is to read this source. Its queues have room for 64 items of at most 512 bytes. The thread is
    /// made here and waits for `begin`; where it can't be made, the source is dropped, and `begin` fails. Once the ring
    /// is dropped, the thread ends as soon as it has no more to wait for than the ring.
    pub fn new<P: Spawner<Runtime = R>, W: Wake + Send + Drop + 'static>(
        alloc: Global,
        source: S,
        spawner: &mut P,
        wake: W,
    ) -> Result<RingReader<S, R>, NoMemory>
        ensures grows { P.faults spawner.old ≤ P.faults spawner.new }
        ensures fresh { IfOk result (λ ring. ring ≡ fresh_reader (S.left source) ring.refused) }
        ensures refused { IfOk result (λ ring. ring.refused ≡ true → Rose (P.faults spawner.old) (P.faults spawner.new)) }
    {
        let ends = make_lines::<Word>(alloc, WORDS)?;
        let block = Block::new(alloc)?;
        let rt = *spawner.threads();
        let start = Snapshot::of(&source);
        let feeder = Feeder::new(rt, ends.thread, source, wake, block, ends.sending);
        let stage = ReaderStage::of(launch(spawner, feeder));
        Ok(RingReader {
            rt,
            lines: ends.port,
            hold: ends.hold,
            start,
            items: ends.taking.items,
            words: ends.taking.back,
            held: HeldChunk::new(ends.taking.spent),
            marked: false,
            ended: false,
            stage,
            tally: RingTally::new(),
            pace: Pace::new(),
            account: Account::new(),
        })
    }
}
