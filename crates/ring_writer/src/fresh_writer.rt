// A writing ring before its first call. Its type doesn't name the runtime by which its port waits.
ghost use Rattle.std.specs.Prelude.{◌≡◌, ◌≤◌, true, IfOk};
ghost use Rattle.port_trait.specs.{Rose};
ghost use Rattle.ring_writer.specs.WriterRing.{fresh_line};
ghost use Rattle.ring_writer.specs.Writers.{fresh_writer};

use crate::writer::RingWriter;
use crate::writer_outlet::Outlet;
use crate::writer_puts::Putter;
use crate::writer_stages::{WriterStage, start_thread};
use crate::writer_thread::{GATHERED, WriterWork};
use port_trait::{Account, Sink, Spawner, Wake};
use relay_model::NoMemory;
use ring_queue::{RingTally, SinkFault, ThreadHold, make_lines};
use std::alloc::Global;
use std::marker::Model;
use std::snapshot::Snapshot;
use std::sync::Wait;
use std::thread::Threads;

/// How many fault marks may lie untaken. Those that find no room are dropped, since the others tell the same.
const MARKS: usize = 64;

/// A ring that was just made.
#[derive(Drop)]
pub struct FreshWriter<K>
where
    K: Sink + Drop,
{
    hold: ThreadHold<SinkFault>,
    stage: WriterStage<K>,
}

impl<K> Model for FreshWriter<K>
where
    K: Sink + Drop,
{
    ghost use Rattle.std.specs.Prelude.{◌≡◌};
    ghost use Rattle.ring_writer.specs.WriterRing.{WriterLine, WriterStands, line_of, fresh_line};

    ghost Value = { WriterLine };

    ghost view = { λ w. line_of K.took K.faults K.finished w.stage };

    ghost invariant = { λ w. WriterStands K.took K.faults K.finished w.stage
        × (line_of K.took K.faults K.finished w.stage
        ≡ fresh_line (line_of K.took K.faults K.finished w.stage).had (line_of K.took K.faults K.finished w.stage).refused) };
}

impl<K: Sink + Send + Drop + 'static> FreshWriter<K> {
    /// A ring that is to write to this sink, as `RingWriter::new` makes it.
    pub fn new<R, P, W>(
        alloc: Global,
        sink: K,
        spawner: &mut P,
        wake: W,
    ) -> Result<FreshWriter<K>, NoMemory>
    where
        R: Threads + Wait + Copy + Send + 'static,
        P: Spawner<Runtime = R>,
        W: Wake + Send + Drop + 'static,
        ensures grows { P.faults spawner.old ≤ P.faults spawner.new }
        ensures fresh { IfOk result (λ ring. ring ≡ fresh_line (K.took sink) ring.refused) }
        ensures refused { IfOk result (λ ring. ring.refused ≡ true → Rose (P.faults spawner.old) (P.faults spawner.new)) }
    {
        let ends = make_lines::<SinkFault>(alloc, MARKS)?;
        let buffer = Vec::with_capacity(alloc, GATHERED)?;
        let putter = Putter::new(ends.port, ends.sending);
        let begun = Snapshot::of(&sink);
        let work = WriterWork {
            rt: *spawner.threads(),
            lines: ends.thread,
            outlet: Outlet::new(sink),
            wake,
            taker: ends.taking.items,
            sender: ends.taking.back,
            spent: ends.taking.spent,
            buffer,
        };
        let task = start_thread(spawner, work);
        Ok(FreshWriter {
            hold: ends.hold,
            stage: WriterStage::of(putter, begun, task),
        })
    }
}

impl<K: Sink + Drop> FreshWriter<K> {
    /// The ring, whose port waits by this runtime.
    pub fn attach<R>(self, rt: R) -> RingWriter<K, R>
        ensures line { result.line ≡ self }
        ensures fresh { result ≡ fresh_writer self.had self.refused }
    {
        let FreshWriter { hold, stage } = self;
        RingWriter {
            rt,
            _hold: hold,
            stage,
            tally: RingTally::new(),
            account: Account::new(),
        }
    }
}
