// The bytes that were read or written at a place, and how a dump would have shown those that were read.
ghost use Rattle.std.specs.Prelude.{◌≡◌, ◌≢◌, ◌∷◌, ◌+◌, ◌<◌, ◌^◌, ◌-◌, List, length, min, IfOk, OnOk};
ghost use Rattle.relay_model.specs.{Act, got, put};
ghost use Rattle.history_facts.specs.{acts};
ghost use Rattle.journal_table.specs.Streams.{shown_piece, dumped, DumpedSoFar};

use dump_format::push_dump;
use relay_model::{Act, Bytes, Dump, NoMemory, Place, Way};
use std::alloc::Global;

/// Takes in what was written at the place by one more act.
fn note_written(written: &mut Vec<u8>, place: Place, act: &Act) -> Result<(), NoMemory>
    ensures { OnOk result ((past : List Act) → written.old.items ≡ put past place → written.new.items ≡ put (act.now ∷ past) place) }
{
    match act {
        Act::Wrote(at, piece) if at.is(place) => {
            written.extend_from_slice(piece.as_slice())?;
            Ok(())
        }
        _ => Ok(()),
    }
}

/// Takes in what was read at the place by one more act.
fn note_read(read: &mut Vec<u8>, place: Place, act: &Act) -> Result<(), NoMemory>
    ensures { OnOk result ((past : List Act) → read.old.items ≡ got past place → read.new.items ≡ got (act.now ∷ past) place) }
{
    match act {
        Act::Read(at, piece) if at.is(place) => {
            read.extend_from_slice(piece.as_slice())?;
            Ok(())
        }
        _ => Ok(()),
    }
}

/// The bytes that were written at the place, by these acts, the newest first.
pub fn bytes_written(alloc: Global, all: &[&Act], place: Place) -> Result<Vec<u8>, NoMemory>
    ensures { IfOk result (λ bytes. bytes.items ≡ put (acts all.now) place) }
{
    let mut bytes = Vec::new(alloc);
    let mut k = all.len();
    while k > 0 {
        k -= 1;
        let act: &Act = all[k];
        note_written(&mut bytes, place, act)?;
    }
    Ok(bytes)
}

/// The bytes that were read at the place, by these acts, the newest first.
pub fn bytes_read(alloc: Global, all: &[&Act], place: Place) -> Result<Vec<u8>, NoMemory>
    ensures { IfOk result (λ bytes. bytes.items ≡ got (acts all.now) place) }
{
    let mut bytes = Vec::new(alloc);
    let mut k = all.len();
    while k > 0 {
        k -= 1;
        let act: &Act = all[k];
        note_read(&mut bytes, place, act)?;
    }
    Ok(bytes)
}

/// A dump in the making.
#[derive(Drop)]
pub struct Dumping {
    /// The text so far.
    pub text: Vec<u8>,
    /// How many bytes were read so far; it stops at the greatest number.
    pub from: u64,
}

/// A piece that was read there is shown.
fn push_piece(dumping: &mut Dumping, way: Way, style: Dump, piece: &Bytes) -> Result<(), NoMemory>
    requires { style ≢ Dump.Off }
    ensures text { OnOk result (dumping.new.text.items ≡ shown_piece style way dumping.old.from dumping.old.text.items piece.now) }
    ensures from { OnOk result (dumping.new.from ≡ min (dumping.old.from + length piece.now) (2 ^ 64 - 1)) }
{
    let from = dumping.from;
    dumping.from = from.saturating_add(piece.len() as u64);
    if piece.len() > 0 {
        push_dump(&mut dumping.text, way, style, from, piece.as_slice())?;
    }
    Ok(())
}

fn note_dump(
    dumping: &mut Dumping,
    place: Place,
    way: Way,
    style: Dump,
    act: &Act,
) -> Result<(), NoMemory>
    requires { style ≢ Dump.Off }
    ensures { OnOk result ((past : List Act) → DumpedSoFar style way place dumping.old past → DumpedSoFar style way place dumping.new (act.now ∷ past)) }
{
    match act {
        Act::Read(at, piece) if at.is(place) => push_piece(dumping, way, style, piece),
        _ => Ok(()),
    }
}

/// How a dump in this style shows what was read at the place, by these acts, the newest first.
pub fn dump_stream(
    alloc: Global,
    all: &[&Act],
    place: Place,
    way: Way,
    style: Dump,
) -> Result<Vec<u8>, NoMemory>
    requires { style ≢ Dump.Off }
    ensures { IfOk result (λ text. text.items ≡ dumped style way (acts all.now) place) }
{
    let mut dumping = Dumping {
        text: Vec::new(alloc),
        from: 0,
    };
    let mut k = all.len();
    while k > 0 {
        k -= 1;
        let act: &Act = all[k];
        note_dump(&mut dumping, place, way, style, act)?;
    }
    Ok(dumping.text)
}
