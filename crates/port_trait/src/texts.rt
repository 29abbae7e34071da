// Bytes and texts, written to a sink as a whole.

ghost use Rattle.std.specs.Prelude.{◌≡◌, ◌≤◌, ◌++◌, true, false, length, take, option_map};
ghost use Rattle.std.specs.Bool.{OnTrue, OnFalse};
ghost use Rattle.std.specs.Io.KnownBytes.{Appends};
ghost use Rattle.port_trait.specs.Counting.{Counted, Rose};

use crate::answers::SinkTook;
use crate::streams::Sink;

/// Writes all of a text and finishes the sink; false once either fails.
#[tactic(auto, using(crate::proofs::Holding::held_more, crate::proofs::Holding::held_all))]
pub fn write_whole<K: Sink>(sink: &mut K, text: &[u8]) -> bool
    ensures took { OnTrue result (K.took sink.new ≡ option_map (λ all. all ++ text.now) (K.took sink.old)) }
    ensures held { OnTrue result (Appends (K.holds sink.old) (K.holds sink.new) text.now) }
    ensures finished { OnTrue result (K.finished sink.new ≡ true) }
    ensures failed { OnFalse result (Rose (K.faults sink.old) (K.faults sink.new)) }
{
    let mut rest = text;
    while rest.len() > 0 {
        match sink.write(rest) {
            SinkTook::Took(count) => rest = &rest[count..],
            SinkTook::Failed => return false,
        }
    }
    sink.finish()
}

/// Writes until all bytes are taken or the sink fails, and counts what it took.
pub fn write_front<K: Sink>(sink: &mut K, bytes: &[u8]) -> (usize, bool)
    ensures bound { result.0 ≤ length bytes.now }
    ensures all { result.1 ≡ false → result.0 ≡ length bytes.now }
    ensures taken { K.took sink.new ≡ option_map (λ all. all ++ take result.0 bytes.now) (K.took sink.old) }
    ensures held { Appends (K.holds sink.old) (K.holds sink.new) (take result.0 bytes.now) }
    ensures faults { Counted result.1 (K.faults sink.old) (K.faults sink.new) }
{
    let mut count = 0;
    while count < bytes.len() {
        match sink.write(&bytes[count..]) {
            SinkTook::Took(more) => count += more,
            SinkTook::Failed => return (count, true),
        }
    }
    (count, false)
}
