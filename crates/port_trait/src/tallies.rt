// Each answer of a port is counted once, as its kind says.

ghost use Rattle.std.specs.Prelude.{◌≡◌};
ghost use Rattle.port_trait.specs.Counting.{Tallied};
ghost use Rattle.port_trait.specs.Meanings.{begin_event, settle_event, read_event, write_event, shut_event, is_end};
ghost use Rattle.port_trait.specs.Counted.{counted};

use crate::answers::{Begun, Got, Settled, Shutting, Took};
use crate::counts::PortCounts;

/// Whether a read answered the end.
pub fn is_end(got: Got) -> bool
    ensures { result ≡ is_end got }
{
    match got {
        Got::End => true,
        Got::Bytes(_) | Got::Empty | Got::NotYet | Got::Failed => false,
    }
}

/// A beginning that fails is a fault.
pub fn count_beginning(counts: &mut PortCounts, begun: Begun)
    ensures counted { counts.new ≡ counted (begin_event begun) counts.old }
    ensures tallied { Tallied (begin_event begun) counts.old counts.new }
{
    match begun {
        Begun::Begun | Begun::Memory => {}
        Begun::Failed => counts.count_fault(),
    }
}

/// A settling that isn't over is a stall, and a failed one a fault.
pub fn count_settling(counts: &mut PortCounts, settled: Settled)
    ensures counted { counts.new ≡ counted (settle_event settled) counts.old }
    ensures tallied { Tallied (settle_event settled) counts.old counts.new }
{
    match settled {
        Settled::Ready => {}
        Settled::NotYet => counts.count_stall(),
        Settled::Failed => counts.count_fault(),
    }
}

/// What a read came to, where it gave no bytes.
pub fn count_reading(counts: &mut PortCounts, got: Got)
    ensures counted { counts.new ≡ counted (read_event got) counts.old }
    ensures tallied { Tallied (read_event got) counts.old counts.new }
{
    match got {
        Got::Bytes(_) => {}
        Got::Empty => counts.count_empty(),
        Got::End => counts.count_end(),
        Got::NotYet => counts.count_stall(),
        Got::Failed => counts.count_fault(),
    }
}

/// A write that takes nothing yet is a stall, and a failed one a fault.
pub fn count_writing(counts: &mut PortCounts, took: Took)
    ensures counted { counts.new ≡ counted (write_event took) counts.old }
    ensures tallied { Tallied (write_event took) counts.old counts.new }
{
    match took {
        Took::Took(_) => {}
        Took::NotYet => counts.count_stall(),
        Took::Failed => counts.count_fault(),
    }
}

/// A shut that fails is a fault.
pub fn count_shutting(counts: &mut PortCounts, shutting: Shutting)
    ensures counted { counts.new ≡ counted (shut_event shutting) counts.old }
    ensures tallied { Tallied (shut_event shutting) counts.old counts.new }
{
    match shutting {
        Shutting::Done => {}
        Shutting::Failed => counts.count_fault(),
    }
}
