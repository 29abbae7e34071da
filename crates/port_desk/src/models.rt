// A desk as its callers see it.
ghost use Rattle.slab.specs.Slab.{get};
ghost use Rattle.desk_places.specs.{hold_at};
ghost use Rattle.port_desk.specs.Models.{DeskModel};

use crate::beginnings::Beginning;
use crate::desk::Desk;
use port_trait::{Maker, Poller, Port};

/// What the callers of a desk are told of it.
pub trait Modelled {
    ghost model: { Self → DeskModel };
}

impl<M: Maker + Drop, P: Poller + Drop, I: Port, O: Port, E: Port, B: Beginning> Modelled
    for Desk<M, P, I, O, E, B> {
    ghost model = { λ d. record {
      stdin = d.ports.table.input;
      stdout = d.ports.table.output;
      stderr = d.ports.table.errors;
      made = get d.ports.table.made;
      history = d.log.recording.told;
      held = hold_at d.log.places.entries;
      counts = d.log.counts;
      acted = d.log.acted;
    } };
}
