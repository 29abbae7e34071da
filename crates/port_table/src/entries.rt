// A made port, seen by contracts as what it tells.
use port_trait::Port;
use relay_model::Place;
use std::marker::Model;

/// A port that was made for a place.
#[derive(Drop)]
pub struct PortEntry<T: Port> {
    pub place: Place,
    pub port: T,
}

impl<T: Port> Model for PortEntry<T> {
    ghost use Rattle.port_table.specs.Ports.{EntrySeen};

    ghost Value = { EntrySeen };

    ghost view = { λ entry. record { place = entry.place; port = T.seen entry.port } };
}
