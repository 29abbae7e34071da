// Makers open what isn't a standard stream, and hand out the ports of it.
ghost use Rattle.port_trait.specs.Makers.{MakerSeen, Opens, Listens, LetsIn};
ghost use Rattle.port_trait.specs.declared.makers.AskedPlace.{AskedPlace};
ghost use Rattle.port_trait.specs.declared.makers.Making.{Making};
ghost use Rattle.port_trait.specs.declared.makers.MadePeer.{MadePeer};
ghost use Rattle.relay_model.specs.{Single};

use crate::ports::Port;
use relay_model::{Peer, Place, Single};

/// What opening or listening came to. `Later` is under way.
#[derive(Drop)]
pub enum Making<T> {
    Made(T),
    Later(T),
    Failed,
    Memory,
}

/// What accepting came to.
#[derive(Drop)]
pub enum MadePeer<T> {
    Came(T, Peer),
    NoPeer,
    Failed,
    Memory,
}

/// What an opening is asked for: the address, and the peer that the session of the place was begun for.
#[derive(Drop)]
pub struct AskedPlace {
    pub place: Place,
    pub single: Single,
    pub behind: Option<Peer>,
}

/// What makes ports for addresses. `key` is the caller's name for the new port.
pub trait Maker {
    type Made: Port;
    // what contracts see of it
    ghost seen: { Self → MakerSeen };
    // what each call answers between two states. A contract over any maker can name the answer of a call by these alone,
    // so it holds only of a caller that makes this one call
    ghost makes: { Self → AskedPlace → Self → Making Self.Made → Type 0 } = { λ _ _ _ _. Unit {0} };

    ghost listens: { Self → Single → Self → Making Self.Made → Type 0 } = { λ _ _ _ _. Unit {0} };

    ghost accepts: { Self → Self → MadePeer Self.Made → Type 0 } = { λ _ _ _. Unit {0} };

    /// Opens the address, at `behind` an accepted peer's session.
    fn make(
        &mut self,
        key: usize,
        place: Place,
        single: &Single,
        behind: Option<Peer>,
    ) -> Making<Self::Made>
        ensures made { makes self.old (record { place = place; single = single.now; behind = behind }) self.new result }
        ensures opens { Opens (seen self.old) (seen self.new) (record { place = place; single = single.now; behind = behind }) result };

    /// Listens at the address. It never answers `Later`.
    fn listen(&mut self, key: usize, single: &Single) -> Making<Self::Made>
        ensures made { listens self.old single.now self.new result }
        ensures listens { Listens (seen self.old) (seen self.new) result };

    /// Takes one peer at the door, which neither gives nor takes bytes by it.
    fn accept(&mut self, door: &mut Self::Made, key: usize) -> MadePeer<Self::Made>
        ensures made { accepts self.old self.new result }
        ensures lets_in { LetsIn (seen self.old) (seen self.new) (Self.Made.seen door.old) (Self.Made.seen door.new) result };
}
