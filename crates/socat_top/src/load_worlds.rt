// The world of a generated run.
ghost use Rattle.std.specs.Prelude.{◌≡◌, ◌<◌, ◌++◌, ◌∷◌, [], false, Some, IfOk, OnOk};
ghost use Rattle.relay_model.specs.{Place, Free};
ghost use Rattle.socat_top.specs.Scripts.{end_line, left_place, peer_line, pieces, right_place, script_of, session_writes};
ghost use Rattle.socat_top.specs.Stream.{state_after};

use crate::streams::Generator;
use relay_model::{NoMemory, Part, Peer, Place, Side};
use scripted_world::{MemWorld, PeerItem, ReadItem, WriteItem};
use std::alloc::Global;
use world_trait::World;

/// How many sessions there are.
pub const SESSIONS: u32 = 50;

/// How many pieces the input of each has, one a moment.
const PIECES: u64 = 128;

/// The moment at which each input ends.
const END: u64 = 127;

/// How many writes of each kind are told of.
const WRITES: u32 = 300;

/// How many bytes one of them takes at most.
const MOST_TAKEN: u32 = 300;

/// The door of the peers.
const DOOR: Place = Place {
    session: 0,
    side: Side::Left,
    part: Part::Both,
    door: true,
};

/// The world of the generated run of this number: fifty peers, each with bytes of the number's stream.
pub fn load_world(alloc: Global, number: u64) -> Result<MemWorld, NoMemory>
    ensures script { IfOk result (λ world. world.script ≡ script_of number 50) }
    ensures told { IfOk result (λ world. (⟦<MemWorld as World>⟧.seen world).told ≡ Some (record { acts = []; asked = [] })) }
    ensures free { IfOk result (λ world. (p : Place) → (⟦<MemWorld as World>⟧.seen world).held p ≡ Free) }
{
    let mut world = MemWorld::new(alloc);
    let mut generator = Generator::new(number);
    for session in 0..SESSIONS {
        add_peer(&mut world, session)?;
        add_pieces(alloc, &mut world, session, &mut generator)?;
        add_ends(&mut world, session)?;
        add_writes(&mut world, session)?;
    }
    Ok(world)
}

/// The place of a session on this side.
fn place_of(session: u32, side: Side) -> Place
    ensures { result ≡ record { session = session; side = side; part = Part.Both; door = false } }
{
    Place {
        session,
        side,
        part: Part::Both,
        door: false,
    }
}

/// The peer of a session, which comes at once.
fn add_peer(world: &mut MemWorld, session: u32) -> Result<(), NoMemory>
    requires { session < 50 }
    ensures script { OnOk result (world.new.script ≡ record world.old.script { peers = world.old.script.peers ++ peer_line session ∷ [] }) }
    ensures told { (⟦<MemWorld as World>⟧.seen world.new).told ≡ (⟦<MemWorld as World>⟧.seen world.old).told }
    ensures held { (p : Place) → (⟦<MemWorld as World>⟧.seen world.new).held p ≡ (⟦<MemWorld as World>⟧.seen world.old).held p }
{
    let peer = Peer::V4 {
        addr: [127, 0, 0, 1],
        port: 1001 + session as u16,
    };
    world.add_peer(DOOR, 0, PeerItem::Comes(peer))
}

/// The bytes of a session, at its left place.
fn add_pieces(
    alloc: Global,
    world: &mut MemWorld,
    session: u32,
    generator: &mut Generator,
) -> Result<(), NoMemory>
    ensures script { OnOk result (world.new.script ≡ record world.old.script { reads = world.old.script.reads ++ pieces session 128 generator.old.state }) }
    ensures state { OnOk result (generator.new.state ≡ state_after 65536 generator.old.state) }
    ensures told { (⟦<MemWorld as World>⟧.seen world.new).told ≡ (⟦<MemWorld as World>⟧.seen world.old).told }
    ensures held { (p : Place) → (⟦<MemWorld as World>⟧.seen world.new).held p ≡ (⟦<MemWorld as World>⟧.seen world.old).held p }
{
    for moment in 0..PIECES {
        let piece = generator.piece(alloc)?;
        world.add_read(
            place_of(session, Side::Left),
            moment,
            ReadItem::Bytes(piece),
        )?;
    }
    Ok(())
}

/// The ends of both inputs of a session.
fn add_ends(world: &mut MemWorld, session: u32) -> Result<(), NoMemory>
    ensures script { OnOk result (world.new.script ≡ record world.old.script
        { reads = world.old.script.reads ++ end_line (left_place session) ∷ end_line (right_place session) ∷ [] }) }
    ensures told { (⟦<MemWorld as World>⟧.seen world.new).told ≡ (⟦<MemWorld as World>⟧.seen world.old).told }
    ensures held { (p : Place) → (⟦<MemWorld as World>⟧.seen world.new).held p ≡ (⟦<MemWorld as World>⟧.seen world.old).held p }
{
    world.add_read(place_of(session, Side::Left), END, ReadItem::End)?;
    world.add_read(place_of(session, Side::Right), END, ReadItem::End)
}

/// What becomes of the writes to the right place of a session: some bytes are taken, and none yet, in turn.
fn add_writes(world: &mut MemWorld, session: u32) -> Result<(), NoMemory>
    ensures script { OnOk result (world.new.script ≡ record world.old.script { writes = world.old.script.writes ++ session_writes session 300 }) }
    ensures told { (⟦<MemWorld as World>⟧.seen world.new).told ≡ (⟦<MemWorld as World>⟧.seen world.old).told }
    ensures held { (p : Place) → (⟦<MemWorld as World>⟧.seen world.new).held p ≡ (⟦<MemWorld as World>⟧.seen world.old).held p }
{
    let place = place_of(session, Side::Right);
    for _ in 0..WRITES {
        world.add_write(place, 0, WriteItem::Upto(MOST_TAKEN))?;
        world.add_write(place, 0, WriteItem::NotYet)?;
    }
    Ok(())
}
