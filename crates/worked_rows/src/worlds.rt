// The script of a row, and the world that it makes.
ghost use Rattle.std.specs.Prelude.{◌≡◌, IfOk};
ghost use Rattle.relay_model.specs.{Place, Free};

use crate::faults::RowFault;
use crate::rows::Line;
use crate::spelling::{act_of, place_of, unquote};
use relay_model::{Act, NoMemory};
use scripted_world::{MemWorld, OpenItem, PeerItem, ReadItem, WriteItem};
use std::alloc::Global;
use world_trait::World;

fn empty(alloc: Global) -> MemWorld
    ensures { (p : Place) → (⟦<MemWorld as World>⟧.seen result).held p ≡ Free }
{
    MemWorld::new(alloc)
}

/// The world of a script.
pub fn world_of(alloc: Global, script: &[Line<'_>]) -> Result<MemWorld, RowFault>
    ensures { IfOk result (λ world. (p : Place) → (⟦<MemWorld as World>⟧.seen world).held p ≡ Free) }
{
    let mut world = empty(alloc);
    for line in script {
        add_line(alloc, &mut world, *line)?;
    }
    Ok(world)
}

/// Adds what a line of a script says: a moment, and an item.
fn add_line(alloc: Global, world: &mut MemWorld, line: Line<'_>) -> Result<(), RowFault>
    requires free { (p : Place) → (⟦<MemWorld as World>⟧.seen world.old).held p ≡ Free }
    ensures free { (p : Place) → (⟦<MemWorld as World>⟧.seen world.new).held p ≡ Free }
{
    let (moment, item) = line.parts();
    let at = moment.parse().map_err(|_| line.fault())?;
    let item = unquote(alloc, item)?.ok_or(line.fault())?;
    if add_item(alloc, world, at, item.as_str())? {
        Ok(())
    } else {
        Err(line.fault())
    }
}

/// Adds an item that is due at this moment, if the text spells one.
fn add_item(alloc: Global, world: &mut MemWorld, at: u64, item: &str) -> Result<bool, NoMemory>
    requires free { (p : Place) → (⟦<MemWorld as World>⟧.seen world.old).held p ≡ Free }
    ensures free { (p : Place) → (⟦<MemWorld as World>⟧.seen world.new).held p ≡ Free }
{
    if item == "stop" {
        world.add_stop(at)?;
        return Ok(true);
    }
    if let Some(rest) = item.strip_prefix("upto ") {
        return add_limit(alloc, world, at, rest);
    }
    match act_of(alloc, item)? {
        Some(act) => add_act(world, at, &act),
        None => Ok(false),
    }
}

/// Adds a write that takes so many bytes at most: a place and a number.
fn add_limit(alloc: Global, world: &mut MemWorld, at: u64, text: &str) -> Result<bool, NoMemory>
    requires free { (p : Place) → (⟦<MemWorld as World>⟧.seen world.old).held p ≡ Free }
    ensures free { (p : Place) → (⟦<MemWorld as World>⟧.seen world.new).held p ≡ Free }
{
    let (place, most) = text.split_once(' ').unwrap_or((text, ""));
    let most = most.parse().unwrap_or(0);
    match place_of(alloc, place)? {
        Some(place) if most > 0 => {
            world.add_write(place, at, WriteItem::Upto(most))?;
            Ok(true)
        }
        _ => Ok(false),
    }
}

/// Adds the item that makes a world answer this act, if there is one.
fn add_act(world: &mut MemWorld, at: u64, act: &Act) -> Result<bool, NoMemory>
    requires free { (p : Place) → (⟦<MemWorld as World>⟧.seen world.old).held p ≡ Free }
    ensures free { (p : Place) → (⟦<MemWorld as World>⟧.seen world.new).held p ≡ Free }
{
    if add_transfer(world, at, act)? || add_peer(world, at, act)? {
        return Ok(true);
    }
    Ok(at == 0 && (add_opening(world, act)? || add_ending(world, act)?))
}

fn add_transfer(world: &mut MemWorld, at: u64, act: &Act) -> Result<bool, NoMemory>
    requires free { (p : Place) → (⟦<MemWorld as World>⟧.seen world.old).held p ≡ Free }
    ensures free { (p : Place) → (⟦<MemWorld as World>⟧.seen world.new).held p ≡ Free }
{
    match act {
        Act::Read(place, bytes) if bytes.len() > 0 => {
            world.add_read(*place, at, ReadItem::Bytes(bytes.copy()?))?;
        }
        Act::ReadEmpty(place) => world.add_read(*place, at, ReadItem::Empty)?,
        Act::ReadEnd(place) => world.add_read(*place, at, ReadItem::End)?,
        Act::ReadFault(place) => world.add_read(*place, at, ReadItem::Fault)?,
        Act::WriteNotYet(place) => world.add_write(*place, at, WriteItem::NotYet)?,
        Act::WriteFault(place) => world.add_write(*place, at, WriteItem::Fault)?,
        _ => return Ok(false),
    }
    Ok(true)
}

/// Adds what comes to a door, which stands in the place of the one that is accepted.
fn add_peer(world: &mut MemWorld, at: u64, act: &Act) -> Result<bool, NoMemory>
    requires free { (p : Place) → (⟦<MemWorld as World>⟧.seen world.old).held p ≡ Free }
    ensures free { (p : Place) → (⟦<MemWorld as World>⟧.seen world.new).held p ≡ Free }
{
    match act {
        Act::Accepted(door, peer) if door.door => {
            world.add_peer(*door, at, PeerItem::Comes(*peer))?;
        }
        Act::AcceptFailed(door) if door.door => world.add_peer(*door, at, PeerItem::Fails)?,
        _ => return Ok(false),
    }
    Ok(true)
}

fn add_opening(world: &mut MemWorld, act: &Act) -> Result<bool, NoMemory>
    requires free { (p : Place) → (⟦<MemWorld as World>⟧.seen world.old).held p ≡ Free }
    ensures free { (p : Place) → (⟦<MemWorld as World>⟧.seen world.new).held p ≡ Free }
{
    match act {
        Act::Opened(place) if !place.door => world.add_open(*place, 0, OpenItem::Opens)?,
        Act::OpenLater(place) if !place.door => world.add_open(*place, 0, OpenItem::Later)?,
        Act::OpenFailed(place) if !place.door => world.add_open(*place, 0, OpenItem::Fails)?,
        Act::Listening(door) if door.door => world.add_open(*door, 0, OpenItem::Opens)?,
        Act::ListenFailed(door) if door.door => world.add_open(*door, 0, OpenItem::Fails)?,
        _ => return Ok(false),
    }
    Ok(true)
}

fn add_ending(world: &mut MemWorld, act: &Act) -> Result<bool, NoMemory>
    requires free { (p : Place) → (⟦<MemWorld as World>⟧.seen world.old).held p ≡ Free }
    ensures free { (p : Place) → (⟦<MemWorld as World>⟧.seen world.new).held p ≡ Free }
{
    match act {
        Act::ShutFault(place, _) => world.add_shut_fault(*place)?,
        Act::Reaped(place, end) => world.add_reap(*place, *end)?,
        _ => return Ok(false),
    }
    Ok(true)
}
