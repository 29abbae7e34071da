// What is known of each session, kept up with each act: when it last moved, why it ended, and how many there are.
ghost use Rattle.std.specs.Prelude.{◌≡◌, ◌∷◌, ◌&&◌, ℕ, Some, List, [], if◌then◌else◌, OnOk};
ghost use Rattle.relay_model.specs.{Config, Act, is_place_of, is_of, now, permits, is_admission, is_end};
ghost use Rattle.history_facts.specs.Tables.{numbered};
ghost use Rattle.history_facts.specs.Told.{MovesTold, CausesTold, AdmittedTold, SessionsTold};

use crate::numbered::Numbered;
use command_places::{has_fork, is_left, is_of, is_place_of, options_of};
use peer_filter::Filter;
use relay_model::{Act, Config, NoMemory, Peer, Place, Why};
use std::alloc::Global;

/// What is known of sessions.
#[derive(Drop)]
pub struct SessionFacts {
    /// When each last moved.
    pub moved: Numbered<u64>,
    /// The reason of the closing that ended it.
    pub closed: Numbered<Option<Why>>,
    /// How many permitted peers there were.
    pub admitted: u64,
}

impl SessionFacts {
    /// What holds before any act.
    pub fn new(alloc: Global) -> SessionFacts
        ensures { (c : Config) → SessionsTold c result [] }
    {
        SessionFacts {
            moved: Numbered::new(alloc, 0),
            closed: Numbered::new(alloc, None),
            admitted: 0,
        }
    }

    /// Takes in one more act, that comes at this moment.
    pub fn note(&mut self, config: &Config, act: &Act, at: u64) -> Result<(), NoMemory>
        ensures { OnOk result ((past : List Act) → at ≡ now past → SessionsTold config.now self.old past → SessionsTold config.now self.new (act.now ∷ past)) }
    {
        note_move(&mut self.moved, config, act, at)?;
        note_cause(&mut self.closed, config, act)?;
        note_admission(&mut self.admitted, config, act)
    }
}

/// The session of the place moves.
#[tactic(auto, using(crate::proofs::Own::place_of_its_own))]
fn move_session(
    moved: &mut Numbered<u64>,
    config: &Config,
    place: Place,
    at: u64,
) -> Result<(), NoMemory>
    ensures { OnOk result ((s : ℕ) → numbered moved.new s ≡ (if is_place_of config.now s place then at else numbered moved.old s)) }
{
    if is_place_of(config, place.session, place) {
        moved.set(u64::from(place.session), at)
    } else {
        Ok(())
    }
}

fn note_move(moved: &mut Numbered<u64>, config: &Config, act: &Act, at: u64) -> Result<(), NoMemory>
    ensures { OnOk result ((past : List Act) → at ≡ now past → MovesTold config.now moved.old past → MovesTold config.now moved.new (act.now ∷ past)) }
{
    match act {
        Act::Opened(place) | Act::Accepted(place, _) => move_session(moved, config, *place, at),
        Act::Read(place, _) | Act::Wrote(place, _) => move_session(moved, config, *place, at),
        _ => Ok(()),
    }
}

/// Whether a closing with this reason ends a session: a refused peer and a door that served don't.
fn is_end(place: Place, why: Why) -> bool
    ensures { result ≡ is_end place why }
{
    match why {
        Why::Refused => false,
        Why::Served => !place.door,
        _ => true,
    }
}

/// The session of the place ends, where the closing is one that ends it.
#[tactic(auto, using(crate::proofs::Own::thing_of_its_own, crate::proofs::Own::and_no))]
fn end_session(
    closed: &mut Numbered<Option<Why>>,
    config: &Config,
    place: Place,
    why: Why,
) -> Result<(), NoMemory>
    ensures { OnOk result ((s : ℕ) → numbered closed.new s ≡ (if is_of config.now s place && is_end place why then Some why else numbered closed.old s)) }
{
    if !is_of(config, place.session, place) {
        return Ok(());
    }
    if is_end(place, why) {
        closed.set(u64::from(place.session), Some(why))
    } else {
        Ok(())
    }
}

fn note_cause(
    closed: &mut Numbered<Option<Why>>,
    config: &Config,
    act: &Act,
) -> Result<(), NoMemory>
    ensures { OnOk result ((past : List Act) → CausesTold config.now closed.old past → CausesTold config.now closed.new (act.now ∷ past)) }
{
    match act {
        Act::Closed(place, why) => end_session(closed, config, *place, *why),
        _ => Ok(()),
    }
}

/// Whether a place takes this peer.
pub fn permits(config: &Config, place: Place, peer: Peer) -> bool
    ensures { result ≡ permits config.now place peer }
{
    Filter::new(options_of(config, place)).permits(peer)
}

/// Whether this is a permitted peer of the program door of `fork`.
fn is_admission(config: &Config, place: Place, peer: Peer) -> bool
    ensures { result ≡ is_admission config.now place peer }
{
    is_left(place) && has_fork(config) && permits(config, place, peer)
}

fn note_admission(admitted: &mut u64, config: &Config, act: &Act) -> Result<(), NoMemory>
    ensures { OnOk result ((past : List Act) → AdmittedTold config.now admitted.old past → AdmittedTold config.now admitted.new (act.now ∷ past)) }
{
    match act {
        Act::Accepted(place, peer) => {
            if is_admission(config, *place, *peer) {
                *admitted = admitted.checked_add(1).ok_or(NoMemory)?;
            }
            Ok(())
        }
        _ => Ok(()),
    }
}
