// Who came to a session, when it began, when something of it was closed last, and what became of its children, kept up
// with each act.
ghost use Rattle.std.specs.Prelude.{◌≡◌, ◌∷◌, ◌&&◌, ◌==◌, ℕ, Some, List, [], if◌then◌else◌, OnOk};
ghost use Rattle.relay_model.specs.{Config, Act, Place, same_place, is_of, now, permits, is_admission, admitted};
ghost use Rattle.history_facts.specs.{numbered, placed};
ghost use Rattle.journal_table.specs.Told.{MetTold, ChildrenTold, BeginningsTold, ClosingsTold, VisitsTold};

use command_places::{has_fork, is_left, is_of};
use history_facts::{Numbered, Placed, permits};
use relay_model::{Act, ChildEnd, Config, NoMemory, Peer, Place};
use std::alloc::Global;

/// What is known of the visits of peers and of their sessions.
#[derive(Drop)]
pub struct Visits {
    /// The last permitted peer that came to each place.
    pub met: Placed<Option<Peer>>,
    /// What was last learnt of the child of each place.
    pub children: Placed<Option<ChildEnd>>,
    /// When the peer of each session came, with `fork`.
    pub began: Numbered<Option<u64>>,
    /// When something of each session was closed last.
    pub closed: Numbered<Option<u64>>,
}

impl Visits {
    /// What holds before any act.
    pub fn new(alloc: Global) -> Visits
        ensures { (c : Config) → VisitsTold c result [] }
    {
        Visits {
            met: Placed::new(alloc, None),
            children: Placed::new(alloc, None),
            began: Numbered::new(alloc, None),
            closed: Numbered::new(alloc, None),
        }
    }

    /// Takes in one more act, that comes at this moment and after so many permitted peers.
    pub fn note(&mut self, config: &Config, act: &Act, at: u64, number: u32) -> Result<(), NoMemory>
        ensures { OnOk result ((past : List Act) → at ≡ now past → number ≡ admitted config.now past
            → VisitsTold config.now self.old past → VisitsTold config.now self.new (act.now ∷ past)) }
    {
        note_peer(&mut self.met, config, act)?;
        note_child(&mut self.children, act)?;
        note_beginning(&mut self.began, config, act, at, number)?;
        note_closing(&mut self.closed, config, act, at)
    }
}

/// The peer came to the place, where it is let in.
fn meet(
    met: &mut Placed<Option<Peer>>,
    config: &Config,
    place: Place,
    peer: Peer,
) -> Result<(), NoMemory>
    ensures { OnOk result ((p : Place) → placed met.new p ≡ (if permits config.now place peer && same_place place p then Some peer else placed met.old p)) }
{
    if permits(config, place, peer) {
        met.set(place, Some(peer))
    } else {
        Ok(())
    }
}

fn note_peer(met: &mut Placed<Option<Peer>>, config: &Config, act: &Act) -> Result<(), NoMemory>
    ensures { OnOk result ((past : List Act) → MetTold config.now met.old past → MetTold config.now met.new (act.now ∷ past)) }
{
    match act {
        Act::Accepted(place, peer) => meet(met, config, *place, *peer),
        _ => Ok(()),
    }
}

fn note_child(children: &mut Placed<Option<ChildEnd>>, act: &Act) -> Result<(), NoMemory>
    ensures { OnOk result ((past : List Act) → ChildrenTold children.old past → ChildrenTold children.new (act.now ∷ past)) }
{
    match act {
        Act::Reaped(place, end) => children.set(*place, Some(*end)),
        _ => Ok(()),
    }
}

/// Whether this is a permitted peer of the program door of `fork`.
fn is_admission(config: &Config, place: Place, peer: Peer) -> bool
    ensures { result ≡ is_admission config.now place peer }
{
    is_left(place) && has_fork(config) && permits(config, place, peer)
}

/// The session of this number begins, where the peer is one that is let in by the program door.
fn begin(
    began: &mut Numbered<Option<u64>>,
    begins: bool,
    at: u64,
    number: u32,
) -> Result<(), NoMemory>
    ensures { OnOk result ((s : ℕ) → numbered began.new s ≡ (if begins && number == s then Some at else numbered began.old s)) }
{
    if begins {
        began.set(u64::from(number), Some(at))
    } else {
        Ok(())
    }
}

fn note_beginning(
    began: &mut Numbered<Option<u64>>,
    config: &Config,
    act: &Act,
    at: u64,
    number: u32,
) -> Result<(), NoMemory>
    ensures { OnOk result ((past : List Act) → at ≡ now past → number ≡ admitted config.now past
        → BeginningsTold config.now began.old past → BeginningsTold config.now began.new (act.now ∷ past)) }
{
    match act {
        Act::Accepted(place, peer) => {
            begin(began, is_admission(config, *place, *peer), at, number)
        }
        _ => Ok(()),
    }
}

/// Something of the session of the place is closed.
#[tactic(auto, using(history_facts::proofs::Own::thing_of_its_own, history_facts::proofs::Own::and_no))]
fn close(
    closed: &mut Numbered<Option<u64>>,
    config: &Config,
    place: Place,
    at: u64,
) -> Result<(), NoMemory>
    ensures { OnOk result ((s : ℕ) → numbered closed.new s ≡ (if is_of config.now s place then Some at else numbered closed.old s)) }
{
    if is_of(config, place.session, place) {
        closed.set(u64::from(place.session), Some(at))
    } else {
        Ok(())
    }
}

fn note_closing(
    closed: &mut Numbered<Option<u64>>,
    config: &Config,
    act: &Act,
    at: u64,
) -> Result<(), NoMemory>
    ensures { OnOk result ((past : List Act) → at ≡ now past → ClosingsTold config.now closed.old past → ClosingsTold config.now closed.new (act.now ∷ past)) }
{
    match act {
        Act::Closed(place, _) => close(closed, config, *place, at),
        _ => Ok(()),
    }
}
