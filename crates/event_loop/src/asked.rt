// The program door between two turns.
ghost use Rattle.std.specs.Prelude.{◌≡◌, true, OnOk};
ghost use Rattle.fork_table.specs.Tables.{may_accept_in};
ghost use Rattle.relay_model.specs.{Fit};

use crate::all_sessions::{Row, Sessions};
use fork_table::Steps;
use relay_model::{Config, NoMemory, Peer, Why};
use relay_session::PendingSession;
use session_driver::{DoorStepped, step_door};
use session_loop::Member;
use std::alloc::Global;
use std::sync::ledger::Ledger;
use world_trait::World;

/// What the program door came to.
#[derive(Clone, Copy, PartialEq, Eq)]
pub enum DoorAsked {
    /// It waits for a turn, until this moment in milliseconds, and so does every session.
    Waits(Option<u64>),
    /// It holds nothing any more and will call for nothing; every session waits.
    Over,
    /// The run is to end for this reason, a stop or want of memory.
    Ends(Why),
}

impl Sessions {
    ghost use Rattle.event_loop.specs.Courses.{SessionsSomewhere, SameRest, NoWork};
    ghost use Rattle.event_loop.specs.Asking.{AskedIs, GivesNext, GoesOn, HasNext, SameButNext};
    ghost use Rattle.event_loop.specs.Endings.{SomeEnding, SomeFailed, EndsRows, WorkLives};
    ghost use Rattle.event_loop.specs.Paid.{AskPaid, AskedPaid, EndingPaid, EndsPaid};
    ghost use Rattle.event_loop.specs.Looks.{LooksFew};

    /// Makes the calls of the door, and those of each session that its peers bring, until the door waits or is over.
    pub fn ask_door<W: World, L: Ledger>(
        &mut self,
        alloc: Global,
        world: &mut W,
        config: &Config,
        steps: &mut Steps<L>,
    ) -> DoorAsked
        requires fit { Fit config.now }
        requires course { SessionsSomewhere config.now (W.seen world.old) self.old }
        requires idle { NoWork self.old }
        ensures asks { AskedIs config.now (W.seen world.old) (W.seen world.new) self.old self.new result }
        ensures made { self.new.made ≡ self.old.made }
        ensures looks { LooksFew 0 steps.old.ticks steps.new.ticks self.old self.new }
        ensures paid { AskedPaid config.now (W.seen world.old) (W.seen world.new) self.old self.new steps.old.ticks steps.new.ticks result }
    {
        loop {
            if let Some(asked) = self.ask_once(alloc, world, config, steps) {
                return asked;
            }
        }
    }

    /// Makes the next call of the door.
    fn ask_once<W: World, L: Ledger>(
        &mut self,
        alloc: Global,
        world: &mut W,
        config: &Config,
        steps: &mut Steps<L>,
    ) -> Option<DoorAsked>
        requires fit { Fit config.now }
        requires course { SessionsSomewhere config.now (W.seen world.old) self.old }
        requires idle { NoWork self.old }
        ensures asks { GoesOn config.now (W.seen world.old) (W.seen world.new) self.old self.new result }
        ensures made { self.new.made ≡ self.old.made }
        ensures looks { LooksFew 0 steps.old.ticks steps.new.ticks self.old self.new }
        ensures paid { AskPaid config.now (W.seen world.old) (W.seen world.new) self.old self.new steps.old.ticks steps.new.ticks result }
    {
        match self.ready_next(alloc, config) {
            Ok(()) => self.ask_for(alloc, world, config, steps),
            Err(NoMemory) => Some(DoorAsked::Ends(Why::Memory)),
        }
    }

    /// The same, where the session stands that its peer would get.
    fn ask_for<W: World, L: Ledger>(
        &mut self,
        alloc: Global,
        world: &mut W,
        config: &Config,
        steps: &mut Steps<L>,
    ) -> Option<DoorAsked>
        requires course { SessionsSomewhere config.now (W.seen world.old) self.old }
        requires idle { NoWork self.old }
        requires has { HasNext self.old }
        ensures asks { GoesOn config.now (W.seen world.old) (W.seen world.new) self.old self.new result }
        ensures made { self.new.made ≡ self.old.made }
        ensures looks { LooksFew 0 steps.old.ticks steps.new.ticks self.old self.new }
        ensures paid { AskPaid config.now (W.seen world.old) (W.seen world.new) self.old self.new steps.old.ticks steps.new.ticks result }
    {
        let live = self.table.live();
        match step_door(&mut self.door, world, config, self.clock, live) {
            DoorStepped::Acted => None,
            DoorStepped::Admitted(peer) => {
                let number = self.admit(alloc, peer);
                match self.run_row(number, world, config, steps) {
                    Some(why) => Some(DoorAsked::Ends(why)),
                    None => None,
                }
            }
            DoorStepped::AcceptFailed => match self.end_rows(world, config, steps) {
                Some(why) => Some(DoorAsked::Ends(why)),
                None => None,
            },
            DoorStepped::Memory => Some(DoorAsked::Ends(Why::Memory)),
            DoorStepped::Sleep(until) => Some(DoorAsked::Waits(until)),
            DoorStepped::Done => Some(DoorAsked::Over),
        }
    }

    /// Gives the peer the session that stands ready, which lives from now on. Answers its number.
    fn admit(&mut self, alloc: Global, peer: Peer) -> u32
        requires has { HasNext self.old }
        requires may_accept { may_accept_in self.old.table ≡ true }
        ensures number { result ≡ self.old.table.admitted }
        ensures door { self.new.door ≡ self.old.door }
        ensures gives { GivesNext peer self.old self.new }
    {
        let Some(pending_session) = self.pending_session.take() else {
            unreachable!()
        };
        let number = self.table.next_number();
        let session = pending_session.accepted(self.clock, peer);
        self.table.admit(Row {
            member: Member::new(alloc, session),
            turn: self.made,
        });
        number
    }

    /// Cuts each session, since accepting a peer has failed, and has it close all that it holds, one after another.
    /// Answers the reason for which the run is to be ended, if there is one.
    fn end_rows<W: World, L: Ledger>(
        &mut self,
        world: &mut W,
        config: &Config,
        steps: &mut Steps<L>,
    ) -> Option<Why>
        requires { SomeFailed config.now (W.seen world.old) self.old }
        ensures ends { EndsRows config.now (W.seen world.old) (W.seen world.new) self.old self.new result }
        ensures rest { SameRest self.old self.new }
        ensures paid { EndsPaid config.now (W.seen world.old) (W.seen world.new) self.old self.new steps.old.ticks steps.new.ticks result }
    {
        match self.queue_all() {
            Ok(()) => self.end_queued(world, config, steps),
            Err(NoMemory) => Some(Why::Memory),
        }
    }

    /// The same, where each that lives has work. A session is cut right before its calls, so that each look but the last
    /// is followed by an act.
    fn end_queued<W: World, L: Ledger>(
        &mut self,
        world: &mut W,
        config: &Config,
        steps: &mut Steps<L>,
    ) -> Option<Why>
        requires ending { SomeEnding config.now (W.seen world.old) self.old }
        requires lives { WorkLives self.old }
        ensures paid { EndingPaid config.now (W.seen world.old) (W.seen world.new) self.old self.new steps.old.ticks
            steps.new.ticks result }
        ensures rest { SameRest self.old self.new }
    {
        while let Some(number) = self.take_work() {
            self.cut_row(number, Why::AcceptFailed, steps);
            if let Some(why) = self.run_row(number, world, config, steps) {
                return Some(why);
            }
        }
        None
    }

    /// Makes the session that the next peer gets, with all its memory, where there is none, and room for it in the table,
    /// in the list of work and among the timers.
    fn ready_next(&mut self, alloc: Global, config: &Config) -> Result<(), NoMemory>
        requires { Fit config.now }
        ensures has { OnOk result (HasNext self.new) }
        ensures same { SameButNext config.now self.old self.new }
    {
        self.table.reserve()?;
        let most = self.table.live() as usize + 1;
        self.work.reserve(most)?;
        self.timers.reserve(most)?;
        if self.pending_session.is_none() {
            let number = self.table.next_number();
            self.pending_session = Some(PendingSession::new(alloc, config, number)?);
        }
        Ok(())
    }
}
