// What a turn says to the door and to the sessions that it names, or to all where it says stop.
ghost use Rattle.std.specs.Prelude.{◌<◌, ◌≤◌, ◌+◌, length, OnOk};
ghost use Rattle.event_loop.specs.Turns.{HeardOnce, DoorHearsTurn};

use crate::all_sessions::{Row, Sessions};
use command_places::is_program_door;
use fork_table::Steps;
use program_door::Door;
use relay_model::{Config, NoMemory, ReadyList, Why};
use std::sync::ledger::Ledger;

impl Sessions {
    ghost use Rattle.event_loop.specs.Closings.{LooksAtRows};
    ghost use Rattle.event_loop.specs.Turns.{RowHeard, AllHeard, AllUnheard, NamedHeard, RowHearsOnce, QueuesNamed, QueuesDue};
    ghost use Rattle.event_loop.specs.Courses.{SameButWork, SameButLists};
    ghost use Rattle.event_loop.specs.Looks.{AddsDue, CameByName, CameInTime, OnlyNamedCame, WorksFew};

    /// Has each session hear the last turn, which says stop.
    pub fn stop_all<L: Ledger>(&mut self, steps: &mut Steps<L>)
        ensures heard { AllHeard self.old self.new }
        ensures looks { LooksAtRows self.old steps.old.ticks steps.new.ticks }
    {
        let mut next = self.table.first_from(0);
        while let Some(number) = next {
            self.stop_row(number, steps);
            next = self.next_after(number);
        }
    }

    fn stop_row<L: Ledger>(&mut self, number: u32, steps: &mut Steps<L>)
        ensures heard { RowHeard number self.old self.new }
        ensures looks { steps.new.ticks ≤ steps.old.ticks + 1 }
    {
        if let Some(row) = self.table.session_mut(number, steps) {
            row.member.session.hear_turn(self.clock, &self.ready, true);
            row.turn = self.made;
        }
    }

    /// Has each session hear the last turn that it names a thing of.
    pub fn hear_named<L: Ledger>(&mut self, config: &Config, steps: &mut Steps<L>)
        requires { AllUnheard self.old }
        ensures heard { NamedHeard config.now self.old.ready.entries self.old self.new }
        ensures looks { steps.new.ticks ≤ steps.old.ticks + length self.old.ready.entries }
    {
        for i in 0..self.ready.len() {
            let place = self.ready.get(i).place;
            if !is_program_door(config, place) {
                self.hear_row(place.session, steps);
            }
        }
    }

    /// Has the session with this number hear it, if it lives and hasn't yet.
    fn hear_row<L: Ledger>(&mut self, number: u32, steps: &mut Steps<L>)
        ensures heard { RowHearsOnce number self.old self.new }
        ensures looks { steps.new.ticks ≤ steps.old.ticks + 1 }
    {
        if let Some(row) = self.table.session_mut(number, steps) {
            hear_once(row, self.made, self.clock, &self.ready);
        }
    }

    /// Puts each session that the last turn names a thing of into the list of work. After an error some are there.
    pub fn queue_named(&mut self, config: &Config) -> Result<(), NoMemory>
        ensures named { OnOk result (QueuesNamed config.now self.old.ready.entries self.old self.new) }
        ensures same { SameButWork self.old self.new }
        ensures few { length self.new.work.items ≤ length self.old.work.items + length self.old.ready.entries }
        ensures came { CameByName config.now self.old.ready.entries self.old self.new }
    {
        for i in 0..self.ready.len() {
            let place = self.ready.get(i).place;
            if !is_program_door(config, place) {
                self.work.push_back(place.session)?;
            }
        }
        Ok(())
    }

    /// Puts each session into the list of work whose timer has fallen due. After an error some are there.
    pub fn queue_due(&mut self) -> Result<(), NoMemory>
        ensures due { OnOk result (QueuesDue self.old self.new) }
        ensures same { SameButLists self.old self.new }
        ensures few { WorksFew 0 self.old self.new }
        ensures alone { OnlyNamedCame 0 self.old self.new }
        ensures came { CameInTime self.old self.new }
        ensures parts { OnOk result (AddsDue self.old self.new) }
    {
        while let Some(number) = self.timers.due(self.clock) {
            self.work.push_back(number)?;
        }
        Ok(())
    }
}

/// Has the session of this row hear the last turn, if it hasn't yet.
fn hear_once(row: &mut Row, made: u64, at: u64, ready: &ReadyList)
    ensures { HeardOnce made at ready.now row.old row.new }
{
    if row.turn < made {
        row.member.session.hear_turn(at, ready, false);
    }
    row.turn = made;
}

/// The door hears it too.
pub fn hear_door(door: &mut Door, ready: &ReadyList, stop: bool)
    ensures { DoorHearsTurn ready.now stop door.old door.new }
{
    door.wake();
    for i in 0..ready.len() {
        door.ready(ready.get(i));
    }
    if stop {
        door.cut(Why::Stopped);
    }
}
