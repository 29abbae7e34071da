// The loop of any command.
ghost use Rattle.std.specs.Prelude.{◌-◌, ◌^◌, IfOk};
ghost use Rattle.relay_model.specs.{Fit};

use crate::courses::LoopCourse;
use crate::steps::Step;
use exit_status::Outcome;
use fork_table::Steps;
use relay_model::{Config, NoMemory};
use std::alloc::Global;
use std::sync::ledger::Ledger;
use world_trait::World;

/// The relay of a command, call by call.
#[derive(Drop)]
pub struct Loop {
    alloc: Global,
    config: Config,
    /// How many waits it may make.
    turns: u64,
    course: LoopCourse,
}

impl Loop {
    ghost use Rattle.event_loop.specs.Loops.{BeginsLoop, CountsWaits, EndsAll, Further, LooksFew, LoopSomewhere, TurnIs, SameCommand, made_of};

    /// The loop of a command, which holds nothing yet and makes as many waits as it needs. It takes all the memory of one
    /// session; with `fork` each session takes its own before its peer is asked for.
    pub fn new(alloc: Global, config: &Config) -> Result<Loop, NoMemory>
        requires { Fit config.now }
        ensures { IfOk result (BeginsLoop config.now (2 ^ 64 - 1)) }
    {
        Loop::with_turns(alloc, config, u64::MAX)
    }

    /// The same with so many waits at most, and then the outcome `Stopped`.
    pub fn with_turns(alloc: Global, config: &Config, turns: u64) -> Result<Loop, NoMemory>
        requires { Fit config.now }
        ensures { IfOk result (BeginsLoop config.now turns) }
    {
        let own = config.copy()?;
        match LoopCourse::new(alloc, config) {
            Ok(course) => Ok(Loop {
                alloc,
                config: own,
                turns,
                course,
            }),
            Err(NoMemory) => {
                drop(own);
                Err(NoMemory)
            }
        }
    }

    /// Makes all calls that are called for and then waits once; or ends the relay, without a wait in this call. The world
    /// has to hold what the loop holds, which is nothing before the first call, and each call of the loop has to follow
    /// the one before it with no other act between. `steps` counts the looks at sessions of a command with `fork`.
    pub fn turn<W: World, L: Ledger>(&mut self, world: &mut W, steps: &mut Steps<L>) -> Step
        requires { LoopSomewhere (W.seen world.old) self.old }
        ensures turns { TurnIs (W.seen world.old) (W.seen world.new) self.old self.new result }
        ensures same { SameCommand self.old self.new }
        ensures further { Further self.old.turns (made_of self.old) (made_of self.new) result }
        ensures waits { CountsWaits (W.seen world.old).waits (W.seen world.new).waits result }
        ensures looks { LooksFew (W.seen world.old) (W.seen world.new) self.old steps.old.ticks steps.new.ticks }
    {
        match &mut self.course {
            LoopCourse::One(one) => one.turn(world, &self.config, self.turns),
            LoopCourse::Many(many) => many.turn(self.alloc, world, &self.config, self.turns, steps),
        }
    }

    /// Makes its calls up to the end.
    pub fn finish<W: World, L: Ledger>(&mut self, world: &mut W, steps: &mut Steps<L>) -> Outcome
        requires { LoopSomewhere (W.seen world.old) self.old }
        ensures { EndsAll (W.seen world.old) (W.seen world.new) self.old result }
    {
        loop {
            match self.turn(world, steps) {
                Step::Goes => {}
                Step::Over(outcome) => return outcome,
            }
        }
    }
}
