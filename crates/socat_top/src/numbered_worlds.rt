// A scripted world that stays the one of its number, whoever runs something over it.
ghost use Rattle.std.specs.Prelude.{◌≡◌, Some, [], IfOk};
ghost use Rattle.relay_model.specs.{Free, Place};
ghost use Rattle.socat_top.specs.Numbered.{GivesScripted, told_named};

use crate::load_worlds::load_world;
use relay_model::{Journal, NoMemory, Peer, Place, ReadyList, Shut, Single, Why};
use scripted_world::MemWorld;
use std::alloc::Global;
use world_trait::{
    AcceptAnswer, ListenAnswer, NoteAnswer, OpenAnswer, ReadAnswer, ReapAnswer, SendAnswer,
    ShutAnswer, Turned, World, WriteAnswer,
};

/// The world of a generated run. What it gives to reads is what was scripted for its number, in order and once. In
/// contracts its history begins with a note of that number: so it's known of any run over it that it is still this
/// world.
#[derive(Drop)]
pub struct NumberedWorld {
    number: u64,
    world: MemWorld,
    ghost gives: { GivesScripted number world.kept.journal.acts world.script.reads },
}

impl NumberedWorld {
    /// The world of this number, in which nothing was done.
    pub fn new(alloc: Global, number: u64) -> Result<NumberedWorld, NoMemory>
        ensures told { IfOk result (λ world. (⟦<NumberedWorld as World>⟧.seen world).told ≡ told_named number (Some (record { acts = []; asked = [] }))) }
        ensures free { IfOk result (λ world. (p : Place) → (⟦<NumberedWorld as World>⟧.seen world).held p ≡ Free) }
    {
        let world = load_world(alloc, number)?;
        Ok(NumberedWorld { number, world })
    }

    /// What was done in it so far.
    pub fn journal(&self) -> &Journal
        ensures { result.now.acts ≡ self.now.world.kept.journal.acts }
    {
        self.world.journal()
    }
}

impl World for NumberedWorld {
    ghost seen = { λ w. let beneath = ⟦<MemWorld as World>⟧.seen w.world in record beneath { told = told_named w.number beneath.told } };

    fn wait(&mut self, until: Option<u64>, ready: &mut ReadyList) -> Turned {
        self.world.wait(until, ready)
    }

    fn open_place(&mut self, place: Place, single: &Single, behind: Option<Peer>) -> OpenAnswer {
        self.world.open_place(place, single, behind)
    }

    fn settle(&mut self, place: Place) -> OpenAnswer {
        self.world.settle(place)
    }

    fn listen(&mut self, door: Place, single: &Single) -> ListenAnswer {
        self.world.listen(door, single)
    }

    fn accept(&mut self, door: Place, place: Place) -> AcceptAnswer {
        self.world.accept(door, place)
    }

    fn read(&mut self, place: Place, into: &mut [u8]) -> ReadAnswer {
        self.world.read(place, into)
    }

    fn write(&mut self, place: Place, bytes: &[u8]) -> WriteAnswer {
        self.world.write(place, bytes)
    }

    fn send(&mut self, place: Place, bytes: &[u8]) -> SendAnswer {
        self.world.send(place, bytes)
    }

    fn shut(&mut self, place: Place, how: Shut) -> ShutAnswer {
        self.world.shut(place, how)
    }

    fn close(&mut self, place: Place, why: Why) {
        self.world.close(place, why)
    }

    fn note(&mut self, text: &[u8]) -> NoteAnswer {
        self.world.note(text)
    }

    fn reap(&mut self, place: Place) -> ReapAnswer {
        self.world.reap(place)
    }
}
