// Whether and how a world keeps its history.
ghost use Rattle.std.specs.Prelude.{◌≡◌, ◌≤◌, ◌<◌, ◌+◌, ◌-◌, [], true, false, None, Some, is_some, OnOk, OnErr, IfOk, MatchOption, option_map};
ghost use Rattle.world_trait.specs.Recordings.{HasRoom, HasAskingRoom, KeepsNothing, told_by, with_act, with_asking};

use relay_model::{Act, Bytes, Kept, NoMemory, Place, Single};
use std::alloc::Global;
use std::marker::Model;

/// Whether a world keeps its history or skips it.
#[derive(Clone, Copy, PartialEq, Eq)]
pub enum Recorder {
    Skip,
    Keep,
}

/// The history of a world. With `Skip` it tells nothing and takes no memory.
#[derive(Drop)]
pub struct Recording {
    recorder: Recorder,
    kept: Kept,
}

impl Model for Recording {
    ghost use Rattle.std.specs.Prelude.{◌≡◌, false, is_some};
    ghost use Rattle.world_trait.specs.Recordings.{Recorded, KeepsNothing, told_by};

    ghost Value = { Recorded };

    ghost view = { λ r. record { told = told_by r.recorder r.kept.journal r.kept.asked; room = r.kept.journal.spare; asking_room = r.kept.asked.spare } };

    ghost invariant = { λ r. is_some (told_by r.recorder r.kept.journal r.kept.asked) ≡ false → KeepsNothing r.kept };
}

impl Recording {
    /// An empty history; takes no memory.
    pub fn new(alloc: Global, recorder: Recorder) -> Recording
        ensures { result.told ≡ told_by recorder (record { acts = []; spare = 0 }) (record { pairs = []; spare = 0 }) }
    {
        Recording {
            recorder,
            kept: Kept::new(alloc),
        }
    }

    /// Whether the history is kept.
    pub fn keeps(&self) -> bool
        ensures { result ≡ is_some self.now.told }
    {
        match self.recorder {
            Recorder::Skip => false,
            Recorder::Keep => true,
        }
    }

    /// What was kept; with `Skip` that is nothing.
    pub fn kept_lists(&self) -> &Kept
        ensures skipped { is_some self.now.told ≡ false → KeepsNothing result.now }
        ensures told { is_some self.now.told ≡ true → self.now.told ≡ Some (record { acts = result.now.journal.acts; asked = result.now.asked.pairs }) }
    {
        &self.kept
    }

    /// What was kept, at the end; with `Skip` that is nothing.
    pub fn into_kept(self) -> Kept
        ensures skipped { is_some self.told ≡ false → KeepsNothing result }
        ensures told { is_some self.told ≡ true → self.told ≡ Some (record { acts = result.journal.acts; asked = result.asked.pairs }) }
    {
        let Recording { recorder: _, kept } = self;
        kept
    }

    /// A copy of these bytes for an act, where acts are kept.
    pub fn copy_if_kept(&self, alloc: Global, bytes: &[u8]) -> Result<Option<Bytes>, NoMemory>
        ensures ok { IfOk result (λ copy. MatchOption copy (self.now.told ≡ None) (λ kept. kept ≡ bytes.now)) }
        ensures lacked { OnErr result (is_some self.now.told ≡ true) }
    {
        match self.recorder {
            Recorder::Skip => Ok(None),
            Recorder::Keep => Ok(Some(Bytes::of(alloc, bytes)?)),
        }
    }

    /// Makes room for `n` further acts.
    pub fn reserve(&mut self, n: usize) -> Result<(), NoMemory>
        ensures room { OnOk result (HasRoom n self.new) }
        ensures told { self.new.told ≡ self.old.told }
        ensures kept { self.old.room ≤ self.new.room }
        ensures lacked { OnErr result (is_some self.old.told ≡ true) }
    {
        match self.recorder {
            Recorder::Skip => Ok(()),
            Recorder::Keep => self.kept.reserve(n),
        }
    }

    /// Makes room for one further asking.
    pub fn reserve_asking(&mut self) -> Result<(), NoMemory>
        ensures room { OnOk result (HasAskingRoom 1 self.new) }
        ensures told { self.new.told ≡ self.old.told }
        ensures kept { self.new.room ≡ self.old.room }
        ensures lacked { OnErr result (is_some self.old.told ≡ true) }
    {
        match self.recorder {
            Recorder::Skip => Ok(()),
            Recorder::Keep => self.kept.reserve_asking(1),
        }
    }

    /// Appends the act into the room that was made, and takes no memory.
    pub fn put(&mut self, act: Act)
        requires { HasRoom 1 self.old }
        ensures told { self.new.told ≡ option_map (with_act act) self.old.told }
        ensures keeps { is_some self.new.told ≡ is_some self.old.told }
        ensures room { self.old.room ≤ self.new.room + 1 }
    {
        match self.recorder {
            Recorder::Skip => {}
            Recorder::Keep => self.kept.put(act),
        }
    }

    /// Appends the act and what was asked into the room that was made, and takes no memory.
    pub fn put_asking(&mut self, act: Act, place: Place, single: Single)
        requires room { HasRoom 1 self.old }
        requires asking_room { HasAskingRoom 1 self.old }
        ensures told { self.new.told ≡ option_map (with_asking act (place, single)) self.old.told }
        ensures keeps { is_some self.new.told ≡ is_some self.old.told }
        ensures room { self.old.room ≤ self.new.room + 1 }
    {
        match self.recorder {
            Recorder::Skip => {}
            Recorder::Keep => {
                self.kept.put(act);
                self.kept.put_asking(place, single);
            }
        }
    }
}
