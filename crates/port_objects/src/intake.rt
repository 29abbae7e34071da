// What an object in memory took: the bytes themselves, and the same bytes once more in plain atomic words, so
// that a tap reads them without waiting for anybody.
ghost use Rattle.std.specs.Prelude.{◌≡◌, ◌++◌, ◌-◌, length, min, take, IfOk};
ghost use Rattle.port_objects.specs.Intakes.{IntakeState, fresh_intake, filled};

use relay_model::{Bytes, NoMemory};
use std::alloc::Global;
use std::marker::Model;
use std::sync::Arc;
use std::sync::atomic::{AtomicU64, Ordering};

#[derive(Drop)]
struct Shadow {
    words: Vec<AtomicU64>,
    count: AtomicU64,
}

impl Shadow {
    fn new(alloc: Global, room: usize) -> Result<Shadow, NoMemory> {
        let mut words = Vec::with_capacity(alloc, room)?;
        for _ in 0..room {
            words.push(AtomicU64::new(0))?;
        }
        Ok(Shadow {
            words,
            count: AtomicU64::new(0),
        })
    }

    fn append(&self, bytes: &[u8]) {
        let count = self.count.load(Ordering::SeqCst);
        let mut at = count;
        for byte in bytes {
            if let Some(word) = self.words.get(at as usize) {
                word.store(u64::from(*byte), Ordering::SeqCst);
            }
            at = at.saturating_add(1);
        }
        self.count.store(at, Ordering::SeqCst);
    }
}

/// A look at what a port or a sink in memory has taken so far.
#[derive(Drop)]
pub struct Tap {
    shadow: Option<Arc<Shadow, Global>>,
}

impl Tap {
    /// The bytes that were taken so far. A tap that was one too many answers `NoMemory`.
    pub fn bytes(&self) -> Result<Bytes, NoMemory> {
        let Some(shadow) = &self.shadow else {
            return Err(NoMemory);
        };
        let count = shadow.count.load(Ordering::SeqCst);
        let alloc = *shadow.words.allocator();
        let mut bytes = Vec::new(alloc);
        for word in &shadow.words {
            if bytes.len() as u64 == count {
                break;
            }
            bytes.push((word.load(Ordering::SeqCst) & 0xff) as u8)?;
        }
        Bytes::of(alloc, bytes.as_slice())
    }
}

/// The bytes that were taken, and how many more fit.
#[derive(Drop)]
pub struct Intake {
    bytes: Vec<u8>,
    room: usize,
    shadow: Arc<Shadow, Global>,
}

impl Model for Intake {
    ghost use Rattle.std.specs.Prelude.{◌≤◌, ◌+◌, vec_len, vec_capacity};
    ghost use Rattle.port_objects.specs.Intakes.{IntakeState};

    ghost Value = { IntakeState };

    ghost view = { λ intake. record { bytes = intake.bytes.items; room = intake.room } };

    ghost invariant = { λ intake. vec_len intake.bytes + intake.room ≤ vec_capacity intake.bytes };
}

impl Intake {
    /// Nothing, with room for so many bytes.
    pub fn new(alloc: Global, room: usize) -> Result<Intake, NoMemory>
        ensures { IfOk result (λ intake. intake ≡ fresh_intake room) }
    {
        Ok(Intake {
            bytes: Vec::with_capacity(alloc, room)?,
            room,
            shadow: Arc::new(alloc, Shadow::new(alloc, room)?)?,
        })
    }

    /// How many more bytes fit.
    pub fn room(&self) -> usize
        ensures { result ≡ self.now.room }
    {
        self.room
    }

    /// Takes what fits, and answers how much.
    pub fn put(&mut self, bytes: &[u8]) -> usize
        ensures count { result ≡ min (length bytes.now) self.old.room }
        ensures put { self.new ≡ filled self.old (take result bytes.now) }
    {
        let count = bytes.len().min(self.room);
        let front = &bytes[..count];
        let Ok(()) = self.bytes.extend_from_slice(front) else {
            unreachable!()
        };
        self.room -= count;
        self.shadow.append(front);
        count
    }

    /// A look at what was taken. It takes no memory; where there are too many of them already, its `bytes` answers
    /// `NoMemory`.
    pub fn tap(&self) -> Tap {
        Tap {
            shadow: Arc::try_clone(&self.shadow).ok(),
        }
    }
}
