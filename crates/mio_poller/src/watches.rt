// What the poller tells of descriptors that stand under no key of a port.
ghost use Rattle.std.specs.Prelude.{◌≡◌, ◌-◌, ◌^◌, IfOk};
ghost use Rattle.mio_poller.specs.Pollers.{watch_key};

use crate::reserved::{INPUT, OUTPUT};
use mio::Token;
use mio::event::Event;
use relay_model::{Half, NoMemory};
use std::alloc::Global;
use std::marker::Model;
use std::sync::Arc;
use std::sync::atomic::{AtomicBool, Ordering};

/// Whether a poll has told of a descriptor since its last call that would have waited. It is registered under the key
/// of its watch.
#[derive(Drop)]
pub struct Watch {
    key: usize,
    told: Arc<AtomicBool, Global>,
}

impl Model for Watch {
    ghost use Rattle.std.specs.Prelude.{ℕ};

    ghost Value = { ℕ };

    ghost view = { λ watch. watch.key };
}

impl Watch {
    fn new(alloc: Global, token: Token) -> Result<Watch, NoMemory>
        ensures { IfOk result (λ watch. watch ≡ token.0) }
    {
        Ok(Watch {
            key: token.0,
            told: Arc::new(alloc, AtomicBool::new(false))?,
        })
    }

    fn share(&self) -> Result<Watch, NoMemory>
        ensures { IfOk result (λ watch. watch ≡ self.now) }
    {
        Ok(Watch {
            key: self.key,
            told: Arc::try_clone(&self.told)?,
        })
    }

    /// The key under which the descriptor is to be registered.
    pub fn key(&self) -> usize
        ensures { result ≡ self.now }
    {
        self.key
    }

    /// Whether it was told of since it was last forgotten.
    pub fn is_told(&self) -> bool {
        self.told.load(Ordering::SeqCst)
    }

    /// A call would have waited: what was told before is used up. What comes after that call makes an event that only a
    /// later poll finds, so nothing is lost.
    pub fn forget(&self) {
        self.told.store(false, Ordering::SeqCst);
    }

    /// Notes what an event tells: whatever it is, a call has something to answer.
    fn hear(&self, event: &Event) {
        if event.token().0 == self.key {
            self.told.store(true, Ordering::SeqCst);
        }
    }
}

/// A watch for a descriptor that is read, and one for a descriptor that is written.
#[derive(Drop)]
pub(crate) struct Watches {
    input: Watch,
    output: Watch,
    ghost input_key: { input ≡ 2 ^ 64 - 2 },
    ghost output_key: { output ≡ 2 ^ 64 - 3 },
}

impl Watches {
    pub(crate) fn new(alloc: Global) -> Result<Watches, NoMemory> {
        Ok(Watches {
            input: Watch::new(alloc, Token(INPUT))?,
            output: Watch::new(alloc, Token(OUTPUT))?,
        })
    }

    pub(crate) fn share(&self, half: Half) -> Result<Watch, NoMemory>
        ensures { IfOk result (λ watch. watch ≡ watch_key half) }
    {
        match half {
            Half::ToRead => self.input.share(),
            Half::ToWrite => self.output.share(),
        }
    }

    /// Notes what these events tell of the descriptors.
    pub(crate) fn hear(&self, events: &[Event]) {
        for event in events {
            self.input.hear(event);
            self.output.hear(event);
        }
    }
}
