// The stream of bytes that a number generates.
ghost use Rattle.std.specs.Prelude.{◌≡◌, ◌<◌, ◌^◌, IfOk, OnOk};
ghost use Rattle.socat_top.specs.Stream.{byte_of, bytes_after, first_state, next_state, state_after};

use relay_model::{Bytes, NoMemory};
use std::alloc::Global;

const MODULUS: u64 = 0x8000_0000;

const MULTIPLIER: u64 = 1_103_515_245;

const INCREMENT: u64 = 12_345;

/// How many bytes a piece has.
pub const PIECE: usize = 512;

/// Gives the bytes of the stream of a number, one after another.
#[derive(Clone, Copy)]
pub struct Generator {
    state: u32,
    ghost small: { state < 2 ^ 31 },
}

impl Generator {
    /// At the beginning of the stream of this number.
    pub fn new(number: u64) -> Generator
        ensures { result.state ≡ first_state number }
    {
        Generator {
            state: (number % MODULUS) as u32,
        }
    }

    /// The next byte of the stream.
    pub fn byte(&mut self) -> u8
        ensures state { self.new.state ≡ next_state self.old.state }
        ensures byte { result ≡ byte_of (next_state self.old.state) }
    {
        let next = (MULTIPLIER * u64::from(self.state) + INCREMENT) % MODULUS;
        self.state = next as u32;
        (next / 65_536 % 256) as u8
    }

    /// The next bytes of the stream, as many as a piece has.
    pub fn piece(&mut self, alloc: Global) -> Result<Bytes, NoMemory>
        ensures state { OnOk result (self.new.state ≡ state_after 512 self.old.state) }
        ensures bytes { IfOk result (λ bytes. bytes ≡ bytes_after 512 self.old.state) }
    {
        let mut bytes = Vec::with_capacity(alloc, PIECE)?;
        for _ in 0..PIECE {
            bytes.push(self.byte())?;
        }
        Bytes::of(alloc, bytes.as_slice())
    }
}
