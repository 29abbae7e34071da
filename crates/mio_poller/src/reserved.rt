// The keys under which the program registers what is no made port.
ghost use Rattle.std.specs.Prelude.{◌≡◌};
ghost use Rattle.mio_poller.specs.Pollers.{is_reserved};

/// The least reserved key. The keys of made ports count memory, so that they are below half of all numbers.
pub const FIRST_RESERVED: usize = usize::MAX - 4;

/// What wakes the poller.
pub const WAKE: usize = usize::MAX;

/// The watch of a descriptor that is read.
pub const INPUT: usize = usize::MAX - 1;

/// The watch of a descriptor that is written.
pub const OUTPUT: usize = usize::MAX - 2;

/// The try whether a descriptor can be registered.
pub const PROBE: usize = usize::MAX - 3;

/// A socket of datagrams that peers share.
pub const SHARED: usize = usize::MAX - 4;

/// Whether the key is reserved.
pub fn is_reserved(key: usize) -> bool
    ensures { result ≡ is_reserved key }
{
    key >= FIRST_RESERVED
}

const _: () = prove!(WAKE != INPUT && WAKE != OUTPUT && WAKE != PROBE && WAKE != SHARED);

const _: () = prove!(INPUT != OUTPUT && INPUT != PROBE && INPUT != SHARED);

const _: () = prove!(OUTPUT != PROBE && OUTPUT != SHARED && PROBE != SHARED);

const _: () = prove!(WAKE >= FIRST_RESERVED && INPUT >= FIRST_RESERVED);

const _: () = prove!(OUTPUT >= FIRST_RESERVED && PROBE >= FIRST_RESERVED);

const _: () = prove!(SHARED >= FIRST_RESERVED);
