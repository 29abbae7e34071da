// Since when a desk is followed.
ghost use Rattle.std.specs.Prelude.{Option, None};
ghost use Rattle.port_desk.specs.Following.{Start};

use std::marker::{Brand, PhantomData};

/// How a desk stood where it was first followed; none where it isn't followed. Each call picks it.
pub trait Beginning {
    ghost start: { Option Start };
}

impl Beginning for Brand {
    ghost start = { None };
}

/// Of a desk that isn't followed.
#[derive(Drop)]
pub struct Unfollowed;

impl Beginning for Unfollowed {
    ghost start = { None };
}

/// Names the beginning, and holds nothing.
#[derive(Drop)]
pub(crate) struct SinceBeginning<B: Beginning> {
    pub(crate) of: PhantomData<B>,
}
