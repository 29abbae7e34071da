// What the queue that goes back carries.
ghost use Rattle.ring_queue.specs.Words.{AnyWord, AnyFault};

use crate::roles::Item;

/// What a reader's port tells its thread after a mark: to go on, or to come to its end.
#[derive(Clone, Copy)]
pub enum Word {
    Ask,
    Stop,
}

impl Item for Word {
    ghost follows = { AnyWord };
}

/// What a writer's thread tells its port: the sink failed.
#[derive(Clone, Copy)]
pub struct SinkFault;

impl Item for SinkFault {
    ghost follows = { AnyFault };
}
