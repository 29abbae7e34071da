// How far a talk has come.
ghost use Rattle.std.specs.Prelude.{◌≡◌};
ghost use Rattle.tunnel_port.specs.Talks.{is_passed, settled_at, read_at, write_at};

use port_trait::{Got, Settled, Took};

/// How far a talk has come.
#[derive(Clone, Copy, PartialEq)]
pub enum TalkStage {
    /// The port beneath hasn't settled yet.
    Joining,
    /// The request is being written, or the reply is being read.
    Talking,
    /// The reply has granted the request.
    Passed,
    /// The port beneath has failed.
    Faulted,
    /// The reply has refused the request, or is none.
    Refused,
    /// The port beneath ended before the reply did.
    Cut,
}

impl TalkStage {
    /// Whether the reply has granted the request.
    pub fn is_passed(self) -> bool
        ensures { result ≡ is_passed self }
    {
        match self {
            TalkStage::Passed => true,
            TalkStage::Joining
            | TalkStage::Talking
            | TalkStage::Faulted
            | TalkStage::Refused
            | TalkStage::Cut => false,
        }
    }

    /// What a settling that came this far answers.
    pub(crate) fn settle_answer(self) -> Settled
        ensures { result ≡ settled_at self }
    {
        match self {
            TalkStage::Passed => Settled::Ready,
            TalkStage::Joining | TalkStage::Talking => Settled::NotYet,
            TalkStage::Faulted | TalkStage::Refused | TalkStage::Cut => Settled::Failed,
        }
    }

    /// What a read answers that comes before the request is granted.
    pub(crate) fn barred_read(self) -> Got
        ensures { result ≡ read_at self }
    {
        match self {
            TalkStage::Joining | TalkStage::Talking | TalkStage::Passed => Got::NotYet,
            TalkStage::Faulted | TalkStage::Refused | TalkStage::Cut => Got::Failed,
        }
    }

    /// What a write answers that comes before the request is granted.
    pub(crate) fn barred_write(self) -> Took
        ensures { result ≡ write_at self }
    {
        match self {
            TalkStage::Joining | TalkStage::Talking | TalkStage::Passed => Took::NotYet,
            TalkStage::Faulted | TalkStage::Refused | TalkStage::Cut => Took::Failed,
        }
    }
}
