// The words that lines begin with.
ghost use Rattle.std.specs.Prelude.{◌≡◌};
ghost use Rattle.journal_text.specs.Reading.{kind_text, kind_in};
ghost use Rattle.journal_text.specs.Kinds.{kind_of};

use relay_model::Act;

/// What an act tells of, without its fields.
#[derive(Clone, Copy)]
pub(crate) enum ActKind {
    Turn,
    Opened,
    OpenLater,
    OpenFailed,
    Listening,
    ListenFailed,
    Accepted,
    NoPeer,
    AcceptFailed,
    Read,
    ReadEmpty,
    ReadEnd,
    ReadNotYet,
    ReadFault,
    Wrote,
    WriteNotYet,
    WriteFault,
    Shut,
    ShutFault,
    Closed,
    Reaped,
    Note,
    NoteFault,
}

const KINDS: [ActKind; 23] = [
    ActKind::Turn,
    ActKind::Opened,
    ActKind::OpenLater,
    ActKind::OpenFailed,
    ActKind::Listening,
    ActKind::ListenFailed,
    ActKind::Accepted,
    ActKind::NoPeer,
    ActKind::AcceptFailed,
    ActKind::Read,
    ActKind::ReadEmpty,
    ActKind::ReadEnd,
    ActKind::ReadNotYet,
    ActKind::ReadFault,
    ActKind::Wrote,
    ActKind::WriteNotYet,
    ActKind::WriteFault,
    ActKind::Shut,
    ActKind::ShutFault,
    ActKind::Closed,
    ActKind::Reaped,
    ActKind::Note,
    ActKind::NoteFault,
];

impl ActKind {
    pub(crate) fn of(act: &Act) -> ActKind
        ensures { result ≡ kind_of act.now }
    {
        match act {
            Act::Turn { .. } => ActKind::Turn,
            Act::Opened(_) => ActKind::Opened,
            Act::OpenLater(_) => ActKind::OpenLater,
            Act::OpenFailed(_) => ActKind::OpenFailed,
            Act::Listening(_) => ActKind::Listening,
            Act::ListenFailed(_) => ActKind::ListenFailed,
            Act::Accepted(..) => ActKind::Accepted,
            Act::NoPeer(_) => ActKind::NoPeer,
            Act::AcceptFailed(_) => ActKind::AcceptFailed,
            Act::Read(..) => ActKind::Read,
            Act::ReadEmpty(_) => ActKind::ReadEmpty,
            Act::ReadEnd(_) => ActKind::ReadEnd,
            Act::ReadNotYet(_) => ActKind::ReadNotYet,
            Act::ReadFault(_) => ActKind::ReadFault,
            Act::Wrote(..) => ActKind::Wrote,
            Act::WriteNotYet(_) => ActKind::WriteNotYet,
            Act::WriteFault(_) => ActKind::WriteFault,
            Act::Shut(..) => ActKind::Shut,
            Act::ShutFault(..) => ActKind::ShutFault,
            Act::Closed(..) => ActKind::Closed,
            Act::Reaped(..) => ActKind::Reaped,
            Act::Note(_) => ActKind::Note,
            Act::NoteFault(_) => ActKind::NoteFault,
        }
    }

    pub(crate) fn word(self) -> &'static [u8]
        ensures { result.now ≡ kind_text self }
    {
        match self {
            ActKind::Turn => b"turn",
            ActKind::Opened => b"opened",
            ActKind::OpenLater => b"later",
            ActKind::OpenFailed => b"openfail",
            ActKind::Listening => b"listening",
            ActKind::ListenFailed => b"listenfail",
            ActKind::Accepted => b"accepted",
            ActKind::NoPeer => b"nopeer",
            ActKind::AcceptFailed => b"acceptfail",
            ActKind::Read => b"read",
            ActKind::ReadEmpty => b"empty",
            ActKind::ReadEnd => b"end",
            ActKind::ReadNotYet => b"readnotyet",
            ActKind::ReadFault => b"readfault",
            ActKind::Wrote => b"wrote",
            ActKind::WriteNotYet => b"writenotyet",
            ActKind::WriteFault => b"writefault",
            ActKind::Shut => b"shut",
            ActKind::ShutFault => b"shutfault",
            ActKind::Closed => b"closed",
            ActKind::Reaped => b"reaped",
            ActKind::Note => b"note",
            ActKind::NoteFault => b"notefault",
        }
    }

    /// The kind of this word, if it is one.
    #[tactic(auto, unfolding(crate::specs::Reading::kind_in))]
    pub(crate) fn of_word(word: &[u8]) -> Option<ActKind>
        ensures { result ≡ kind_in word.now }
    {
        KINDS.iter().copied().find(|kind| kind.word() == word)
    }
}
