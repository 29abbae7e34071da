// The text of a journal, read from a source to its end.
ghost use Rattle.std.specs.Prelude.{◌≡◌, IfOk, IfErr};
ghost use Rattle.journal_text.specs.declared.sources.Unread.TheVariants as unread;
ghost use Rattle.journal_text.specs.Sources.{HasRead, HasReadBeneath, WhyUnread};

use port_trait::{Source, SourceGot};
use std::alloc::{AllocError, Global};

/// The longest text that is read, in bytes.
pub const LONGEST_TEXT: usize = 16_777_216;

/// How much is read at once, in bytes.
const CHUNK: usize = 16_384;

/// Why a text isn't read.
#[derive(Clone, Copy, PartialEq, Eq)]
pub enum Unread {
    Memory,
    Failed,
}

impl From<AllocError> for Unread {
    ghost from_gives = { λ _ found. found ≡ unread.Memory };

    fn from(_error: AllocError) -> Unread {
        Unread::Memory
    }
}

/// Reads the source to its end, or until it has given more than the longest text.
pub fn read_text<S: Source>(alloc: Global, source: &mut S) -> Result<Vec<u8>, Unread>
    ensures text { IfOk result (λ text. HasRead text.items (S.left source.old) (S.left source.new) (S.ends source.old) (S.ends source.new)) }
    ensures beneath { IfOk result (λ text. HasReadBeneath text.items (S.rest source.old) (S.rest source.new)) }
    ensures unread { IfErr result (WhyUnread (S.faults source.old) (S.faults source.new)) }
{
    let mut text = Vec::new(alloc);
    let mut chunk = [0u8; CHUNK];
    while text.len() <= LONGEST_TEXT {
        match source.read(&mut chunk) {
            SourceGot::Bytes(count) => text.extend_from_slice(&chunk[..count])?,
            SourceGot::End => return Ok(text),
            SourceGot::Failed => return Err(Unread::Failed),
        }
    }
    Ok(text)
}
