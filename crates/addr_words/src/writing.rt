// How bytes are written so that each stands for itself.
ghost use Rattle.std.specs.Prelude.{◌≡◌, ◌≤◌, ◌++◌, length, IfOk, OnOk};
ghost use Rattle.addr_words.specs.Writing.{is_special, written_byte, written, SpellsBytes};

use relay_model::{Bytes, NoMemory};
use std::alloc::{AllocError, Global};

fn is_special(byte: u8) -> bool
    ensures { result ≡ is_special byte }
{
    matches!(
        byte,
        b'\\' | b'"' | b'\'' | b'(' | b'[' | b'{' | b':' | b',' | b'!' | b'='
    )
}

fn push_written(out: &mut Vec<u8>, byte: u8) -> Result<(), AllocError>
    ensures { OnOk result (out.new.items ≡ out.old.items ++ written_byte byte) }
{
    if is_special(byte) {
        out.push(b'\\')?;
    }
    out.push(byte)?;
    Ok(())
}

/// The bytes with a backslash before each one that would mean something else than itself.
pub fn write_word(alloc: Global, bytes: &[u8]) -> Result<Bytes, NoMemory>
    ensures ok { IfOk result (λ word. word ≡ written bytes.now) }
    // What was written is read as its bytes.
    ensures again { IfOk result (λ word. length word ≤ 65536 → SpellsBytes word bytes.now) }
{
    let mut out = Vec::new(alloc);
    for byte in bytes {
        push_written(&mut out, *byte)?;
    }
    Bytes::of(alloc, &out)
}
