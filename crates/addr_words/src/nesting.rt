// The quotes and brackets that are open at a byte. They are kept in a list, so that a text may nest them as
// deep as it is long.
ghost use Rattle.std.specs.Prelude.{◌≡◌, ◌↔◌, IsTrue, OnOk, [], ◌∷◌, drop};
ghost use Rattle.addr_words.specs.Reading.{begun_by, is_ended_by, is_bracket, innermost, outermost, open_after};

use std::alloc::{AllocError, Global};
use std::marker::Model;

/// What may enclose a byte.
#[derive(Clone, Copy)]
pub enum Enclosure {
    DoubleQuote,
    SingleQuote,
    Bracket { closing: u8 },
}

/// An enclosure and the offset of the byte that opens it.
#[derive(Clone, Copy)]
pub struct OpenEnclosure {
    pub what: Enclosure,
    pub at: u32,
}

fn enclosure_of(byte: u8) -> Option<Enclosure>
    ensures { result ≡ begun_by byte }
{
    match byte {
        b'"' => Some(Enclosure::DoubleQuote),
        b'\'' => Some(Enclosure::SingleQuote),
        b'(' => Some(Enclosure::Bracket { closing: b')' }),
        b'[' => Some(Enclosure::Bracket { closing: b']' }),
        b'{' => Some(Enclosure::Bracket { closing: b'}' }),
        _ => None,
    }
}

impl Enclosure {
    fn is_ended_by(self, byte: u8) -> bool
        ensures { result ≡ is_ended_by self byte }
    {
        match self {
            Enclosure::DoubleQuote => byte == b'"',
            Enclosure::SingleQuote => byte == b'\'',
            Enclosure::Bracket { closing } => byte == closing,
        }
    }

    fn is_bracket(self) -> bool
        ensures { result ≡ is_bracket self }
    {
        matches!(self, Enclosure::Bracket { .. })
    }
}

/// What is open, which contracts see with the innermost first.
#[derive(Drop)]
pub struct OpenEnclosures {
    items: Vec<OpenEnclosure>,
}

impl Model for OpenEnclosures {
    ghost use Rattle.std.specs.Prelude.{List, reverse};
    ghost use Rattle.addr_words.specs.declared.nesting.OpenEnclosure.{OpenEnclosure};

    ghost Value = { List OpenEnclosure };

    ghost view = { λ around. reverse around.items.items };
}

impl OpenEnclosures {
    pub fn new(alloc: Global) -> OpenEnclosures
        ensures { result ≡ [] }
    {
        OpenEnclosures {
            items: Vec::new(alloc),
        }
    }

    pub fn innermost(&self) -> Option<Enclosure>
        ensures { result ≡ innermost self.now }
    {
        self.items.last().map(|opening| opening.what)
    }

    /// The offset at which the outermost begins.
    pub fn outermost(&self) -> Option<u32>
        ensures { result ≡ outermost self.now }
    {
        let outermost = self.items.first()?;
        Some(outermost.at)
    }

    fn begin(&mut self, what: Enclosure, at: u32) -> Result<(), AllocError>
        ensures { OnOk result (self.new ≡ record { what = what; at = at } ∷ self.old) }
    {
        self.items.push(OpenEnclosure { what, at })?;
        Ok(())
    }

    fn end(&mut self)
        ensures { self.new ≡ drop 1 self.old }
    {
        let _ = self.items.pop();
    }

    /// What is open after the byte at this offset.
    pub fn pass(&mut self, at: u32, byte: u8) -> Result<(), AllocError>
        ensures { OnOk result (self.new ≡ open_after self.old at byte) }
    {
        if let Some(innermost) = self.innermost() {
            if innermost.is_ended_by(byte) {
                self.end();
                return Ok(());
            }
            if !innermost.is_bracket() {
                return Ok(());
            }
        }
        match enclosure_of(byte) {
            Some(what) => self.begin(what, at),
            None => Ok(()),
        }
    }
}
