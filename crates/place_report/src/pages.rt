// A page: text that a terminal can be shown, whatever the words of the command hold.
ghost use Rattle.std.specs.Prelude.{◌≡◌, ◌<◌, ◌++◌, ◌∷◌, [], true, decimal, OnOk};
ghost use Rattle.std.specs.List.{list_all};
ghost use Rattle.relay_model.specs.{hex_digit};
ghost use Rattle.place_report.specs.Shown.{is_printable, IsPrintable, is_plain, shown_byte, shown, quoted, marked};

use relay_model::NoMemory;
use std::alloc::Global;
use std::marker::Model;

/// Lines of printable bytes of ASCII. Bytes of the command are shown as they are or by their number, so that no other
/// byte ever stands here. After want of memory a front of what was to be added may stand there.
#[derive(Drop)]
pub struct Page {
    bytes: Vec<u8>,
}

impl Model for Page {
    ghost use Rattle.std.specs.Prelude.{List, ℕ};
    ghost use Rattle.place_report.specs.Shown.{IsPrintable};

    ghost Value = { List ℕ };

    ghost view = { λ page. page.bytes.items };

    ghost invariant = { λ page. IsPrintable page.bytes.items };
}

fn hex_digit_of(value: u8) -> u8
    requires { value < 16 }
    ensures { result ≡ hex_digit value }
{
    if value < 10 {
        b'0' + value
    } else {
        b'a' + (value - 10)
    }
}

fn is_plain(byte: u8) -> bool
    ensures { result ≡ is_plain byte }
{
    (32..=126).contains(&byte) && byte != b'\\'
}

impl Page {
    /// Nothing yet; takes no memory.
    pub fn new(alloc: Global) -> Page
        ensures { result ≡ [] }
    {
        Page {
            bytes: Vec::new(alloc),
        }
    }

    /// The text.
    pub fn as_slice(&self) -> &[u8]
        ensures text { result.now ≡ self.now }
        ensures printable { IsPrintable self.now }
    {
        self.bytes.as_slice()
    }

    /// Where its memory comes from.
    pub(crate) fn allocator(&self) -> Global {
        *self.bytes.allocator()
    }

    /// Adds bytes that may stand here.
    pub fn add(&mut self, text: &[u8]) -> Result<(), NoMemory>
        requires { IsPrintable text.now }
        ensures { OnOk result (self.new ≡ self.old ++ text.now) }
    {
        self.bytes.extend_from_slice(text)?;
        Ok(())
    }

    /// Adds what another page has.
    pub fn append(&mut self, other: &Page) -> Result<(), NoMemory>
        ensures { OnOk result (self.new ≡ self.old ++ other.now) }
    {
        self.add(other.as_slice())
    }

    fn put(&mut self, byte: u8) -> Result<(), NoMemory>
        requires { is_printable byte ≡ true }
        ensures { OnOk result (self.new ≡ self.old ++ byte ∷ []) }
    {
        self.bytes.push(byte)?;
        Ok(())
    }

    /// A byte as it is or by its number.
    fn show_byte(&mut self, byte: u8) -> Result<(), NoMemory>
        ensures { OnOk result (self.new ≡ self.old ++ shown_byte byte) }
    {
        if is_plain(byte) {
            self.put(byte)
        } else {
            let high = hex_digit_of(byte / 16);
            let low = hex_digit_of(byte % 16);
            self.add(&[b'\\', b'x', high, low])
        }
    }

    /// Adds bytes, each as it is or by its number.
    pub fn show(&mut self, bytes: &[u8]) -> Result<(), NoMemory>
        ensures { OnOk result (self.new ≡ self.old ++ shown bytes.now) }
    {
        for byte in bytes {
            self.show_byte(*byte)?;
        }
        Ok(())
    }

    /// Adds words of the report's own.
    pub fn say(&mut self, words: &str) -> Result<(), NoMemory>
        ensures { OnOk result (self.new ≡ self.old ++ shown words.now) }
    {
        self.show(words.as_bytes())
    }

    /// Adds bytes of the command, between quotes.
    pub fn quote(&mut self, bytes: &[u8]) -> Result<(), NoMemory>
        ensures { OnOk result (self.new ≡ self.old ++ quoted bytes.now) }
    {
        self.put(b'"')?;
        self.show(bytes)?;
        self.put(b'"')
    }

    /// Adds a number.
    #[tactic(auto, using(crate::proofs::Printing::decimal_printable))]
    pub fn number(&mut self, number: u64) -> Result<(), NoMemory>
        ensures { OnOk result (self.new ≡ self.old ++ decimal number) }
    {
        let digits = format!(in self.allocator(); "{number}")?;
        self.add(digits.as_bytes())
    }

    /// Adds a mark below each byte that is shown of these.
    pub fn mark(&mut self, mark: u8, bytes: &[u8]) -> Result<(), NoMemory>
        requires { is_printable mark ≡ true }
        ensures { OnOk result (self.new ≡ self.old ++ marked mark bytes.now) }
    {
        for byte in bytes {
            self.put(mark)?;
            if !is_plain(*byte) {
                self.add(&[mark, mark, mark])?;
            }
        }
        Ok(())
    }

    /// Ends the line.
    pub fn end_line(&mut self) -> Result<(), NoMemory>
        ensures { OnOk result (self.new ≡ self.old ++ 10 ∷ []) }
    {
        self.put(b'\n')
    }
}

// ---- whole lines

/// A line of these words.
pub fn line(page: &mut Page, words: &str) -> Result<(), NoMemory>
    ensures { OnOk result (page.new ≡ page.old ++ (shown words.now ++ 10 ∷ [])) }
{
    page.say(words)?;
    page.end_line()
}

/// A line with a number between words.
pub(crate) fn numbered_line(
    page: &mut Page,
    before: &str,
    number: u64,
    after: &str,
) -> Result<(), NoMemory> {
    page.say(before)?;
    page.number(number)?;
    line(page, after)
}

/// A line with a name between words.
pub(crate) fn named_line(
    page: &mut Page,
    before: &str,
    name: &[u8],
    after: &str,
) -> Result<(), NoMemory> {
    page.say(before)?;
    page.quote(name)?;
    line(page, after)
}
