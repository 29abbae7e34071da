// What a picture is made of: lines and words, in the markup of SVG.
ghost use Rattle.std.specs.Prelude.{◌≡◌, ◌++◌, codes, decimal, string_bytes, IfOk, OnOk};
ghost use Rattle.std.specs.List.{flat_map};
ghost use Rattle.place_report.specs.{shown, said};
ghost use Rattle.journal_report.specs.Elements.{ink_text, from_text, to_text, style_text, xml_byte, xml_text, element_text};
ghost use Rattle.journal_report.specs.Elements as elements;

use place_report::Page;
use relay_model::NoMemory;
use std::alloc::Global;

/// The colour of a line.
#[derive(Clone, Copy)]
pub enum Ink {
    Black,
    White,
    Grey,
    Blue,
    Orange,
    Green,
    Purple,
    Red,
}

/// A line from one point to another.
#[derive(Clone, Copy)]
pub struct Stroke {
    pub x1: u64,
    pub y1: u64,
    pub x2: u64,
    pub y2: u64,
    pub width: u64,
    pub ink: Ink,
}

fn ink_words(ink: Ink) -> &'static str
    ensures { result.now ≡ ink_text ink }
{
    match ink {
        Ink::Black => "#222222",
        Ink::White => "#ffffff",
        Ink::Grey => "#aaaaaa",
        Ink::Blue => "#1f77b4",
        Ink::Orange => "#ff7f0e",
        Ink::Green => "#2ca02c",
        Ink::Purple => "#9467bd",
        Ink::Red => "#d62728",
    }
}

fn from_string(alloc: Global, x: u64, y: u64) -> Result<String, NoMemory>
    ensures { IfOk result (λ text. string_bytes text ≡ from_text x y) }
{
    Ok(format!(in alloc; "<line x1='{x}' y1='{y}'")?)
}

fn to_string(alloc: Global, x: u64, y: u64) -> Result<String, NoMemory>
    ensures { IfOk result (λ text. string_bytes text ≡ to_text x y) }
{
    Ok(format!(in alloc; " x2='{x}' y2='{y}'")?)
}

fn style_string(alloc: Global, width: u64, ink: Ink) -> Result<String, NoMemory>
    ensures { IfOk result (λ text. string_bytes text ≡ style_text width ink) }
{
    let colour = ink_words(ink);
    Ok(format!(in alloc; " stroke-width='{width}' stroke='{colour}'/>")?)
}

/// Adds a line.
pub(crate) fn say_stroke(alloc: Global, page: &mut Page, stroke: &Stroke) -> Result<(), NoMemory>
    ensures { OnOk result (page.new ≡ page.old ++ element_text (elements.Line stroke.now)) }
{
    page.say(from_string(alloc, stroke.x1, stroke.y1)?.as_str())?;
    page.say(to_string(alloc, stroke.x2, stroke.y2)?.as_str())?;
    page.say(style_string(alloc, stroke.width, stroke.ink)?.as_str())?;
    page.end_line()
}

/// A byte of words; what begins markup is spelt out.
fn say_byte(page: &mut Page, byte: u8) -> Result<(), NoMemory>
    ensures { OnOk result (page.new ≡ page.old ++ xml_byte byte) }
{
    match byte {
        b'<' => page.say("&lt;"),
        b'&' => page.say("&amp;"),
        other => page.show(&[other]),
    }
}

fn say_bytes(page: &mut Page, bytes: &[u8]) -> Result<(), NoMemory>
    ensures { OnOk result (page.new ≡ page.old ++ xml_text bytes.now) }
{
    for byte in bytes {
        say_byte(page, *byte)?;
    }
    Ok(())
}

fn words_head(alloc: Global, x: u64, y: u64) -> Result<String, NoMemory>
    ensures { IfOk result (λ text. string_bytes text ≡ codes "<text x='" ++ decimal x ++ codes "' y='" ++ decimal y ++ codes "'>") }
{
    Ok(format!(in alloc; "<text x='{x}' y='{y}'>")?)
}

/// Adds words that begin at this point.
pub(crate) fn say_words(
    alloc: Global,
    page: &mut Page,
    x: u64,
    y: u64,
    words: &[u8],
) -> Result<(), NoMemory>
    ensures { OnOk result (page.new ≡ page.old ++ element_text (elements.Words x y words.now)) }
{
    page.say(words_head(alloc, x, y)?.as_str())?;
    say_bytes(page, words)?;
    page.say("</text>")?;
    page.end_line()
}
