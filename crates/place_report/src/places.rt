// The lines on one place: an address, or a half of a dual one.
ghost use Rattle.std.specs.Prelude.{◌≡◌, ◌++◌, [], IfOk, OnOk};
ghost use Rattle.place_report.specs.Places.{title_of, use_words, use_line, IsTold};
ghost use Rattle.place_report.specs.Shown.{shown};

use crate::naming::say_kind;
use crate::opening::say_opening;
use crate::pages::Page;
use crate::passing::{say_reading, say_writing};
use relay_model::{NoMemory, Part, Side, Single};
use std::alloc::Global;

/// How a place is opened, and what it is used for.
#[derive(Clone, Copy)]
pub struct Use {
    pub part: Part,
    pub read: bool,
    pub written: bool,
}

/// Whether bytes are read there, and whether they are written, in words.
fn use_words(read: bool, written: bool) -> &'static str
    ensures { shown result.now ≡ use_words read written }
{
    match (read, written) {
        (true, true) => "read and written",
        (true, false) => "read alone",
        (false, true) => "written alone",
        (false, false) => "none; no bytes pass here",
    }
}

fn say_use(page: &mut Page, used: Use) -> Result<(), NoMemory>
    ensures { OnOk result (page.new ≡ page.old ++ use_line used.read used.written) }
{
    page.say("  use: ")?;
    page.say(use_words(used.read, used.written))?;
    page.end_line()?;
    Ok(())
}

/// The lines on the options of a place: those that mean something for its kind and its use.
fn options_told(alloc: Global, single: &Single, used: Use) -> Result<Page, NoMemory> {
    let mut page = Page::new(alloc);
    if used.read || used.written {
        say_opening(&mut page, single, used.part)?;
    }
    if used.read {
        say_reading(&mut page, single)?;
    }
    if used.written {
        say_writing(&mut page, single.options.conv)?;
    }
    Ok(page)
}

/// How the lines on a side begin.
fn title_of(side: Side) -> &'static str
    ensures { shown result.now ≡ title_of side }
{
    match side {
        Side::Left => "first address",
        Side::Right => "second address",
    }
}

/// What a place is, behind a title of its side and these words: its kind with each parameter, its use, and every option
/// that means something there, whether it is written or at its default.
pub fn place_told(
    alloc: Global,
    side: Side,
    title: &str,
    single: &Single,
    used: Use,
) -> Result<Page, NoMemory>
    ensures { IfOk result (IsTold (title_of side ++ shown title.now) single.now.target (use_line used.read used.written) []) }
{
    let mut page = Page::new(alloc);
    page.say(title_of(side))?;
    page.say(title)?;
    say_kind(&mut page, &single.target)?;
    page.end_line()?;
    say_use(&mut page, used)?;
    page.append(&options_told(alloc, single, used)?)?;
    Ok(page)
}
