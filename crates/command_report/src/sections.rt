// The lines on the addresses of a relay.
ghost use Rattle.std.specs.Prelude.{◌≡◌, ◌++◌, IfOk, OnOk};
ghost use Rattle.relay_model.specs.{address, formed, way_from, way_to};
ghost use Rattle.place_report.specs.{title_of, use_line, IsTold, shown, said};
ghost use Rattle.command_report.specs.Reports.{ending_words, ending, ending_line, AreTold, SideTold};

use command_places::{how, is_formed, output, parts, way_from, way_to};
use place_report::{Page, Use, place_told};
use relay_model::{Address, Config, NoMemory, Part, Shut, Side, Single};
use std::alloc::Global;

/// How an end is passed on where nothing stands in its way, in words.
fn ending_words(ending: Option<Shut>) -> &'static str
    ensures { shown result.now ≡ ending_words ending }
{
    match ending {
        None => "none comes: nothing is written to it",
        Some(Shut::Nothing) => "isn't passed on to it (as with shut-none)",
        Some(Shut::Down) => "passed on by ending its writing half (as with shut-down)",
        Some(Shut::Close) => "passed on by closing it (as with shut-close)",
        Some(Shut::Null) => "passed on by an empty datagram (as with shut-null)",
    }
}

/// How the end of the direction that is written to a side is passed on, if one is.
fn ending(config: &Config, side: Side) -> Option<Shut>
    ensures { result ≡ ending config.now side }
{
    let way = way_to(side);
    if is_formed(config, way) {
        Some(how(config, output(config, 0, way)))
    } else {
        None
    }
}

fn say_ending(page: &mut Page, config: &Config, side: Side) -> Result<(), NoMemory>
    ensures { OnOk result (page.new ≡ page.old ++ ending_line config.now side) }
{
    page.say("  the other's end: ")?;
    page.say(ending_words(ending(config, side)))?;
    page.end_line()?;
    Ok(())
}

/// An address that isn't dual.
fn single_told(
    alloc: Global,
    config: &Config,
    side: Side,
    single: &Single,
) -> Result<Page, NoMemory>
    ensures { IfOk result (IsTold (title_of side ++ said ": ") single.now.target (use_line (formed config.now (way_from side)) (formed config.now (way_to side))) (ending_line config.now side)) }
{
    let part = match parts(config, side) {
        [part, ..] => *part,
        [] => Part::Both,
    };
    let used = Use {
        part,
        read: is_formed(config, way_from(side)),
        written: is_formed(config, way_to(side)),
    };
    let mut page = place_told(alloc, side, ": ", single, used)?;
    say_ending(&mut page, config, side)?;
    Ok(page)
}

/// Both halves of a dual address.
fn dual_told(
    alloc: Global,
    config: &Config,
    side: Side,
    reading: &Single,
    writing: &Single,
) -> Result<Page, NoMemory>
    ensures { IfOk result (AreTold (title_of side) reading.now.target writing.now.target (formed config.now (way_from side)) (formed config.now (way_to side)) (ending_line config.now side)) }
{
    let read = Use {
        part: Part::Reading,
        read: is_formed(config, way_from(side)),
        written: false,
    };
    let written = Use {
        part: Part::Writing,
        read: false,
        written: is_formed(config, way_to(side)),
    };
    let mut page = place_told(alloc, side, ", to read from: ", reading, read)?;
    page.append(&place_told(alloc, side, ", to write to: ", writing, written)?)?;
    say_ending(&mut page, config, side)?;
    Ok(page)
}

fn address_of(config: &Config, side: Side) -> &Address
    ensures { result.now ≡ address config.now side }
{
    match side {
        Side::Left => &config.left,
        Side::Right => &config.right,
    }
}

/// The lines on the address of a side.
pub(crate) fn address_told(alloc: Global, config: &Config, side: Side) -> Result<Page, NoMemory>
    ensures { IfOk result (SideTold config.now side) }
{
    match address_of(config, side) {
        Address::One(single) => single_told(alloc, config, side, single),
        Address::Two { reading, writing } => dual_told(alloc, config, side, reading, writing),
    }
}
