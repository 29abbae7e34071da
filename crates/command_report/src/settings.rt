// What the flags set.
ghost use Rattle.std.specs.Prelude.{◌≡◌, ◌++◌, IfOk, OnOk};
ghost use Rattle.command_report.specs.Reports.{block_line, SettingsTold};

use command_places::{has_fork, is_formed, keeps_borders};
use place_report::{Page, line, say_time};
use relay_model::{Config, Dump, NoMemory, Way};
use std::alloc::Global;

/// The size of a block, and how much may wait.
fn say_block(page: &mut Page, block: u32) -> Result<(), NoMemory>
    ensures { OnOk result (page.new ≡ page.old ++ block_line block) }
{
    page.say("blocks: ")?;
    page.number(u64::from(block))?;
    page.say(" bytes at most; no more than ")?;
    page.number(2 * u64::from(block))?;
    page.say(" bytes ever wait in one direction (-b)")?;
    page.end_line()?;
    Ok(())
}

/// Whether bytes pass in both directions.
fn is_two_way(config: &Config) -> bool {
    is_formed(config, Way::LeftToRight) && is_formed(config, Way::RightToLeft)
}

fn say_ways(page: &mut Page, config: &Config) -> Result<(), NoMemory> {
    if is_two_way(config) {
        line(page, "ways: both")
    } else if is_formed(config, Way::LeftToRight) {
        line(page, "ways: from the first address to the second alone")
    } else {
        line(page, "ways: from the second address to the first alone")
    }
}

fn say_borders(page: &mut Page, config: &Config) -> Result<(), NoMemory> {
    if keeps_borders(config, Way::LeftToRight) || keeps_borders(config, Way::RightToLeft) {
        line(
            page,
            "packets: each datagram that is read goes out as one; what is longer than a block is cut",
        )?;
    }
    Ok(())
}

fn say_closing(page: &mut Page, config: &Config) -> Result<(), NoMemory> {
    page.say("closing time: ")?;
    say_time(page, config.closing)?;
    if is_two_way(config) {
        line(
            page,
            " for the other way, once one has passed its end on (-t)",
        )
    } else {
        line(
            page,
            ", of no use with one way: it ends once its end is passed on (-t)",
        )
    }
}

/// With `fork` each session has its own.
fn say_idle(page: &mut Page, config: &Config) -> Result<(), NoMemory> {
    if config.idle == 0 {
        return line(page, "inactivity: no limit (-T)");
    }
    page.say(if has_fork(config) {
        "inactivity: ends a session in which nothing has passed for "
    } else {
        "inactivity: ends where nothing has passed for "
    })?;
    say_time(page, config.idle)?;
    line(page, " (-T)")
}

fn say_failures(page: &mut Page, config: &Config) -> Result<(), NoMemory> {
    line(
        page,
        match (has_fork(config), config.sloppy) {
            (false, false) => {
                "failures: a failed read or write ends the run with status 1 (no -s)"
            }
            (false, true) => {
                "failures: a failed read or write breaks its own way alone; the run then ends with status 1 (-s)"
            }
            (true, false) => {
                "failures: a failed read or write ends its session alone; the run goes on (no -s)"
            }
            (true, true) => {
                "failures: a failed read or write breaks its own way of its session alone; the run goes on (-s)"
            }
        },
    )
}

fn say_dumps(page: &mut Page, dump: Dump) -> Result<(), NoMemory> {
    line(
        page,
        match dump {
            Dump::Off => "dumps: none (no -v, no -x)",
            Dump::Text => "dumps: what is read, on standard error as text (-v)",
            Dump::Hex => "dumps: what is read, on standard error in hexadecimal (-x)",
            Dump::Mixed =>
                "dumps: what is read, on standard error in hexadecimal and then as text (-v, -x)",
        },
    )
}

fn other_settings(alloc: Global, config: &Config) -> Result<Page, NoMemory> {
    let mut page = Page::new(alloc);
    say_ways(&mut page, config)?;
    say_borders(&mut page, config)?;
    say_closing(&mut page, config)?;
    say_idle(&mut page, config)?;
    say_failures(&mut page, config)?;
    say_dumps(&mut page, config.dump)?;
    Ok(page)
}

/// The lines on what holds for the whole relay: blocks, ways, times, failures, dumps.
pub(crate) fn settings(alloc: Global, config: &Config) -> Result<Page, NoMemory>
    ensures { IfOk result (SettingsTold config.now) }
{
    let mut page = Page::new(alloc);
    say_block(&mut page, config.block)?;
    page.append(&other_settings(alloc, config)?)?;
    Ok(page)
}
