// The report on a command.
ghost use Rattle.std.specs.Prelude.{◌≡◌, ◌++◌, decimal, IfOk};
ghost use Rattle.relay_model.specs.{newline};
ghost use Rattle.place_report.specs.{IsPrintable, EndsLine, shown};
ghost use Rattle.command_report.specs.Reports.{RelayTold, Tells};

use crate::sections::address_told;
use crate::settings::settings;
use cmd_words::Command;
use place_report::Page;
use relay_model::{Bytes, Config, NoMemory, Side};
use std::alloc::Global;

fn relay_told(alloc: Global, config: &Config) -> Result<Page, NoMemory>
    ensures told { IfOk result (RelayTold config.now) }
{
    let mut page = settings(alloc, config)?;
    page.end_line()?;
    page.append(&address_told(alloc, config, Side::Left)?)?;
    page.end_line()?;
    page.append(&address_told(alloc, config, Side::Right)?)?;
    Ok(page)
}

fn words_told(alloc: Global, words: &str) -> Result<Page, NoMemory>
    ensures { IfOk result (λ page. page ≡ shown words.now ++ newline) }
{
    let mut page = Page::new(alloc);
    page.say(words)?;
    page.end_line()?;
    Ok(page)
}

fn load_told(alloc: Global, number: u64) -> Result<Page, NoMemory>
    ensures { IfOk result (Tells (Command.Load number)) }
{
    let mut page = Page::new(alloc);
    page.say("relays fifty sessions in memory, with bytes that the number ")?;
    page.number(number)?;
    page.say(" generates; opens nothing")?;
    page.end_line()?;
    Ok(page)
}

fn page_of(alloc: Global, command: &Command) -> Result<Page, NoMemory>
    ensures { IfOk result (Tells command.now) }
{
    match command {
        Command::Relay(config) => relay_told(alloc, config),
        Command::Usage => words_told(
            alloc,
            "prints the usage on standard error, and opens nothing",
        ),
        Command::Version => words_told(
            alloc,
            "prints the version on standard error, and opens nothing",
        ),
        Command::Load(number) => load_told(alloc, *number),
    }
}

/// What a command does, in plain words: what holds for the whole relay, and each address with every option that means
/// something for its kind and its use, whether it is written or at its default (socat(1)). It is a function of the
/// command alone; nothing is opened.
#[tactic(auto, using(crate::proofs::Endings::report_ends))]
pub fn explanation(alloc: Global, command: &Command) -> Result<Bytes, NoMemory>
    ensures told { IfOk result (Tells command.now) }
    ensures printable { IfOk result IsPrintable }
    ensures whole { IfOk result EndsLine }
{
    let page = page_of(alloc, command)?;
    Bytes::of(alloc, page.as_slice())
}
