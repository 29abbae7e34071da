// What each direction owes of the bytes that were read, and which inputs met their escape byte, kept up with each act.
ghost use Rattle.std.specs.Prelude.{◌≡◌, ◌∷◌, ◌||◌, List, [], OnOk, IfOk};
ghost use Rattle.relay_model.specs.{Config, Act, input, output, options_of, due_of, is_met};
ghost use Rattle.relay_model.specs.declared.acts.Act.TheVariants.{Read};
ghost use Rattle.session_facts.specs.Owings.{due_number, left_of, met_at, MetTold, DuesTold, OwingsTold};

use crate::conversions::{convert_bytes, is_met};
use crate::listed::ListedBytes;
use command_places::{input, options_of, output, way_from};
use history_facts::{Past, Placed, got_length};
use relay_model::{Act, Config, NoMemory, Place, Way};
use std::alloc::Global;

/// What each direction owes, and which inputs met their escape byte.
#[derive(Drop)]
pub struct Owings {
    /// What is due of all that was read, by session and direction.
    pub due: ListedBytes,
    /// Whether the escape byte stands among the bytes of an input that count.
    pub met: Placed<bool>,
}

/// The number of a session's direction.
pub fn due_number(session: u32, way: Way) -> u64
    ensures { result ≡ due_number session way }
{
    match way {
        Way::LeftToRight => u64::from(session) * 2,
        Way::RightToLeft => u64::from(session) * 2 + 1,
    }
}

fn left_of(readbytes: Option<u64>, count: usize) -> Option<u64>
    ensures { result ≡ left_of readbytes count }
{
    match readbytes {
        None => None,
        Some(most) => Some(most.saturating_sub(count as u64)),
    }
}

impl Owings {
    /// What holds before any act.
    pub fn new(alloc: Global) -> Owings
        ensures { (c : Config) → OwingsTold c result [] }
    {
        Owings {
            due: ListedBytes::new(alloc),
            met: Placed::new(alloc, false),
        }
    }

    /// Takes in one more act.
    pub fn note(&mut self, alloc: Global, facts: &Past, act: &Act) -> Result<(), NoMemory>
        ensures { OnOk result (OwingsTold facts.now.config self.old facts.now.acts → OwingsTold facts.now.config self.new (act.now ∷ facts.now.acts)) }
    {
        match act {
            Act::Read(place, bytes) => {
                let met = self.met.at(*place);
                read_due(alloc, &mut self.due, met, facts, *place, bytes.as_slice())?;
                read_met(&mut self.met, facts, *place, bytes.as_slice())
            }
            _ => Ok(()),
        }
    }
}

/// What is due of bytes that come after so many others, among which the escape byte didn't stand.
fn due_more(
    alloc: Global,
    config: &Config,
    way: Way,
    count: usize,
    bytes: &[u8],
) -> Result<Vec<u8>, NoMemory>
    ensures { IfOk result (λ more. more.items
        ≡ due_of (options_of config.now (input config.now 0 way)).conv (options_of config.now (output config.now 0 way)).conv
        (left_of (options_of config.now (input config.now 0 way)).input.readbytes count)
        (options_of config.now (input config.now 0 way)).input.escape bytes.now) }
{
    let reading = options_of(config, input(config, 0, way));
    let writing = options_of(config, output(config, 0, way));
    let left = left_of(reading.input.readbytes, count);
    convert_bytes(
        alloc,
        reading.conv,
        writing.conv,
        left,
        reading.input.escape,
        bytes,
    )
}

/// What a read adds to what its direction owes: nothing after the escape byte.
fn read_due(
    alloc: Global,
    due: &mut ListedBytes,
    met: bool,
    facts: &Past,
    place: Place,
    bytes: &[u8],
) -> Result<(), NoMemory>
    ensures { OnOk result (met ≡ met_at facts.now.config facts.now.acts place → DuesTold facts.now.config due.old facts.now.acts
        → DuesTold facts.now.config due.new (Read place bytes.now ∷ facts.now.acts)) }
{
    if met {
        return Ok(());
    }
    let config = facts.config();
    let way = way_from(place.side);
    if place.is(input(config, place.session, way)) {
        let count = got_length(facts, place);
        let more = due_more(alloc, config, way, count, bytes)?;
        due.append(due_number(place.session, way), more.as_slice())?;
        Ok(())
    } else {
        Ok(())
    }
}

fn meets(config: &Config, place: Place, met: bool, count: usize, bytes: &[u8]) -> bool
    ensures { result ≡ (met || is_met (left_of (options_of config.now place).input.readbytes count)
        (options_of config.now place).input.escape bytes.now) }
{
    let reading = options_of(config, place).input;
    met || is_met(left_of(reading.readbytes, count), reading.escape, bytes)
}

fn read_met(
    met: &mut Placed<bool>,
    facts: &Past,
    place: Place,
    bytes: &[u8],
) -> Result<(), NoMemory>
    ensures { OnOk result (MetTold facts.now.config met.old facts.now.acts → MetTold facts.now.config met.new (Read place bytes.now ∷ facts.now.acts)) }
{
    let before = met.at(place);
    let count = got_length(facts, place);
    let after = meets(facts.config(), place, before, count, bytes);
    met.set(place, after)?;
    Ok(())
}
