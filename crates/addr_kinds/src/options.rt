// The options of an address, read from left to right.
ghost use Rattle.std.specs.Prelude.{◌≡◌, map, option_copied};
ghost use Rattle.option_table.specs.{lookup_of, value_of};
ghost use Rattle.addr_grammar.specs.{named};
ghost use Rattle.addr_kinds.specs.Kinds.{known_of};
ghost use Rattle.addr_kinds.specs.Resolving.{option_at, is_port_too_many, value_at, text_of, with_option, with_options, Resolves};

use crate::effects::set_option;
use crate::faults::KindFault;
use crate::kinds::{Kind, KindRow};
use addr_grammar::RawOption;
use option_table::{Lookup, OptionId, OptionRow, Value, has_port, lookup, read_value};
use relay_model::Options;
use std::alloc::Global;

fn option_at(place: u32, name: &[u8]) -> Result<OptionRow, KindFault>
    ensures { result ≡ option_at place (lookup_of name.now) }
{
    match lookup(name) {
        Lookup::Known(row) => Ok(row),
        Lookup::LeftOut => Err(KindFault::LeftOutOption { place }),
        Lookup::Unknown => Err(KindFault::UnknownOption { place }),
    }
}

fn written_value(option: &RawOption) -> Option<&[u8]>
    ensures { option_copied result ≡ option.now.value }
{
    match &option.value {
        Some(value) => Some(value.as_slice()),
        None => None,
    }
}

fn text_of(value: Option<&[u8]>) -> &[u8]
    ensures { result.now ≡ text_of (option_copied value.entry) }
{
    match value {
        Some(text) => text,
        None => &[],
    }
}

/// Whether the option is a local address with a port, where the kind mayn't bind to one.
fn is_port_too_many(kind: Kind, id: OptionId, text: &[u8]) -> bool
    ensures { result ≡ is_port_too_many kind id text.now }
{
    matches!(id, OptionId::Bind) && !kind.binds_port() && has_port(text)
}

fn value_at(
    place: u32,
    kind: Kind,
    row: OptionRow,
    written: Option<&[u8]>,
) -> Result<Value, KindFault>
    ensures { result ≡ value_at place (is_port_too_many kind row.id (text_of (option_copied written.entry))) (value_of row.form (option_copied written.entry)) }
{
    if is_port_too_many(kind, row.id, text_of(written)) {
        return Err(KindFault::BadValue { place });
    }
    match read_value(row, written) {
        Some(value) => Ok(value),
        None => Err(KindFault::BadValue { place }),
    }
}

#[tactic(auto, unfolding(crate::specs::Resolving::with_option))]
fn apply_option(
    alloc: Global,
    known: KindRow,
    general: bool,
    place: u32,
    option: &RawOption,
    options: &mut Options,
) -> Result<(), KindFault>
    ensures { Resolves (λ _. options.new) result (with_option (known_of known) general place (named option.now) options.old) }
{
    let row = option_at(place, option.name.as_slice())?;
    if !general && !known.takes(row.group) {
        return Err(KindFault::WrongGroup { place });
    }
    let written = written_value(option);
    let value = value_at(place, known.kind, row, written)?;
    set_option(alloc, options, row.id, value, text_of(written))?;
    Ok(())
}

/// Applies the options from left to right, up to the first that is wrong. Of an option that stands twice the
/// last holds.
#[tactic(auto, unfolding(crate::specs::Resolving::with_options))]
pub(crate) fn apply_options(
    alloc: Global,
    known: KindRow,
    general: bool,
    written: &[RawOption],
    options: &mut Options,
) -> Result<(), KindFault>
    ensures { Resolves (λ _. options.new) result (with_options (known_of known) general 1 (map named written.now) options.old) }
{
    let mut place = 1u32;
    for option in written {
        apply_option(alloc, known, general, place, option, options)?;
        place = place.saturating_add(1);
    }
    Ok(())
}
