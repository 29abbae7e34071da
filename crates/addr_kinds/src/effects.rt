// What an option does to the options of its address.
ghost use Rattle.std.specs.Prelude.{◌≡◌, IfOk, OnOk};
ghost use Rattle.addr_kinds.specs.Effects.{leaves_entry, first_options, switched, numbered, ported, effect};

use option_table::{OptionId, Value};
use relay_model::{Conv, NoMemory, Options, Shut, Target, Text};
use std::alloc::Global;

fn leaves_entry(target: &Target) -> bool
    ensures { result ≡ leaves_entry target.now }
{
    matches!(target, Target::NamedPipe(_) | Target::UnixListen(_))
}

/// The options of an address before any is read.
pub(crate) fn first_options(alloc: Global, target: &Target) -> Result<Options, NoMemory>
    ensures { IfOk result (λ options. options ≡ first_options target.now) }
{
    let mut options = Options::defaults(alloc)?;
    options.entry.unlink_close = leaves_entry(target);
    Ok(options)
}

/// Sets an option that is on or off.
#[tactic(auto, unfolding(crate::specs::Effects::switched))]
fn switch(options: &mut Options, id: OptionId, on: bool)
    ensures { options.new ≡ switched id on options.old }
{
    match id {
        OptionId::Cr if on => options.conv = Conv::Cr,
        OptionId::Crnl if on => options.conv = Conv::Crnl,
        OptionId::Ignoreeof => options.input.ignoreeof = on,
        OptionId::NullEof => options.input.null_eof = on,
        OptionId::ShutNone if on => options.shut = Some(Shut::Nothing),
        OptionId::ShutDown if on => options.shut = Some(Shut::Down),
        OptionId::ShutClose if on => options.shut = Some(Shut::Close),
        OptionId::ShutNull if on => options.shut = Some(Shut::Null),
        OptionId::Creat => options.file.creat = on,
        OptionId::Excl => options.file.excl = on,
        OptionId::Append => options.file.append = on,
        OptionId::Trunc => options.file.trunc = on,
        OptionId::Rdonly => options.file.rdonly = on,
        OptionId::Wronly => options.file.wronly = on,
        OptionId::UnlinkEarly => options.entry.unlink_early = on,
        OptionId::UnlinkClose => options.entry.unlink_close = on,
        OptionId::Nodelay => options.socket.nodelay = on,
        OptionId::Forever => options.tries.forever = on,
        OptionId::Fork => options.sessions.fork = on,
        OptionId::Lowport => options.admission.lowport = on,
        _ => {}
    }
}

/// Sets an option that is a number. The table of options keeps each in the range of its field.
#[tactic(auto, unfolding(crate::specs::Effects::numbered))]
fn set_number(options: &mut Options, id: OptionId, number: u64)
    ensures { options.new ≡ numbered id number options.old }
{
    match id {
        OptionId::Readbytes => options.input.readbytes = Some(number),
        OptionId::Escape => options.input.escape = Some(u8::try_from(number).unwrap_or(u8::MAX)),
        OptionId::Retry => options.tries.retry = number,
        OptionId::MaxChildren => {
            options.sessions.max_children = u32::try_from(number).unwrap_or(u32::MAX);
        }
        OptionId::StopAfter => {
            options.sessions.stop_after = u32::try_from(number).unwrap_or(u32::MAX);
        }
        _ => {}
    }
}

/// Sets an option that is a port.
#[tactic(auto, unfolding(crate::specs::Effects::ported))]
fn set_port(options: &mut Options, id: OptionId, port: u16)
    ensures { options.new ≡ ported id port options.old }
{
    match id {
        OptionId::Sourceport => options.admission.sourceport = Some(port),
        OptionId::Socksport => options.proxy.socksport = port,
        OptionId::Proxyport => options.proxy.proxyport = port,
        _ => {}
    }
}

/// Sets an option to this value, whose own bytes are `text`. Each form that isn't a switch, a number or a port
/// has one option.
#[tactic(auto, unfolding(crate::specs::Effects::effect))]
pub(crate) fn set_option(
    alloc: Global,
    options: &mut Options,
    id: OptionId,
    value: Value,
    text: &[u8],
) -> Result<(), NoMemory>
    ensures { OnOk result (options.new ≡ effect id value text.now options.old) }
{
    match value {
        Value::Bool(on) => switch(options, id, on),
        Value::Number(number) => set_number(options, id, number),
        Value::Port(port) => set_port(options, id, port),
        Value::Time(interval) => options.tries.interval = interval,
        Value::Range(range) => options.admission.range = Some(range),
        Value::Address(bind) => options.socket.bind = Some(bind),
        Value::Text => options.proxy.socksuser = Text::of(alloc, text)?,
    }
    Ok(())
}
