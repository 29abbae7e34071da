// Options, their values, and the numbers, networks and names that these are made of. What is no value is `none`.
use crate::places::{say_bind, say_range};
use case_rows::{Answered, Answers, CaseFault, Inputs};
use option_table::{
    Lookup, Value, has_port, ipv4_literal, ipv6_literal, lookup, read_bind, read_number,
    read_range, read_short_number, read_time, read_value, same_name,
};
use std::alloc::Global;

pub(crate) fn ask(
    alloc: Global,
    part: &str,
    inputs: &mut Inputs<'_>,
    answers: &mut Answers,
) -> Answered {
    let text = inputs.bytes(alloc)?;
    let text = text.as_slice();
    match part {
        "lookup" => ask_lookup(alloc, text, answers),
        "switch" => ask_value(text, None, answers),
        "value" => ask_value(text, Some(inputs.bytes(alloc)?.as_slice()), answers),
        "same-name" => {
            answers.truth(same_name(text, inputs.bytes(alloc)?.as_slice()));
            Ok(())
        }
        _ => ask_text(part, text, answers),
    }
}

/// Asks what a text alone says.
fn ask_text(part: &str, text: &[u8], answers: &mut Answers) -> Answered {
    match part {
        "number" => say_number(read_number(text), answers),
        "digits" => say_number(read_short_number(text, 5, 65535), answers),
        "time" => say_number(read_time(text), answers),
        "range" => say_value(read_range(text).map(Value::Range), answers),
        "bind" => say_value(read_bind(text).map(Value::Address), answers),
        "has-port" => answers.truth(has_port(text)),
        "ipv4" => say_octets(4, ipv4_literal(text), answers),
        "ipv6" => say_octets(6, ipv6_literal(text), answers),
        _ => return Err(CaseFault::NoRow),
    }
    Ok(())
}

/// The octets of an address of this version.
fn say_octets<const N: usize>(version: u64, octets: Option<[u8; N]>, answers: &mut Answers) {
    match octets {
        Some(octets) => answers.octets(version, &octets),
        None => answers.word("none"),
    }
}

/// What is known of an option: what it is, its group, its phase and its form.
fn ask_lookup(alloc: Global, name: &[u8], answers: &mut Answers) -> Answered {
    match lookup(name) {
        Lookup::Known(row) => {
            let (id, group, phase, form) = (row.id, row.group, row.phase, row.form);
            let line = format!(in alloc; "{id:?} {group:?} {phase:?} {form:?}")?;
            answers.word(line.as_str());
        }
        Lookup::LeftOut => answers.word("left-out"),
        Lookup::Unknown => answers.word("unknown"),
    }
    Ok(())
}

/// What the value of this option says. None is spelt by a switch.
fn ask_value(name: &[u8], text: Option<&[u8]>, answers: &mut Answers) -> Answered {
    match lookup(name) {
        Lookup::Known(row) => {
            say_value(read_value(row, text), answers);
            Ok(())
        }
        Lookup::LeftOut | Lookup::Unknown => Err(CaseFault::NoRow),
    }
}

fn say_number(number: Option<u64>, answers: &mut Answers) {
    match number {
        Some(number) => answers.number(number),
        None => answers.word("none"),
    }
}

fn say_value(value: Option<Value>, answers: &mut Answers) {
    match value {
        None => answers.word("none"),
        Some(Value::Bool(on)) => answers.truth(on),
        Some(Value::Number(number)) => answers.word_and_number("number", number),
        Some(Value::Time(time)) => answers.word_and_number("time", time),
        Some(Value::Port(port)) => answers.word_and_number("port", u64::from(port)),
        Some(Value::Range(range)) => say_range(range, answers),
        Some(Value::Address(bind)) => say_bind(bind, answers),
        Some(Value::Text) => answers.word("text"),
    }
}
