// The value of an option.
ghost use Rattle.std.specs.Prelude.{◌≡◌, option_copied};
ghost use Rattle.option_table.specs.Values.{bool_of, port_of, is_text, written_value, value_of};

use crate::networks::{read_bind, read_range};
use crate::numbers::{read_number, read_short_number, read_time};
use crate::rows::{Form, OptionRow};
use relay_model::{Bind, Range};

/// What the value of an option says. `Time` is in milliseconds. `Text` holds no bytes: the value's own bytes
/// are the text.
#[derive(Clone, Copy)]
pub enum Value {
    Bool(bool),
    Number(u64),
    Time(u64),
    Port(u16),
    Range(Range),
    Address(Bind),
    Text,
}

#[tactic(auto, unfolding(crate::specs::Values::bool_of))]
fn read_bool(text: &[u8]) -> Option<bool>
    ensures { result ≡ bool_of text.now }
{
    match text {
        b"1" => Some(true),
        b"0" => Some(false),
        _ => None,
    }
}

#[tactic(auto, unfolding(crate::specs::Values::port_of))]
fn read_port(text: &[u8]) -> Option<u16>
    ensures { result ≡ port_of text.now }
{
    match read_short_number(text, 5, 65535)? {
        0 => None,
        port => Some(port as u16),
    }
}

#[tactic(auto, unfolding(crate::specs::Values::is_text))]
fn may_be_text(text: &[u8]) -> bool
    ensures { result ≡ is_text text.now }
{
    text.len() <= 255 && !text.contains(&0)
}

fn read_written(form: Form, text: &[u8]) -> Option<Value>
    ensures { result ≡ written_value form text.now }
{
    match form {
        Form::Bool => Some(Value::Bool(read_bool(text)?)),
        Form::Number { least, greatest } => {
            let number = read_number(text)?;
            if number < least || number > greatest {
                return None;
            }
            Some(Value::Number(number))
        }
        Form::Time => Some(Value::Time(read_time(text)?)),
        Form::Port => Some(Value::Port(read_port(text)?)),
        Form::Range => Some(Value::Range(read_range(text)?)),
        Form::Address => Some(Value::Address(read_bind(text)?)),
        Form::Text if may_be_text(text) => Some(Value::Text),
        Form::Text => None,
    }
}

/// The value of an option, by the form and the bounds of its row; none where it isn't written so or lies
/// outside of them. An option without a value is true where it is a switch, and has none else.
pub fn read_value(row: OptionRow, value: Option<&[u8]>) -> Option<Value>
    ensures { result ≡ value_of row.form (option_copied value.entry) }
{
    match (value, row.form) {
        (Some(text), form) => read_written(form, text),
        (None, Form::Bool) => Some(Value::Bool(true)),
        (None, _) => None,
    }
}
