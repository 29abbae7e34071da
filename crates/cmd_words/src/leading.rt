// The run of flags in front of the addresses.
ghost use Rattle.std.specs.Prelude.{◌≡◌, slice_get, option_copied, IfOk};
ghost use Rattle.cmd_words.specs.Flags.{flags_of, IsWithin};

use crate::faults::refused_at;
use crate::flags::{begins_addresses, step_of};
use crate::settings::{FlagStep, Flagged, Settings};
use relay_model::{Refused, Text};

fn word_at(words: &[Text], at: usize) -> Option<&[u8]>
    ensures { option_copied result ≡ slice_get words.now at }
{
    match words.get(at) {
        Some(word) => Some(word.as_slice()),
        None => None,
    }
}

/// What the flags in front of the addresses lead to. A word behind one that needs a value is its value,
/// whatever it is.
pub fn read_flags(words: &[Text]) -> Result<Flagged, Refused>
    ensures exact { result ≡ flags_of words.now }
    ensures within { IfOk result (IsWithin words.now) }
{
    let mut settings = Settings::DEFAULT;
    let mut at = 0;
    while let Some(word) = word_at(words, at) {
        if begins_addresses(word) {
            break;
        }
        match step_of(settings, word, word_at(words, at + 1)) {
            Ok(FlagStep::Alone(changed)) => {
                settings = changed;
                at += 1;
            }
            Ok(FlagStep::WithNext(changed)) => {
                settings = changed;
                at += 2;
            }
            Ok(FlagStep::Stop(what)) => return Ok(Flagged::Instead(what)),
            Err(why) => return Err(refused_at(at, 0, why)),
        }
    }
    Ok(Flagged::Relay {
        settings,
        first: at,
    })
}
