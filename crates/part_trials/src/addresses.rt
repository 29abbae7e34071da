// Addresses as they are written. An answer for the keyword, with the parameters as parts; one for each option, with its
// offset, its name and its value as parts. Those of two halves stand behind `reading` and `writing`.
use addr_grammar::{
    GrammarFault, RawAddress, RawOption, RawSingle, addresses_are_told, one_address, options_begin,
    parse_address, print_address,
};
use case_rows::{Answered, Answers, CaseFault, Inputs};
use relay_model::Bytes;
use std::alloc::Global;

pub(crate) fn ask(alloc: Global, inputs: &mut Inputs<'_>, answers: &mut Answers) -> Answered {
    let text = inputs.bytes(alloc)?;
    addresses_are_told();
    one_address();
    options_begin();
    match parse_address(alloc, text.as_slice()) {
        Ok(address) => {
            say_address(&address, answers);
            drop(address);
        }
        Err(GrammarFault::Memory) => return Err(CaseFault::NoMemory),
        Err(fault) => {
            let line = format!(in alloc; "{fault}")?;
            answers.word(line.as_str());
        }
    }
    Ok(())
}

/// The address as it is printed.
pub(crate) fn ask_printed(
    alloc: Global,
    inputs: &mut Inputs<'_>,
    answers: &mut Answers,
) -> Answered {
    let text = inputs.bytes(alloc)?;
    let Ok(address) = parse_address(alloc, text.as_slice()) else {
        return Err(CaseFault::NoRow);
    };
    let printed = print_address(alloc, &address);
    drop(address);
    answers.bytes(printed?.as_slice());
    Ok(())
}

fn say_address(address: &RawAddress, answers: &mut Answers) {
    match address {
        RawAddress::One(single) => say_single(single, answers),
        RawAddress::Two(reading, writing) => {
            answers.word("reading");
            say_single(reading, answers);
            answers.word("writing");
            say_single(writing, answers);
        }
    }
}

fn say_single(single: &RawSingle, answers: &mut Answers) {
    answers.bytes(single.keyword());
    say_params(single.params(), answers);
    say_options(single.options(), answers);
}

fn say_params(params: &[Bytes], answers: &mut Answers) {
    for param in params {
        answers.part(param.as_slice());
    }
}

fn say_options(options: &[RawOption], answers: &mut Answers) {
    for option in options {
        answers.number(u64::from(option.at));
        answers.part(option.name.as_slice());
        if let Some(value) = &option.value {
            answers.part(value.as_slice());
        }
    }
}
