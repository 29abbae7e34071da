// Peers at a listening address: its options, and then the peers that come, written as in `bind`, or `local`.
use case_rows::{Answered, Answers, CaseFault, Inputs};
use option_table::{read_bind, read_range};
use peer_filter::Filter;
use relay_model::{Options, Peer};
use std::alloc::Global;

pub(crate) fn ask(alloc: Global, inputs: &mut Inputs<'_>, answers: &mut Answers) -> Answered {
    let mut options = Options::defaults(alloc)?;
    for _ in 0..u64::MAX {
        let Some(word) = inputs.step() else {
            break;
        };
        make_step(&mut options, word, answers)?;
    }
    Ok(())
}

fn make_step(options: &mut Options, word: &str, answers: &mut Answers) -> Answered {
    if word == "lowport" {
        options.admission.lowport = true;
    } else if let Some(text) = word.strip_prefix("range=") {
        options.admission.range = Some(read_range(text.as_bytes()).ok_or(CaseFault::NoRow)?);
    } else if let Some(text) = word.strip_prefix("sourceport=") {
        options.admission.sourceport = Some(text.parse::<u16>()?);
    } else {
        answers.truth(Filter::new(options).permits(peer_of(word)?));
    }
    Ok(())
}

fn peer_of(word: &str) -> Result<Peer, CaseFault> {
    if word == "local" {
        return Ok(Peer::Local);
    }
    Ok(read_bind(word.as_bytes()).ok_or(CaseFault::NoRow)?.addr)
}
