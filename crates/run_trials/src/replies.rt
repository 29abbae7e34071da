// Words of the rows that stand for answers and wishes.
use case_rows::{Answers, CaseFault, bytes_of, step_parts};
use relay_model::{Bytes, Peer, ReadyList};
use relay_session::Wish;
use session_replay::Reply;
use std::alloc::Global;

/// An answer: `good:BYTES`, `plain`, `empty`, `end`, `not-yet`, `failed`, `local` (a peer), `turn:MOMENT` or
/// `stop:MOMENT`.
pub(crate) fn reply_of(alloc: Global, word: &str) -> Result<Reply, CaseFault> {
    let (name, value) = step_parts(word);
    match name {
        "good" => {
            let bytes = bytes_of(alloc, value)?;
            Ok(Reply::Good(Bytes::of(alloc, bytes.as_slice())?))
        }
        "plain" => Ok(Reply::Plain),
        "empty" => Ok(Reply::Empty),
        "end" => Ok(Reply::End),
        "not-yet" => Ok(Reply::NotYet),
        "failed" => Ok(Reply::Failed),
        "local" => Ok(Reply::Peer(Peer::Local)),
        "turn" => turn_of(alloc, value, false),
        "stop" => turn_of(alloc, value, true),
        _ => Err(CaseFault::NoRow),
    }
}

fn turn_of(alloc: Global, value: &str, stop: bool) -> Result<Reply, CaseFault> {
    let at = value.parse::<u64>()?;
    let ready = ReadyList::new(alloc)?;
    Ok(Reply::Turn { at, ready, stop })
}

/// The wish by its name, a read with the most bytes and a sleep with its moment.
pub(crate) fn say_wish(wish: &Wish, answers: &mut Answers) {
    let name = wish_name(wish);
    match wish {
        Wish::Read { at_most, .. } => answers.word_and_number(name, *at_most as u64),
        Wish::Sleep { until: Some(until) } => answers.word_and_number(name, *until),
        _ => answers.word(name),
    }
}

fn wish_name(wish: &Wish) -> &'static str {
    match wish {
        Wish::Open(_) => "open",
        Wish::Settle(_) => "settle",
        Wish::Listen(_) => "listen",
        Wish::Accept { .. } => "accept",
        Wish::Read { .. } => "read",
        Wish::Write(_) => "write",
        Wish::Send(_) => "send",
        Wish::Shut(_, _) => "shut",
        Wish::Close(_, _) => "close",
        Wish::Reap(_) => "reap",
        Wish::Sleep { .. } => "sleep",
        Wish::Done(_) => "done",
    }
}
