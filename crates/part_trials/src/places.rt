// What an address asks for: its target, and an answer for each option that isn't at its default. Those of two halves
// stand behind `reading` and `writing`.
use crate::targets::say_target;
use case_rows::Answers;
use relay_model::{Address, Bind, Conv, Options, Peer, Range, Shut, Single};

pub(crate) fn say_address(address: &Address, answers: &mut Answers) {
    match address {
        Address::One(single) => say_single(single, answers),
        Address::Two { reading, writing } => {
            answers.word("reading");
            say_single(reading, answers);
            answers.word("writing");
            say_single(writing, answers);
        }
    }
}

pub(crate) fn say_single(single: &Single, answers: &mut Answers) {
    say_target(&single.target, answers);
    say_relaying(&single.options, answers);
    say_opening(&single.options, answers);
    say_sessions(&single.options, answers);
    say_servers(&single.options, answers);
}

/// How bytes are passed on, and how the place ends.
fn say_relaying(options: &Options, answers: &mut Answers) {
    answers.word_if("cr", options.conv == Conv::Cr);
    answers.word_if("crnl", options.conv == Conv::Crnl);
    answers.word_if("ignoreeof", options.input.ignoreeof);
    answers.word_if("null-eof", options.input.null_eof);
    if let Some(limit) = options.input.readbytes {
        answers.word_and_number("readbytes", limit);
    }
    if let Some(byte) = options.input.escape {
        answers.word_and_number("escape", u64::from(byte));
    }
    match options.shut {
        None => {}
        Some(Shut::Nothing) => answers.word("shut-none"),
        Some(Shut::Down) => answers.word("shut-down"),
        Some(Shut::Close) => answers.word("shut-close"),
        Some(Shut::Null) => answers.word("shut-null"),
    }
}

/// How the place is opened.
fn say_opening(options: &Options, answers: &mut Answers) {
    answers.word_if("creat", options.file.creat);
    answers.word_if("excl", options.file.excl);
    answers.word_if("append", options.file.append);
    answers.word_if("trunc", options.file.trunc);
    answers.word_if("rdonly", options.file.rdonly);
    answers.word_if("wronly", options.file.wronly);
    answers.word_if("unlink-early", options.entry.unlink_early);
    answers.word_if("unlink-close", options.entry.unlink_close);
    answers.word_if("nodelay", options.socket.nodelay);
    if let Some(bind) = options.socket.bind {
        say_bind(bind, answers);
    }
    answers.unusual("retry", options.tries.retry, 0);
    answers.unusual("interval", options.tries.interval, 1000);
    answers.word_if("forever", options.tries.forever);
}

/// Which peers are let in, and how many.
fn say_sessions(options: &Options, answers: &mut Answers) {
    let most = u64::from(u32::MAX);
    answers.word_if("fork", options.sessions.fork);
    answers.unusual(
        "max-children",
        u64::from(options.sessions.max_children),
        most,
    );
    answers.unusual("stop-after", u64::from(options.sessions.stop_after), most);
    if let Some(range) = options.admission.range {
        say_range(range, answers);
    }
    if let Some(port) = options.admission.sourceport {
        answers.word_and_number("sourceport", u64::from(port));
    }
    answers.word_if("lowport", options.admission.lowport);
}

/// How servers are asked.
fn say_servers(options: &Options, answers: &mut Answers) {
    answers.unusual("socksport", u64::from(options.proxy.socksport), 1080);
    if options.proxy.socksuser.len() > 0 {
        answers.word("socksuser");
        answers.part(options.proxy.socksuser.as_slice());
    }
    answers.unusual("proxyport", u64::from(options.proxy.proxyport), 8080);
}

/// The version, the address and the port.
pub(crate) fn say_bind(bind: Bind, answers: &mut Answers) {
    answers.word("bind");
    match bind.addr {
        Peer::V4 { addr, port } => {
            answers.octets(4, &addr);
            answers.number_part(u64::from(port));
        }
        Peer::V6 { addr, port } => {
            answers.octets(6, &addr);
            answers.number_part(u64::from(port));
        }
        Peer::Local => answers.word("local"),
    }
}

/// The version, the network and the mask.
pub(crate) fn say_range(range: Range, answers: &mut Answers) {
    answers.word("range");
    match range {
        Range::V4 { net, mask } => {
            answers.octets(4, &net);
            answers.octets(4, &mask);
        }
        Range::V6 { net, mask } => {
            answers.octets(6, &net);
            answers.octets(6, &mask);
        }
    }
}
