// What an address stands for: one answer, with the parameters as parts.
use case_rows::Answers;
use relay_model::{Family, Target, Text, Texts};

pub(crate) fn say_target(target: &Target, answers: &mut Answers) {
    match target {
        Target::Stdio => answers.word("stdio"),
        Target::Stdin => answers.word("stdin"),
        Target::Stdout => answers.word("stdout"),
        Target::Stderr => answers.word("stderr"),
        Target::Create(name) => say_named("create", name, answers),
        Target::FileAt(name) => say_named("open", name, answers),
        Target::GenericOpen(name) => say_named("gopen", name, answers),
        Target::Echo => answers.word("echo"),
        Target::NamedPipe(name) => say_named("pipe", name, answers),
        Target::UnixConnect(name) => say_named("unix-connect", name, answers),
        Target::UnixListen(name) => say_named("unix-listen", name, answers),
        Target::Exec(words) => say_program(words, answers),
        Target::System(command) => say_named("system", command, answers),
        Target::Socks { .. } | Target::Proxy { .. } => say_server(target, answers),
        _ => say_socket(target, answers),
    }
}

/// A target of one text.
fn say_named(kind: &str, text: &Text, answers: &mut Answers) {
    answers.word(kind);
    answers.part(text.as_slice());
}

fn say_program(words: &Texts, answers: &mut Answers) {
    answers.word("exec");
    for word in words.as_slice() {
        answers.part(word.as_slice());
    }
}

/// A server on the way to a host.
fn say_server(target: &Target, answers: &mut Answers) {
    let (kind, server, host, port) = match target {
        Target::Socks {
            named,
            server,
            host,
            port,
        } => {
            let kind = if *named { "socks4a" } else { "socks4" };
            (kind, server, host, *port)
        }
        Target::Proxy { server, host, port } => ("proxy", server, host, *port),
        _ => return answers.word("no server"),
    };
    say_named(kind, server, answers);
    answers.part(host.as_slice());
    answers.number_part(u64::from(port));
}

fn say_socket(target: &Target, answers: &mut Answers) {
    match target {
        Target::Tcp { family, host, port } => say_peer("tcp", *family, host, *port, answers),
        Target::Udp { family, host, port } => say_peer("udp", *family, host, *port, answers),
        Target::UdpSendto { family, host, port } => {
            say_peer("udp-sendto", *family, host, *port, answers)
        }
        Target::TcpListen { family, port } => say_door("tcp-listen", *family, *port, answers),
        Target::UdpListen { family, port } => say_door("udp-listen", *family, *port, answers),
        Target::UdpRecvfrom { family, port } => say_door("udp-recvfrom", *family, *port, answers),
        Target::UdpRecv { family, port } => say_door("udp-recv", *family, *port, answers),
        _ => answers.word("no socket"),
    }
}

/// A socket that waits: its family and the port.
fn say_door(kind: &str, family: Family, port: u16, answers: &mut Answers) {
    answers.word(kind);
    answers.word_part(family_word(family));
    answers.number_part(u64::from(port));
}

fn family_word(family: Family) -> &'static str {
    match family {
        Family::Any => "any",
        Family::V4 => "4",
        Family::V6 => "6",
    }
}

/// A socket that connects: its family, the port and the host.
fn say_peer(kind: &str, family: Family, host: &Text, port: u16, answers: &mut Answers) {
    say_door(kind, family, port, answers);
    answers.part(host.as_slice());
}
