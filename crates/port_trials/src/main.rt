//! Tries ports, queues and the waits of a desk on rows of calls. Arguments: files. Each line of theirs is a case: a name,
//! what the calls are made on, the calls, and after `=` what each must answer. The program prints a line for each case and
//! at the end how many there were, and ends with 1 where one differs.
#![tactic(auto)]

mod calls;
mod desks;
mod files;
mod memory;
mod proxies;
mod queues;
mod rings;
mod senders;
mod spellings;
mod waits;

use case_rows::{Answers, Inputs, try_files};
use std::alloc::Global;
use std::io;
use std::process::ExitCode;

fn main(rt: HostRuntime) -> io::Result<ExitCode> {
    let ask = |alloc: Global, part: &str, inputs: &mut Inputs<'_>, answers: &mut Answers| {
        match part {
            "ring-reader" => rings::ask_reader(rt, alloc, inputs, answers),
            "ring-writer" => rings::ask_writer(rt, alloc, inputs, answers),
            "file" => files::ask(&rt, rt, alloc, inputs, answers),
            "queue" => queues::ask_queue(&rt, alloc, inputs, answers),
            "numbers" => queues::ask_numbers(&rt, alloc, inputs, answers),
            "senders" => senders::ask_table(alloc, inputs, answers),
            "hub" => senders::ask_hub(alloc, inputs, answers),
            "socks4" | "socks4a" | "connect" => proxies::ask(alloc, part, inputs, answers),
            "skip" | "keep" => desks::ask(alloc, part, inputs, answers),
            _ => memory::ask(alloc, part, inputs, answers),
        }
    };
    try_files(&rt, &ask)
}
