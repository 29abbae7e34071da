// How bytes are read from an address and written to it.
use crate::pages::{Page, line, numbered_line};
use relay_model::{Conv, NoMemory, Options, Single, Target};

fn has_datagrams(target: &Target) -> bool {
    matches!(
        target,
        Target::Udp { .. }
            | Target::UdpListen { .. }
            | Target::UdpRecvfrom { .. }
            | Target::UdpRecv { .. }
            | Target::UdpSendto { .. }
    )
}

fn say_read_conversion(page: &mut Page, conversion: Conv) -> Result<(), NoMemory> {
    line(
        page,
        match conversion {
            Conv::Plain => "  reading: bytes as they are (no cr, no crnl)",
            Conv::Cr => "  reading: each carriage return becomes a newline (cr)",
            Conv::Crnl => "  reading: each carriage return is dropped (crnl)",
        },
    )
}

fn say_last_end(page: &mut Page, options: &Options) -> Result<(), NoMemory> {
    line(
        page,
        if options.input.ignoreeof {
            "  its end: isn't the last; it is asked again a second later (ignoreeof)"
        } else {
            "  its end: ends the input (no ignoreeof)"
        },
    )
}

fn say_empty_datagrams(page: &mut Page, single: &Single) -> Result<(), NoMemory> {
    if !has_datagrams(&single.target) {
        return Ok(());
    }
    line(
        page,
        if single.options.input.null_eof {
            "  an empty datagram: ends the input (null-eof)"
        } else {
            "  an empty datagram: doesn't end the input (no null-eof)"
        },
    )
}

fn say_limit(page: &mut Page, readbytes: Option<u64>) -> Result<(), NoMemory> {
    match readbytes {
        None => line(page, "  limit: none (no readbytes)"),
        Some(count) => numbered_line(
            page,
            "  limit: the input ends after ",
            count,
            " bytes (readbytes)",
        ),
    }
}

fn say_escape(page: &mut Page, escape: Option<u8>) -> Result<(), NoMemory> {
    match escape {
        None => line(page, "  escape: none (no escape)"),
        Some(byte) => numbered_line(
            page,
            "  escape: the input ends before a byte ",
            u64::from(byte),
            " (escape)",
        ),
    }
}

/// The lines on how it is read.
pub(crate) fn say_reading(page: &mut Page, single: &Single) -> Result<(), NoMemory> {
    let options = &single.options;
    say_read_conversion(page, options.conv)?;
    say_last_end(page, options)?;
    say_empty_datagrams(page, single)?;
    say_limit(page, options.input.readbytes)?;
    say_escape(page, options.input.escape)
}

/// The line on how it is written.
pub(crate) fn say_writing(page: &mut Page, conversion: Conv) -> Result<(), NoMemory> {
    line(
        page,
        match conversion {
            Conv::Plain => "  writing: bytes as they are (no cr, no crnl)",
            Conv::Cr => "  writing: each newline becomes a carriage return (cr)",
            Conv::Crnl => "  writing: each newline becomes a carriage return and a newline (crnl)",
        },
    )
}
