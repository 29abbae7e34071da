// How an address is opened: every option that means something for its kind, written or not.
use crate::pages::{Page, line, named_line, numbered_line};
use crate::values::{say_address, say_range, say_time};
use relay_model::{Bind, Family, FileFlags, NoMemory, Options, Part, Single, Target};

/// Whether it is opened for writing.
fn writes(part: Part) -> bool {
    match part {
        Part::Both | Part::Writing => true,
        Part::Reading => false,
    }
}

fn say_access(page: &mut Page, flags: FileFlags, part: Part) -> Result<(), NoMemory> {
    line(
        page,
        match part {
            Part::Both => "  access: for reading and writing (no rdonly, no wronly)",
            Part::Reading if flags.rdonly => "  access: for reading alone (rdonly)",
            Part::Reading => "  access: for reading alone, as the use asks",
            Part::Writing if flags.wronly => "  access: for writing alone (wronly)",
            Part::Writing => "  access: for writing alone, as the use asks",
        },
    )
}

/// Without write access the system neither makes nor empties a file here.
fn say_failing(page: &mut Page) -> Result<(), NoMemory> {
    line(
        page,
        "  opening: fails; making or emptying a file wants access for writing (creat, excl, trunc)",
    )
}

fn say_making(page: &mut Page, flags: FileFlags) -> Result<(), NoMemory> {
    line(
        page,
        match (flags.creat, flags.excl) {
            (false, false) => "  making: it has to be there (no creat, no excl)",
            (true, false) => "  making: made where it isn't there (creat)",
            (_, true) => "  making: made, and an error where it is there (excl)",
        },
    )
}

fn say_contents(page: &mut Page, flags: FileFlags) -> Result<(), NoMemory> {
    line(
        page,
        match (flags.append, flags.trunc) {
            (false, false) =>
                "  contents: kept, and written over from the beginning (no append, no trunc)",
            (true, false) => "  contents: kept, and written behind (append)",
            (false, true) => "  contents: emptied first (trunc)",
            (true, true) if flags.excl =>
                "  contents: none yet; written behind (append, trunc, excl)",
            (true, true) => "  opening: fails; append and trunc don't go together",
        },
    )
}

fn say_file(page: &mut Page, flags: FileFlags, part: Part) -> Result<(), NoMemory> {
    say_access(page, flags, part)?;
    if !writes(part) {
        if flags.creat || flags.excl || flags.trunc {
            return say_failing(page);
        }
        return say_making(page, flags);
    }
    say_making(page, flags)?;
    say_contents(page, flags)
}

/// `GOPEN` makes a file by itself, and appends to it.
fn say_generic_file(page: &mut Page, flags: FileFlags, part: Part) -> Result<(), NoMemory> {
    say_access(page, flags, part)?;
    if !writes(part) && (flags.excl || flags.trunc) {
        return say_failing(page);
    }
    line(
        page,
        if flags.excl {
            "  making: made, and an error where it is there (excl)"
        } else {
            "  making: made where it isn't there, with creat or without (no excl)"
        },
    )?;
    if writes(part) {
        line(
            page,
            if flags.trunc {
                "  contents: emptied first (trunc), and written behind, with append or without"
            } else {
                "  contents: kept, and written behind, with append or without (no trunc)"
            },
        )?;
    }
    Ok(())
}

fn say_files(page: &mut Page, single: &Single, part: Part) -> Result<(), NoMemory> {
    match &single.target {
        Target::FileAt(_) => say_file(page, single.options.file, part),
        Target::GenericOpen(_) => say_generic_file(page, single.options.file, part),
        _ => Ok(()),
    }
}

fn has_entry(target: &Target) -> bool {
    matches!(
        target,
        Target::Create(_)
            | Target::FileAt(_)
            | Target::GenericOpen(_)
            | Target::NamedPipe(_)
            | Target::UnixConnect(_)
            | Target::UnixListen(_)
    )
}

fn say_entry(page: &mut Page, single: &Single) -> Result<(), NoMemory> {
    if !has_entry(&single.target) {
        return Ok(());
    }
    let options = &single.options;
    line(
        page,
        match (options.entry.unlink_early, options.entry.unlink_close) {
            (false, false) => "  entry: stays (no unlink-early, no unlink-close)",
            (true, false) => "  entry: removed before the opening (unlink-early)",
            (false, true) => "  entry: removed at the close (unlink-close)",
            (true, true) =>
                "  entry: removed before the opening, and again at the close (unlink-early, unlink-close)",
        },
    )
}

fn is_tcp(target: &Target) -> bool {
    matches!(
        target,
        Target::Tcp { .. } | Target::TcpListen { .. } | Target::Socks { .. } | Target::Proxy { .. }
    )
}

fn say_delay(page: &mut Page, single: &Single) -> Result<(), NoMemory> {
    if !is_tcp(&single.target) {
        return Ok(());
    }
    line(
        page,
        if single.options.socket.nodelay {
            "  small pieces: sent at once (nodelay)"
        } else {
            "  small pieces: may wait for more (no nodelay)"
        },
    )
}

fn every_address(family: Family) -> &'static str {
    match family {
        Family::Any | Family::V4 => "every IPv4 address",
        Family::V6 => "every IPv6 address",
    }
}

/// What a socket is bound to where no option says so; nothing where there is no such option.
fn default_binding(target: &Target) -> Option<&'static str> {
    match target {
        Target::TcpListen { family, .. }
        | Target::UdpListen { family, .. }
        | Target::UdpRecvfrom { family, .. }
        | Target::UdpRecv { family, .. } => Some(every_address(*family)),
        Target::Udp { .. } | Target::UdpSendto { .. } => Some("the system picks one"),
        _ => None,
    }
}

fn say_bound(page: &mut Page, bind: Bind) -> Result<(), NoMemory> {
    page.say("  local address: ")?;
    say_address(page, bind.addr)?;
    line(page, " (bind)")
}

fn say_local(page: &mut Page, single: &Single) -> Result<(), NoMemory> {
    match (single.options.socket.bind, default_binding(&single.target)) {
        (_, None) => Ok(()),
        (Some(bind), Some(_)) => say_bound(page, bind),
        (None, Some(words)) => {
            page.say("  local address: ")?;
            page.say(words)?;
            line(page, " (no bind)")
        }
    }
}

fn say_reuse(page: &mut Page, target: &Target) -> Result<(), NoMemory> {
    if matches!(target, Target::TcpListen { .. }) {
        line(
            page,
            "  port: taken also where old connections linger (reuseaddr, always)",
        )?;
    }
    Ok(())
}

fn is_tried_again(target: &Target) -> bool {
    matches!(
        target,
        Target::Tcp { .. }
            | Target::TcpListen { .. }
            | Target::UdpListen { .. }
            | Target::UdpRecvfrom { .. }
            | Target::UnixConnect(_)
            | Target::UnixListen(_)
            | Target::Socks { .. }
            | Target::Proxy { .. }
    )
}

/// The time between tries; 0 is taken as a millisecond.
fn say_interval(page: &mut Page, interval: u64) -> Result<(), NoMemory> {
    page.say(", ")?;
    say_time(page, interval.max(1))?;
    line(page, " apart (interval)")
}

fn say_tries(page: &mut Page, single: &Single) -> Result<(), NoMemory> {
    let options = &single.options;
    if options.tries.forever {
        page.say("  tries: without end (forever)")?;
        return say_interval(page, options.tries.interval);
    }
    if options.tries.retry > 0 {
        page.say("  tries: one, and where it fails ")?;
        page.number(options.tries.retry)?;
        page.say(" more (retry)")?;
        return say_interval(page, options.tries.interval);
    }
    if is_tried_again(&single.target) {
        line(page, "  tries: one (no retry, no forever)")?;
    }
    Ok(())
}

fn say_sessions(page: &mut Page, options: &Options) -> Result<(), NoMemory> {
    if !options.sessions.fork {
        return line(page, "  peers: one; then the door is closed (no fork)");
    }
    line(
        page,
        "  peers: each gets a session of its own, for which the second address is opened anew (fork)",
    )?;
    numbered_line(
        page,
        "  sessions: at most ",
        u64::from(options.sessions.max_children),
        " at once (max-children)",
    )?;
    numbered_line(
        page,
        "  door: closed once ",
        u64::from(options.sessions.stop_after),
        " peers came (stop-after)",
    )
}

fn is_filtered(target: &Target) -> bool {
    matches!(
        target,
        Target::TcpListen { .. } | Target::UdpListen { .. } | Target::UdpRecvfrom { .. }
    )
}

fn has_filter(options: &Options) -> bool {
    options.admission.range.is_some()
        || options.admission.sourceport.is_some()
        || options.admission.lowport
}

fn say_admitted(page: &mut Page, options: &Options) -> Result<(), NoMemory> {
    if !has_filter(options) {
        return line(
            page,
            "  let in: every peer (no range, no sourceport, no lowport)",
        );
    }
    if let Some(range) = options.admission.range {
        page.say("  let in: only from the network ")?;
        say_range(page, range)?;
        line(page, " (range)")?;
    }
    if let Some(port) = options.admission.sourceport {
        numbered_line(
            page,
            "  let in: only from port ",
            u64::from(port),
            " (sourceport)",
        )?;
    }
    if options.admission.lowport {
        line(page, "  let in: only from a port below 1024 (lowport)")?;
    }
    Ok(())
}

fn say_door(page: &mut Page, single: &Single) -> Result<(), NoMemory> {
    if !single.target.listens() {
        return Ok(());
    }
    let options = &single.options;
    say_sessions(page, options)?;
    if is_filtered(&single.target) || has_filter(options) {
        say_admitted(page, options)?;
    }
    Ok(())
}

fn say_servers(page: &mut Page, single: &Single) -> Result<(), NoMemory> {
    let options = &single.options;
    match &single.target {
        Target::Socks { .. } => {
            let port = u64::from(options.proxy.socksport);
            numbered_line(page, "  server's port: ", port, " (socksport)")?;
            named_line(
                page,
                "  user: ",
                options.proxy.socksuser.as_slice(),
                " (socksuser)",
            )
        }
        Target::Proxy { .. } => {
            let port = u64::from(options.proxy.proxyport);
            numbered_line(page, "  proxy's port: ", port, " (proxyport)")
        }
        _ => Ok(()),
    }
}

/// The lines on how an address is opened, in this part, and kept.
pub(crate) fn say_opening(page: &mut Page, single: &Single, part: Part) -> Result<(), NoMemory> {
    say_files(page, single, part)?;
    say_entry(page, single)?;
    say_reuse(page, &single.target)?;
    say_local(page, single)?;
    say_delay(page, single)?;
    say_servers(page, single)?;
    say_tries(page, single)?;
    say_door(page, single)
}
