//! A network alone, driven by steps. Frames arrive by steps of their own and news by what comes next, so the clock stands.
use mn_base::SiteNo;
use mn_course_laws::{Coming, Kind};
use mn_ledger::Refused;
use mn_net::Net;
use mn_prefix::Prefix;
use mn_rows::{Answer, shown};
use mn_script::{Command, Line, ScriptBad, read_script};
use mn_topo::Step;
use std::alloc::{AllocError, Global};

/// Does a step. One that doesn't fit the topology counts as out of memory, which no row expects.
fn go(net: &mut Net, step: Step, packet: &[u8]) -> Result<(), Refused> {
    if !net.topology().fits(&step) {
        return Err(Refused::NoMemory);
    }
    net.step(step, packet)?;
    Ok(())
}

/// The notice that comes next and, where none flies, the message of a session.
fn next_news(net: &Net) -> Option<Coming> {
    match net.coming(Kind::Notice, 1 << 62) {
        Some(item) => Some(item),
        None => net.coming(Kind::Message, 1 << 62),
    }
}

/// At most so many notices and messages arrive.
fn drain(net: &mut Net, most: u32) -> Result<(), Refused> {
    for _ in 0..most {
        let Some(item) = next_news(net) else {
            return Ok(());
        };
        go(net, item.step, &[])?;
    }
    Ok(())
}

/// Does a step, an injection with the packet, or lets news arrive.
fn go_on(net: &mut Net, command: Command, packet: &[u8]) -> Result<(), Refused> {
    match command {
        Command::Do(step) => go(net, step, packet),
        Command::Drain(Some(most)) => drain(net, most),
        _ => Err(Refused::NoMemory),
    }
}

/// The number of each line that was refused, and why.
fn refused_lines(
    alloc: Global,
    net: &mut Net,
    lines: &[Line],
    packet: &[u8],
) -> Result<Vec<(u32, Refused)>, AllocError> {
    let mut refused = Vec::new(alloc);
    for line in lines {
        match go_on(net, line.command, packet) {
            Ok(()) => {}
            Err(why) => refused.push((line.number, why))?,
        }
    }
    Ok(refused)
}

/// Does the lines of a script, whose injections are all of one packet.
pub(crate) fn do_script(alloc: Global, net: &mut Net, text: &str, packet: &[u8]) -> Answer {
    match read_script(alloc, net.topology(), text.as_bytes()) {
        Ok(lines) => shown(alloc, &refused_lines(alloc, net, &lines, packet)?),
        Err(bad) => shown(alloc, &Err::<(), ScriptBad>(bad)),
    }
}

/// So many prefixes of one address each are added at site 0, from 10.0.0.0 on.
pub(crate) fn add_routes(net: &mut Net, count: u32) -> Result<(), Refused> {
    for number in 0..count {
        let Some(prefix) = Prefix::new(0x0A00_0000 | number, 32) else {
            return Err(Refused::NoMemory);
        };
        go(net, Step::AddRoute(SiteNo(0), prefix), &[])?;
    }
    Ok(())
}
