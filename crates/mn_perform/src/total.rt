//! A run that writes no file, and of whose report only the total is put.
ghost use Rattle.std.specs.Prelude.{◌≡◌, ◌-◌, ◌+◌, ◌<◌, ◌≤◌, ◌^◌, true, false, [], List, ℕ, length, IfOk, OnOk, OnErr};
ghost use Rattle.std.specs.Option.{ForSome};
ghost use Rattle.mn_perform.specs.Prelude.{most_script_lines, command_fits, AllFit, inputs_of, Expansion, with_line, expanded, Puts, PutsPart, StandsFor, Network, IsPaced};
ghost use Rattle.mn_perform.specs.Faults.{SinkBlamed};
ghost use Rattle.mn_perform.specs.Memory.{packets_at};
ghost use Rattle.mn_perform.specs.Running.{is_stopped};
ghost use Rattle.mn_perform.specs.Total.{Plays, heading_of, PlayedTo, PutsWhole, total_text};

use crate::desk::Desk;
use crate::ended::{Ended, Fault};
use crate::memory::{InMemory, MemoryCapture};
use mn_edge::Sink;
use mn_sched::{Net, Played, Stopped, play};
use mn_script::{Command, Line};
use mn_topo::Topology;
use std::alloc::{AllocError, Global};

/// Plays a line, and counts it where it is refused. A table is passed over.
fn tally_line(
    net: &mut Net,
    line: &Line,
    capture: &MemoryCapture,
    refused: &mut u32,
) -> Result<Ended, AllocError>
    requires fits { command_fits net.old.topology line.now.command ≡ true }
    requires early { net.old.tick ≤ 2 ^ 61 }
    requires few { refused.old < 2 ^ 32 - 1 }
    requires stands { StandsFor net.old (inputs_of (packets_at capture.now) net.old.journal) }
    ensures topology { net.new.topology ≡ net.old.topology }
    ensures clock { IfOk result (λ how. how ≡ Ended.All → IsPaced 1000000 net.old net.new) }
    ensures refused { refused.new ≤ refused.old + 1 }
    ensures played { IfOk result (λ how. (run : Expansion) → run.is_stopped ≡ false →
        Plays net.old.topology (packets_at capture.now) run net.old refused.old →
        PlayedTo net.old.topology (packets_at capture.now) (with_line net.old.topology (packets_at capture.now) run line.now) net.new refused.new how) }
{
    let mut watch = InMemory { capture };
    match line.command {
        Command::Show(_) => Ok(Ended::All),
        _ => match play(net, &line.command, &mut watch) {
            Ok(Played::All) => Ok(Ended::All),
            Ok(Played::Refused(_)) => {
                *refused += 1;
                Ok(Ended::All)
            }
            Ok(Played::NoRecord) => {
                *refused += 1;
                Ok(Ended::All)
            }
            Err(Stopped::TooManySteps) => Ok(Ended::TooManySteps),
            // The watch has no faults.
            Err(Stopped::Read) => unreachable!(),
            Err(Stopped::Write) => unreachable!(),
            Err(Stopped::NoMemory) => Err(AllocError),
        },
    }
}

/// Plays the lines of a script, until one meets a full journal, and counts those that are refused.
fn tally_lines(
    net: &mut Net,
    lines: &[Line],
    capture: &MemoryCapture,
    refused: &mut u32,
) -> Result<Ended, AllocError>
    requires fit { AllFit net.old.topology lines.now }
    requires few { length lines.now ≤ most_script_lines }
    requires journal { net.old.journal ≡ [] }
    requires tick { net.old.tick ≡ 0 }
    requires stands { StandsFor net.old [] }
    requires none { refused.old ≡ 0 }
    ensures topology { net.new.topology ≡ net.old.topology }
    ensures played { IfOk result (λ how. PlayedTo net.old.topology (packets_at capture.now)
        (expanded net.old.topology (packets_at capture.now) lines.now) net.new refused.new how) }
{
    for line in lines {
        if !net.works() {
            return Err(AllocError);
        }
        net.laws();
        match tally_line(net, line, capture, refused)? {
            Ended::All => {}
            Ended::TooManySteps => return Ok(Ended::TooManySteps),
        }
    }
    Ok(Ended::All)
}

/// A heading waits, unless the journal was full.
fn head<O: Sink>(out: &mut O, desk: &mut Desk, how: Ended, heading: &[u8]) -> Result<(), Fault>
    ensures put { OnOk result (Puts (heading_of how heading.now) desk.old.page desk.new.page (O.written out.old) (O.written out.new)) }
    ensures part { OnErr result (PutsPart (heading_of how heading.now) desk.old.page (O.written out.old) (O.written out.new)) }
    ensures sendings { desk.new.sendings ≡ desk.old.sendings }
    ensures refused { desk.new.refused ≡ desk.old.refused }
    ensures cause { SinkBlamed (O.faults out.old) (O.faults out.new) result }
{
    match how {
        Ended::All => {
            desk.page.put(out, heading)?;
            Ok(())
        }
        Ended::TooManySteps => Ok(()),
    }
}

/// How the lines of a script ended, and how many of them were refused.
#[derive(Clone, Copy)]
struct Tallied {
    how: Ended,
    refused: u32,
}

/// Puts what the lines came to.
fn tell<O: Sink>(
    alloc: Global,
    out: &mut O,
    net: &Net,
    tallied: Tallied,
    heading: &[u8],
) -> Result<(), Fault>
    ensures text { ForSome (O.written out.old) (λ before. (topology : Network) (all : List (List ℕ)) (run : Expansion) →
        PlayedTo topology all run net.now tallied.refused tallied.how →
        PutsWhole (total_text heading.now topology all run) before (O.written out.new) result) }
    ensures cause { SinkBlamed (O.faults out.old) (O.faults out.new) result }
{
    let Ok(mut desk) = Desk::new(alloc) else {
        return Err(Fault::NoMemory);
    };
    desk.refused = tallied.refused;
    head(out, &mut desk, tallied.how, heading)?;
    desk.end(out, net, tallied.how)
}

/// Plays the lines of a script on the network of a topology, over a capture in memory. No file is written, and no
/// table, no refused line and no packet is reported: what is put, at the end, is a heading and the total, or that the
/// journal was full.
///
/// After an error a first part of that was put.
pub fn tally<O: Sink>(
    alloc: Global,
    out: &mut O,
    topology: Topology,
    lines: &[Line],
    capture: &MemoryCapture,
    heading: &[u8],
) -> Result<Ended, Fault>
    requires fit { AllFit topology lines.now }
    requires few { length lines.now ≤ most_script_lines }
    ensures ended { IfOk result (λ how. (expanded topology (packets_at capture.now) lines.now).is_stopped ≡ is_stopped how) }
    ensures text { ForSome (O.written out.old) (λ before. PutsWhole
        (total_text heading.now topology (packets_at capture.now) (expanded topology (packets_at capture.now) lines.now)) before (O.written out.new) result) }
    ensures cause { SinkBlamed (O.faults out.old) (O.faults out.new) result }
{
    let Ok(mut net) = Net::new(alloc, topology) else {
        return Err(Fault::NoMemory);
    };
    let mut refused = 0;
    let how = tally_lines(&mut net, lines, capture, &mut refused)?;
    tell(alloc, out, &net, Tallied { how, refused }, heading)?;
    Ok(how)
}
