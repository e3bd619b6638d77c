//! Lines played on a flood.
ghost use Rattle.std.specs.Prelude.{◌≡◌, ◌<◌, ◌≤◌, true, false, None, length, All, IfOk, OnOk};
ghost use Rattle.mn_flood_run.specs.Prelude.{most_steps, most_script_lines, Hear, FloodRun, drain_for, every_hearing, with_line, first_flood, happened, refusal_of, standing, Tells, wiring_of};
ghost use Rattle.mn_flood_run.specs.Language.{order_of, command_fits};
ghost use Rattle.mn_flood_run.specs.Playing.{IsAt, Follows, IsAnswered, played_text, played_count, PlaysAll};

use crate::command::{FloodCommand, FloodLine};
use crate::report::put_refused;
use mn_answer::{Ended, Played};
use mn_base::{LinkNo, MOST_STEPS};
use mn_edge::{DeviceBad, Sink};
use mn_flood::{Flood, FloodBad};
use mn_lines::Page;
use mn_topo::Topology;
use mn_wiring::Dir;
use std::alloc::AllocError;

/// How an event went, before which so many steps were done.
fn answer_of(steps: u32, done: Result<(), FloodBad>) -> Result<Played<FloodBad>, AllocError>
    ensures { IfOk result (IsAnswered steps done) }
{
    match done {
        Ok(()) => {
            if steps == MOST_STEPS {
                Ok(Played::TooManySteps)
            } else {
                Ok(Played::All)
            }
        }
        Err(FloodBad::NoMemory) => Err(AllocError),
        Err(bad) => Ok(Played::Refused(bad)),
    }
}

/// Receives the advert that was sent first of those that fly this way; there is one.
fn hear_way(flood: &mut Flood, link: LinkNo, dir: Dir) -> Result<(), AllocError>
    requires link { link.0 < length flood.old.wiring.ends }
    requires few { flood.old.done ≤ most_steps }
    requires flies { refusal_of flood.old (Hear link.0 dir) ≡ None }
    ensures { OnOk result (flood.new ≡ happened flood.old (Hear link.0 dir)) }
{
    match flood.hear(link, dir) {
        Ok(()) => Ok(()),
        Err(FloodBad::NoMemory) => Err(AllocError),
        Err(_) => unreachable!(),
    }
}

/// Receives the advert that was sent first of all, until none flies.
fn drain(flood: &mut Flood) -> Result<Played<FloodBad>, AllocError>
    requires works { flood.old.failed ≡ false }
    requires few { flood.old.done ≤ most_steps }
    ensures drained { IfOk result (λ played. (run : FloodRun) (number : _) → IsAt run flood.old → Follows (drain_for every_hearing flood.old.wiring run) run number played flood.new) }
    ensures wiring { OnOk result (flood.new.wiring ≡ flood.old.wiring) }
{
    for _turn in 0..MOST_STEPS + 1 {
        let Some((link, dir)) = flood.first() else {
            return Ok(Played::All);
        };
        if flood.done() == MOST_STEPS {
            return Ok(Played::TooManySteps);
        }
        flood.laws();
        hear_way(flood, link, dir)?;
    }
    Ok(Played::All)
}

/// Plays a line. An `Err` means out of memory.
fn play_line(
    flood: &mut Flood,
    topology: &Topology,
    line: FloodLine,
) -> Result<Played<FloodBad>, AllocError>
    requires fits { command_fits topology.now line.command ≡ true }
    requires over { flood.old.wiring ≡ wiring_of topology.now }
    requires works { flood.old.failed ≡ false }
    requires few { flood.old.done ≤ most_steps }
    ensures played { IfOk result (λ played. (run : FloodRun) → IsAt run flood.old → Follows (with_line flood.old.wiring run (order_of line)) run line.number played flood.new) }
    ensures wiring { OnOk result (flood.new.wiring ≡ flood.old.wiring) }
{
    let steps = flood.done();
    match line.command {
        FloodCommand::Change(link, up) => answer_of(steps, flood.change(link, up)),
        FloodCommand::Hear(link, dir) => answer_of(steps, flood.hear(link, dir)),
        FloodCommand::Drain => drain(flood),
    }
}

/// Puts the line of a script's line that was refused, and answers how many lines it put.
fn put_if_refused<O: Sink>(
    out: &mut O,
    page: &mut Page,
    number: u32,
    played: Played<FloodBad>,
) -> Result<u32, DeviceBad>
    ensures told { Tells (played_text number played)
        (standing page.old (O.written out.old) (O.faults out.old)) (standing page.new (O.written out.new) (O.faults out.new)) result }
    ensures counted { IfOk result (λ count. count ≡ played_count played) }
{
    match played {
        Played::Refused(bad) => {
            put_refused(out, page, number, bad)?;
            Ok(1)
        }
        Played::All | Played::TooManySteps => Ok(0),
    }
}

/// Plays lines from the start of a flood on, and puts those that are refused.
pub(crate) fn play<O: Sink>(
    flood: &mut Flood,
    topology: &Topology,
    lines: &[FloodLine],
    out: &mut O,
    page: &mut Page,
) -> Result<Ended, DeviceBad>
    requires start { flood.old ≡ first_flood (wiring_of topology.now) }
    requires fit { All (λ line. command_fits topology.now line.command ≡ true) lines.now }
    requires few { length lines.now ≤ most_script_lines }
    ensures played { PlaysAll topology.now lines.now flood.new
        (standing page.old (O.written out.old) (O.faults out.old)) (standing page.new (O.written out.new) (O.faults out.new)) result }
    ensures wiring { OnOk result (flood.new.wiring ≡ wiring_of topology.now) }
{
    let mut refused = 0;
    for line in lines {
        let played = play_line(flood, topology, *line)?;
        if let Played::TooManySteps = played {
            return Ok(Ended::TooManySteps);
        }
        refused += put_if_refused(out, page, line.number, played)?;
    }
    Ok(Ended::All { refused })
}
