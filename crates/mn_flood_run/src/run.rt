//! The whole command, over a shelf of files and a sink.
ghost use Rattle.std.specs.Prelude.{◌≡◌, ◌≢◌, ◌≤◌, ◌++◌, length, Some, IfOk, OnOk, OnErr};
ghost use Rattle.std.specs.Option.{ForSome};
ghost use Rattle.mn_flood_run.specs.Prelude.{most_script_lines, Counted, PartPut, standing, Tells, OutcomeIs, TextIs, CausedBy, SinkCausedBy, HasNone, Answers};
ghost use Rattle.mn_flood_run.specs.Report.{report, course_of};
ghost use Rattle.mn_flood_run.specs.Laws.{AllFit};
ghost use Rattle.mn_flood_run.specs.Headline.{IsScriptTold, IsFloodTold};
ghost use Rattle.mn_flood_run.specs.Answer.{outcome_of, flood_done, flood_over, flood_answer};

use crate::command::FloodLine;
use crate::language::FloodLines;
use crate::laws::{
    each_drain_of_a_script_is_bounded, where_none_flies_the_printed_trees_are_those_of_the_links,
};
use crate::play::play;
use crate::report::{put_total, put_trees};
use mn_answer::{Ended, Limit, Outcome, load_lines, load_topology, refuse, too_large};
use mn_base::MOST_STEPS;
use mn_edge::{DeviceBad, Shelf, Sink};
use mn_flood::Flood;
use mn_lines::Page;
use mn_topo::Topology;
use std::alloc::Global;

/// Plays the lines of a script, and puts their report on a page.
fn play_on_page<O: Sink>(
    alloc: Global,
    topology: &Topology,
    lines: &[FloodLine],
    out: &mut O,
    page: &mut Page,
) -> Result<Outcome, DeviceBad>
    requires fit { AllFit topology.now lines.now }
    requires few { length lines.now ≤ most_script_lines }
    ensures told { Tells (report topology.now (course_of topology.now lines.now))
        (standing page.old (O.written out.old) (O.faults out.old)) (standing page.new (O.written out.new) (O.faults out.new)) result }
    ensures outcome { IfOk result (λ outcome. outcome ≡ outcome_of (course_of topology.now lines.now)) }
{
    let mut flood = Flood::new(alloc, topology)?;
    match play(&mut flood, topology, lines, out, page)? {
        Ended::All { refused } => {
            put_trees(out, page, topology, &flood)?;
            put_total(out, page, &flood, refused)?;
            Ok(Outcome::Done)
        }
        Ended::TooManySteps => {
            page.put(out, b"too large steps\n")?;
            Ok(too_large(Limit::Steps, u64::from(MOST_STEPS)))
        }
    }
}

/// Plays the lines of a script, and puts their report.
fn play_script<O: Sink>(
    alloc: Global,
    topology: &Topology,
    lines: &[FloodLine],
    out: &mut O,
) -> Result<Outcome, DeviceBad>
    requires fit { AllFit topology.now lines.now }
    requires few { length lines.now ≤ most_script_lines }
    ensures put { OnOk result (ForSome (O.written out.old) (λ before.
        O.written out.new ≡ Some (before ++ report topology.now (course_of topology.now lines.now)))) }
    ensures part { OnErr result (ForSome (O.written out.old) (λ before.
        PartPut (report topology.now (course_of topology.now lines.now)) before (O.written out.new))) }
    ensures cause { Counted (O.faults out.old) (O.faults out.new) result }
    ensures outcome { IfOk result (λ outcome. outcome ≡ outcome_of (course_of topology.now lines.now)) }
{
    let mut page = Page::new(alloc)?;
    let outcome = play_on_page(alloc, topology, lines, out, &mut page)?;
    page.end(out)?;
    Ok(outcome)
}

/// Plays the lines of a script that was read.
fn flood_lines<O: Sink>(
    alloc: Global,
    topology: &Topology,
    lines: &[FloodLine],
    out: &mut O,
) -> Outcome
    requires fit { AllFit topology.now lines.now }
    requires few { length lines.now ≤ most_script_lines }
    ensures outcome { OutcomeIs (Some (flood_done topology.now lines.now)) result }
    ensures text { ForSome (O.written out.old) (λ before. TextIs (Some (flood_done topology.now lines.now)) before (O.written out.new) result) }
    ensures cause { SinkCausedBy (O.faults out.old) (O.faults out.new) result }
    ensures usage { result ≢ Outcome.Usage }
{
    match play_script(alloc, topology, lines, out) {
        Ok(outcome) => outcome,
        Err(DeviceBad::Failed) => Outcome::WriteFault,
        Err(DeviceBad::NoMemory) => Outcome::NoMemory,
    }
}

/// Reads the script of this name and plays it over a topology.
fn flood_script<S: Shelf, O: Sink>(
    alloc: Global,
    topology: &Topology,
    script: &str,
    shelf: &mut S,
    out: &mut O,
) -> Outcome
    ensures answers { ForSome (S.files shelf.old) (λ files. Answers (flood_over files script.now topology.now) files (S.files shelf.new) (O.written out.old) (O.written out.new) result) }
    ensures told { ForSome (S.files shelf.old) (λ files. ForSome (O.written out.old) (λ before.
        IsScriptTold topology.now script.now files before (O.written out.new) result)) }
    ensures same { S.files shelf.new ≡ S.files shelf.old }
    ensures cause { CausedBy (HasNone (λ files. flood_over files script.now topology.now) (S.files shelf.old))
        (S.read_faults shelf.old, S.write_faults shelf.old, O.faults out.old)
        (S.read_faults shelf.new, S.write_faults shelf.new, O.faults out.new) result }
    ensures usage { result ≢ Outcome.Usage }
{
    topology.laws();
    where_none_flies_the_printed_trees_are_those_of_the_links();
    each_drain_of_a_script_is_bounded();
    match load_lines(alloc, script, shelf, &FloodLines(topology)) {
        Ok(Ok(lines)) => flood_lines(alloc, topology, lines.as_slice(), out),
        Ok(Err(outcome)) => refuse(alloc, out, outcome),
        Err(DeviceBad::Failed) => Outcome::ReadFault,
        Err(DeviceBad::NoMemory) => Outcome::NoMemory,
    }
}

/// Plays a script of the flood from its start, every link down, over a topology, both read by name, and puts the report. No file
/// is written.
pub fn flood<S: Shelf, O: Sink>(
    alloc: Global,
    topology: &str,
    script: &str,
    shelf: &mut S,
    out: &mut O,
) -> Outcome
    // The outcome and the text are the answer's; a fault, or running out of memory, may come in its place, and then a first part of the text stands.
    ensures answers { ForSome (S.files shelf.old) (λ files. Answers (flood_answer topology.now script.now files) files (S.files shelf.new) (O.written out.old) (O.written out.new) result) }
    // Where all was done, the report is that of the script's course over the topology. Where no advert flies at the end its trees
    // are those over the links that are up, and no drain received more than its bound.
    ensures told { ForSome (S.files shelf.old) (λ files. ForSome (O.written out.old) (λ before.
        IsFloodTold topology.now script.now files before (O.written out.new) result)) }
    // No file changes.
    ensures same { S.files shelf.new ≡ S.files shelf.old }
    // A fault comes only where its count rose, or a read's over a sound shelf where an input isn't there; every other count is as
    // before.
    ensures cause { CausedBy (HasNone (flood_answer topology.now script.now) (S.files shelf.old))
        (S.read_faults shelf.old, S.write_faults shelf.old, O.faults out.old)
        (S.read_faults shelf.new, S.write_faults shelf.new, O.faults out.new) result }
    ensures usage { result ≢ Outcome.Usage }
{
    match load_topology(alloc, topology, shelf) {
        Ok(Ok(topology)) => flood_script(alloc, &topology, script, shelf, out),
        Ok(Err(outcome)) => refuse(alloc, out, outcome),
        Err(DeviceBad::Failed) => Outcome::ReadFault,
        Err(DeviceBad::NoMemory) => Outcome::NoMemory,
    }
}
