//! The whole command, over a shelf of files and a sink.
ghost use Rattle.std.specs.Prelude.{◌≡◌, ◌≢◌, ◌≤◌, ◌++◌, length, Some, IfOk, OnOk, OnErr};
ghost use Rattle.std.specs.Option.{ForSome};
ghost use Rattle.mn_reflect_run.specs.Prelude.{most_script_lines, Counted, CountedUnless, Absent, file, PartPut, standing, Tells, OutcomeIs, TextIs, CausedBy, SinkCausedBy, HasNone, Answers, IsSound, numbers_of};
ghost use Rattle.mn_reflect_run.specs.Reading.{IsLawfulScript};
ghost use Rattle.mn_reflect_run.specs.Report.{report, course_of};
ghost use Rattle.mn_reflect_run.specs.Headline.{IsScriptTold, IsReflectTold};
ghost use Rattle.mn_reflect_run.specs.Answer.{outcome_of, reflect_done, reflect_over, reflect_answer, ScriptIs, ScriptFits};

use crate::laws::{
    each_drain_of_a_script_is_bounded, where_none_flies_the_printed_tables_are_those_of_the_mesh,
};
use crate::play::play;
use crate::report::{Desk, put_total};
use crate::script::{Script, read_script};
use mn_answer::{
    Ended, Limit, Outcome, load_script_bytes, load_topology, refuse, script_read, too_large,
};
use mn_base::MOST_STEPS;
use mn_edge::{DeviceBad, Shelf, Sink};
use mn_reflect::Reflect;
use mn_topo::Topology;
use std::alloc::Global;

/// Plays a script, and puts its report on a page.
fn play_on_page<O: Sink>(
    alloc: Global,
    topology: &Topology,
    script: &Script,
    out: &mut O,
    desk: &mut Desk,
) -> Result<Outcome, DeviceBad>
    requires lawful { IsLawfulScript topology.now script.now }
    requires few { length script.now.lines ≤ most_script_lines }
    ensures told { Tells (report topology.now (numbers_of script.now.reflectors) (course_of topology.now script.now))
        (standing desk.old.page (O.written out.old) (O.faults out.old)) (standing desk.new.page (O.written out.new) (O.faults out.new)) result }
    ensures outcome { IfOk result (λ outcome. outcome ≡ outcome_of (course_of topology.now script.now)) }
{
    let mut reflect = Reflect::new(alloc, topology, script.reflectors())?;
    match play(&mut reflect, topology, script, out, desk)? {
        Ended::All { refused } => {
            put_total(out, &mut desk.page, &reflect, refused)?;
            Ok(Outcome::Done)
        }
        Ended::TooManySteps => {
            desk.page.put(out, b"too large steps\n")?;
            Ok(too_large(Limit::Steps, u64::from(MOST_STEPS)))
        }
    }
}

/// Plays a script, and puts its report.
fn play_script<O: Sink>(
    alloc: Global,
    topology: &Topology,
    script: &Script,
    out: &mut O,
) -> Result<Outcome, DeviceBad>
    requires lawful { IsLawfulScript topology.now script.now }
    requires few { length script.now.lines ≤ most_script_lines }
    ensures put { OnOk result (ForSome (O.written out.old) (λ before.
        O.written out.new ≡ Some (before ++ report topology.now (numbers_of script.now.reflectors) (course_of topology.now script.now)))) }
    ensures part { OnErr result (ForSome (O.written out.old) (λ before.
        PartPut (report topology.now (numbers_of script.now.reflectors) (course_of topology.now script.now)) before (O.written out.new))) }
    ensures cause { Counted (O.faults out.old) (O.faults out.new) result }
    ensures outcome { IfOk result (λ outcome. outcome ≡ outcome_of (course_of topology.now script.now)) }
{
    let mut desk = Desk::new(alloc)?;
    let outcome = play_on_page(alloc, topology, script, out, &mut desk)?;
    desk.page.end(out)?;
    Ok(outcome)
}

/// Plays the lines of a script that was read.
fn reflect_lines<O: Sink>(
    alloc: Global,
    topology: &Topology,
    script: &Script,
    out: &mut O,
) -> Outcome
    requires lawful { IsLawfulScript topology.now script.now }
    requires few { length script.now.lines ≤ most_script_lines }
    ensures outcome { OutcomeIs (Some (reflect_done topology.now script.now)) result }
    ensures text { ForSome (O.written out.old) (λ before. TextIs (Some (reflect_done topology.now script.now)) before (O.written out.new) result) }
    ensures cause { SinkCausedBy (O.faults out.old) (O.faults out.new) result }
    ensures usage { result ≢ Outcome.Usage }
{
    match play_script(alloc, topology, script, out) {
        Ok(outcome) => outcome,
        Err(DeviceBad::Failed) => Outcome::WriteFault,
        Err(DeviceBad::NoMemory) => Outcome::NoMemory,
    }
}

/// Reads the script of this name over a topology, or its refusal.
fn load_script<S: Shelf>(
    alloc: Global,
    topology: &Topology,
    name: &str,
    shelf: &mut S,
) -> Result<Result<Script, Outcome>, DeviceBad>
    ensures answer { IfOk result (λ s. ForSome (S.files shelf.old) (λ files. ScriptIs topology.now (file files name.now) s)) }
    ensures fits { IfOk result (ScriptFits topology.now) }
    ensures sound { IfOk result IsSound }
    ensures same { S.files shelf.new ≡ S.files shelf.old }
    ensures reads { CountedUnless (Absent (S.files shelf.old) name.now)
        (S.read_faults shelf.old) (S.read_faults shelf.new) result }
    ensures writes { S.write_faults shelf.new ≡ S.write_faults shelf.old }
{
    match load_script_bytes(alloc, name, shelf)? {
        Ok(bytes) => Ok(script_read(read_script(alloc, topology, &bytes))?),
        Err(outcome) => Ok(Err(outcome)),
    }
}

/// Reads the script of this name and plays it over a topology.
fn reflect_script<S: Shelf, O: Sink>(
    alloc: Global,
    topology: &Topology,
    script: &str,
    shelf: &mut S,
    out: &mut O,
) -> Outcome
    ensures answers { ForSome (S.files shelf.old) (λ files. Answers (reflect_over files script.now topology.now) files (S.files shelf.new) (O.written out.old) (O.written out.new) result) }
    ensures told { ForSome (S.files shelf.old) (λ files. ForSome (O.written out.old) (λ before.
        IsScriptTold topology.now script.now files before (O.written out.new) result)) }
    ensures same { S.files shelf.new ≡ S.files shelf.old }
    ensures cause { CausedBy (HasNone (λ files. reflect_over files script.now topology.now) (S.files shelf.old))
        (S.read_faults shelf.old, S.write_faults shelf.old, O.faults out.old)
        (S.read_faults shelf.new, S.write_faults shelf.new, O.faults out.new) result }
    ensures usage { result ≢ Outcome.Usage }
{
    topology.laws();
    where_none_flies_the_printed_tables_are_those_of_the_mesh();
    each_drain_of_a_script_is_bounded();
    match load_script(alloc, topology, script, shelf) {
        Ok(Ok(lines)) => reflect_lines(alloc, topology, &lines, out),
        Ok(Err(outcome)) => refuse(alloc, out, outcome),
        Err(DeviceBad::Failed) => Outcome::ReadFault,
        Err(DeviceBad::NoMemory) => Outcome::NoMemory,
    }
}

/// Plays a script of reflected routes from its start, no session living, over a topology, both read by name, and puts the report. No
/// file is written.
pub fn reflect<S: Shelf, O: Sink>(
    alloc: Global,
    topology: &str,
    script: &str,
    shelf: &mut S,
    out: &mut O,
) -> Outcome
    // The outcome and the text are the answer's; a fault, or running out of memory, may come in its place, and then a first part of the text stands.
    ensures answers { ForSome (S.files shelf.old) (λ files. Answers (reflect_answer topology.now script.now files) files (S.files shelf.new) (O.written out.old) (O.written out.new) result) }
    // Where all was done, the report is that of the script's course over the topology. Each table that is printed where no message
    // flies, each edge has a living session with a reflector and each two reflectors have one, is that of a full mesh; and each drain is
    // bounded by messages in flight, reflectors, edges, directions of living sessions and routes as it begins.
    ensures told { ForSome (S.files shelf.old) (λ files. ForSome (O.written out.old) (λ before.
        IsReflectTold topology.now script.now files before (O.written out.new) result)) }
    // No file changes.
    ensures same { S.files shelf.new ≡ S.files shelf.old }
    // A fault comes only where its count rose, or a read's over a sound shelf where an input isn't there; every other count is as
    // before.
    ensures cause { CausedBy (HasNone (reflect_answer topology.now script.now) (S.files shelf.old))
        (S.read_faults shelf.old, S.write_faults shelf.old, O.faults out.old)
        (S.read_faults shelf.new, S.write_faults shelf.new, O.faults out.new) result }
    ensures usage { result ≢ Outcome.Usage }
{
    match load_topology(alloc, topology, shelf) {
        Ok(Ok(topology)) => reflect_script(alloc, &topology, script, shelf, out),
        Ok(Err(outcome)) => refuse(alloc, out, outcome),
        Err(DeviceBad::Failed) => Outcome::ReadFault,
        Err(DeviceBad::NoMemory) => Outcome::NoMemory,
    }
}
