//! Lines played on edges and reflectors.
ghost use Rattle.std.specs.Prelude.{◌≡◌, ◌≤◌, ◌++◌, ◌∷◌, [], ℕ, List, true, length, IfOk, OnOk};
ghost use Rattle.mn_ledger.specs.Prelude.{most_script_lines, Network};
ghost use Rattle.mn_topo.specs.declared.steps.Step.{Step as StepOf};
ghost use Rattle.mn_reflect_run.specs.Prelude.{standing, Tells, takes, IsRun, numbers_of};
ghost use Rattle.mn_reflect_run.specs.Language.{command_fits};
ghost use Rattle.mn_reflect_run.specs.Reading.{IsLawfulScript};
ghost use Rattle.mn_reflect_run.specs.Course.{ReflectRun, asked, after_line, drain_for, most_of};
ghost use Rattle.mn_reflect_run.specs.Playing.{IsAt, MayGoOn, MayPlay, CanHear, IsAnswered, IsDrained, Follows, HasTable, ShowsAt, cause_of, shown_by, notes_by, notes_text, refused_in, PlaysAll};

use crate::command::{ReflectCommand, ReflectLine};
use crate::report::{Desk, put_refusal, put_table};
use crate::script::Script;
use mn_answer::{Ended, Played};
use mn_base::MOST_STEPS;
use mn_edge::{DeviceBad, Sink};
use mn_ledger::Refused;
use mn_reflect::{Reflect, ReflectBad};
use mn_topo::{Step, Topology};
use std::alloc::AllocError;

/// A refusal in the ledger's words.
fn cause_of(bad: ReflectBad) -> Refused
    ensures { result ≡ cause_of bad }
{
    match bad {
        ReflectBad::Unchanged => Refused::Unchanged,
        ReflectBad::Empty => Refused::Empty,
        ReflectBad::PrefixTaken { site } => Refused::PrefixTaken { site },
        ReflectBad::NoRouteThere => Refused::NoRouteThere,
        ReflectBad::RoutesFull => Refused::RoutesFull,
        ReflectBad::TargetsFull => Refused::TargetsFull,
        ReflectBad::LabelsSpent => Refused::LabelsSpent,
        ReflectBad::NetFull => Refused::NetFull,
        ReflectBad::NoMemory => Refused::NoMemory,
    }
}

/// How a step went, before which so many were done.
fn answer_of(steps: u64, done: Result<(), ReflectBad>) -> Result<Played<Refused>, AllocError>
    ensures { IfOk result (IsAnswered steps done) }
{
    match done {
        Ok(()) => {
            if steps == u64::from(MOST_STEPS) {
                Ok(Played::TooManySteps)
            } else {
                Ok(Played::All)
            }
        }
        Err(ReflectBad::NoMemory) => Err(AllocError),
        Err(bad) => Ok(Played::Refused(cause_of(bad))),
    }
}

/// Receives the message that was sent first of all in flight.
fn hear(reflect: &mut Reflect, hearing: &Step) -> Result<(), AllocError>
    requires { CanHear reflect.old hearing.now }
    ensures { (topology : Network) (reflectors : List ℕ) (steps : List StepOf) → IsRun topology reflectors steps reflect.old →
        takes topology reflectors hearing.now ≡ true → OnOk result (IsRun topology reflectors (steps ++ hearing.now ∷ []) reflect.new) }
{
    match reflect.step(hearing) {
        Ok(()) => Ok(()),
        Err(ReflectBad::NoMemory) => Err(AllocError),
        Err(_) => unreachable!(),
    }
}

/// How often a message is received at most. No bound is one more than there may be steps.
#[tactic(auto, unfolding(crate::specs::Course::every_hearing))]
fn most_of(most: Option<u32>) -> u32
    ensures { result ≡ most_of most }
{
    match most {
        None => MOST_STEPS + 1,
        Some(most) => most,
    }
}

/// Receives the message that was sent first of all in flight, at most so often, until none flies.
fn drain(reflect: &mut Reflect, most: u32) -> Result<Played<Refused>, AllocError>
    requires { MayGoOn reflect.old }
    ensures { IfOk result (λ how. (topology : Network) (reflectors : List ℕ) (run : ReflectRun) → IsAt topology reflectors run reflect.old →
        IsDrained topology reflectors (drain_for most topology reflectors run) run how reflect.new) }
{
    for _turn in 0..most {
        let Some(hearing) = reflect.first() else {
            return Ok(Played::All);
        };
        if reflect.done() == u64::from(MOST_STEPS) {
            return Ok(Played::TooManySteps);
        }
        hear(reflect, &hearing)?;
    }
    Ok(Played::All)
}

/// Does a step that a line asks for.
fn do_step(reflect: &mut Reflect, done: Step) -> Result<Played<Refused>, AllocError>
    requires { MayPlay reflect.old (ReflectCommand.Do done) }
    ensures { IfOk result (λ how. (topology : Network) (reflectors : List ℕ) (run : ReflectRun) (number : ℕ) → IsAt topology reflectors run reflect.old →
        takes topology reflectors done ≡ true →
        Follows topology reflectors (asked topology reflectors run number (ReflectCommand.Do done)) run (record { number = number; command = ReflectCommand.Do done }) how reflect.new) }
{
    let steps = reflect.done();
    answer_of(steps, reflect.step(&done))
}

/// Plays a line. An `Err` means out of memory.
fn play_line(reflect: &mut Reflect, line: ReflectLine) -> Result<Played<Refused>, AllocError>
    requires { MayPlay reflect.old line.command }
    ensures { IfOk result (λ how. (topology : Network) (reflectors : List ℕ) (run : ReflectRun) → IsAt topology reflectors run reflect.old →
        command_fits topology reflectors line.command ≡ true →
        Follows topology reflectors (after_line topology reflectors run line) run line how reflect.new) }
{
    match line.command {
        ReflectCommand::Do(step) => do_step(reflect, step),
        ReflectCommand::Drain(most) => drain(reflect, most_of(most)),
        ReflectCommand::Show(_) => Ok(Played::All),
    }
}

/// Puts what is reported of a line that was done: its table, where it shows one.
fn put_shown<O: Sink>(
    out: &mut O,
    desk: &mut Desk,
    topology: &Topology,
    reflect: &Reflect,
    command: ReflectCommand,
) -> Result<(), DeviceBad>
    requires over { reflect.now.topology ≡ topology.now }
    requires there { HasTable topology.now command }
    ensures { (reflectors : List ℕ) (steps : List StepOf) → ShowsAt topology.now reflectors steps command reflect.now →
        Tells (notes_text topology.now reflectors (shown_by steps command))
        (standing desk.old.page (O.written out.old) (O.faults out.old)) (standing desk.new.page (O.written out.new) (O.faults out.new)) result }
{
    match command {
        ReflectCommand::Show(vrf) => put_table(out, desk, topology, reflect, vrf),
        ReflectCommand::Do(_) | ReflectCommand::Drain(_) => Ok(()),
    }
}

/// Puts what is reported of a line, and answers how many refused lines that are.
fn put_told<O: Sink>(
    out: &mut O,
    desk: &mut Desk,
    topology: &Topology,
    reflect: &Reflect,
    line: ReflectLine,
    played: Played<Refused>,
) -> Result<u32, DeviceBad>
    requires over { reflect.now.topology ≡ topology.now }
    requires there { HasTable topology.now line.command }
    ensures told { (reflectors : List ℕ) (steps : List StepOf) → ShowsAt topology.now reflectors steps line.command reflect.now →
        Tells (notes_text topology.now reflectors (notes_by steps line played))
        (standing desk.old.page (O.written out.old) (O.faults out.old)) (standing desk.new.page (O.written out.new) (O.faults out.new)) result }
    ensures counted { IfOk result (λ count. count ≡ refused_in played) }
{
    match played {
        Played::Refused(cause) => {
            put_refusal(out, desk, topology, line.number, cause)?;
            Ok(1)
        }
        Played::All => {
            put_shown(out, desk, topology, reflect, line.command)?;
            Ok(0)
        }
        Played::TooManySteps => Ok(0),
    }
}

/// Plays the lines of a script from the start on, and puts in their order those that are refused and the tables that they show.
pub(crate) fn play<O: Sink>(
    reflect: &mut Reflect,
    topology: &Topology,
    script: &Script,
    out: &mut O,
    desk: &mut Desk,
) -> Result<Ended, DeviceBad>
    requires start { IsRun topology.now (numbers_of script.now.reflectors) [] reflect.old }
    requires lawful { IsLawfulScript topology.now script.now }
    requires few { length script.now.lines ≤ most_script_lines }
    ensures { PlaysAll topology.now (numbers_of script.now.reflectors) script.now.lines reflect.new
        (standing desk.old.page (O.written out.old) (O.faults out.old)) (standing desk.new.page (O.written out.new) (O.faults out.new)) result }
{
    let lines = script.lines();
    let mut refused = 0;
    for line in lines {
        let played = play_line(reflect, *line)?;
        if let Played::TooManySteps = played {
            return Ok(Ended::TooManySteps);
        }
        refused += put_told(out, desk, topology, reflect, *line, played)?;
    }
    Ok(Ended::All { refused })
}
