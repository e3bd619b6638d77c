//! A whole run: the lines of a script on two joined networks, with the file of what comes out and the report.
ghost use Rattle.std.specs.Prelude.{◌≡◌, ◌≢◌, None, Some, true, false, All, Ok, OnOk};
ghost use Rattle.std.specs.Option.{ForSome};
ghost use Rattle.mn_join_run.specs.Prelude.{Counted, Absent, file, Framed, Lacking, Answers, CausedBy, packets_in, Pairing, at_first, pairing_of, PairStands, Blamed, is_inside, standing, Tells, line_fits};
ghost use Rattle.mn_join_run.specs.Course.{JoinRun, run_of};
ghost use Rattle.mn_join_run.specs.Answer.{join_done};
ghost use Rattle.mn_join_run.specs.Loading.{AreFit};
ghost use Rattle.mn_join_run.specs.Outside.{Start};
ghost use Rattle.mn_join_run.specs.Playing.{outside_of, Went};
ghost use Rattle.mn_join_run.specs.Ending.{AreAtFirst, IsEnded, HasEnded, last_text, outcome_by, AreLawfulIfDone, RunEnds, start_in};

use crate::desk::Desk;
use crate::exits::ExitsFile;
use crate::lines::{Run, Script};
use crate::load::Inputs;
use crate::report::put_ended;
use mn_answer::{Limit, Outcome, too_large};
use mn_base::MOST_STEPS;
use mn_edge::{DeviceBad, Shelf, Sink};
use mn_join::Pair;
use mn_perform::{Ended, Fault};
use std::alloc::Global;

/// Puts the end of the report.
fn put_last<O: Sink>(
    alloc: Global,
    pair: &Pair,
    how: Ended,
    out: &mut O,
    desk: &mut Desk,
) -> Result<(), DeviceBad>
    requires ended { IsEnded how pair.now }
    ensures told { (pairing : Pairing) (run : JoinRun) → HasEnded pairing run how pair.now desk.old → Tells (last_text pairing run)
        (standing desk.old.page (O.written out.old) (O.faults out.old)) (standing desk.new.page (O.written out.new) (O.faults out.new)) result }
    ensures cause { Counted (O.faults out.old) (O.faults out.new) result }
{
    match how {
        Ended::All => put_ended(alloc, out, &mut desk.page, pair, &desk.sent),
        Ended::TooManySteps => desk.page.put(out, b"too large steps\n"),
    }
}

/// Ends the file, and then the report.
fn finish<S: Shelf, O: Sink>(
    alloc: Global,
    run: &mut Run,
    how: Ended,
    shelf: &mut S,
    out: &mut O,
) -> Result<Ended, Fault>
    requires ended { IsEnded how run.old.pair }
    ensures same { OnOk result (result ≡ Ok how) }
    ensures went { (pairing : Pairing) (start : Start) (course : JoinRun) → start.names ≡ run.old.file.names →
        Framed start.names start.base (S.files shelf.old) →
        Went pairing start course run.old.pair run.old.desk (outside_of run.old (O.written out.old) (S.files shelf.old)) (Ok how) →
        RunEnds pairing start course (S.files shelf.new) (O.written out.new) result }
    ensures cause { Blamed ⊥ (Lacking run.old.file.names (S.files shelf.old))
        (S.read_faults shelf.old, S.write_faults shelf.old, O.faults out.old)
        (S.read_faults shelf.new, S.write_faults shelf.new, O.faults out.new) result }
{
    run.file.end(shelf)?;
    put_last(alloc, &run.pair, how, out, &mut run.desk)?;
    run.desk.page.end(out)?;
    Ok(how)
}

/// Plays a script on two joined networks. Writes what comes out into its folder, and puts the report.
fn perform<S: Shelf, O: Sink>(
    alloc: Global,
    pair: Pair,
    script: &Script<'_>,
    shelf: &mut S,
    out: &mut O,
) -> Result<Ended, Fault>
    requires start { AreAtFirst pair }
    requires fit { All (λ line. line_fits pair.first.net.topology pair.second.net.topology line ≡ true) script.now.lines.now }
    requires apart { is_inside script.now.capture.now.name script.now.folder.now ≡ false }
    ensures ends { (pairing : Pairing) → PairStands pairing pair at_first → pair.stopped ≡ None →
        ForSome (S.files shelf.old) (λ m. ForSome (file m script.now.capture.now.name) (λ bytes.
        RunEnds pairing (start_in script.now.folder.now (S.files shelf.old) (O.written out.old))
        (run_of pairing (packets_in script.now.capture.now bytes) script.now.lines.now) (S.files shelf.new) (O.written out.new) result)) }
    ensures cause { Blamed (Absent (S.files shelf.old) script.now.capture.now.name) ⊥
        (S.read_faults shelf.old, S.write_faults shelf.old, O.faults out.old)
        (S.read_faults shelf.new, S.write_faults shelf.new, O.faults out.new) result }
{
    let file = ExitsFile::open(alloc, shelf, script.folder)?;
    let Ok(desk) = Desk::new(alloc) else {
        return Err(Fault::NoMemory);
    };
    let mut run = Run { pair, file, desk };
    let mut buffer = Vec::new(alloc);
    let how = run.do_lines(script, &mut buffer, shelf, out)?;
    finish(alloc, &mut run, how, shelf, out)
}

/// How a call ends that played a script.
fn outcome_by(ended: Result<Ended, Fault>) -> Outcome
    ensures { result ≡ outcome_by ended }
{
    match ended {
        Ok(Ended::All) => Outcome::Done,
        Ok(Ended::TooManySteps) => too_large(Limit::Steps, u64::from(MOST_STEPS)),
        Err(Fault::Read) => Outcome::ReadFault,
        Err(Fault::Write) => Outcome::WriteFault,
        Err(Fault::NoMemory) => Outcome::NoMemory,
    }
}

/// Joins two networks and plays a script on them, by the inputs that were read, and ends the call.
pub(crate) fn join_networks<S: Shelf, O: Sink>(
    alloc: Global,
    inputs: Inputs,
    folder: &str,
    shelf: &mut S,
    out: &mut O,
) -> Outcome
    requires fit { AreFit inputs }
    requires apart { is_inside inputs.capture.name folder.now ≡ false }
    ensures answers { ForSome (S.files shelf.old) (λ m. ForSome (file m inputs.capture.name) (λ bytes.
        Answers (Some (join_done folder.now (pairing_of inputs.first inputs.second inputs.joints.items) inputs.lines.items (packets_in inputs.capture bytes)))
        m (S.files shelf.new) (O.written out.old) (O.written out.new) result)) }
    ensures lawful { ForSome (S.files shelf.old) (λ m. ForSome (file m inputs.capture.name) (λ bytes.
        AreLawfulIfDone (pairing_of inputs.first inputs.second inputs.joints.items)
        (run_of (pairing_of inputs.first inputs.second inputs.joints.items) (packets_in inputs.capture bytes) inputs.lines.items) result)) }
    ensures cause { CausedBy (Absent (S.files shelf.old) inputs.capture.name)
        (S.read_faults shelf.old, S.write_faults shelf.old, O.faults out.old)
        (S.read_faults shelf.new, S.write_faults shelf.new, O.faults out.new) result }
    ensures usage { result ≢ Outcome.Usage }
{
    let Inputs {
        first,
        second,
        joints,
        lines,
        capture,
    } = inputs;
    let script = Script {
        lines: &lines,
        capture: &capture,
        folder,
    };
    match Pair::new(alloc, first, second, &joints) {
        Ok(pair) => outcome_by(perform(alloc, pair, &script, shelf, out)),
        Err(_) => Outcome::NoMemory,
    }
}
