//! The one call that does all that the program does.
ghost use Rattle.std.specs.Prelude.{◌≡◌, ◌≢◌, ℕ, ◌≤◌, true, false, length, Some, IsSome};
ghost use Rattle.std.specs.Option.{ForSome};
ghost use Rattle.mn_run.specs.Prelude.{most_script_lines, file, texts, is_inside, AllFit, Answers, OutcomeIs, FilesAre, TextIs, CausedBy, SinkCausedBy, HasNone, UsageIff, Completes, EndsSoundly, IsLate, IsUnread};
ghost use Rattle.mn_run.specs.Words.{is_run, is_check, is_flood, is_reflect, is_join, is_reach, is_command, generator_number, job_of};
ghost use Rattle.mn_run.specs.Answer.{answer_of, job_answer, checked};
ghost use Rattle.mn_run.specs.Headline.{IsGenerated, HeadlineIs, Ends};
ghost use Rattle.mn_run.specs.Jobs.{ForDone, outcome_of};

use crate::check::check_line;
use crate::generate::generate;
use crate::load::{Inputs, load};
use crate::words::{Job, failures_name, parse_job, word};
use mn_answer::{Limit, Outcome, load_topology, put_line, refuse};
use mn_base::MOST_STEPS;
use mn_edge::{DeviceBad, Shelf, Sink};
use mn_join_run::{Ended, Fault, JoinNames, perform};
use mn_topo::Topology;
use std::alloc::Global;

/// Does what the words of a command line say, over a shelf of files and a sink for the report.
///
/// `words` doesn't hold the program's name. Words that are no command line, and inputs that are refused, leave every
/// file as it was, and one line is put.
pub fn command<S: Shelf, O: Sink>(
    alloc: Global,
    words: &[String],
    shelf: &mut S,
    out: &mut O,
) -> Outcome
    // The outcome is the answer's. A fault or out of memory may come in its place.
    ensures outcome { ForSome (S.files shelf.old) (λ files. OutcomeIs (answer_of (texts words.now) files) result) }
    // The files are the answer's, laid over those of before; after a fault, or running out of memory, a first part of them.
    ensures files { ForSome (S.files shelf.old) (λ files. FilesAre (answer_of (texts words.now) files) files (S.files shelf.new) result) }
    // What was put is the answer's text; after a fault, or running out of memory, a first part of it.
    ensures text { ForSome (S.files shelf.old) (λ files. ForSome (O.written out.old) (λ before.
        TextIs (answer_of (texts words.now) files) before (O.written out.new) result)) }
    // Nothing is reported of a packet, and no total, but where every file is whole.
    ensures late { ForSome (S.files shelf.old) (λ files. ForSome (O.written out.old) (λ before.
        IsLate (answer_of (texts words.now) files) files (S.files shelf.new) before (O.written out.new))) }
    // After a failed read either no file was begun and nothing was put, as is so where an input isn't there, or it failed
    // among the lines of a run: every file was begun, no label is written, and nothing is reported of a packet, and no total.
    ensures unread { ForSome (S.files shelf.old) (λ files. ForSome (O.written out.old) (λ before.
        IsUnread (answer_of (texts words.now) files) files (S.files shelf.new) before (O.written out.new) result)) }
    // A fault comes only where its count rose, or a read's over a sound shelf where an input isn't there; every other count is as
    // before, and no count falls.
    ensures cause { CausedBy (HasNone (answer_of (texts words.now)) (S.files shelf.old))
        (S.read_faults shelf.old, S.write_faults shelf.old, O.faults out.old)
        (S.read_faults shelf.new, S.write_faults shelf.new, O.faults out.new) result }
    // `Usage` is answered exactly where the words are no command line; a failed write or out of memory may come instead.
    ensures usage { UsageIff (is_command (texts words.now)) result }
    // Where the inputs are there and no count of faults rises, the answer comes, or out of memory: so always over sound devices.
    ensures complete { ForSome (S.files shelf.old) (λ files. Completes (answer_of (texts words.now) files)
        (S.read_faults shelf.old, S.write_faults shelf.old, O.faults out.old)
        (S.read_faults shelf.new, S.write_faults shelf.new, O.faults out.new) result) }
    // Over sound devices, which fail by themselves at no call, the answer comes, and a read's fault only where an input isn't there;
    // or out of memory.
    ensures sound { ForSome (S.files shelf.old) (λ files. EndsSoundly (answer_of (texts words.now) files)
        (S.read_faults shelf.old, S.write_faults shelf.old, O.faults out.old) result) }
    // Where all was done by `run`, each packet that was sent has one line and is accounted for: it reached only the
    // site of the best route that its VRF held (of those that took part, where the topology resolves next hops), unchanged but
    // for TTL and checksum, or it fell to the first rule that
    // applies, or it is on its way; sent in a steady stretch of a settled network with a way to its route's edge, it
    // arrives. Each `drain` without a number did no more steps than its bound, and settled the network where the journal had
    // room for them. At each moment no label of a node means two things, a FEC keeps its label until it is free, and no frame in
    // flight is older than its link's life. The journal is the script's, and lawful; report and files are its own, and no other file
    // changed. By
    // `check`, the topology breaks no rule, its line tells how much it has, and no file changed. By `flood`, the report is
    // that of the script's course, its trees are those of the links that are up where no advert flies, no drain received more
    // than its bound, and no file changed. By `reflect`, the report is that of the script's course, each table that is printed
    // where no message flies in a joined network is that of a full mesh, and no file changed. By `join`, the report and the file
    // of what came out are those of the script's course over both networks, each packet's legs are its injections, each at the
    // site to which the leg before was handed on, and no other file changed. By `reach`, the report is that of the file's failures,
    // each verdict in it is the one to which each packet of the pair comes that is sent while the network is at rest under the
    // failure, in whatever lawful journal, and no file changed. By `generate`, the same holds of the packets of its
    // run, what was put is its number and their total, and no file changed.
    ensures headline { ForSome (S.files shelf.old) (λ files. ForSome (O.written out.old) (λ before.
        HeadlineIs (texts words.now) files before (S.files shelf.new) (O.written out.new) result)) }
    // What is promised of `generate`, but for files, holds over each shelf, whether or not it tells its files.
    ensures generated { (number : ℕ) → generator_number (texts words.now) ≡ Some number → ForSome (O.written out.old) (λ before.
        IsGenerated number before (O.written out.new) result) }
{
    answer(alloc, words, shelf, out)
}

/// Does the job for which the words ask.
fn answer<S: Shelf, O: Sink>(alloc: Global, words: &[String], shelf: &mut S, out: &mut O) -> Outcome
    ensures ends { Ends (job_of (texts words.now)) (texts words.now) (S.files shelf.old) (S.files shelf.new) (O.written out.old) (O.written out.new) result }
    ensures cause { CausedBy (HasNone (job_answer (job_of (texts words.now)) (texts words.now)) (S.files shelf.old))
        (S.read_faults shelf.old, S.write_faults shelf.old, O.faults out.old)
        (S.read_faults shelf.new, S.write_faults shelf.new, O.faults out.new) result }
    ensures usage { UsageIff (is_command (texts words.now)) result }
{
    match parse_job(words) {
        Job::Run => run(alloc, words, shelf, out),
        Job::Check => check(alloc, words, shelf, out),
        Job::Flood => flood(alloc, words, shelf, out),
        Job::Reflect => reflect(alloc, words, shelf, out),
        Job::Join => join(alloc, words, shelf, out),
        Job::Reach => reach(alloc, words, shelf, out),
        Job::Generate(number) => generate(alloc, number, out),
        Job::Nothing => refuse(alloc, out, Outcome::Usage),
    }
}

/// Plays a script, by the words `run TOPOLOGY SCRIPT CAPTURE FOLDER`.
fn run<S: Shelf, O: Sink>(alloc: Global, words: &[String], shelf: &mut S, out: &mut O) -> Outcome
    requires { is_run (texts words.now) ≡ true }
    ensures ends { Ends Job.Run (texts words.now) (S.files shelf.old) (S.files shelf.new) (O.written out.old) (O.written out.new) result }
    ensures cause { CausedBy (HasNone (job_answer Job.Run (texts words.now)) (S.files shelf.old))
        (S.read_faults shelf.old, S.write_faults shelf.old, O.faults out.old)
        (S.read_faults shelf.new, S.write_faults shelf.new, O.faults out.new) result }
    ensures usage { result ≢ Outcome.Usage }
{
    let folder = word(words, 4);
    match load(alloc, word(words, 1), word(words, 2), word(words, 3), shelf) {
        Ok(Ok(inputs)) => {
            inputs.topology.laws();
            run_inputs(alloc, inputs, folder, shelf, out)
        }
        Ok(Err(outcome)) => refuse(alloc, out, outcome),
        Err(DeviceBad::Failed) => Outcome::ReadFault,
        Err(DeviceBad::NoMemory) => Outcome::NoMemory,
    }
}

/// How a call ends that played a script.
pub(crate) fn outcome_of(ended: Result<Ended, Fault>) -> Outcome
    ensures { result ≡ outcome_of ended }
{
    match ended {
        Ok(Ended::All) => Outcome::Done,
        Ok(Ended::TooManySteps) => Outcome::TooLarge {
            which: Limit::Steps,
            limit: u64::from(MOST_STEPS),
        },
        Err(Fault::Read) => Outcome::ReadFault,
        Err(Fault::Write) => Outcome::WriteFault,
        Err(Fault::NoMemory) => Outcome::NoMemory,
    }
}

/// Plays the script of inputs that were read.
fn run_inputs<S: Shelf, O: Sink>(
    alloc: Global,
    inputs: Inputs,
    folder: &str,
    shelf: &mut S,
    out: &mut O,
) -> Outcome
    requires fit { AllFit inputs.topology inputs.lines.items }
    requires few { length inputs.lines.items ≤ most_script_lines }
    requires apart { is_inside inputs.capture.name folder.now ≡ false }
    requires there { ForSome (S.files shelf.old) (λ files. IsSome (file files inputs.capture.name)) }
    ensures answers { ForDone (λ answer m. Answers answer m (S.files shelf.new) (O.written out.old) (O.written out.new) result)
        folder.now inputs.topology inputs.lines.items inputs.capture (S.files shelf.old) }
    ensures cause { CausedBy ⊥
        (S.read_faults shelf.old, S.write_faults shelf.old, O.faults out.old)
        (S.read_faults shelf.new, S.write_faults shelf.new, O.faults out.new) result }
    ensures usage { result ≢ Outcome.Usage }
{
    let Inputs {
        topology,
        lines,
        capture,
    } = inputs;
    let ended = perform(
        alloc,
        shelf,
        out,
        topology,
        lines.as_slice(),
        &capture,
        folder,
    );
    outcome_of(ended)
}

/// Tells how much a topology has, by the words `check TOPOLOGY`.
fn check<S: Shelf, O: Sink>(alloc: Global, words: &[String], shelf: &mut S, out: &mut O) -> Outcome
    requires { is_check (texts words.now) ≡ true }
    ensures ends { Ends Job.Check (texts words.now) (S.files shelf.old) (S.files shelf.new) (O.written out.old) (O.written out.new) result }
    ensures cause { CausedBy (HasNone (job_answer Job.Check (texts words.now)) (S.files shelf.old))
        (S.read_faults shelf.old, S.write_faults shelf.old, O.faults out.old)
        (S.read_faults shelf.new, S.write_faults shelf.new, O.faults out.new) result }
    ensures usage { result ≢ Outcome.Usage }
{
    match load_topology(alloc, word(words, 1), shelf) {
        Ok(Ok(topology)) => tell(alloc, &topology, out),
        Ok(Err(outcome)) => refuse(alloc, out, outcome),
        Err(DeviceBad::Failed) => Outcome::ReadFault,
        Err(DeviceBad::NoMemory) => Outcome::NoMemory,
    }
}

/// Puts how much a topology has.
fn tell<O: Sink>(alloc: Global, topology: &Topology, out: &mut O) -> Outcome
    ensures outcome { OutcomeIs (Some (checked topology.now)) result }
    ensures text { ForSome (O.written out.old) (λ before. TextIs (Some (checked topology.now)) before (O.written out.new) result) }
    ensures cause { SinkCausedBy (O.faults out.old) (O.faults out.new) result }
    ensures usage { result ≢ Outcome.Usage }
{
    let Ok(line) = check_line(alloc, topology) else {
        return Outcome::NoMemory;
    };
    match put_line(out, line.as_bytes()) {
        Ok(()) => Outcome::Done,
        Err(DeviceBad::Failed) => Outcome::WriteFault,
        Err(DeviceBad::NoMemory) => Outcome::NoMemory,
    }
}

/// Floods adverts by a script, by the words `flood TOPOLOGY SCRIPT`.
fn flood<S: Shelf, O: Sink>(alloc: Global, words: &[String], shelf: &mut S, out: &mut O) -> Outcome
    requires { is_flood (texts words.now) ≡ true }
    ensures ends { Ends Job.Flood (texts words.now) (S.files shelf.old) (S.files shelf.new) (O.written out.old) (O.written out.new) result }
    ensures cause { CausedBy (HasNone (job_answer Job.Flood (texts words.now)) (S.files shelf.old))
        (S.read_faults shelf.old, S.write_faults shelf.old, O.faults out.old)
        (S.read_faults shelf.new, S.write_faults shelf.new, O.faults out.new) result }
    ensures usage { result ≢ Outcome.Usage }
{
    mn_flood_run::flood(alloc, word(words, 1), word(words, 2), shelf, out)
}

/// Reflects routes by a script, by the words `reflect TOPOLOGY SCRIPT`.
fn reflect<S: Shelf, O: Sink>(
    alloc: Global,
    words: &[String],
    shelf: &mut S,
    out: &mut O,
) -> Outcome
    requires { is_reflect (texts words.now) ≡ true }
    ensures ends { Ends Job.Reflect (texts words.now) (S.files shelf.old) (S.files shelf.new) (O.written out.old) (O.written out.new) result }
    ensures cause { CausedBy (HasNone (job_answer Job.Reflect (texts words.now)) (S.files shelf.old))
        (S.read_faults shelf.old, S.write_faults shelf.old, O.faults out.old)
        (S.read_faults shelf.new, S.write_faults shelf.new, O.faults out.new) result }
    ensures usage { result ≢ Outcome.Usage }
{
    mn_reflect_run::reflect(alloc, word(words, 1), word(words, 2), shelf, out)
}

/// Plays a script on two joined networks, by the words `join TOPOLOGY1 TOPOLOGY2 JOINTS SCRIPT CAPTURE FOLDER`.
fn join<S: Shelf, O: Sink>(alloc: Global, words: &[String], shelf: &mut S, out: &mut O) -> Outcome
    requires { is_join (texts words.now) ≡ true }
    ensures ends { Ends Job.Join (texts words.now) (S.files shelf.old) (S.files shelf.new) (O.written out.old) (O.written out.new) result }
    ensures cause { CausedBy (HasNone (job_answer Job.Join (texts words.now)) (S.files shelf.old))
        (S.read_faults shelf.old, S.write_faults shelf.old, O.faults out.old)
        (S.read_faults shelf.new, S.write_faults shelf.new, O.faults out.new) result }
    ensures usage { result ≢ Outcome.Usage }
{
    let names = JoinNames {
        first: word(words, 1),
        second: word(words, 2),
        joints: word(words, 3),
        script: word(words, 4),
        capture: word(words, 5),
        folder: word(words, 6),
    };
    mn_join_run::join(alloc, &names, shelf, out)
}

/// Tells what becomes of each pair at rest, by the words `reach TOPOLOGY [FAILURES]`.
fn reach<S: Shelf, O: Sink>(alloc: Global, words: &[String], shelf: &mut S, out: &mut O) -> Outcome
    requires { is_reach (texts words.now) ≡ true }
    ensures ends { Ends Job.Reach (texts words.now) (S.files shelf.old) (S.files shelf.new) (O.written out.old) (O.written out.new) result }
    ensures cause { CausedBy (HasNone (job_answer Job.Reach (texts words.now)) (S.files shelf.old))
        (S.read_faults shelf.old, S.write_faults shelf.old, O.faults out.old)
        (S.read_faults shelf.new, S.write_faults shelf.new, O.faults out.new) result }
    ensures usage { result ≢ Outcome.Usage }
{
    mn_reach_run::reach(alloc, word(words, 1), failures_name(words), shelf, out)
}
