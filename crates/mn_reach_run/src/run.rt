//! The whole command, over a shelf of files and a sink.
ghost use Rattle.std.specs.Prelude.{◌≡◌, ◌≢◌, ◌≤◌, ◌++◌, [], true, length, Some, None, All, OnOk, OnErr};
ghost use Rattle.std.specs.Option.{ForSome};
ghost use Rattle.mn_edge.specs.Faults.{Counted};
ghost use Rattle.mn_lines.specs.Putting.{PartPut};
ghost use Rattle.mn_candidates.specs.Pairs.{pairs_of, most_pairs};
ghost use Rattle.mn_failures.specs.Meaning.{command_fits};
ghost use Rattle.mn_answer.specs.Endings.{OutcomeIs, TextIs, CausedBy, SinkCausedBy, HasNone, Answers};
ghost use Rattle.mn_reach_run.specs.Report.{report};
ghost use Rattle.mn_reach_run.specs.Answer.{name_of, told, reach_done, reach_over, reach_answer};
ghost use Rattle.mn_reach_run.specs.Headline.{AreFailuresTold, IsReachTold};

use crate::load::load_failures;
use crate::play::{new_player, put_report};
use mn_answer::{Limit, Outcome, load_topology, refuse, too_large};
use mn_candidates::{MOST_PAIRS, Pair, pairs_of};
use mn_edge::{DeviceBad, Shelf, Sink};
use mn_failure_laws::each_packet_comes_to_its_fate;
use mn_failures::FailureLine;
use mn_topo::Topology;
use std::alloc::Global;

/// Puts the report of failures for these pairs.
fn put_all<O: Sink>(
    alloc: Global,
    topology: &Topology,
    pairs: Vec<Pair>,
    lines: &[FailureLine],
    out: &mut O,
) -> Result<(), DeviceBad>
    requires pairs { pairs.items ≡ pairs_of topology.now }
    requires few { length pairs.items ≤ most_pairs }
    requires fit { All (λ line. command_fits topology.now line.command ≡ true) lines.now }
    ensures put { OnOk result (ForSome (O.written out.old) (λ before.
        O.written out.new ≡ Some (before ++ report topology.now lines.now))) }
    ensures part { OnErr result (ForSome (O.written out.old) (λ before.
        PartPut (report topology.now lines.now) before (O.written out.new))) }
    ensures cause { Counted (O.faults out.old) (O.faults out.new) result }
{
    let mut player = new_player(alloc, topology, pairs)?;
    put_report(topology, &mut player, lines, out)?;
    player.desk.page.end(out)?;
    Ok(())
}

/// Tells failures for pairs that aren't too many.
fn reach_pairs<O: Sink>(
    alloc: Global,
    topology: &Topology,
    pairs: Vec<Pair>,
    lines: &[FailureLine],
    out: &mut O,
) -> Outcome
    requires pairs { pairs.items ≡ pairs_of topology.now }
    requires few { length pairs.items ≤ most_pairs }
    requires fit { All (λ line. command_fits topology.now line.command ≡ true) lines.now }
    ensures outcome { OutcomeIs (Some (told topology.now lines.now)) result }
    ensures text { ForSome (O.written out.old) (λ before. TextIs (Some (told topology.now lines.now)) before (O.written out.new) result) }
    ensures cause { SinkCausedBy (O.faults out.old) (O.faults out.new) result }
    ensures usage { result ≢ Outcome.Usage }
{
    match put_all(alloc, topology, pairs, lines, out) {
        Ok(()) => Outcome::Done,
        Err(DeviceBad::Failed) => Outcome::WriteFault,
        Err(DeviceBad::NoMemory) => Outcome::NoMemory,
    }
}

/// Tells failures that were read.
fn reach_lines<O: Sink>(
    alloc: Global,
    topology: &Topology,
    lines: &[FailureLine],
    out: &mut O,
) -> Outcome
    requires fit { All (λ line. command_fits topology.now line.command ≡ true) lines.now }
    ensures outcome { OutcomeIs (Some (reach_done topology.now lines.now)) result }
    ensures text { ForSome (O.written out.old) (λ before. TextIs (Some (reach_done topology.now lines.now)) before (O.written out.new) result) }
    ensures cause { SinkCausedBy (O.faults out.old) (O.faults out.new) result }
    ensures usage { result ≢ Outcome.Usage }
{
    match pairs_of(alloc, topology) {
        Ok(Some(pairs)) => reach_pairs(alloc, topology, pairs, lines, out),
        Ok(None) => refuse(alloc, out, too_large(Limit::Pairs, MOST_PAIRS as u64)),
        Err(_) => Outcome::NoMemory,
    }
}

/// Reads the file of failures of this name and tells it over a topology.
fn reach_file<S: Shelf, O: Sink>(
    alloc: Global,
    topology: &Topology,
    failures: &str,
    shelf: &mut S,
    out: &mut O,
) -> Outcome
    ensures answers { ForSome (S.files shelf.old) (λ files.
        Answers (reach_over files (Some failures.now) topology.now) files (S.files shelf.new) (O.written out.old) (O.written out.new) result) }
    ensures told { ForSome (S.files shelf.old) (λ files. ForSome (O.written out.old) (λ before.
        AreFailuresTold topology.now (Some failures.now) files before (O.written out.new) result)) }
    ensures same { S.files shelf.new ≡ S.files shelf.old }
    ensures cause { CausedBy (HasNone (λ files. reach_over files (Some failures.now) topology.now) (S.files shelf.old))
        (S.read_faults shelf.old, S.write_faults shelf.old, O.faults out.old)
        (S.read_faults shelf.new, S.write_faults shelf.new, O.faults out.new) result }
    ensures usage { result ≢ Outcome.Usage }
{
    topology.laws();
    each_packet_comes_to_its_fate();
    match load_failures(alloc, failures, shelf, topology) {
        Ok(Ok(lines)) => reach_lines(alloc, topology, lines.as_slice(), out),
        Ok(Err(outcome)) => refuse(alloc, out, outcome),
        Err(DeviceBad::Failed) => Outcome::ReadFault,
        Err(DeviceBad::NoMemory) => Outcome::NoMemory,
    }
}

/// Tells a topology with nothing failed.
fn reach_whole<S: Shelf, O: Sink>(
    alloc: Global,
    topology: &Topology,
    shelf: &S,
    out: &mut O,
) -> Outcome
    ensures answers { ForSome (S.files shelf.now) (λ files.
        Answers (reach_over files None topology.now) files (S.files shelf.now) (O.written out.old) (O.written out.new) result) }
    ensures told { ForSome (S.files shelf.now) (λ files. ForSome (O.written out.old) (λ before.
        AreFailuresTold topology.now None files before (O.written out.new) result)) }
    ensures cause { SinkCausedBy (O.faults out.old) (O.faults out.new) result }
    ensures usage { result ≢ Outcome.Usage }
{
    topology.laws();
    each_packet_comes_to_its_fate();
    reach_lines(alloc, topology, &[], out)
}

/// Tells a topology with nothing failed, or under each failure of a file.
fn reach_over<S: Shelf, O: Sink>(
    alloc: Global,
    topology: &Topology,
    failures: Option<&str>,
    shelf: &mut S,
    out: &mut O,
) -> Outcome
    ensures answers { ForSome (S.files shelf.old) (λ files.
        Answers (reach_over files (name_of failures.entry) topology.now) files (S.files shelf.new) (O.written out.old) (O.written out.new) result) }
    ensures told { ForSome (S.files shelf.old) (λ files. ForSome (O.written out.old) (λ before.
        AreFailuresTold topology.now (name_of failures.entry) files before (O.written out.new) result)) }
    ensures same { S.files shelf.new ≡ S.files shelf.old }
    ensures cause { CausedBy (HasNone (λ files. reach_over files (name_of failures.entry) topology.now) (S.files shelf.old))
        (S.read_faults shelf.old, S.write_faults shelf.old, O.faults out.old)
        (S.read_faults shelf.new, S.write_faults shelf.new, O.faults out.new) result }
    ensures usage { result ≢ Outcome.Usage }
{
    match failures {
        Some(failures) => reach_file(alloc, topology, failures, shelf, out),
        None => reach_whole(alloc, topology, shelf, out),
    }
}

/// Tells what becomes of each pair of a topology at rest, with nothing failed and under each failure of a file, if one is named; both are
/// read by name. No file is written.
pub fn reach<S: Shelf, O: Sink>(
    alloc: Global,
    topology: &str,
    failures: Option<&str>,
    shelf: &mut S,
    out: &mut O,
) -> Outcome
    // The outcome and the text are the answer's; a fault, or running out of memory, may come in its place, and then a first part of the text stands.
    ensures answers { ForSome (S.files shelf.old) (λ files.
        Answers (reach_answer topology.now (name_of failures.entry) files) files (S.files shelf.new) (O.written out.old) (O.written out.new) result) }
    // Where all was done, the text is the report of the file's failures over the topology, and each verdict in it is the ledger's on every
    // lawful journal that is at rest under the failure.
    ensures told { ForSome (S.files shelf.old) (λ files. ForSome (O.written out.old) (λ before.
        IsReachTold topology.now (name_of failures.entry) files before (O.written out.new) result)) }
    // No file changes.
    ensures same { S.files shelf.new ≡ S.files shelf.old }
    // A fault comes only where its count rose, or a read's over a sound shelf where an input isn't there; every other count is as
    // before.
    ensures cause { CausedBy (HasNone (reach_answer topology.now (name_of failures.entry)) (S.files shelf.old))
        (S.read_faults shelf.old, S.write_faults shelf.old, O.faults out.old)
        (S.read_faults shelf.new, S.write_faults shelf.new, O.faults out.new) result }
    ensures usage { result ≢ Outcome.Usage }
{
    match load_topology(alloc, topology, shelf) {
        Ok(Ok(topology)) => reach_over(alloc, &topology, failures, shelf, out),
        Ok(Err(outcome)) => refuse(alloc, out, outcome),
        Err(DeviceBad::Failed) => Outcome::ReadFault,
        Err(DeviceBad::NoMemory) => Outcome::NoMemory,
    }
}
