//! A whole run.
ghost use Rattle.std.specs.Prelude.{◌≡◌, ◌≢◌, ◌⊎◌, ◌≤◌, ◌++◌, [], false, List, ℕ, length, None, Some, Ok, Err, OnOk, OnErr};
ghost use Rattle.std.specs.Option.{ForSome};
ghost use Rattle.mn_perform.specs.Prelude.{most_script_lines, Absent, Files, Framed, Lacking, named, laid, PartWritten, AllFit, inputs_of, PutOn, PartPut, start_of, expanded};
ghost use Rattle.mn_perform.specs.Recorded.{IsFor, told_packets, whole_at};
ghost use Rattle.mn_ledger.specs.Ledger.{packets_of};
ghost use Rattle.mn_perform.specs.Faults.{Blamed};
ghost use Rattle.mn_perform.specs.Inside.{is_inside};
ghost use Rattle.mn_perform.specs.Running.{notes_text, Keeps, Stands};
ghost use Rattle.mn_perform.specs.Whole.{last_text, running, running_files, BegunAtRead, UntoldAtRead, RunEnds, RunFiles, RunText, IsLate};
ghost use Rattle.mn_perform.specs.Whole.{ForRun, ForPackets, FilesOf, TextOf, EndsAs, TellsLate};

use crate::books::Books;
use crate::desk::Desk;
use crate::ended::{Ended, Fault};
use crate::lines::{Run, perform_lines};
use mn_capture::Capture;
use mn_edge::{Shelf, Sink};
use mn_sched::Net;
use mn_script::Line;
use mn_topo::Topology;
use std::alloc::Global;

/// Ends the files, and then the report.
fn finish<S: Shelf, O: Sink>(
    run: &mut Run,
    how: Ended,
    shelf: &mut S,
    out: &mut O,
) -> Result<Ended, Fault>
    requires files { IsFor run.old.books run.old.net.topology }
    ensures same { OnOk result (result ≡ Ok how) }
    ensures whole { OnOk result ((base : Files) (all : List (List ℕ)) → Framed run.old.books.names (Some base) (S.files shelf.old) → Stands all run.old.net run.old.books (S.files shelf.old) →
        S.files shelf.new ≡ Some (laid (named run.old.books.names (whole_at run.old.net.topology all run.old.net.journal)) base)) }
    ensures part { OnErr result ((base : Files) (all : List (List ℕ)) → Framed run.old.books.names (Some base) (S.files shelf.old) → Stands all run.old.net run.old.books (S.files shelf.old) →
        PartWritten (named run.old.books.names (whole_at run.old.net.topology all run.old.net.journal)) base (S.files shelf.new)) }
    ensures put { OnOk result ((all : List (List ℕ)) (before notes : List ℕ) → Stands all run.old.net run.old.books (S.files shelf.old) → PutOn before notes run.old.desk.page (O.written out.old) →
        O.written out.new ≡ Some (before ++ (notes ++ last_text run.old.net run.old.desk how (packets_of run.old.net.topology run.old.net.journal (inputs_of all run.old.net.journal))))) }
    ensures put_part { OnErr result ((all : List (List ℕ)) (before notes : List ℕ) → Stands all run.old.net run.old.books (S.files shelf.old) → PutOn before notes run.old.desk.page (O.written out.old) →
        PartPut (notes ++ last_text run.old.net run.old.desk how (packets_of run.old.net.topology run.old.net.journal (inputs_of all run.old.net.journal))) before (O.written out.new)) }
    ensures late { OnErr result ((base : Files) (all : List (List ℕ)) (before notes : List ℕ) → Framed run.old.books.names (Some base) (S.files shelf.old) →
        Stands all run.old.net run.old.books (S.files shelf.old) → PutOn before notes run.old.desk.page (O.written out.old) →
        (S.files shelf.new ≡ Some (laid (named run.old.books.names (whole_at run.old.net.topology all run.old.net.journal)) base)) ⊎ PartPut notes before (O.written out.new)) }
    ensures unread { result ≢ Err Fault.Read }
    ensures cause { Blamed ⊥ (Lacking run.old.books.names (S.files shelf.old))
        (S.read_faults shelf.old, S.write_faults shelf.old, O.faults out.old)
        (S.read_faults shelf.new, S.write_faults shelf.new, O.faults out.new) result }
{
    run.books.close(shelf, &run.net)?;
    run.desk.end(out, &run.net, how)?;
    Ok(how)
}

/// Plays a script on a network at its start, with the files begun and an empty desk.
fn perform_script<S: Shelf, O: Sink>(
    run: &mut Run,
    lines: &[Line],
    shelf: &mut S,
    out: &mut O,
    capture: &Capture,
) -> Result<Ended, Fault>
    requires fit { AllFit run.old.net.topology lines.now }
    requires few { length lines.now ≤ most_script_lines }
    requires tick { run.old.net.tick ≡ 0 }
    requires refused { run.old.desk.refused ≡ 0 }
    requires files { IsFor run.old.books run.old.net.topology }
    requires start { ForSome (told_packets (S.files shelf.old) run.old.books.names capture.now) (λ all.
        Keeps run.old.net.topology all (O.written out.old) (start_of (record { clock = 0; entries = [] })) run.old.net run.old.books run.old.desk (S.files shelf.old) (O.written out.old)) }
    ensures ended { ForSome (told_packets (S.files shelf.old) run.old.books.names capture.now) (λ all. RunEnds run.old.net.topology all lines.now result) }
    ensures files { ForSome (told_packets (S.files shelf.old) run.old.books.names capture.now) (λ all. (base : Files) → Framed run.old.books.names (Some base) (S.files shelf.old) →
        RunFiles run.old.net.topology all lines.now run.old.books.names base (S.files shelf.new) result) }
    ensures text { ForSome (told_packets (S.files shelf.old) run.old.books.names capture.now) (λ all. ForSome (O.written out.old) (λ before.
        RunText run.old.net.topology all lines.now before (O.written out.new) result)) }
    ensures late { ForSome (told_packets (S.files shelf.old) run.old.books.names capture.now) (λ all. (base : Files) → Framed run.old.books.names (Some base) (S.files shelf.old) →
        ForSome (O.written out.old) (λ before. IsLate run.old.net.topology all lines.now run.old.books.names base (S.files shelf.new) before (O.written out.new))) }
    ensures begun { ForSome (told_packets (S.files shelf.old) run.old.books.names capture.now) (λ all. (base : Files) → Framed run.old.books.names (Some base) (S.files shelf.old) →
        BegunAtRead (running_files run.old.net.topology all lines.now run.old.books.names) base (S.files shelf.new) result) }
    ensures untold { ForSome (told_packets (S.files shelf.old) run.old.books.names capture.now) (λ all. ForSome (O.written out.old) (λ before.
        UntoldAtRead (notes_text run.old.net.topology all (expanded run.old.net.topology all lines.now)) before (O.written out.new) result)) }
    ensures cause { Blamed (told_packets (S.files shelf.old) run.old.books.names capture.now ≡ None) (told_packets (S.files shelf.old) run.old.books.names capture.now ≡ None)
        (S.read_faults shelf.old, S.write_faults shelf.old, O.faults out.old)
        (S.read_faults shelf.new, S.write_faults shelf.new, O.faults out.new) result }
{
    let how = perform_lines(run, lines, shelf, out, capture)?;
    finish(run, how, shelf, out)
}

/// Plays the lines of a script on the network of a topology, over the packets of a capture. Writes the files of the
/// run into the folder, and puts its report.
///
/// Packets and total are put once every file is whole. After an error each begun file is a first part of its bytes,
/// and what was put is a first part of the report.
pub fn perform<S: Shelf, O: Sink>(
    alloc: Global,
    shelf: &mut S,
    out: &mut O,
    topology: Topology,
    lines: &[Line],
    capture: &Capture,
    folder: &str,
) -> Result<Ended, Fault>
    requires fit { AllFit topology lines.now }
    requires few { length lines.now ≤ most_script_lines }
    requires apart { is_inside capture.now.name folder.now ≡ false }
    ensures ended { ForRun (λ answer m. EndsAs answer result) folder.now topology lines.now capture.now (S.files shelf.old) }
    ensures files { ForRun (λ answer m. FilesOf answer m (S.files shelf.new) result) folder.now topology lines.now capture.now (S.files shelf.old) }
    ensures text { ForRun (λ answer m. ForSome (O.written out.old) (λ before. TextOf answer before (O.written out.new) result))
        folder.now topology lines.now capture.now (S.files shelf.old) }
    // Nothing of packets and total is put but where every file is whole.
    ensures late { ForRun (λ answer m. ForSome (O.written out.old) (λ before. TellsLate folder.now topology lines.now capture.now answer m (S.files shelf.new) before (O.written out.new)))
        folder.now topology lines.now capture.now (S.files shelf.old) }
    // A read fails only among the lines: every file was begun, no label is written, and nothing of packets and total is put.
    ensures begun { ForPackets (λ packets m. BegunAtRead (running folder.now topology packets (expanded topology packets lines.now).past.entries) m (S.files shelf.new) result)
        capture.now (S.files shelf.old) }
    ensures untold { ForPackets (λ packets m. ForSome (O.written out.old) (λ before.
        UntoldAtRead (notes_text topology packets (expanded topology packets lines.now)) before (O.written out.new) result)) capture.now (S.files shelf.old) }
    ensures cause { Blamed (Absent (S.files shelf.old) capture.now.name) (Absent (S.files shelf.old) capture.now.name)
        (S.read_faults shelf.old, S.write_faults shelf.old, O.faults out.old)
        (S.read_faults shelf.new, S.write_faults shelf.new, O.faults out.new) result }
{
    let books = Books::open(alloc, shelf, &topology, folder)?;
    let Ok(desk) = Desk::new(alloc) else {
        return Err(Fault::NoMemory);
    };
    let Ok(net) = Net::new(alloc, topology) else {
        return Err(Fault::NoMemory);
    };
    let mut run = Run { net, books, desk };
    perform_script(&mut run, lines, shelf, out, capture)
}
