//! The lines of a script, one after another.
ghost use Rattle.std.specs.Prelude.{◌≡◌, ◌-◌, ◌+◌, ◌<◌, ◌≤◌, ◌^◌, true, false, [], List, ℕ, length, None, Option, IfOk, OnOk};
ghost use Rattle.std.specs.Option.{ForSome};
ghost use Rattle.mn_perform.specs.Prelude.{most_script_lines, Framed, command_fits, AllFit, Expansion, with_line, start_of, expanded, IsPaced};
ghost use Rattle.mn_perform.specs.Recorded.{IsFor, told_packets};
ghost use Rattle.mn_perform.specs.Faults.{Blamed};
ghost use Rattle.mn_perform.specs.Running.{Stands, Keeps, Went};

use crate::books::Books;
use crate::desk::Desk;
use crate::ended::{Ended, Fault};
use crate::recorder::record_line;
use crate::show::{TableOver, put_shown};
use mn_capture::Capture;
use mn_edge::{Shelf, Sink};
use mn_sched::{Net, Stopped};
use mn_script::{Command, Line};

/// A run part way: its network, its files, and what it keeps for its report.
#[derive(Drop)]
pub(crate) struct Run {
    pub net: Net,
    pub books: Books,
    pub desk: Desk,
}

/// Plays a line, or puts the table that it asks for, and notes what became of it.
fn perform_line<S: Shelf, O: Sink>(
    run: &mut Run,
    line: &Line,
    shelf: &mut S,
    out: &mut O,
    capture: &Capture,
) -> Result<Ended, Fault>
    requires fits { command_fits run.old.net.topology line.now.command ≡ true }
    requires early { run.old.net.tick ≤ 2 ^ 61 }
    requires few { run.old.desk.refused < 2 ^ 32 - 1 }
    requires files { IsFor run.old.books run.old.net.topology }
    requires stands { ForSome (told_packets (S.files shelf.old) run.old.books.names capture.now) (λ all. Stands all run.old.net run.old.books (S.files shelf.old)) }
    ensures names { run.new.books.names ≡ run.old.books.names }
    ensures places { run.new.books.places ≡ run.old.books.places }
    ensures topology { run.new.net.topology ≡ run.old.net.topology }
    ensures clock { IfOk result (λ how. how ≡ Ended.All → IsPaced 1000000 run.old.net run.new.net) }
    ensures refused { OnOk result (run.new.desk.refused ≤ run.old.desk.refused + 1) }
    ensures framed { Framed run.old.books.names (S.files shelf.old) (S.files shelf.new) }
    ensures told { told_packets (S.files shelf.new) run.old.books.names capture.now ≡ told_packets (S.files shelf.old) run.old.books.names capture.now }
    ensures went { ForSome (told_packets (S.files shelf.old) run.old.books.names capture.now) (λ all. (begun : Option (List ℕ)) (so_far : Expansion) → so_far.is_stopped ≡ false →
        Keeps run.old.net.topology all begun so_far run.old.net run.old.books run.old.desk (S.files shelf.old) (O.written out.old) →
        Went run.old.net.topology all begun (with_line run.old.net.topology all so_far line.now) run.new.net run.new.books run.new.desk (S.files shelf.new) (O.written out.new) result) }
    ensures cause { Blamed (told_packets (S.files shelf.old) run.old.books.names capture.now ≡ None) (told_packets (S.files shelf.old) run.old.books.names capture.now ≡ None)
        (S.read_faults shelf.old, S.write_faults shelf.old, O.faults out.old)
        (S.read_faults shelf.new, S.write_faults shelf.new, O.faults out.new) result }
{
    match line.command {
        Command::Show(table) => {
            let asked = TableOver { table, capture };
            put_shown(&run.net, asked, shelf, out, &mut run.desk)?;
            Ok(Ended::All)
        }
        _ => match record_line(&mut run.net, &line.command, shelf, &mut run.books, capture) {
            Ok(played) => {
                run.desk.note(out, run.net.topology(), line, played)?;
                Ok(Ended::All)
            }
            Err(Stopped::TooManySteps) => Ok(Ended::TooManySteps),
            Err(Stopped::Read) => Err(Fault::Read),
            Err(Stopped::Write) => Err(Fault::Write),
            Err(Stopped::NoMemory) => Err(Fault::NoMemory),
        },
    }
}

/// Plays the lines of a script, until one meets a full journal.
pub(crate) fn perform_lines<S: Shelf, O: Sink>(
    run: &mut Run,
    lines: &[Line],
    shelf: &mut S,
    out: &mut O,
    capture: &Capture,
) -> Result<Ended, Fault>
    requires fit { AllFit run.old.net.topology lines.now }
    requires few { length lines.now ≤ most_script_lines }
    requires tick { run.old.net.tick ≡ 0 }
    requires refused { run.old.desk.refused ≡ 0 }
    requires files { IsFor run.old.books run.old.net.topology }
    requires start { ForSome (told_packets (S.files shelf.old) run.old.books.names capture.now) (λ all.
        Keeps run.old.net.topology all (O.written out.old) (start_of (record { clock = 0; entries = [] })) run.old.net run.old.books run.old.desk (S.files shelf.old) (O.written out.old)) }
    ensures names { run.new.books.names ≡ run.old.books.names }
    ensures places { run.new.books.places ≡ run.old.books.places }
    ensures topology { run.new.net.topology ≡ run.old.net.topology }
    ensures framed { Framed run.old.books.names (S.files shelf.old) (S.files shelf.new) }
    ensures went { ForSome (told_packets (S.files shelf.old) run.old.books.names capture.now) (λ all.
        Went run.old.net.topology all (O.written out.old) (expanded run.old.net.topology all lines.now) run.new.net run.new.books run.new.desk (S.files shelf.new) (O.written out.new) result) }
    ensures cause { Blamed (told_packets (S.files shelf.old) run.old.books.names capture.now ≡ None) (told_packets (S.files shelf.old) run.old.books.names capture.now ≡ None)
        (S.read_faults shelf.old, S.write_faults shelf.old, O.faults out.old)
        (S.read_faults shelf.new, S.write_faults shelf.new, O.faults out.new) result }
{
    for line in lines {
        if !run.net.works() {
            return Err(Fault::NoMemory);
        }
        run.net.laws();
        match perform_line(run, line, shelf, out, capture)? {
            Ended::All => {}
            Ended::TooManySteps => return Ok(Ended::TooManySteps),
        }
    }
    Ok(Ended::All)
}
