//! A watch that writes the files of a run.
ghost use Rattle.std.specs.Prelude.{◌≡◌, ◌≤◌, ◌^◌, true, false, List, ℕ, None, map, length, refl, OnOk, OnErr};
ghost use Rattle.std.specs.Option.{ForSome};
ghost use Rattle.std.proofs.Common.{◌∙◌, subst};
ghost use Rattle.mn_perform.specs.Prelude.{command_fits, inputs_of, played, Network, JournalEntry, BeginsOn, Framed, StandsFor, Together, is_record, is_show, past_of, Takes, After, Caused, IsPaced, MissingIff, names_no_record};
ghost use Rattle.mn_perform.specs.Recorded.{IsFor, Records, RecordedAfter, contents_at, told_packets};
ghost use Rattle.mn_perform.specs.Laws.{has_each, goes_on_same, goes_on_both, begun_of};
ghost use Rattle.mn_perform.specs.Watched.{Holding, Beginning, GoesOn};

use crate::books::Books;
use crate::output::Output;
use crate::step::write_step;
use mn_capture::Capture;
use mn_edge::{DeviceBad, Shelf};
use mn_pcap::packet_of;
use mn_sched::{Done, Net, Played, Stopped, Watch, WatchBad, play};
use mn_script::Command;

/// Writes the files of a run as its steps are done, and hands out the packets of a capture.
#[derive(Drop)]
pub(crate) struct Recorder<'a, S: Shelf> {
    shelf: &'a mut S,
    output: &'a mut Output,
    capture: &'a Capture,
    /// The bytes of the record that was fetched last.
    fetched: &'a mut Vec<u8>,
}

/// Whether a capture of so many records has this one: they are numbered from 1.
pub fn is_record(records: usize, nth: u32) -> bool
    ensures { result ≡ is_record records nth }
{
    1 <= nth && nth as usize <= records
}

impl<S: Shelf> Watch for Recorder<'_, S> {
    ghost records = { λ w. length w.capture.now.places };

    ghost packets = { λ w. told_packets (S.files w.shelf.now) w.output.now.names w.capture.now };

    ghost reads = { λ w. S.read_faults w.shelf.now };

    ghost writes = { λ w. S.write_faults w.shelf.now };

    ghost stands = { λ w topology journal inputs. Holding w.output.now w.capture.now (S.files w.shelf.now) topology journal };

    ghost begins = { λ w topology journal inputs. Beginning w.output.now w.capture.now (S.files w.shelf.now) topology journal };

    ghost goes_on = { λ a b. (b.shelf.ghost_name ≡ a.shelf.ghost_name) × (b.output.ghost_name ≡ a.output.ghost_name) × (b.fetched.ghost_name ≡ a.fetched.ghost_name)
        × GoesOn a.output.now b.output.now a.capture.now b.capture.now (S.files a.shelf.now) (S.files b.shelf.now) };

    fn packet(&mut self, nth: u32) -> Result<Option<&[u8]>, WatchBad> {
        if !is_record(self.capture.records(), nth) {
            return Ok(None);
        }
        match self.capture.fetch(self.shelf, nth, self.fetched) {
            Ok(()) => Ok(Some(packet_of(self.capture.link(), self.fetched))),
            Err(DeviceBad::Failed) => Err(WatchBad::Read),
            Err(DeviceBad::NoMemory) => Err(WatchBad::NoMemory),
        }
    }

    fn done(&mut self, net: &Net, made: Done) -> Result<(), WatchBad> {
        match write_step(net, made, self.shelf, self.output) {
            Ok(()) => Ok(()),
            Err(DeviceBad::Failed) => Err(WatchBad::Write),
            Err(DeviceBad::NoMemory) => Err(WatchBad::NoMemory),
        }
    }

    ghost each_has_one = { λ w all is. has_each (S.files w.shelf.now) w.output.now.names w.capture.now all is };

    ghost stays = { λ w. (refl, refl, refl, goes_on_same _ _ _) };

    ghost onward = { λ a b c ab bc. (bc.0 ∙ ab.0, bc.1 ∙ ab.1, bc.2 ∙ ab.2, goes_on_both _ _ _ _ _ _ _ _ _ ab.3 bc.3) };

    ghost begun = { λ w topology journal inputs holding. begun_of _ _ _ _ _ holding };
}

/// Plays a line: the recorder goes on with the same shelf and the same files.
fn record_with<S: Shelf>(
    net: &mut Net,
    command: &Command,
    recorder: &mut Recorder<'_, S>,
) -> Result<Played, Stopped>
    requires fits { command_fits net.old.topology command.now ≡ true }
    requires shows { is_show command.now ≡ false }
    requires early { net.old.tick ≤ 2 ^ 61 }
    requires together { Together net.old (told_packets (S.files recorder.old.shelf.now) recorder.old.output.now.names recorder.old.capture.now)
        (λ topology journal inputs. Holding recorder.old.output.now recorder.old.capture.now (S.files recorder.old.shelf.now) topology journal) }
    ensures same_shelf { recorder.new.shelf.ghost_name ≡ recorder.old.shelf.ghost_name }
    ensures same_output { recorder.new.output.ghost_name ≡ recorder.old.output.ghost_name }
    ensures same_fetched { recorder.new.fetched.ghost_name ≡ recorder.old.fetched.ghost_name }
    ensures goes_on { GoesOn recorder.old.output.now recorder.new.output.now recorder.old.capture.now recorder.new.capture.now
        (S.files recorder.old.shelf.now) (S.files recorder.new.shelf.now) }
    ensures topology { net.new.topology ≡ net.old.topology }
    ensures clock { OnOk result (IsPaced 1000000 net.old net.new) }
    ensures cause { Caused (told_packets (S.files recorder.old.shelf.now) recorder.old.output.now.names recorder.old.capture.now ≡ None)
        (S.read_faults recorder.old.shelf.now, S.write_faults recorder.old.shelf.now) (S.read_faults recorder.new.shelf.now, S.write_faults recorder.new.shelf.now) result }
    ensures missing { MissingIff (names_no_record (length recorder.old.capture.now.places) command.now) result }
    ensures course { ForSome (told_packets (S.files recorder.old.shelf.now) recorder.old.output.now.names recorder.old.capture.now) (λ all.
        Takes (played net.old.topology all (past_of net.old) command.now) net.new result) }
    ensures after { After net.new (told_packets (S.files recorder.old.shelf.now) recorder.old.output.now.names recorder.old.capture.now)
        (λ topology journal inputs. Holding recorder.new.output.now recorder.new.capture.now (S.files recorder.new.shelf.now) topology journal)
        (λ topology journal inputs. Beginning recorder.new.output.now recorder.new.capture.now (S.files recorder.new.shelf.now) topology journal) result }
{
    play(net, command, recorder)
}

/// The same over a shelf.
pub(crate) fn record_on<S: Shelf>(
    net: &mut Net,
    command: &Command,
    shelf: &mut S,
    output: &mut Output,
    capture: &Capture,
    fetched: &mut Vec<u8>,
) -> Result<Played, Stopped>
    requires fits { command_fits net.old.topology command.now ≡ true }
    requires shows { is_show command.now ≡ false }
    requires early { net.old.tick ≤ 2 ^ 61 }
    requires files { IsFor output.old net.old.topology }
    requires together { ForSome (told_packets (S.files shelf.old) output.old.names capture.now) (λ all.
        StandsFor net.old (inputs_of all net.old.journal) × Records net.old.topology net.old.journal all output.old (S.files shelf.old)) }
    ensures names { output.new.names ≡ output.old.names }
    ensures places { output.new.places ≡ output.old.places }
    ensures topology { net.new.topology ≡ net.old.topology }
    ensures clock { OnOk result (IsPaced 1000000 net.old net.new) }
    ensures framed { Framed output.old.names (S.files shelf.old) (S.files shelf.new) }
    ensures told { told_packets (S.files shelf.new) output.old.names capture.now ≡ told_packets (S.files shelf.old) output.old.names capture.now }
    ensures cause { Caused (told_packets (S.files shelf.old) output.old.names capture.now ≡ None)
        (S.read_faults shelf.old, S.write_faults shelf.old) (S.read_faults shelf.new, S.write_faults shelf.new) result }
    ensures missing { MissingIff (names_no_record (length capture.now.places) command.now) result }
    ensures course { ForSome (told_packets (S.files shelf.old) output.old.names capture.now) (λ all.
        Takes (played net.old.topology all (past_of net.old) command.now) net.new result) }
    ensures after { ForSome (told_packets (S.files shelf.old) output.old.names capture.now) (λ all. RecordedAfter all output.new net.new (S.files shelf.new) result) }
{
    let mut recorder = Recorder {
        shelf,
        output,
        capture,
        fetched,
    };
    record_with(net, command, &mut recorder)
}

/// Does a line, and writes what each of its steps adds to the files.
pub fn record_line<S: Shelf>(
    net: &mut Net,
    command: &Command,
    shelf: &mut S,
    books: &mut Books,
    capture: &Capture,
) -> Result<Played, Stopped>
    requires fits { command_fits net.old.topology command.now ≡ true }
    requires shows { is_show command.now ≡ false }
    requires early { net.old.tick ≤ 2 ^ 61 }
    requires files { IsFor books.old net.old.topology }
    requires together { ForSome (told_packets (S.files shelf.old) books.old.names capture.now) (λ all.
        StandsFor net.old (inputs_of all net.old.journal) × Records net.old.topology net.old.journal all books.old (S.files shelf.old)) }
    ensures names { books.new.names ≡ books.old.names }
    ensures places { books.new.places ≡ books.old.places }
    ensures topology { net.new.topology ≡ net.old.topology }
    ensures clock { OnOk result (IsPaced 1000000 net.old net.new) }
    // No file but these is changed, and so no packet of the capture.
    ensures framed { Framed books.old.names (S.files shelf.old) (S.files shelf.new) }
    ensures told { told_packets (S.files shelf.new) books.old.names capture.now ≡ told_packets (S.files shelf.old) books.old.names capture.now }
    // A fault comes only where its count rose, or over a sound shelf where no packets are told.
    ensures cause { Caused (told_packets (S.files shelf.old) books.old.names capture.now ≡ None)
        (S.read_faults shelf.old, S.write_faults shelf.old) (S.read_faults shelf.new, S.write_faults shelf.new) result }
    ensures missing { MissingIff (names_no_record (length capture.now.places) command.now) result }
    // The journal grows by exactly what the line's course says, or by a first part of it.
    ensures course { ForSome (told_packets (S.files shelf.old) books.old.names capture.now) (λ all.
        Takes (played net.old.topology all (past_of net.old) command.now) net.new result) }
    // Files and net go together afterwards; after a fault, or running out of memory, each file has a first part.
    ensures after { ForSome (told_packets (S.files shelf.old) books.old.names capture.now) (λ all. RecordedAfter all books.new net.new (S.files shelf.new) result) }
{
    record_on(
        net,
        command,
        shelf,
        &mut books.output,
        capture,
        &mut books.fetched,
    )
}
