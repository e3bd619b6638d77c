//! A table, with the packet of the record that it names.
ghost use Rattle.std.specs.Prelude.{◌≡◌, true, List, ℕ, Option, Some, OnOk, OnErr, IfOk};
ghost use Rattle.mn_perform.specs.Prelude.{Absent, command_fits, Puts, PutsPart, packet_for, table_text, StandsFor};
ghost use Rattle.mn_perform.specs.Recorded.{told_packets};
ghost use Rattle.mn_script.specs.declared.command.Command.TheVariants as command;
ghost use Rattle.mn_report.specs.Frames.{packet_of as packet_shown};
ghost use Rattle.mn_perform.specs.Faults.{Blamed};

use crate::desk::Desk;
use crate::ended::Fault;
use crate::recorder::is_record;
use mn_capture::Capture;
use mn_edge::{DeviceBad, Shelf, Sink};
use mn_pcap::packet_of;
use mn_sched::Net;
use mn_script::Show;

/// The packet of the record that a table names, fetched into the buffer: none where it names none, or the capture hasn't the record.
fn named_packet<'a, S: Shelf>(
    table: Show,
    shelf: &mut S,
    capture: &Capture,
    fetched: &'a mut Vec<u8>,
) -> Result<Option<&'a [u8]>, Fault>
    ensures same { S.files shelf.new ≡ S.files shelf.old }
    ensures named { IfOk result (λ found. (names : List (List ℕ)) (all : List (List ℕ)) → told_packets (S.files shelf.old) names capture.now ≡ Some all →
        packet_shown found ≡ packet_for all table) }
    ensures cause { (sink : Option ℕ) → Blamed (Absent (S.files shelf.old) capture.now.name) ⊥
        (S.read_faults shelf.old, S.write_faults shelf.old, sink) (S.read_faults shelf.new, S.write_faults shelf.new, sink) result }
{
    let Show::Frame(_, number) = table else {
        return Ok(None);
    };
    if !is_record(capture.records(), number) {
        return Ok(None);
    }
    match capture.fetch(shelf, number, fetched) {
        Ok(()) => Ok(Some(packet_of(capture.link(), fetched))),
        Err(DeviceBad::Failed) => Err(Fault::Read),
        Err(DeviceBad::NoMemory) => Err(Fault::NoMemory),
    }
}

/// A table that a line asks for, and the capture of which it may name a record.
#[derive(Clone, Copy)]
pub(crate) struct TableOver<'c> {
    pub table: Show,
    pub capture: &'c Capture,
}

/// Puts a table as the network stands. Where it names a record that can't be read again, nothing is put.
pub(crate) fn put_shown<S: Shelf, O: Sink>(
    net: &Net,
    asked: TableOver<'_>,
    shelf: &mut S,
    out: &mut O,
    desk: &mut Desk,
) -> Result<(), Fault>
    requires fits { command_fits net.now.topology (command.Show asked.table) ≡ true }
    ensures put { OnOk result ((names : List (List ℕ)) (all inputs : List (List ℕ)) → told_packets (S.files shelf.old) names asked.entry.capture.now ≡ Some all → StandsFor net.now inputs →
        Puts (table_text net.now.topology net.now.journal inputs (packet_for all asked.entry.table) asked.entry.table) desk.old.page desk.new.page (O.written out.old) (O.written out.new)) }
    ensures part { OnErr result ((names : List (List ℕ)) (all inputs : List (List ℕ)) → told_packets (S.files shelf.old) names asked.entry.capture.now ≡ Some all → StandsFor net.now inputs →
        PutsPart (table_text net.now.topology net.now.journal inputs (packet_for all asked.entry.table) asked.entry.table) desk.old.page (O.written out.old) (O.written out.new)) }
    ensures sendings { desk.new.sendings ≡ desk.old.sendings }
    ensures refused { desk.new.refused ≡ desk.old.refused }
    ensures same { S.files shelf.new ≡ S.files shelf.old }
    ensures cause { Blamed (Absent (S.files shelf.old) asked.entry.capture.now.name) ⊥
        (S.read_faults shelf.old, S.write_faults shelf.old, O.faults out.old)
        (S.read_faults shelf.new, S.write_faults shelf.new, O.faults out.new) result }
{
    let mut fetched = Vec::new(*desk.line.allocator());
    let packet = named_packet(asked.table, shelf, asked.capture, &mut fetched)?;
    desk.show(out, net, asked.table, packet)
}
