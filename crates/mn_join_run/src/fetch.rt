//! The packets that lines name.
ghost use Rattle.std.specs.Prelude.{◌≡◌, ℕ, List, option_map, IfOk};
ghost use Rattle.std.specs.Option.{ForSome};
ghost use Rattle.mn_join_run.specs.Prelude.{CountedUnless, Absent, told_packets};
ghost use Rattle.mn_course_laws.specs.Course.{record_of};
ghost use Rattle.mn_join_run.specs.Playing.{IsPacket};

use mn_capture::Capture;
use mn_edge::{DeviceBad, Shelf};
use mn_entry::number_of;
use mn_pcap::packet_of;
use mn_perform::is_record;
use mn_script::Command;
use mn_topo::Step;

/// The packet of a record, by its number from 1, fetched into the buffer; `None` where there is no such record.
fn fetch_record<'b, S: Shelf>(
    shelf: &mut S,
    capture: &Capture,
    nth: u32,
    buffer: &'b mut Vec<u8>,
) -> Result<Option<&'b [u8]>, DeviceBad>
    ensures told { IfOk result (λ packet. (names : List (List ℕ)) →
        ForSome (told_packets (S.files shelf.old) names capture.now) (λ all. option_map (λ bytes. bytes.now) packet ≡ record_of all nth)) }
    ensures same { S.files shelf.new ≡ S.files shelf.old }
    ensures reads { CountedUnless (Absent (S.files shelf.old) capture.now.name)
        (S.read_faults shelf.old) (S.read_faults shelf.new) result }
    ensures writes { S.write_faults shelf.new ≡ S.write_faults shelf.old }
{
    if !is_record(capture.records(), nth) {
        return Ok(None);
    }
    capture.fetch(shelf, nth, buffer)?;
    Ok(Some(packet_of(capture.link(), buffer)))
}

/// The packet that a line names, to send it or in place of a message, fetched into the buffer; `None` where the capture hasn't
/// its record. A line that names none asks for no bytes.
pub(crate) fn fetch<'b, S: Shelf>(
    shelf: &mut S,
    capture: &Capture,
    command: &Command,
    buffer: &'b mut Vec<u8>,
) -> Result<Option<&'b [u8]>, DeviceBad>
    ensures told { IfOk result (λ packet. (names : List (List ℕ)) →
        IsPacket (S.files shelf.old) names capture.now command.now (option_map (λ bytes. bytes.now) packet)) }
    ensures same { S.files shelf.new ≡ S.files shelf.old }
    ensures reads { CountedUnless (Absent (S.files shelf.old) capture.now.name)
        (S.read_faults shelf.old) (S.read_faults shelf.new) result }
    ensures writes { S.write_faults shelf.new ≡ S.write_faults shelf.old }
{
    match command {
        Command::Do(Step::Inject(_, nth)) => fetch_record(shelf, capture, *nth, buffer),
        Command::Damage(damage) => fetch_record(shelf, capture, number_of(damage), buffer),
        _ => Ok(Some(&[])),
    }
}
