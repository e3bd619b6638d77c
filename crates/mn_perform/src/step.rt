//! What a step adds to the files.
ghost use Rattle.std.specs.Prelude.{◌-◌, ℕ, List};
ghost use Rattle.mn_perform.specs.Prelude.{packets_of, told_at, StandsFor, inputs_of, delivery_record, LastFits};
ghost use Rattle.mn_perform.specs.Recorded.{IsFor};
ghost use Rattle.mn_perform.specs.Adding.{Puts, Stays, only_in};
ghost use Rattle.mn_perform.specs.Parts.{by_number, item_part, items_part, IsMade, RecordsStep};

use crate::capture_record::CaptureRecord;
use crate::output::Output;
use mn_edge::{DeviceBad, Shelf};
use mn_files::deliveries_file;
use mn_sched::{Channel, Done, Net};

/// A PPP frame that carries MPLS begins with its protocol's number: RFC 3032, section 4.3.
const MPLS_OVER_PPP: [u8; 2] = [0x02, 0x81];

/// Writes the packet that the net's last step delivered, if it did.
fn write_delivery<S: Shelf>(
    net: &Net,
    tick: u64,
    shelf: &mut S,
    output: &mut Output,
) -> Result<(), DeviceBad>
    ensures puts { (inputs : List (List ℕ)) → StandsFor net.now inputs →
        Puts (only_in 2 (delivery_record tick (packets_of net.now.topology net.now.journal inputs).delivered)) output.old output.new (S.files shelf.old) (S.files shelf.new) result }
    ensures stays { Stays S.files S.write_faults S.read_faults output.old output.new shelf.old shelf.new result }
{
    match net.delivered() {
        Some(packet) => output.put_record(
            shelf,
            deliveries_file(),
            &CaptureRecord {
                tick,
                front: &[],
                packet,
            },
        ),
        None => Ok(()),
    }
}

/// Writes an item that the net has made.
fn write_item<S: Shelf>(
    net: &Net,
    tick: u64,
    number: u64,
    shelf: &mut S,
    output: &mut Output,
) -> Result<(), DeviceBad>
    ensures puts { (inputs : List (List ℕ)) → StandsFor net.now inputs → IsFor output.old net.now.topology →
        Puts (by_number net.now.topology (item_part tick (told_at net.now.topology net.now.journal inputs number))) output.old output.new (S.files shelf.old) (S.files shelf.new) result }
    ensures stays { Stays S.files S.write_faults S.read_faults output.old output.new shelf.old shelf.new result }
{
    let Some(item) = net.item(number) else {
        return Ok(());
    };
    let Some(file) = output.file_of(net.topology(), item.channel) else {
        return Ok(());
    };
    match item.channel {
        Channel::Frame(_, _) => output.put_record(
            shelf,
            file,
            &CaptureRecord {
                tick,
                front: &MPLS_OVER_PPP,
                packet: item.bytes,
            },
        ),
        _ => output.put(shelf, file, item.bytes),
    }
}

/// Writes the items that the net's last step made, in order.
fn write_items<S: Shelf>(
    net: &Net,
    tick: u64,
    made: Done,
    shelf: &mut S,
    output: &mut Output,
) -> Result<(), DeviceBad>
    ensures puts { (inputs : List (List ℕ)) → StandsFor net.now inputs → IsFor output.old net.now.topology →
        Puts (by_number net.now.topology (items_part net.now.topology net.now.journal inputs tick made.first (made.end - made.first))) output.old output.new (S.files shelf.old) (S.files shelf.new) result }
    ensures stays { Stays S.files S.write_faults S.read_faults output.old output.new shelf.old shelf.new result }
{
    for number in made.first..made.end {
        write_item(net, tick, number, shelf, output)?;
    }
    Ok(())
}

/// Writes what the net's last step adds to each file: its line, the packet that it delivered, and the items that it made.
pub(crate) fn write_step<S: Shelf>(
    net: &Net,
    made: Done,
    shelf: &mut S,
    output: &mut Output,
) -> Result<(), DeviceBad>
    requires fitting { LastFits net.now }
    ensures records { (all : List (List ℕ)) → StandsFor net.now (inputs_of all net.now.journal) → IsMade net.now all made → IsFor output.old net.now.topology →
        RecordsStep net.now all output.old output.new (S.files shelf.old) (S.files shelf.new) result }
    ensures stays { Stays S.files S.write_faults S.read_faults output.old output.new shelf.old shelf.new result }
{
    let Some(entry) = net.journal().last() else {
        return Ok(());
    };
    let tick = entry.tick;
    let topology = net.topology();
    topology.laws();
    output.put_entry(shelf, topology, entry)?;
    write_delivery(net, tick, shelf, output)?;
    write_items(net, tick, made, shelf, output)
}
