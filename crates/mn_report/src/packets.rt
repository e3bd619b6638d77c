//! What became of each packet.
ghost use Rattle.std.specs.Prelude.{◌≡◌, ◌≤◌, ◌<◌, ◌++◌, true, false, length, map, min, List, ℕ, OnOk, OnErr, Err};
ghost use Rattle.mn_report.specs.Prelude.{most_steps, NoMemory, Counted, packets_of, Puts, PutsPart, StandsFor, packet_lines, standing, Tells};
ghost use Rattle.mn_lines.specs.Names.{names_of};
ghost use Rattle.mn_lines.specs.Lines.{packet_line};
ghost use Rattle.mn_report.specs.Packets.{packet_row};
ghost use Rattle.mn_report.specs.Shown.{sending_of};

use crate::written::put_line;
use mn_edge::{DeviceBad, Sink};
use mn_lines::{Packet, Page, Sent, write_packet};
use mn_net::Net;
use mn_topo::Topology;

/// A packet by its number, from 0, and the injection that sent it.
#[derive(Clone, Copy)]
struct SentPacket {
    number: u32,
    sent: Sent,
}

/// Writes the line of a packet, and puts it.
fn put_written<O: Sink>(
    out: &mut O,
    page: &mut Page,
    line: &mut Vec<u8>,
    topology: &Topology,
    packet: Packet<'_>,
) -> Result<(), DeviceBad>
    ensures { Tells (packet_line (names_of topology.now) packet.entry.number packet.entry.sent packet.entry.verdict packet.entry.path.now)
        (standing page.old (O.written out.old) (O.faults out.old)) (standing page.new (O.written out.new) (O.faults out.new)) result }
{
    line.clear();
    write_packet(line, topology, packet)?;
    put_line(out, page, line.as_slice())
}

/// Puts the line of a packet. Where there is room it is composed on the page.
fn put_packet<O: Sink>(
    out: &mut O,
    page: &mut Page,
    line: &mut Vec<u8>,
    net: &Net,
    packet: SentPacket,
) -> Result<(), DeviceBad>
    requires there { packet.number < length net.now.moving.verdicts }
    requires few { length net.now.moving.verdicts ≤ most_steps }
    ensures told { (inputs : List (List ℕ)) → StandsFor net.now inputs →
        Tells (packet_row net.now.topology (packets_of net.now.topology net.now.journal inputs) packet.number packet.sent)
        (standing page.old (O.written out.old) (O.faults out.old)) (standing page.new (O.written out.new) (O.faults out.new)) result }
    ensures cause { Counted (O.faults out.old) (O.faults out.new) result }
{
    let topology = net.topology();
    let verdict = net.verdict(packet.number);
    let path = net.path(packet.number);
    let told = Packet {
        number: packet.number + 1,
        sent: packet.sent,
        verdict,
        path,
    };
    if page.hold_packet(topology, told) {
        return Ok(());
    }
    put_written(out, page, line, topology, told)
}

/// The lesser of two numbers.
fn lesser(packets: u32, sendings: usize) -> usize
    ensures { result ≡ min packets sendings }
{
    let packets = packets as usize;
    if packets < sendings {
        packets
    } else {
        sendings
    }
}

/// Puts the lines of packets, each with the injection that sent it.
fn put_each<O: Sink>(
    out: &mut O,
    page: &mut Page,
    line: &mut Vec<u8>,
    net: &Net,
    sendings: &[Sent],
) -> Result<(), DeviceBad>
    requires { length net.now.moving.verdicts ≤ most_steps }
    ensures told { (inputs : List (List ℕ)) → StandsFor net.now inputs →
        Tells (packet_lines net.now.topology 1 (map sending_of sendings.now)
        (packets_of net.now.topology net.now.journal inputs).verdicts (packets_of net.now.topology net.now.journal inputs).paths)
        (standing page.old (O.written out.old) (O.faults out.old)) (standing page.new (O.written out.new) (O.faults out.new)) result }
    ensures cause { Counted (O.faults out.old) (O.faults out.new) result }
{
    for packet in 0..lesser(net.packets(), sendings.len()) {
        let sent = SentPacket {
            number: packet as u32,
            sent: sendings[packet],
        };
        put_packet(out, page, line, net, sent)?;
    }
    Ok(())
}

/// Puts a line for each packet, with the injections that sent them in order, of which the first was the first packet's: where
/// it entered, what became of it, and at which nodes it was. `line` is written anew. A network that has failed is answered by out of memory.
pub fn put_packets<O: Sink>(
    out: &mut O,
    page: &mut Page,
    line: &mut Vec<u8>,
    net: &Net,
    sendings: &[Sent],
) -> Result<(), DeviceBad>
    ensures put { OnOk result ((inputs : List (List ℕ)) → StandsFor net.now inputs →
        Puts (packet_lines net.now.topology 1 (map sending_of sendings.now)
        (packets_of net.now.topology net.now.journal inputs).verdicts (packets_of net.now.topology net.now.journal inputs).paths)
        page.old page.new (O.written out.old) (O.written out.new)) }
    ensures part { OnErr result ((inputs : List (List ℕ)) → StandsFor net.now inputs →
        PutsPart (packet_lines net.now.topology 1 (map sending_of sendings.now)
        (packets_of net.now.topology net.now.journal inputs).verdicts (packets_of net.now.topology net.now.journal inputs).paths)
        page.old (O.written out.old) (O.written out.new)) }
    ensures cause { Counted (O.faults out.old) (O.faults out.new) result }
    ensures wants { net.now.failed ≡ true →
        (result ≡ Err NoMemory) × (page.new ≡ page.old) × (out.new ≡ out.old) }
{
    if !net.works() {
        return Err(DeviceBad::NoMemory);
    }
    net.laws();
    put_each(out, page, line, net, sendings)
}
