// The lines, appended to bytes.
ghost use Rattle.std.specs.Prelude.{◌≡◌, ◌+◌, ◌*◌, ◌++◌, IfSome, OnOk, OnErr, length, take};
ghost use Rattle.mn_edge.specs.Written.{IsPrefix};
ghost use Rattle.mn_lines.specs.Names.{names_of};
ghost use Rattle.mn_lines.specs.Lines.{cause_text, packet_line, pieces_of, refused_line, text, total_line, verdicts_text};

use crate::lines::{Packet, Totals, cause_name};
use crate::names::site_name;
use crate::packet::lay_packet;
use itoa::Buffer;
use mn_base::SiteNo;
use mn_laying::lay;
use mn_ledger::Refused;
use mn_topo::Topology;
use std::alloc::AllocError;

/// Copies pieces, one behind another, over as many bytes as they have.
#[inline(always)]
fn lay_all(bytes: &mut [u8], pieces: &[&[u8]])
    requires { length bytes.old ≡ length (text (pieces_of pieces.now)) }
    ensures { bytes.new ≡ text (pieces_of pieces.now) }
{
    let mut at = 0;
    for piece in pieces {
        at = lay(bytes, at, piece);
    }
}

/// Where pieces end that begin at a place; none where no number tells it.
#[inline(always)]
fn end_of(from: usize, pieces: &[&[u8]]) -> Option<usize>
    ensures { IfSome result (λ end. end ≡ from + length (text (pieces_of pieces.now))) }
{
    let mut end = from;
    for piece in pieces {
        end = end.checked_add(piece.len())?;
    }
    Some(end)
}

/// Appends pieces, for all of which room is made once; by an `Err` none of them.
#[inline(always)]
pub fn put_pieces(line: &mut Vec<u8>, pieces: &[&[u8]]) -> Result<(), AllocError>
    ensures ok { OnOk result (line.new.items ≡ line.old.items ++ text (pieces_of pieces.now)) }
    ensures begins { IsPrefix line.old.items line.new.items }
{
    let before = line.len();
    let Some(end) = end_of(before, pieces) else {
        return Err(AllocError);
    };
    line.resize(end, 0)?;
    lay_all(&mut line[before..], pieces);
    Ok(())
}

/// Takes back what a failed call appended to a line that had so many bytes.
fn or_nothing(
    line: &mut Vec<u8>,
    before: usize,
    put: Result<(), AllocError>,
) -> Result<(), AllocError>
    ensures put { result ≡ put }
    ensures ok { OnOk put (line.new.items ≡ line.old.items) }
    ensures err { OnErr put (line.new.items ≡ take before line.old.items) }
{
    if put.is_err() {
        line.truncate(before);
    }
    put
}

/// Where bytes end that begin at a place and have room for the line of a packet with a path of so many nodes; none
/// where no number tells it.
fn end_of_packet(from: usize, nodes: usize) -> Option<usize>
    ensures { IfSome result (λ end. end ≡ from + 64 * (nodes + 4)) }
{
    nodes.checked_add(4)?.checked_mul(64)?.checked_add(from)
}

/// Appends the line of a packet: what became of it, and at which nodes it was. An `Err` appends nothing.
pub fn write_packet(
    line: &mut Vec<u8>,
    topology: &Topology,
    packet: Packet<'_>,
) -> Result<(), AllocError>
    ensures ok { OnOk result (line.new.items ≡
        line.old.items ++ packet_line (names_of topology.now) packet.entry.number packet.entry.sent packet.entry.verdict packet.entry.path.now) }
    ensures err { OnErr result (line.new.items ≡ line.old.items) }
{
    let before = line.len();
    let Some(room) = end_of_packet(before, packet.path.len()) else {
        return Err(AllocError);
    };
    line.resize(room, 0)?;
    let bytes = &mut line[..];
    let end = lay_packet(bytes, before, topology, packet);
    line.truncate(end);
    Ok(())
}

/// Appends the line of a script's line that was refused for this cause. An `Err` appends nothing.
#[tactic(auto, unfolding(crate::specs::Lines::refused_line))]
pub fn write_refused(line: &mut Vec<u8>, number: u32, cause: &str) -> Result<(), AllocError>
    ensures ok { OnOk result (line.new.items ≡ line.old.items ++ refused_line number cause.now) }
    ensures err { OnErr result (line.new.items ≡ line.old.items) }
{
    let before = line.len();
    let mut digits = Buffer::new();
    let put = put_pieces(
        line,
        &[
            b"line ",
            digits.format(number).as_bytes(),
            b" refused ",
            cause.as_bytes(),
            b"\n",
        ],
    );
    or_nothing(line, before, put)
}

/// A prefix that the site has already.
#[tactic(auto, unfolding(crate::specs::Lines::refused_line))]
fn put_taken(
    line: &mut Vec<u8>,
    topology: &Topology,
    number: u32,
    site: SiteNo,
) -> Result<(), AllocError>
    ensures ok { OnOk result (line.new.items ≡
        line.old.items ++ refused_line number (cause_text topology.now.site_names (Refused.PrefixTaken site))) }
    ensures begins { IsPrefix line.old.items line.new.items }
{
    let mut digits = Buffer::new();
    put_pieces(
        line,
        &[
            b"line ",
            digits.format(number).as_bytes(),
            b" refused PrefixTaken ",
            site_name(topology, site),
            b"\n",
        ],
    )
}

/// Appends the line of a script's line whose step was refused. An `Err` appends nothing.
pub fn write_refusal(
    line: &mut Vec<u8>,
    topology: &Topology,
    number: u32,
    cause: Refused,
) -> Result<(), AllocError>
    ensures ok { OnOk result (line.new.items ≡
        line.old.items ++ refused_line number (cause_text topology.now.site_names cause)) }
    ensures err { OnErr result (line.new.items ≡ line.old.items) }
{
    match cause {
        Refused::PrefixTaken { site } => {
            let before = line.len();
            let put = put_taken(line, topology, number, site);
            or_nothing(line, before, put)
        }
        _ => write_refused(line, number, cause_name(cause)),
    }
}

/// How many packets there were, and of each kind of verdict.
#[tactic(auto, unfolding(crate::specs::Lines::verdicts_text))]
fn put_verdicts(line: &mut Vec<u8>, totals: Totals) -> Result<(), AllocError>
    ensures ok { OnOk result (line.new.items ≡ line.old.items ++ verdicts_text totals) }
    ensures begins { IsPrefix line.old.items line.new.items }
{
    let (mut packets, mut delivered) = (Buffer::new(), Buffer::new());
    let (mut dropped, mut flying) = (Buffer::new(), Buffer::new());
    put_pieces(
        line,
        &[
            b"packets ",
            packets.format(totals.packets).as_bytes(),
            b" delivered ",
            delivered.format(totals.delivered).as_bytes(),
            b" dropped ",
            dropped.format(totals.dropped).as_bytes(),
            b" flying ",
            flying.format(totals.flying).as_bytes(),
        ],
    )
}

/// The last line.
#[tactic(auto, unfolding(crate::specs::Lines::total_line))]
fn put_total(line: &mut Vec<u8>, totals: Totals) -> Result<(), AllocError>
    ensures ok { OnOk result (line.new.items ≡ line.old.items ++ total_line totals) }
    ensures begins { IsPrefix line.old.items line.new.items }
{
    let (mut steps, mut refused, mut tick) = (Buffer::new(), Buffer::new(), Buffer::new());
    put_pieces(line, &[b"total "])?;
    put_verdicts(line, totals)?;
    put_pieces(
        line,
        &[
            b" steps ",
            steps.format(totals.steps).as_bytes(),
            b" refused ",
            refused.format(totals.refused).as_bytes(),
            b" tick ",
            tick.format(totals.tick).as_bytes(),
            b"\n",
        ],
    )
}

/// Appends the last line of a report. An `Err` appends nothing.
pub fn write_total(line: &mut Vec<u8>, totals: Totals) -> Result<(), AllocError>
    ensures ok { OnOk result (line.new.items ≡ line.old.items ++ total_line totals) }
    ensures err { OnErr result (line.new.items ≡ line.old.items) }
{
    let before = line.len();
    let put = put_total(line, totals);
    or_nothing(line, before, put)
}
