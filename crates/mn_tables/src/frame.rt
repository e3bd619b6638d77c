//! What a node would do with a frame (RFC 3031, sections 3.10 and 3.11).
ghost use Rattle.std.specs.Prelude.{◌≡◌, ◌<◌, ◌++◌, codes};
ghost use Rattle.mn_lines.specs.Lines.{pieces_of, text};
ghost use Rattle.mn_output_laws.specs.Shown.{hex_digit, byte_text, hex_text, unread_text, outcome_text, said_line};
ghost use Rattle.mn_tables.specs.Frames.{head_text};
ghost use Rattle.mn_tables.specs.Telling.{standing, Tells};

use crate::names::digits;
use crate::pieces::put_pieces;
use itoa::Buffer;
use mn_base::NodeNo;
use mn_edge::{DeviceBad, Sink};
use mn_lfib::Forwarded;
use mn_lines::{Page, node_name, rule_name, site_name};
use mn_topo::Topology;

/// A hexadecimal digit, in upper case.
fn hex_digit(digit: u8) -> u8
    requires { digit < 16 }
    ensures { result ≡ hex_digit digit }
{
    if digit < 10 {
        digit + b'0'
    } else {
        digit - 10 + b'A'
    }
}

/// A byte by its two hexadecimal digits.
fn byte_text(byte: u8) -> [u8; 2]
    ensures { result ≡ byte_text byte }
{
    [hex_digit(byte / 16), hex_digit(byte % 16)]
}

/// Puts bytes by their hexadecimal digits.
fn put_hex<O: Sink>(out: &mut O, page: &mut Page, bytes: &[u8]) -> Result<(), DeviceBad>
    ensures { Tells (hex_text bytes.now)
        (standing page.old (O.written out.old) (O.faults out.old)) (standing page.new (O.written out.new) (O.faults out.new)) result }
{
    for byte in bytes {
        page.put(out, &byte_text(*byte))?;
    }
    Ok(())
}

/// The packet of a record, from 1, taken as a frame that a node receives.
#[derive(Clone, Copy)]
pub struct ShownFrame {
    pub node: NodeNo,
    pub number: u32,
}

/// What a node does with a frame: where it goes on, and its bytes then, or the rule by which it is dropped.
#[derive(Clone, Copy)]
pub struct ForwardedFrame<'b> {
    pub outcome: Forwarded,
    pub bytes: &'b [u8],
}

/// Puts the line of a frame that can't be read: `unread` and the rule.
pub fn put_unread<O: Sink>(
    out: &mut O,
    page: &mut Page,
    topology: &Topology,
    frame: ShownFrame,
    rule: &str,
) -> Result<(), DeviceBad>
    ensures { Tells (said_line topology.now frame.node.0 frame.number (unread_text rule.now))
        (standing page.old (O.written out.old) (O.faults out.old)) (standing page.new (O.written out.new) (O.faults out.new)) result }
{
    put_head(out, page, topology, frame)?;
    put_said(out, page, &[b"unread ", rule.as_bytes()], &[])
}

/// Puts the line of a frame that goes on with these bytes, or is dropped: `next` and the neighbour, `site` and the site, or `drop` and
/// the rule.
pub fn put_outcome<O: Sink>(
    out: &mut O,
    page: &mut Page,
    topology: &Topology,
    frame: ShownFrame,
    forwarded: ForwardedFrame<'_>,
) -> Result<(), DeviceBad>
    ensures { Tells (said_line topology.now frame.node.0 frame.number (outcome_text topology.now forwarded.entry.outcome forwarded.entry.bytes.now))
        (standing page.old (O.written out.old) (O.faults out.old)) (standing page.new (O.written out.new) (O.faults out.new)) result }
{
    put_head(out, page, topology, frame)?;
    match forwarded.outcome {
        Forwarded::Next(hop) => {
            let to = node_name(topology, hop);
            put_said(out, page, &[b"next ", to, b" bytes "], forwarded.bytes)
        }
        Forwarded::Site(site) => {
            let to = site_name(topology, site);
            put_said(out, page, &[b"site ", to, b" bytes "], forwarded.bytes)
        }
        Forwarded::Drop(rule) => {
            let word = rule_name(rule).as_bytes();
            put_said(out, page, &[b"drop ", word], &[])
        }
    }
}

/// Puts the pieces before what becomes of a frame.
fn put_head<O: Sink>(
    out: &mut O,
    page: &mut Page,
    topology: &Topology,
    frame: ShownFrame,
) -> Result<(), DeviceBad>
    ensures { Tells (head_text topology.now frame.node.0 frame.number)
        (standing page.old (O.written out.old) (O.faults out.old)) (standing page.new (O.written out.new) (O.faults out.new)) result }
{
    let name = node_name(topology, frame.node);
    let mut buffer = Buffer::new();
    let count = digits(&mut buffer, frame.number);
    put_pieces(out, page, &[b"frame ", name, b" ", count, b" "])
}

/// Puts what becomes of a frame, to the end of its line: these pieces, and then the digits of these bytes.
fn put_said<O: Sink>(
    out: &mut O,
    page: &mut Page,
    said: &[&[u8]],
    bytes: &[u8],
) -> Result<(), DeviceBad>
    ensures { Tells ((text (pieces_of said.now) ++ hex_text bytes.now) ++ codes "\n")
        (standing page.old (O.written out.old) (O.faults out.old)) (standing page.new (O.written out.new) (O.faults out.new)) result }
{
    put_pieces(out, page, said)?;
    put_hex(out, page, bytes)?;
    put_pieces(out, page, &[b"\n"])
}
