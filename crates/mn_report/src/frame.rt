//! What a node would do with a frame.
ghost use Rattle.std.specs.Prelude.{◌≡◌, ◌<◌, false, length, Ok};
ghost use Rattle.mn_output_laws.specs.Shown.{frame_line, read_text, said_line};
ghost use Rattle.mn_tables.specs.Telling.{standing, Tells};
ghost use Rattle.mn_report.specs.Frames.{packet_of};

use mn_edge::{DeviceBad, Sink};
use mn_lines::Page;
use mn_net::Net;
use mn_output_laws::a_table_is_told;
use mn_stack::{Frame, FrameBad};
use mn_tables::{ForwardedFrame, ShownFrame, put_outcome, put_unread};
use std::alloc::Global;

/// Puts the line of a frame that was read: what the node's labels do with it.
fn put_forwarded<O: Sink>(
    out: &mut O,
    page: &mut Page,
    net: &Net,
    shown: ShownFrame,
    frame: Frame,
) -> Result<(), DeviceBad>
    requires works { net.now.failed ≡ false }
    requires node { shown.node.0 < length net.now.topology.loopbacks }
    requires entry { 0 < length frame.entries }
    requires room { frame.room ≡ 2 }
    ensures { Tells (said_line net.now.topology shown.node.0 shown.number
        (read_text net.now.topology net.now.journal shown.node.0 (Ok (frame.entries, frame.packet))))
        (standing page.old (O.written out.old) (O.faults out.old)) (standing page.new (O.written out.new) (O.faults out.new)) result }
{
    a_table_is_told();
    let mut frame = frame;
    let outcome = net.transport(shown.node).forward(&mut frame);
    put_outcome(
        out,
        page,
        net.topology(),
        shown,
        ForwardedFrame {
            outcome,
            bytes: frame.bytes(),
        },
    )
}

/// The packet of a record, taken as a frame that a node receives: none where the capture hasn't the record.
#[derive(Clone, Copy)]
pub(crate) struct AskedFrame<'p> {
    pub shown: ShownFrame,
    pub packet: Option<&'p [u8]>,
}

/// Puts the line of what a node would do with the packet of a record, taken as a frame, whoever sent it: none where the capture hasn't
/// the record. It changes nothing. Want of memory is none of the rules by which bytes are no frame.
pub(crate) fn put_frame<O: Sink>(
    out: &mut O,
    page: &mut Page,
    alloc: Global,
    net: &Net,
    asked: AskedFrame<'_>,
) -> Result<(), DeviceBad>
    requires works { net.now.failed ≡ false }
    requires node { asked.shown.node.0 < length net.now.topology.loopbacks }
    ensures { Tells (frame_line net.now.topology net.now.journal asked.entry.shown.node.0 asked.entry.shown.number (packet_of asked.entry.packet))
        (standing page.old (O.written out.old) (O.faults out.old)) (standing page.new (O.written out.new) (O.faults out.new)) result }
{
    let topology = net.topology();
    let shown = asked.shown;
    let Some(bytes) = asked.packet else {
        return put_unread(out, page, topology, shown, "NoRecord");
    };
    match Frame::read(alloc, bytes) {
        Ok(frame) => put_forwarded(out, page, net, shown, frame),
        Err(FrameBad::NoBottom) => put_unread(out, page, topology, shown, "NoBottom"),
        Err(FrameBad::Short) => put_unread(out, page, topology, shown, "Short"),
        Err(FrameBad::BadPayload) => put_unread(out, page, topology, shown, "BadPayload"),
        Err(FrameBad::NoMemory) => Err(DeviceBad::NoMemory),
    }
}
