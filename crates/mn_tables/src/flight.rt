//! What is in flight.
ghost use Rattle.std.specs.Prelude.{◌≡◌, ◌<◌, ◌∷◌, [], List, codes, decimal, length};
ghost use Rattle.mn_tables.specs.Prelude.{Counted, Item, Frames, items_on, Notice, Message, text, frames_line};
ghost use Rattle.mn_tables.specs.Telling.{standing, Tells};

use crate::names::{digits, end_names};
use crate::pieces::put_pieces;
use itoa::Buffer;
use mn_base::LinkNo;
use mn_edge::{DeviceBad, Sink};
use mn_lines::Page;
use mn_topo::Topology;
use mn_wiring::Dir;

/// Puts the lines that count notices, and messages of sessions.
pub fn put_counts<O: Sink>(
    out: &mut O,
    page: &mut Page,
    notices: u64,
    messages: u64,
) -> Result<(), DeviceBad>
    ensures { Tells (text (codes "notices " ∷ decimal notices ∷ codes "\nmessages " ∷ decimal messages ∷ codes "\n" ∷ []))
        (standing page.old (O.written out.old) (O.faults out.old)) (standing page.new (O.written out.new) (O.faults out.new)) result }
{
    let (mut first, mut second) = (Buffer::new(), Buffer::new());
    let learned = digits(&mut first, notices);
    let heard = digits(&mut second, messages);
    put_pieces(
        out,
        page,
        &[b"notices ", learned, b"\nmessages ", heard, b"\n"],
    )
}

/// A direction of a link.
#[derive(Clone, Copy)]
pub struct Direction(pub LinkNo, pub Dir);

/// Puts the line that counts the frames of a direction of a link, and none where no frame flies there.
pub fn put_frames<O: Sink>(
    out: &mut O,
    page: &mut Page,
    topology: &Topology,
    direction: Direction,
    frames: u64,
) -> Result<(), DeviceBad>
    requires { direction.0.0 < length topology.now.links }
    ensures told { (items : List Item) → frames ≡ length (items_on (Frames direction.0.0 direction.1) items) →
        Tells (frames_line topology.now direction.0.0 direction.1 (items_on (Frames direction.0.0 direction.1) items))
        (standing page.old (O.written out.old) (O.faults out.old)) (standing page.new (O.written out.new) (O.faults out.new)) result }
    ensures cause { Counted (O.faults out.old) (O.faults out.new) result }
{
    if frames == 0 {
        return Ok(());
    }
    let Direction(link, dir) = direction;
    let (from, to) = end_names(topology, link, dir);
    let mut buffer = Buffer::new();
    let count = digits(&mut buffer, frames);
    put_pieces(out, page, &[b"frames ", from, b" ", to, b" ", count, b"\n"])
}
