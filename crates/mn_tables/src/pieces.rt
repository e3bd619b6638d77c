//! Pieces of text, one after another.
ghost use Rattle.mn_lines.specs.Lines.{pieces_of, text};
ghost use Rattle.mn_tables.specs.Telling.{standing, Tells};

use mn_edge::{DeviceBad, Sink};
use mn_lines::Page;

/// Puts pieces of text.
pub fn put_pieces<O: Sink>(out: &mut O, page: &mut Page, pieces: &[&[u8]]) -> Result<(), DeviceBad>
    ensures { Tells (text (pieces_of pieces.now))
        (standing page.old (O.written out.old) (O.faults out.old)) (standing page.new (O.written out.new) (O.faults out.new)) result }
{
    for piece in pieces {
        page.put(out, piece)?;
    }
    Ok(())
}
