//! A line that was written, put on a page.
ghost use Rattle.mn_tables.specs.Telling.{standing, Tells};

use mn_edge::{DeviceBad, Sink};
use mn_lines::Page;

/// Puts a line.
pub(crate) fn put_line<O: Sink>(out: &mut O, page: &mut Page, line: &[u8]) -> Result<(), DeviceBad>
    ensures { Tells line.now
        (standing page.old (O.written out.old) (O.faults out.old)) (standing page.new (O.written out.new) (O.faults out.new)) result }
{
    page.put(out, line)
}
