//! Lines of a script that were refused.
ghost use Rattle.mn_edge.specs.Faults.{Counted};
ghost use Rattle.std.specs.Prelude.{◌≡◌, ◌++◌, OnOk, OnErr};
ghost use Rattle.mn_lines.specs.Putting.{Puts, PutsPart};
ghost use Rattle.mn_report.specs.Shown.{shown_text};

use crate::written::put_line;
use mn_edge::{DeviceBad, Sink};
use mn_ledger::Refused;
use mn_lines::{Page, write_refusal, write_refused};
use mn_topo::Topology;
use std::alloc::AllocError;

/// Why a line of a script was refused.
#[derive(Clone, Copy, Debug, PartialEq, Eq)]
pub enum Shown {
    /// Its step was refused.
    Step(Refused),
    /// The capture hasn't the record that it names.
    NoRecord,
}

/// Appends the line of a script's line that was refused.
fn write_shown(
    line: &mut Vec<u8>,
    topology: &Topology,
    number: u32,
    shown: Shown,
) -> Result<(), AllocError>
    ensures { OnOk result (line.new.items ≡ line.old.items ++ shown_text topology.now number shown) }
{
    match shown {
        Shown::Step(cause) => write_refusal(line, topology, number, cause),
        Shown::NoRecord => write_refused(line, number, "NoRecord"),
    }
}

/// Puts the line of a script's line that was refused: its number, and the first cause that holds. `line` is written anew.
pub fn put_refused<O: Sink>(
    out: &mut O,
    page: &mut Page,
    line: &mut Vec<u8>,
    topology: &Topology,
    number: u32,
    shown: Shown,
) -> Result<(), DeviceBad>
    ensures put { OnOk result (Puts (shown_text topology.now number shown) page.old page.new (O.written out.old) (O.written out.new)) }
    ensures part { OnErr result (PutsPart (shown_text topology.now number shown) page.old (O.written out.old) (O.written out.new)) }
    ensures cause { Counted (O.faults out.old) (O.faults out.new) result }
{
    line.clear();
    write_shown(line, topology, number, shown)?;
    put_line(out, page, line.as_slice())
}
