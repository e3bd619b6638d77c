//! What the files of a run grow by, as lines that are written where they wait.
ghost use Rattle.std.specs.Prelude.{◌≡◌, true};
ghost use Rattle.mn_perform.specs.Prelude.{entry_fits, line_of, label_line, header};

use crate::labels::put_label;
use mn_base::NodeNo;
use mn_edge::Line;
use mn_journal::put_entry;
use mn_labels::Given;
use mn_pcap::put_header;
use mn_topo::{JournalEntry, Topology};
use std::alloc::AllocError;

/// The line of an entry of the journal.
#[derive(Drop)]
pub(crate) struct JournalLine<'e> {
    pub(crate) topology: &'e Topology,
    pub(crate) entry: &'e JournalEntry,
    ghost fits: { entry_fits topology.now entry.now ≡ true },
}

impl Line for JournalLine<'_> {
    ghost text = { λ line. line_of line.topology.now line.entry.now };

    fn put(&self, out: &mut Vec<u8>) -> Result<(), AllocError> {
        put_entry(out, self.topology, self.entry)
    }
}

/// The line of a label that a node gave.
#[derive(Drop)]
pub(crate) struct LabelLine<'t> {
    pub(crate) topology: &'t Topology,
    pub(crate) node: NodeNo,
    pub(crate) giving: Given,
}

impl Line for LabelLine<'_> {
    ghost text = { λ line. label_line line.topology.now line.node.0 line.giving };

    fn put(&self, out: &mut Vec<u8>) -> Result<(), AllocError> {
        put_label(out, self.topology, self.node, self.giving)
    }
}

/// The header of a capture whose records are of a link type.
#[derive(Drop)]
pub(crate) struct CaptureHeader {
    pub(crate) link: u32,
}

impl Line for CaptureHeader {
    ghost text = { λ head. header head.link };

    fn put(&self, out: &mut Vec<u8>) -> Result<(), AllocError> {
        put_header(out, self.link)
    }
}
