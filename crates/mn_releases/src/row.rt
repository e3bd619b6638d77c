ghost use Rattle.std.specs.Prelude.{◌≡◌, slice_index_or, slice_set, replicate, IfOk};

use mn_base::NodeNo;
use std::alloc::{AllocError, Global};
use std::marker::Model;

/// How many Releases of each FEC a neighbour owes.
///
/// It stands behind a pointer: a node keeps room for a row by each node, and few are open to it.
#[derive(Drop)]
pub struct Row {
    counts: Box<Vec<u64>>,
}

const _: () = prove!(size_of::<Option<Row>>() == 16);

impl Model for Row {
    ghost use Rattle.std.specs.Prelude.{List, ℕ};

    ghost Value = { List ℕ };

    ghost view = { λ row. row.counts.value.items };
}

impl Row {
    /// None of these many FECs.
    pub fn new(alloc: Global, nodes: usize) -> Result<Row, AllocError>
        ensures { IfOk result (λ row. row ≡ replicate nodes 0) }
    {
        let mut counts = Vec::new(alloc);
        counts.resize(nodes, 0)?;
        Ok(Row {
            counts: Box::new(alloc, counts)?,
        })
    }

    /// How many of a FEC.
    pub fn count(&self, fec: NodeNo) -> u64
        ensures { result ≡ slice_index_or self.now fec.0 0 }
    {
        let at = fec.0 as usize;
        if at < self.counts.len() {
            self.counts[at]
        } else {
            0
        }
    }

    /// Notes how many of a FEC.
    pub fn set(&mut self, fec: NodeNo, count: u64)
        ensures { self.new ≡ slice_set self.old fec.0 count }
    {
        let at = fec.0 as usize;
        if at < self.counts.len() {
            self.counts[at] = count;
        }
    }
}
