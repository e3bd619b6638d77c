ghost use Rattle.std.specs.Prelude.{◌≡◌, slice_index_or, slice_set, replicate, IfOk, None};

use mn_base::NodeNo;
use std::alloc::{AllocError, Global};
use std::marker::Model;

/// What a neighbour last advertised for each FEC: its label, or none.
///
/// A row is made as its neighbour opens, so that a node's memory goes with its neighbours and not with all nodes. It stands behind a
/// pointer: a node keeps room for a row by each node, and few are open to it.
#[derive(Drop)]
pub struct Row {
    said: Box<Said>,
}

const _: () = prove!(size_of::<Option<Row>>() == 16);

/// The labels, and apart from them which FECs have one: five bytes a FEC.
#[derive(Drop)]
struct Said {
    labels: Vec<u32>,
    mapped: Vec<bool>,
}

impl Model for Row {
    ghost use Rattle.std.specs.Prelude.{List, ℕ, Option};
    ghost use Rattle.mn_bindings.specs.Rows.{labels_of, AreOfOneLength};

    ghost Value = { List (Option ℕ) };

    ghost view = { λ row. labels_of row.said.value.mapped.items row.said.value.labels.items };

    ghost invariant = { λ row. AreOfOneLength row.said.value.mapped.items row.said.value.labels.items };
}

impl Row {
    /// The neighbour advertised nothing yet for these many FECs.
    pub fn new(alloc: Global, nodes: usize) -> Result<Row, AllocError>
        ensures { IfOk result (λ row. row ≡ replicate nodes None) }
    {
        let mut labels = Vec::new(alloc);
        labels.resize(nodes, 0)?;
        let mut mapped = Vec::new(alloc);
        mapped.resize(nodes, false)?;
        Ok(Row {
            said: Box::new(alloc, Said { labels, mapped })?,
        })
    }

    /// The FEC's label, where it was mapped last.
    pub fn label(&self, fec: NodeNo) -> Option<u32>
        ensures { result ≡ slice_index_or self.now fec.0 None }
    {
        let at = fec.0 as usize;
        if at < self.said.mapped.len() && self.said.mapped[at] {
            Some(self.said.labels[at])
        } else {
            None
        }
    }

    /// Notes the FEC's label, or that it has none.
    pub fn set(&mut self, fec: NodeNo, label: Option<u32>)
        ensures { self.new ≡ slice_set self.old fec.0 label }
    {
        let at = fec.0 as usize;
        if at < self.said.mapped.len() {
            match label {
                None => self.said.mapped[at] = false,
                Some(label) => {
                    self.said.mapped[at] = true;
                    self.said.labels[at] = label;
                }
            }
        }
    }
}
