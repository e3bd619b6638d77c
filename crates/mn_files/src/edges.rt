//! The place of each edge.
ghost use Rattle.std.specs.Prelude.{◌≡◌, ◌<◌, ◌^◌, length, slice_index, slice_index_or, IfOk};
ghost use Rattle.mn_files.specs.Numbers.{edge_places};

use mn_base::NodeNo;
use mn_topo::Topology;
use std::alloc::{AllocError, Global};
use std::marker::Model;

/// How many edges come before each node, and how many there are: made once, so that the number of a file is found
/// without a look at other nodes.
#[derive(Drop)]
pub struct EdgePlaces {
    before: Vec<u16>,
}

impl Model for EdgePlaces {
    ghost use Rattle.std.specs.Prelude.{List, ℕ};

    ghost Value = { List ℕ };

    ghost view = { λ p. p.before.items };
}

impl EdgePlaces {
    pub fn new(alloc: Global, topology: &Topology) -> Result<EdgePlaces, AllocError>
        ensures { IfOk result (λ places. places ≡ edge_places topology.now) }
    {
        topology.laws();
        let mut before = Vec::new(alloc);
        let mut count = 0;
        for node in 0..topology.nodes().len() {
            before.push(count)?;
            if topology.is_edge(NodeNo(node as u16)) {
                count += 1;
            }
        }
        before.push(count)?;
        Ok(EdgePlaces { before })
    }

    /// How many edges come before the node; before one past the last node, how many there are.
    pub(crate) fn before(&self, node: usize) -> u32
        requires { node < length self.now }
        ensures count { result ≡ slice_index self.now node }
        ensures small { result < 2 ^ 16 }
    {
        u32::from(self.before[node])
    }

    /// The same of any node, and 0 where the table has none.
    pub(crate) fn count(&self, node: usize) -> u32
        ensures count { result ≡ slice_index_or self.now node 0 }
        ensures small { result < 2 ^ 16 }
    {
        match self.before.get(node) {
            Some(count) => u32::from(*count),
            None => 0,
        }
    }
}
