//! The edges of a topology, and their places.
ghost use Rattle.std.specs.Prelude.{◌≡◌, ◌==◌, ◌<◌, length, position, slice_index_or, IfOk};
ghost use Rattle.std.specs.List.{Contains};
ghost use Rattle.mn_ledger.specs.Places.{edges};
ghost use Rattle.mn_reach.specs.Plans.{numbers_of};

use mn_base::NodeNo;
use mn_topo::Topology;
use std::alloc::{AllocError, Global};

/// The edges, in order.
pub(crate) fn edges_of(alloc: Global, topology: &Topology) -> Result<Vec<NodeNo>, AllocError>
    ensures { IfOk result (λ found. numbers_of found.items ≡ edges topology.now) }
{
    topology.laws();
    let mut found = Vec::new(alloc);
    for number in 0..topology.nodes().len() {
        if topology.is_edge(NodeNo(number as u16)) {
            found.push(NodeNo(number as u16))?;
        }
    }
    Ok(found)
}

/// Where an edge stands first among these.
fn first_at(edges: &[NodeNo], edge: NodeNo) -> Option<usize>
    ensures { result ≡ position (λ other. other.0 == edge.0) edges.now }
{
    edges.iter().position(|other| other.0 == edge.0)
}

/// The place of an edge among the edges.
pub(crate) fn place_of(edges: &[NodeNo], edge: NodeNo) -> usize
    requires { Contains (numbers_of edges.now) edge.0 }
    ensures within { result < length (numbers_of edges.now) }
    ensures there { slice_index_or (numbers_of edges.now) result 0 ≡ edge.0 }
{
    first_at(edges, edge).unwrap_or(0)
}
