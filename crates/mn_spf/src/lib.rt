//! The least walks from a node to every other, over the links that are up in its view, and the
//! next hop on each (RFC 2328, section 16.1).
//!
//! Dijkstra's search, with a heap. A way to a node is known by its cost and by its hop, the
//! neighbour of the root to which it goes first. Ways are compared by cost, and those of one cost
//! by hop, so that of all least walks the one through the neighbour of least number is kept.
//!
//! ```text
//!            10        10
//!     root ------ 1 ------ 3       ways from the root to 3: cost 20 by hop 1, cost 20 by hop 2
//!       |                  |       the tree has of 3: dist 20, next 1
//!       `-------- 2 -------'
//!            10        10
//! ```
//!
//! Costs are positive, so a way that goes on is worse than before: the best way in the heap can't
//! become better, its node is settled, and all that the node's links lead to is offered once.
//!
//! - `way`: a way to a node, and how it goes on over a link
//! - `adjacency`: by node, the links at it that are up
//! - `search`: the nodes that are settled, and the ways that are still to be followed
#![tactic(auto)]

ghost use Rattle.std.specs.Prelude.{◌<◌, IfOk};
ghost use Rattle.mn_wiring.specs.Wiring.{Wiring};
ghost use Rattle.mn_linkdb.specs.Learned.{IsOf, links_up};
ghost use Rattle.mn_linkdb.specs.PathTable.{IsTable};
ghost use Rattle.mn_linkdb.specs.Trees.{IsTree};

use mn_base::NodeNo;
use mn_linkdb::{Tree, View};
use std::alloc::{AllocError, Global};

mod adjacency;
mod search;
mod way;

use adjacency::links_by_node;
use search::Search;
use way::Way;

/// The least walks from the root, over the links that are up in the view: for each node the least
/// cost, and of the neighbours to which a least walk goes first the one of least number.
pub fn tree(alloc: Global, view: &View, root: NodeNo) -> Result<Tree, AllocError>
    requires { root.0 < view.now.nodes }
    ensures one_each { IfOk result (IsTable view.now.nodes) }
    ensures least { IfOk result (λ tree. (wiring : Wiring) → IsOf wiring view.now → IsTree wiring (links_up view.now) root.0 tree) }
{
    let links = links_by_node(alloc, view)?;
    let mut search = Search::new(alloc, view, root)?;
    let at_root = links[usize::from(root.0)].as_slice();
    search.follow(view, at_root, root, Way::start(root))?;
    while let Some(way) = search.nearest() {
        let at_end = links[usize::from(way.to)].as_slice();
        search.follow(view, at_end, root, way)?;
    }
    Ok(search.into_tree())
}
