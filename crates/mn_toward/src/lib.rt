//! The next hop of a node towards another one, by the shortest-path tree of that one.
//!
//! A link costs the same in both directions. So the tree of a node tells by its costs alone over which links the least walks of every
//! other node towards it go first: over those that are up and whose cost, with that of the far end, makes the node's own.
//!
//! ```text
//!     10        20        the tree of node 3: by node its cost
//!   1 --- 0 --- 2         from 0, of cost 20, least walks go over both links of cost 10: the next hop is 1,
//!     \       /           the neighbour of lesser number
//!      `- 3 -'
//! ```
//!
//! - `hops`: what is asked of one link, and the lesser of two neighbours
//! - `specs/Toward`: the nearest neighbour over some links at a node
#![tactic(auto)]

ghost use Rattle.std.specs.Prelude.{◌≡◌, ◌<◌, length, All};
ghost use Rattle.mn_linkdb.specs.PathTable.{dist_at};
ghost use Rattle.mn_toward.specs.Toward.{wired, as_hop, IsThere, nearest_over};

mod hops;

use crate::hops::{Walks, nearest_of};
use mn_base::{LinkNo, NodeNo};
use mn_linkdb::Tree;
use mn_wiring::LinkEnds;

/// The next hop of a node towards the root of the tree, over these links at the node, and the link to it.
///
/// None for the root itself, and where no walk leads to it.
pub fn next_toward(
    ends: &[LinkEnds],
    up: &[bool],
    tree: &Tree,
    node: NodeNo,
    links: &[LinkNo],
) -> Option<(NodeNo, LinkNo)>
    requires switches { length up.now ≡ length ends.now }
    requires here { node.0 < length tree.now.dists }
    requires there { All (λ l. IsThere ends.now (length tree.now.dists) node.0 l) links.now }
    ensures { as_hop result ≡ nearest_over (wired ends.now) up.now tree.now.dists node.0 links.now }
{
    match tree.dist(node) {
        Some(whole) => {
            let walks = Walks {
                ends,
                up,
                tree,
                node,
                whole,
            };
            nearest_of(&walks, links)
        }
        None => None,
    }
}
