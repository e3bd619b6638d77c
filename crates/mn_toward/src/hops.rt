ghost use Rattle.std.specs.Prelude.{◌≡◌, ◌<◌, ◌==◌, ◌||◌, ◌+◌, true, length, All, Some, if◌then◌else◌};
ghost use Rattle.mn_wiring.specs.Paths.{is_on_least};
ghost use Rattle.mn_linkdb.specs.PathTable.{dist_at};
ghost use Rattle.mn_toward.specs.Toward.{wired, as_hop, merged, with_link, IsThere, nearest_over};

use mn_base::{LinkNo, NodeNo};
use mn_linkdb::Tree;
use mn_wiring::LinkEnds;

/// The end of a link other than this one, which is an end of it.
///
/// A sum in place of a choice: which end it is can't be foretold, and this is asked of each link that a walk comes by.
#[tactic(auto, using(crate::proofs::Nearest::far_is))]
fn other_end(link: LinkEnds, node: NodeNo) -> NodeNo
    requires { (link.a.0 == node.0 || link.b.0 == node.0) ≡ true }
    ensures { result.0 ≡ (if link.a.0 == node.0 then link.b.0 else link.a.0) }
{
    NodeNo((u32::from(link.a.0) + u32::from(link.b.0) - u32::from(node.0)) as u16)
}

/// Of two hops the one to the neighbour of lesser number, and of two to one neighbour the first.
fn nearer(best: Option<(NodeNo, LinkNo)>, hop: (NodeNo, LinkNo)) -> Option<(NodeNo, LinkNo)>
    ensures { as_hop result ≡ merged (as_hop best) (Some (hop.0.0, hop.1.0)) }
{
    match best {
        Some(known) => {
            if hop.0.0 < known.0.0 {
                Some(hop)
            } else {
                Some(known)
            }
        }
        None => Some(hop),
    }
}

/// Whether the two make the whole.
fn adds_up(cost: u32, rest: u32, whole: u32) -> bool
    ensures { result ≡ (cost + rest == whole) }
{
    u64::from(cost) + u64::from(rest) == u64::from(whole)
}

/// The least walks from a node to the root of a tree, which are of one cost, over the links that are up.
#[derive(Clone, Copy)]
pub(crate) struct Walks<'a> {
    pub ends: &'a [LinkEnds],
    pub up: &'a [bool],
    pub tree: &'a Tree,
    pub node: NodeNo,
    pub whole: u32,
}

/// Whether a least walk from the node goes over the link first.
fn is_first(walks: &Walks, number: LinkNo) -> bool
    requires there { IsThere walks.now.ends.now (length walks.now.tree.now.dists) walks.now.node.0 number }
    requires switches { length walks.now.up.now ≡ length walks.now.ends.now }
    requires whole { dist_at walks.now.tree.now walks.now.node.0 ≡ Some walks.now.whole }
    ensures { result ≡ is_on_least (wired walks.now.ends.now) walks.now.up.now walks.now.tree.now.dists walks.now.node.0 number.0 }
{
    let at = usize::from(number.0);
    if !walks.up[at] {
        return false;
    }
    let link = walks.ends[at];
    match walks.tree.dist(other_end(link, walks.node)) {
        Some(rest) => adds_up(link.cost, rest, walks.whole),
        None => false,
    }
}

/// The nearest of what was found and the neighbour over one link more.
fn with_link(
    walks: &Walks,
    best: Option<(NodeNo, LinkNo)>,
    number: LinkNo,
) -> Option<(NodeNo, LinkNo)>
    requires there { IsThere walks.now.ends.now (length walks.now.tree.now.dists) walks.now.node.0 number }
    requires switches { length walks.now.up.now ≡ length walks.now.ends.now }
    requires whole { dist_at walks.now.tree.now walks.now.node.0 ≡ Some walks.now.whole }
    ensures { as_hop result ≡ with_link (wired walks.now.ends.now) walks.now.up.now walks.now.tree.now.dists walks.now.node.0 (as_hop best) number }
{
    if is_first(walks, number) {
        let link = walks.ends[usize::from(number.0)];
        nearer(best, (other_end(link, walks.node), number))
    } else {
        best
    }
}

/// The nearest neighbour over these links at the node.
pub(crate) fn nearest_of(walks: &Walks, links: &[LinkNo]) -> Option<(NodeNo, LinkNo)>
    requires there { All (λ l. IsThere walks.now.ends.now (length walks.now.tree.now.dists) walks.now.node.0 l) links.now }
    requires switches { length walks.now.up.now ≡ length walks.now.ends.now }
    requires whole { dist_at walks.now.tree.now walks.now.node.0 ≡ Some walks.now.whole }
    ensures { as_hop result ≡ nearest_over (wired walks.now.ends.now) walks.now.up.now walks.now.tree.now.dists walks.now.node.0 links.now }
{
    let mut best = None;
    for number in links {
        best = with_link(walks, best, *number);
    }
    best
}
