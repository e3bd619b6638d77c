ghost use Rattle.std.specs.Prelude.{◌≡◌};
ghost use Rattle.mn_lines.specs.Names.{ends_at, hearer_of, name_at, pairs_of, sender_of};

use mn_base::{NodeNo, SiteNo};
use mn_topo::Topology;
use mn_wiring::{Dir, LinkEnds};

/// The name of a node, and the empty text where there is no such node.
pub fn node_name(topology: &Topology, node: NodeNo) -> &[u8]
    ensures { result.now ≡ name_at topology.now.node_names node.0 }
{
    topology.laws();
    if usize::from(node.0) < topology.nodes().len() {
        topology.node_name(node)
    } else {
        b""
    }
}

/// The name of a site, and the empty text where there is no such site.
pub fn site_name(topology: &Topology, site: SiteNo) -> &[u8]
    ensures { result.now ≡ name_at topology.now.site_names site.0 }
{
    topology.laws();
    if usize::from(site.0) < topology.sites().len() {
        topology.site_name(site)
    } else {
        b""
    }
}

/// The two ends of the link of this number, `a` first, and twice node 0 where there is none.
fn ends_at(links: &[LinkEnds], number: u16) -> (NodeNo, NodeNo)
    ensures { (result.0.0, result.1.0) ≡ ends_at (pairs_of links.now) number }
{
    match links.get(usize::from(number)) {
        Some(link) => (link.a, link.b),
        None => (NodeNo(0), NodeNo(0)),
    }
}

/// The names of the node that sends in this direction of the link, and of the one that receives.
pub(crate) fn direction(topology: &Topology, link: u16, dir: Dir) -> (&[u8], &[u8])
    ensures sender { result.0.now ≡
        name_at topology.now.node_names (sender_of (ends_at (pairs_of topology.now.links) link) dir) }
    ensures hearer { result.1.now ≡
        name_at topology.now.node_names (hearer_of (ends_at (pairs_of topology.now.links) link) dir) }
{
    let (a, b) = ends_at(topology.links(), link);
    match dir {
        Dir::Forth => (node_name(topology, a), node_name(topology, b)),
        Dir::Back => (node_name(topology, b), node_name(topology, a)),
    }
}
