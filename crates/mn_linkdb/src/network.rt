ghost use Rattle.std.specs.Prelude.{◌↔◌, IsTrue, All};
ghost use Rattle.mn_linkdb.specs.Network.{IsLink, IsNetwork};

use mn_wiring::LinkEnds;

/// How many nodes a network has at most.
const MAX_NODES: u32 = 256;

/// How many links a network has at most.
const MAX_LINKS: usize = 1024;

/// The greatest cost of a link.
const MAX_COST: u32 = 65_535;

/// Whether a link joins two of so many nodes, and costs from 1 to 65,535.
fn is_link(nodes: u32, ends: LinkEnds) -> bool
    ensures { IsTrue result ↔ IsLink nodes ends }
{
    u32::from(ends.a.0) < nodes
        && u32::from(ends.b.0) < nodes
        && ends.cost >= 1
        && ends.cost <= MAX_COST
}

/// Whether each of the links joins two of so many nodes, and costs from 1 to 65,535.
fn are_links(nodes: u32, ends: &[LinkEnds]) -> bool
    ensures { IsTrue result ↔ All (IsLink nodes) ends.now }
{
    ends.iter().all(|link| is_link(nodes, *link))
}

/// Whether a view can be made of so many nodes and these links: at most 256 nodes and 1,024
/// links, each of which joins two of the nodes and costs from 1 to 65,535.
pub fn is_network(nodes: u32, ends: &[LinkEnds]) -> bool
    ensures { IsTrue result ↔ IsNetwork nodes ends.now }
{
    nodes <= MAX_NODES && ends.len() <= MAX_LINKS && are_links(nodes, ends)
}
