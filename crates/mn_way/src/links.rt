ghost use Rattle.std.specs.Prelude.{◌≡◌, ◌==◌, ◌||◌, IfOk};
ghost use Rattle.mn_linkdb.specs.Network.{IsNetwork};
ghost use Rattle.mn_way.specs.Switched.{AreAtNode, AreByNode};

use mn_base::{LinkNo, ListOf, NodeNo};
use mn_wiring::LinkEnds;
use std::alloc::{AllocError, Global};

/// Whether the node is one of the link's ends.
fn is_end(link: LinkEnds, node: NodeNo) -> bool
    ensures { result ≡ (link.a.0 == node.0 || link.b.0 == node.0) }
{
    link.a.0 == node.0 || link.b.0 == node.0
}

/// The links at a node, in their order.
fn links_at(
    alloc: Global,
    nodes: u32,
    ends: &[LinkEnds],
    node: NodeNo,
) -> Result<ListOf<LinkNo>, AllocError>
    requires { IsNetwork nodes ends.now }
    ensures { IfOk result (λ links. AreAtNode ends.now nodes node.0 links) }
{
    let mut links = Vec::new(alloc);
    for number in 0..ends.len() {
        if is_end(ends[number], node) {
            links.push(LinkNo(number as u16))?;
        }
    }
    Ok(ListOf::from_vec(links))
}

/// By node the links at it.
pub(crate) fn links_by_node(
    alloc: Global,
    nodes: u32,
    ends: &[LinkEnds],
) -> Result<Vec<ListOf<LinkNo>>, AllocError>
    requires { IsNetwork nodes ends.now }
    ensures { IfOk result (λ lists. AreByNode ends.now nodes lists.items) }
{
    let mut lists = Vec::with_capacity(alloc, nodes as usize)?;
    for node in 0..nodes {
        lists.push(links_at(alloc, nodes, ends, NodeNo(node as u16))?)?;
    }
    Ok(lists)
}
