ghost use Rattle.std.specs.Prelude.{◌≡◌, ◌<◌, ◌++◌, ◌∷◌, [], length, replicate, slice_set, slice_index_or, IfOk, OnOk};
ghost use Rattle.mn_linkdb.specs.Learned.{IsView};
ghost use Rattle.mn_spf.specs.Ways.{AreLinks};

use mn_base::{LinkNo, ListOf, NodeNo};
use mn_linkdb::View;
use std::alloc::{AllocError, Global};

/// An empty list for each node.
fn empty_lists(alloc: Global, nodes: u32) -> Result<Vec<ListOf<LinkNo>>, AllocError>
    ensures { IfOk result (λ lists. lists.items ≡ replicate nodes []) }
{
    let mut lists = Vec::with_capacity(alloc, nodes as usize)?;
    for _node in 0..nodes {
        lists.push(ListOf::from_vec(Vec::new(alloc)))?;
    }
    Ok(lists)
}

/// Appends a link to the list of one node.
fn add(lists: &mut Vec<ListOf<LinkNo>>, node: NodeNo, link: LinkNo) -> Result<(), AllocError>
    requires { node.0 < length lists.old.items }
    ensures { OnOk result (lists.new.items ≡ slice_set lists.old.items node.0 (slice_index_or lists.old.items node.0 [] ++ link ∷ [])) }
{
    let list = &mut lists[usize::from(node.0)];
    list.push(link)
}

/// By node, the links at it that are up in the view.
pub(crate) fn links_by_node(alloc: Global, view: &View) -> Result<Vec<ListOf<LinkNo>>, AllocError>
    ensures links { IfOk result (λ lists. AreLinks view.now lists.items) }
    ensures form { IsView view.now }
{
    let mut lists = empty_lists(alloc, view.nodes())?;
    let links = view.ends();
    for number in 0..links.len() {
        let link = LinkNo(number as u16);
        if view.up(link) {
            add(&mut lists, links[number].a, link)?;
            add(&mut lists, links[number].b, link)?;
        }
    }
    Ok(lists)
}
