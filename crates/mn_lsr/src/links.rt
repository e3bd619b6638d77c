ghost use Rattle.std.specs.Prelude.{◌≡◌, ◌≤◌, ◌<◌, ◌==◌, ◌||◌, ℕ, None, length, slice_index_or, IfOk};
ghost use Rattle.mn_wiring.specs.Wiring.{JoinsNodes, JoinsOnce};
ghost use Rattle.mn_lsr.specs.Telling.{AreLinks};

use crate::speaking::across;
use mn_base::{LinkNo, NodeNo};
use mn_wiring::LinkEnds;
use std::alloc::{AllocError, Global};

/// Whether the node is an end of the link.
fn is_end(link: &LinkEnds, me: NodeNo) -> bool
    ensures { result ≡ (link.now.a.0 == me.0) || (link.now.b.0 == me.0) }
{
    link.a == me || link.b == me
}

/// By neighbour, the link that joins the node with it, so that what is sent to one looks at no other link.
pub(crate) fn links_by_neighbour(
    alloc: Global,
    me: NodeNo,
    loopbacks: &[u32],
    ends: &[LinkEnds],
) -> Result<Vec<Option<LinkNo>>, AllocError>
    requires few_links { length ends.now ≤ 1024 }
    requires me { me.0 < length loopbacks.now }
    requires joins { JoinsNodes (record { loopbacks = loopbacks.now; ends = ends.now }) }
    requires once { JoinsOnce (record { loopbacks = loopbacks.now; ends = ends.now }) }
    ensures { IfOk result (λ links. AreLinks (record { loopbacks = loopbacks.now; ends = ends.now }) me.0 links.items) }
{
    let mut links = Vec::new(alloc);
    links.resize(loopbacks.len(), None)?;
    for at in 0..ends.len() {
        if is_end(&ends[at], me) {
            let far = across(&ends[at], me);
            links[far.0 as usize] = Some(LinkNo(at as u16));
        }
    }
    Ok(links)
}

/// The link that joins the node with a neighbour, where one does.
pub(crate) fn link_to(links: &[Option<LinkNo>], to: NodeNo) -> Option<LinkNo>
    ensures { result ≡ slice_index_or links.now to.0 None }
{
    let at = to.0 as usize;
    if at < links.len() { links[at] } else { None }
}
