//! The links that a node takes for up, as a view that trees are made of.
ghost use Rattle.std.specs.Prelude.{◌≡◌, ◌<◌, length, replicate, slice_index, slice_set, IfOk};
ghost use Rattle.mn_linkdb.specs.Learned.{links_up, IsOf};
ghost use Rattle.mn_flood_laws.specs.Flood.{flooded};

use crate::world::World;
use mn_base::{LinkNo, NodeNo};
use mn_linkdb::{LinkDb, View};
use std::alloc::{AllocError, Global};

/// A link that is down in the view, and never changed, comes up.
fn learn_up(db: &mut LinkDb, view: &mut View, link: LinkNo)
    requires there { link.0 < length view.old.ends }
    requires same_links { length db.old ≡ length view.old.ends }
    requires down { slice_index db.old link.0 ≡ 0 }
    requires unknown { slice_index view.old.counts link.0 ≡ 0 }
    ensures changed { db.new ≡ slice_set db.old link.0 1 }
    ensures learned { view.new ≡ record view.old { counts = slice_set view.old.counts link.0 1 } }
{
    let _ = db.change(link, true);
    let _ = view.learn(db, link);
}

/// The view of a node: the links that it takes for up.
pub(crate) fn view_of(alloc: Global, world: &World, node: NodeNo) -> Result<View, AllocError>
    requires { node.0 < length world.now.wiring.loopbacks }
    ensures over { IfOk result (IsOf world.now.wiring) }
    ensures up { IfOk result (λ view. links_up view ≡ flooded world.now.wiring world.now.world node.0) }
{
    world.laws();
    let links = world.links();
    let mut view = View::new(alloc, links.nodes(), links.ends())?;
    let count = links.ends().len();
    let mut db = LinkDb::new(alloc, count as u32)?;
    for number in 0..count {
        let link = LinkNo(number as u16);
        if world.knows(node, link) {
            learn_up(&mut db, &mut view, link);
        }
    }
    Ok(view)
}
