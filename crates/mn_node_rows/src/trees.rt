//! Least walks: `spf view NODES DOWN ..` is the view of a node that has learned that each link of the text but these is up;
//! `spf entry ROOT NODE` is what the root's tree has of a node, its cost and its next hop.
ghost use Rattle.std.specs.Prelude.{◌≡◌, ◌<◌, length};

use crate::links::links_of;
use mn_base::{LinkNo, NodeNo};
use mn_linkdb::{LinkDb, View, is_network};
use mn_rows::{Answer, Call, shown};
use mn_spf::tree;
use mn_wiring::LinkEnds;
use std::alloc::{AllocError, Global};

/// The view that was made last.
#[derive(Drop)]
pub(crate) struct Trees {
    view: Option<View>,
}

/// Makes a link up, which the view's node then learns.
fn learn_up(db: &mut LinkDb, view: &mut View, link: LinkNo)
    requires there { link.0 < length view.old.ends }
    requires same_links { length db.old ≡ length view.old.ends }
    ensures same_links { length db.new ≡ length view.new.ends }
    ensures ends { view.new.ends ≡ view.old.ends }
{
    if db.changes(link) == u32::MAX {
        return;
    }
    let _ = db.change(link, true);
    if view.learned(link) <= db.changes(link) {
        let _ = view.learn(db, link);
    }
}

/// The view in which these links are up; none where they make no network.
pub(crate) fn view_of(
    alloc: Global,
    nodes: u32,
    ends: &[LinkEnds],
    ups: &[bool],
) -> Result<Option<View>, AllocError> {
    if !is_network(nodes, ends) {
        return Ok(None);
    }
    let mut view = View::new(alloc, nodes, ends)?;
    let mut db = LinkDb::new(alloc, ends.len() as u32)?;
    for number in 0..ends.len() {
        if ups.get(number) == Some(&true) {
            learn_up(&mut db, &mut view, LinkNo(number as u16));
        }
    }
    Ok(Some(view))
}

/// By link, whether no word from the third on names it.
fn ups(alloc: Global, call: Call<'_>, links: usize) -> Result<Vec<bool>, AllocError> {
    let mut ups = Vec::new(alloc);
    for _ in 0..links {
        ups.push(true)?;
    }
    for k in 3..64 {
        let Some(down) = call.link(k) else {
            return Ok(ups);
        };
        if let Some(up) = ups.get_mut(usize::from(down.0)) {
            *up = false;
        }
    }
    Ok(ups)
}

impl Trees {
    pub(crate) fn new() -> Trees {
        Trees { view: None }
    }

    fn look(&mut self, alloc: Global, call: Call<'_>) -> Answer {
        let (Some(nodes), Some(ends)) = (call.number_u32(2), links_of(alloc, call)?) else {
            return Ok(None);
        };
        let ups = ups(alloc, call, ends.len())?;
        self.view = view_of(alloc, nodes, &ends, &ups)?;
        shown(alloc, &ends.len())
    }

    fn entry(&self, alloc: Global, root: NodeNo, to: NodeNo) -> Answer {
        match &self.view {
            Some(view) if u32::from(root.0) < view.nodes() && u32::from(to.0) < view.nodes() => {
                let found = tree(alloc, view, root)?;
                shown(alloc, &(found.dist(to), found.next(to)))
            }
            _ => Ok(None),
        }
    }
}

pub(crate) fn tree_row(alloc: Global, trees: &mut Trees, call: Call<'_>) -> Answer {
    match call.verb() {
        b"view" => trees.look(alloc, call),
        b"entry" => match (call.node(2), call.node(3)) {
            (Some(root), Some(to)) => trees.entry(alloc, root, to),
            _ => Ok(None),
        },
        _ => Ok(None),
    }
}
