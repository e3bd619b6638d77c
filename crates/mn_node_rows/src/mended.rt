//! A tree that is mended: `mended new ROOT NODES` over links of the text, which are down; `mended turn LINK ..` turns links one
//! after another, and answers whether the tree is then the one that is made anew; `mended entry NODE` is its cost and next hop.
ghost use Rattle.std.specs.Prelude.{◌≡◌, ◌<◌};

use crate::links::links_of;
use crate::trees::view_of;
use mn_base::{LinkNo, NodeNo, Steps};
use mn_linkdb::is_network;
use mn_rows::{Answer, Call, shown};
use mn_spf::tree;
use mn_spf_inc::MendTree;
use mn_wiring::LinkEnds;
use std::alloc::{AllocError, Global};
use std::marker::Brand;
use std::sync::ledger::{Blank, Ledger};

/// The tree that was made last, and its root.
#[derive(Drop)]
pub(crate) struct Mended {
    root: NodeNo,
    tree: Option<MendTree>,
}

/// The tree of a root over links that are down; none where they make no network.
fn made(
    alloc: Global,
    root: NodeNo,
    nodes: u32,
    ends: &[LinkEnds],
) -> Result<Option<MendTree>, AllocError> {
    if !is_network(nodes, ends) || u32::from(root.0) >= nodes {
        return Ok(None);
    }
    Ok(Some(MendTree::new(alloc, root, nodes, ends)?))
}

/// Turns a link, if it is there.
fn turn<L: Ledger>(
    tree: &mut MendTree,
    link: LinkNo,
    steps: &mut Steps<L>,
) -> Result<(), AllocError> {
    if usize::from(link.0) >= tree.ends().len() {
        return Ok(());
    }
    let up = !tree.up(link);
    tree.change(link, up, steps)
}

/// Turns the links that the row names, over a ledger that is opened on the blank.
fn turn_over<L: Ledger>(tree: &mut MendTree, call: Call<'_>, blank: Blank) -> Result<(), AllocError>
    requires name { blank.name ≡ L.name }
    requires parts { blank.parts ≡ L.parts }
    requires some { 0 < blank.parts }
{
    let mut steps = Steps::<L>::new(blank);
    for k in 2..64 {
        if let Some(link) = call.link(k) {
            turn(tree, link, &mut steps)?;
        }
    }
    Ok(())
}

fn turn_all(tree: &mut MendTree, call: Call<'_>) -> Result<(), AllocError> {
    turn_over::<Brand>(tree, call, Blank::new(1))
}

/// The cost of a node and the next hop to it; none where the tree has run out of memory, or the node isn't there.
pub(crate) fn entry(tree: &MendTree, to: NodeNo) -> Option<(Option<u32>, Option<NodeNo>)> {
    if tree.failed() || u32::from(to.0) >= tree.nodes() {
        return None;
    }
    let found = tree.tree();
    Some((found.dist(to), found.next(to)))
}

/// By link, whether it is up.
fn ups(alloc: Global, tree: &MendTree) -> Result<Vec<bool>, AllocError> {
    let mut ups = Vec::new(alloc);
    for number in 0..tree.ends().len() {
        ups.push(number < 65_536 && tree.up(LinkNo(number as u16)))?;
    }
    Ok(ups)
}

/// Whether the tree is the one that is made anew of the same links.
fn is_whole(alloc: Global, root: NodeNo, mended: &MendTree) -> Result<bool, AllocError> {
    let ups = ups(alloc, mended)?;
    let Some(view) = view_of(alloc, mended.nodes(), mended.ends(), &ups)? else {
        return Ok(false);
    };
    if u32::from(root.0) >= view.nodes() {
        return Ok(false);
    }
    let anew = tree(alloc, &view, root)?;
    let mut same = true;
    for number in 0..view.nodes() {
        let node = NodeNo(number as u16);
        same = same && entry(mended, node) == Some((anew.dist(node), anew.next(node)));
    }
    Ok(same)
}

impl Mended {
    pub(crate) fn new() -> Mended {
        Mended {
            root: NodeNo(0),
            tree: None,
        }
    }

    fn make(&mut self, alloc: Global, call: Call<'_>) -> Answer {
        let (Some(root), Some(nodes)) = (call.node(2), call.number_u32(3)) else {
            return Ok(None);
        };
        let Some(ends) = links_of(alloc, call)? else {
            return Ok(None);
        };
        self.root = root;
        self.tree = made(alloc, root, nodes, &ends)?;
        shown(alloc, &ends.len())
    }

    fn turned(&mut self, alloc: Global, call: Call<'_>) -> Answer {
        match &mut self.tree {
            Some(tree) => {
                turn_all(tree, call)?;
                shown(alloc, &is_whole(alloc, self.root, tree)?)
            }
            None => Ok(None),
        }
    }

    fn look(&self, alloc: Global, call: Call<'_>) -> Answer {
        match (&self.tree, call.node(2)) {
            (Some(tree), Some(to)) => match entry(tree, to) {
                Some(entry) => shown(alloc, &entry),
                None => Ok(None),
            },
            _ => Ok(None),
        }
    }
}

pub(crate) fn mended_row(alloc: Global, mended: &mut Mended, call: Call<'_>) -> Answer {
    match call.verb() {
        b"new" => mended.make(alloc, call),
        b"turn" => mended.turned(alloc, call),
        b"entry" => mended.look(alloc, call),
        _ => Ok(None),
    }
}
