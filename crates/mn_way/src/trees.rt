ghost use Rattle.std.specs.Prelude.{◌≡◌, ◌≢◌, ◌<◌, ◌≤◌, All, List, Bool, length, map, replicate, slice_set, false, true, IfOk, OnOk, OnErr};
ghost use Rattle.mn_wiring.specs.Wiring.{is_up};
ghost use Rattle.mn_linkdb.specs.Learned.{Learned};
ghost use Rattle.mn_spf_inc.specs.Mended.{Mended};
ghost use Rattle.mn_way.specs.Switched.{CanTurn, Follows, IsSameBut, roots_of};

use mn_base::{LinkNo, NodeNo};
use mn_spf_inc::{MendTree, SharedLinks};
use std::alloc::{AllocError, Global};
use std::marker::Model;

/// An edge, and its tree. Contracts see the tree.
#[derive(Drop)]
pub(crate) struct EdgeTree {
    edge: NodeNo,
    tree: MendTree,
}

impl Model for EdgeTree {
    ghost use Rattle.std.specs.Prelude.{◌≡◌};
    ghost use Rattle.mn_spf_inc.specs.Mended.{Mended};

    ghost Value = { Mended };

    ghost view = { λ t. t.tree };

    ghost invariant = { λ t. t.tree.root ≡ t.edge.0 };
}

impl EdgeTree {
    /// The tree of an edge over links that are all up.
    fn new(alloc: Global, links: &SharedLinks, edge: NodeNo) -> Result<EdgeTree, AllocError>
        requires edge { edge.0 < links.now.nodes }
        requires few { length links.now.ends ≤ 1024 }
        ensures root { IfOk result (λ tree. tree.root ≡ edge.0) }
        ensures follows { IfOk result (λ tree. Follows links.now (replicate (length links.now.ends) true) tree) }
    {
        let mut tree = MendTree::over(alloc, edge, links)?;
        raise(&mut tree)?;
        Ok(EdgeTree { edge, tree })
    }

    /// The edge.
    pub(crate) fn edge(&self) -> NodeNo
        ensures { result.0 ≡ self.now.root }
    {
        self.edge
    }

    /// Its tree.
    pub(crate) fn tree(&self) -> &MendTree
        ensures { result.now ≡ self.now }
    {
        &self.tree
    }

    /// Makes a link up or down, which it isn't yet.
    fn turn(&mut self, link: LinkNo, up: bool) -> Result<(), AllocError>
        requires can { CanTurn link.0 up self.old }
        ensures same { IsSameBut self.old self.new }
        ensures turned { OnOk result ((self.new.up ≡ slice_set self.old.up link.0 up) × (self.new.failed ≡ false)) }
    {
        self.tree.turn(link, up)
    }
}

/// Makes all links up, which are all down.
fn raise(tree: &mut MendTree) -> Result<(), AllocError>
    requires few { length tree.old.ends ≤ 1024 }
    requires down { tree.old.up ≡ replicate (length tree.old.ends) false }
    requires sound { tree.old.failed ≡ false }
    ensures same { IsSameBut tree.old tree.new }
    ensures up { OnOk result (tree.new.up ≡ replicate (length tree.old.ends) true) }
    ensures sound { OnOk result (tree.new.failed ≡ false) }
{
    let links = tree.ends().len();
    for number in 0..links {
        tree.turn(LinkNo(number as u16), true)?;
    }
    Ok(())
}

/// The trees of all edges, over links that are all up.
pub(crate) fn trees_of(
    alloc: Global,
    links: &SharedLinks,
    edges: &[NodeNo],
) -> Result<Vec<EdgeTree>, AllocError>
    requires edges { All (λ edge. edge.0 < links.now.nodes) edges.now }
    requires few { length links.now.ends ≤ 1024 }
    ensures roots { IfOk result (λ trees. roots_of trees.items ≡ map (λ edge. edge.0) edges.now) }
    ensures follow { IfOk result (λ trees. All (Follows links.now (replicate (length links.now.ends) true)) trees.items) }
{
    let mut trees = Vec::with_capacity(alloc, edges.len())?;
    for edge in edges {
        trees.push(EdgeTree::new(alloc, links, *edge)?)?;
    }
    Ok(trees)
}

/// Makes a link up or down in each tree, which it isn't yet.
pub(crate) fn turn_all(trees: &mut Vec<EdgeTree>, link: LinkNo, up: bool) -> Result<(), AllocError>
    requires can { All (CanTurn link.0 up) trees.old.items }
    ensures roots { roots_of trees.new.items ≡ roots_of trees.old.items }
    ensures turned { (links : Learned) (ups : List Bool) → All (Follows links ups) trees.old.items → OnOk result (All (Follows links (slice_set ups link.0 up)) trees.new.items) }
{
    for at in 0..trees.len() {
        trees[at].turn(link, up)?;
    }
    Ok(())
}
