ghost use Rattle.std.specs.Prelude.{◌≡◌, ◌+◌, ◌^◌, ◌<◌, ℕ, [], length, Some, IsOk, IfOk, OnOk};
ghost use Rattle.mn_linkdb.specs.PathTable.{dist_at, nothing_known, with_entries};

use crate::way::Way;
use mn_base::NodeNo;
use mn_linkdb::Tree;
use mn_wiring::LinkEnds;
use std::alloc::{AllocError, Global};
use std::cmp::Reverse;
use std::collections::BinaryHeap;

/// A tree that is being mended.
#[derive(Drop)]
pub(crate) struct Mend {
    pub(crate) tree: Tree,
    /// While links are lost, the nodes that may have lost their way; while ways get better, the
    /// nodes whose links are still to be followed. A node may stand in it twice.
    pub(crate) queue: BinaryHeap<Reverse<Way>>,
    /// The nodes that lost their way and have no new one yet.
    pub(crate) cut: Vec<NodeNo>,
}

impl Mend {
    ghost use Rattle.mn_spf.specs.Ways.{other_end, rank_at, beats};
    ghost use Rattle.mn_spf_inc.specs.Ways.{rank_of, way_over, way_at};
    ghost use Rattle.mn_spf_inc.specs.Mending.{state_of, Offers, OffersBeyond, Queues, Doubts, DoubtsBeyond, IsPassedBy, IsPassedOver, Forgets};

    /// The root alone is reached.
    pub(crate) fn new(alloc: Global, nodes: u32, root: NodeNo) -> Result<Mend, AllocError>
        requires { root.0 < nodes }
        ensures { IfOk result (λ mend. state_of mend ≡ record { table = with_entries (nothing_known nodes) root.0 (Some 0) None; queue = []; cut = [] }) }
    {
        let mut tree = Tree::new(alloc, nodes)?;
        tree.set(root, Some(0), None);
        Ok(Mend {
            tree,
            queue: BinaryHeap::new(alloc),
            cut: Vec::new(alloc),
        })
    }

    /// The way to a node; none where nothing is known of it.
    pub(crate) fn known(&self, node: NodeNo) -> Option<Way>
        requires { node.0 < length self.now.tree.dists }
        ensures { result ≡ way_at self.now.tree node.0 }
    {
        let cost = self.tree.dist(node)?;
        let hop = match self.tree.next(node) {
            Some(hop) => hop.0,
            None => 0,
        };
        Some(Way {
            cost,
            hop,
            to: node.0,
        })
    }

    /// Whether a way is better than what is known of its end.
    fn is_better(&self, way: Way) -> bool
        requires { way.to < length self.now.tree.dists }
        ensures { result ≡ beats (rank_of way) (rank_at self.now.tree way.to) }
    {
        match self.known(NodeNo(way.to)) {
            Some(known) => way.beats(known),
            None => true,
        }
    }

    /// Takes a way where it is better than what is known of its end.
    pub(crate) fn offer(&mut self, way: Way) -> Result<(), AllocError>
        requires { way.to < length self.old.tree.dists }
        ensures { OnOk result (Offers (state_of self.old) (state_of self.new) way) }
    {
        if self.is_better(way) {
            self.tree
                .set(NodeNo(way.to), Some(way.cost), Some(NodeNo(way.hop)));
            self.queue.push(Reverse(way))?;
        }
        Ok(())
    }

    /// Offers the way that goes on from a node over a link.
    pub(crate) fn offer_beyond(
        &mut self,
        root: NodeNo,
        from: NodeNo,
        link: LinkEnds,
    ) -> Result<(), AllocError>
        requires there { from.0 < length self.old.tree.dists }
        requires far { other_end link from.0 < length self.old.tree.dists }
        requires fits { (known : ℕ) → dist_at self.old.tree from.0 ≡ Some known → known + link.cost < 2 ^ 32 }
        ensures { OnOk result (OffersBeyond (state_of self.old) (state_of self.new) root.0 from.0 link) }
    {
        let Some(way) = self.known(from) else {
            return Ok(());
        };
        self.offer(way.over(root, link))
    }

    /// Queues a node.
    fn queue(&mut self, way: Way) -> Result<(), AllocError>
        ensures { OnOk result (Queues (state_of self.old) (state_of self.new) way) }
    {
        self.queue.push(Reverse(way))?;
        Ok(())
    }

    /// Queues the node at the end of a way, unless what is known of it is better than the way.
    pub(crate) fn doubt(&mut self, over: Way) -> Result<(), AllocError>
        requires { over.to < length self.old.tree.dists }
        ensures doubts { OnOk result (Doubts (state_of self.old) (state_of self.new) over) }
        ensures passed { IsPassedBy self.old.tree over → IsOk result × (state_of self.new ≡ state_of self.old) }
    {
        let Some(known) = self.known(NodeNo(over.to)) else {
            return Ok(());
        };
        if known.beats(over) {
            return Ok(());
        }
        self.queue(known)
    }

    /// Doubts the node at the other end of a link, if it may have its way from this node.
    pub(crate) fn doubt_beyond(
        &mut self,
        root: NodeNo,
        from: NodeNo,
        link: LinkEnds,
    ) -> Result<(), AllocError>
        requires there { from.0 < length self.old.tree.dists }
        requires far { other_end link from.0 < length self.old.tree.dists }
        requires fits { (known : ℕ) → dist_at self.old.tree from.0 ≡ Some known → known + link.cost < 2 ^ 32 }
        ensures doubts { OnOk result (DoubtsBeyond (state_of self.old) (state_of self.new) root.0 from.0 link) }
        ensures passed { IsPassedOver root.0 self.old.tree from.0 link → IsOk result × (state_of self.new ≡ state_of self.old) }
    {
        let Some(way) = self.known(from) else {
            return Ok(());
        };
        self.doubt(way.over(root, link))
    }

    /// Forgets what is known of a node.
    pub(crate) fn forget(&mut self, node: NodeNo) -> Result<(), AllocError>
        requires { node.0 < length self.old.tree.dists }
        ensures { OnOk result (Forgets (state_of self.old) (state_of self.new) node.0) }
    {
        self.tree.set(node, None, None);
        self.cut.push(node)?;
        Ok(())
    }
}
