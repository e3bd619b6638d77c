ghost use Rattle.std.specs.Prelude.{◌≡◌, ◌+◌, ◌^◌, ◌<◌, ℕ, length, All, IfOk, OnOk, MatchOption};
ghost use Rattle.std.specs.BinaryHeap.{heap_items};
ghost use Rattle.mn_linkdb.specs.Learned.{Learned};
ghost use Rattle.mn_linkdb.specs.PathTable.{IsTable};

use crate::way::Way;
use mn_base::{LinkNo, NodeNo};
use mn_linkdb::{Tree, View};
use std::alloc::{AllocError, Global};
use std::cmp::Reverse;
use std::collections::BinaryHeap;

/// A search that goes on.
#[derive(Drop)]
pub(crate) struct Search {
    /// The best way to each node that was found so far.
    tree: Tree,
    /// By node, whether its best way is known.
    settled: Vec<bool>,
    /// Ways that were found, the best way to each node that isn't settled among them. A way stays
    /// after a better one to its node has come, and is passed over later.
    queue: BinaryHeap<Reverse<Way>>,
}

impl Search {
    ghost use Rattle.mn_spf.specs.Ways.{AreLinksAt, rank_of, rank_at, beats};
    ghost use Rattle.mn_spf.specs.Search.{state_of, unsettled, IsSearch, IsFollowed, Offers, AllOpen, NoneOpen, IsDone, Nearest};

    /// The root alone is found, and settled.
    pub(crate) fn new(alloc: Global, view: &View, root: NodeNo) -> Result<Search, AllocError>
        requires { root.0 < view.now.nodes }
        ensures search { IfOk result (λ search. IsSearch view.now root.0 (AllOpen root.0) 0 (state_of search)) }
        ensures followed { IfOk result (λ search. IsFollowed view.now root.0 (state_of search) (record { cost = 0; hop = 0; to = root.0 })) }
    {
        let mut tree = Tree::new(alloc, view.nodes())?;
        tree.set(root, Some(0), None);
        let mut settled = vec![in alloc; false; view.nodes() as usize]?;
        settled[usize::from(root.0)] = true;
        let queue = BinaryHeap::new(alloc);
        Ok(Search {
            tree,
            settled,
            queue,
        })
    }

    /// Whether a way is better than the one that was found before to its node.
    fn is_better(&self, way: Way) -> bool
        requires { way.to < length self.now.tree.dists }
        ensures { result ≡ beats (rank_of way) (rank_at self.now.tree way.to) }
    {
        let to = NodeNo(way.to);
        let Some(cost) = self.tree.dist(to) else {
            return true;
        };
        // Of the root a cost of 0 is known and no hop, and no way beats that.
        let hop = match self.tree.next(to) {
            Some(hop) => hop.0,
            None => 0,
        };
        way.cost < cost || way.cost == cost && way.hop < hop
    }

    /// Takes a way where it is better than the one before.
    fn offer(&mut self, way: Way) -> Result<(), AllocError>
        requires { way.to < length self.old.tree.dists }
        ensures { OnOk result (Offers (state_of self.old) (state_of self.new) way) }
    {
        if self.is_better(way) {
            self.tree
                .set(NodeNo(way.to), Some(way.cost), Some(NodeNo(way.hop)));
            self.queue.push(Reverse(way))?;
        }
        Ok(())
    }

    /// Offers the ways that go on over the links at the end of a way.
    pub(crate) fn follow(
        &mut self,
        view: &View,
        links: &[LinkNo],
        root: NodeNo,
        way: Way,
    ) -> Result<(), AllocError>
        requires root { root.0 < view.now.nodes }
        requires links { AreLinksAt view.now way.to links.now }
        requires search { IsSearch view.now root.0 (AllOpen way.to) (rank_of way) (state_of self.old) }
        requires followed { IsFollowed view.now root.0 (state_of self.old) way }
        ensures search { OnOk result (IsSearch view.now root.0 NoneOpen (rank_of way) (state_of self.new)) }
        ensures settled { OnOk result (unsettled (state_of self.new) ≡ unsettled (state_of self.old)) }
    {
        let ends = view.ends();
        for link in links {
            self.offer(way.over(root, ends[usize::from(link.0)]))?;
        }
        Ok(())
    }

    /// The best of the ways that lead to a node that isn't settled; the node is settled by it.
    pub(crate) fn nearest(&mut self) -> Option<Way>
        requires { All (λ way. way.0.to < length self.old.settled.items) (heap_items self.old.queue) }
        ensures { (learned : Learned) (root limit : ℕ) → IsSearch learned root NoneOpen limit (state_of self.old) → Nearest learned root (state_of self.old) (state_of self.new) result }
    {
        while let Some(Reverse(way)) = self.queue.pop() {
            let to = usize::from(way.to);
            if !self.settled[to] {
                self.settled[to] = true;
                return Some(way);
            }
        }
        None
    }

    /// The best ways that were found.
    pub(crate) fn into_tree(self) -> Tree
        ensures { result ≡ self.tree }
    {
        self.tree
    }
}
