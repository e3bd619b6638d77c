ghost use Rattle.std.specs.Prelude.{◌≡◌, ◌<◌, length, IfOk};
ghost use Rattle.mn_linkdb.specs.PathTable.{IsTable, dist_at, next_at, nothing_known, with_entries};

use mn_base::NodeNo;
use std::alloc::{AllocError, Global};
use std::marker::Model;

/// By node, the cost of a least walk to it and the neighbour to which that walk goes first.
#[derive(Drop)]
pub struct Tree {
    dists: Vec<Option<u32>>,
    nexts: Vec<Option<NodeNo>>,
}

impl Model for Tree {
    ghost use Rattle.std.specs.Prelude.{length};
    ghost use Rattle.mn_linkdb.specs.PathTable.{PathTable, IsTable};

    ghost Value = { PathTable };

    ghost view = { λ t. record { dists = t.dists.items; nexts = t.nexts.items } };

    ghost invariant = { λ t. IsTable (length t.dists.items) (record { dists = t.dists.items; nexts = t.nexts.items }) };
}

impl Tree {
    /// A table of so many nodes, with none everywhere.
    pub fn new(alloc: Global, nodes: u32) -> Result<Tree, AllocError>
        ensures { IfOk result (λ tree. tree ≡ nothing_known nodes) }
    {
        let dists = vec![in alloc; None; nodes as usize]?;
        let nexts = vec![in alloc; None; nodes as usize]?;
        Ok(Tree { dists, nexts })
    }

    /// The cost of a least walk to the node; none where no walk leads there.
    pub fn dist(&self, to: NodeNo) -> Option<u32>
        requires { to.0 < length self.now.dists }
        ensures value { result ≡ dist_at self.now to.0 }
        ensures form { IsTable (length self.now.dists) self.now }
    {
        self.dists[usize::from(to.0)]
    }

    /// The neighbour to which a least walk to the node goes first; none for the root, and where
    /// no walk leads there.
    pub fn next(&self, to: NodeNo) -> Option<NodeNo>
        requires { to.0 < length self.now.dists }
        ensures value { result ≡ next_at self.now to.0 }
        ensures form { IsTable (length self.now.dists) self.now }
    {
        self.nexts[usize::from(to.0)]
    }

    /// Sets both entries of a node, and no other. It takes no memory.
    pub fn set(&mut self, to: NodeNo, dist: Option<u32>, next: Option<NodeNo>)
        requires { to.0 < length self.old.dists }
        ensures { self.new ≡ with_entries self.old to.0 dist next }
    {
        self.dists[usize::from(to.0)] = dist;
        self.nexts[usize::from(to.0)] = next;
    }
}
