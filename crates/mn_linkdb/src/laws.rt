ghost use Rattle.std.specs.Prelude.{◌≡◌, ◌<◌, ◌≤◌, ℕ, List, Bool, false, length, take};
ghost use Rattle.mn_wiring.specs.Wiring.{Wiring, View, JoinsNodes};
ghost use Rattle.mn_wiring.specs.Paths.{dist_in, dists_to, next};
ghost use Rattle.mn_linkdb.specs.Changes.{is_odd, AllTurn, after_changes};
ghost use Rattle.mn_linkdb.specs.PathTable.{PathTable, dist_at, next_at};
ghost use Rattle.mn_linkdb.specs.Trees.{IsTree, hop_alone, computed_tree};

use mn_wiring::{least_walk, next_hop};

/// Of a link that begins down and is turned by each of its changes, the number of changes that
/// were learned tells whether it was up after the last of them.
#[tactic(auto, using(crate::proofs::Turns::count_tells))]
pub fn count_tells_the_last_change()
    ensures { (ups : List Bool) (count : ℕ) → AllTurn false ups → count ≤ length ups → is_odd count ≡ after_changes false (take count ups) }
{}

/// Of each root there is one tree.
pub fn one_tree()
    ensures { (wiring : Wiring) (view : View) (root : ℕ) (a b : PathTable) → IsTree wiring view root a → IsTree wiring view root b → a ≡ b }
{}

/// Each root has a tree: that of the least costs and next hops that are computed for each node by
/// itself.
pub fn each_root_has_a_tree()
    ensures { (wiring : Wiring) (view : View) (root : ℕ) → JoinsNodes wiring → root < length wiring.loopbacks → IsTree wiring view root (computed_tree wiring view root) }
{
    least_walk();
    next_hop();
}

/// The entries of a tree are those that are computed for each node by itself.
pub fn tree_is_computed()
    ensures dist { (wiring : Wiring) (view : View) (root to : ℕ) (tree : PathTable) → IsTree wiring view root tree → JoinsNodes wiring → root < length wiring.loopbacks → to < length wiring.loopbacks → dist_at tree to ≡ dist_in (dists_to wiring view to) root }
    ensures next { (wiring : Wiring) (view : View) (root to : ℕ) (tree : PathTable) → IsTree wiring view root tree → JoinsNodes wiring → root < length wiring.loopbacks → to < length wiring.loopbacks → next_at tree to ≡ hop_alone (next wiring view root to) }
{
    least_walk();
    next_hop();
}
