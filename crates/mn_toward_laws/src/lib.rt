//! One tree for all ways to a node, and which trees a failure leaves as they were.
//!
//! A link costs the same in both directions. So the least costs from a node are those to it, and its own shortest-path tree says the
//! next hop of every other node towards it: there is no need of a tree for each node that sends.
//!
//! Where any number of links goes down at once and no next hop towards a node went over one of them, all next hops and least costs towards it
//! stay: so after a failure only the trees are mended in which a link of it is.
//!
//! - `specs/Toward`: next hops by the tree of the node to which they lead
//! - `specs/Spared`: what goes down, and what stays
#![tactic(auto)]

ghost use Rattle.std.specs.Prelude.{ℕ, ◌<◌, length};
ghost use Rattle.mn_wiring.specs.Wiring.{Wiring, View, JoinsNodes, JoinsOnce};
ghost use Rattle.mn_linkdb.specs.PathTable.{PathTable};
ghost use Rattle.mn_linkdb.specs.Trees.{IsTree};
ghost use Rattle.mn_toward_laws.specs.Spared.{AllCost, HasNoMore, IsSpared, StaysAsItWas};
ghost use Rattle.mn_toward_laws.specs.Toward.{LeadsToItsRoot, CostTheSameBothWays};

/// The least cost from one node to another is that of the way back.
pub fn least_costs_are_the_same_both_ways()
    ensures { (wiring : Wiring) (view : View) → CostTheSameBothWays wiring view }
{}

/// The tree of a node has the next hops of all others towards it.
pub fn one_tree_an_edge()
    ensures { (wiring : Wiring) (view : View) (root : ℕ) (table : PathTable) → JoinsNodes wiring → IsTree wiring view root table → LeadsToItsRoot wiring view root table }
{}

/// Least costs and next hops towards a node stay as they were where no next hop towards it went over a link that went down.
pub fn what_is_spared_stays()
    ensures { (wiring : Wiring) (before after : View) (to : ℕ) → JoinsNodes wiring → JoinsOnce wiring → AllCost wiring → to < length wiring.loopbacks →
        HasNoMore after before → IsSpared wiring before after to → StaysAsItWas wiring before after to }
{}
