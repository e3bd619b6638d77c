ghost use Rattle.std.specs.Prelude.{◌≡◌, ◌<◌, ◌≢◌, ◌∷◌, [], ℕ, length, None, Some};
ghost use Rattle.mn_wiring.specs.Wiring.{Wiring, View, JoinsNodes, EndsDiffer, JoinsOnce};
ghost use Rattle.mn_wiring.specs.Paths.{IsDist, IsNext, dist_in, dists_to, next};
ghost use Rattle.mn_wiring.specs.Square.{square, all_up, one_down, cut_off};

/// The costs that are computed are those of least walks, and none exactly where there is no walk.
#[tactic(auto, using(crate::proofs::Dist::dists_are_least))]
pub fn least_walk()
    ensures { (wiring : Wiring) (view : View) (to : ℕ) → JoinsNodes wiring → (from : ℕ) → from < length wiring.loopbacks → IsDist wiring view from to (dist_in (dists_to wiring view to) from) }
{}

/// The next hop that is computed is the neighbour of least number to which a least walk goes
/// first, and none exactly where there is no walk.
#[tactic(auto, using(crate::proofs::Next::next_is))]
pub fn next_hop()
    ensures { (wiring : Wiring) (view : View) (to : ℕ) → JoinsNodes wiring → (from : ℕ) → from < length wiring.loopbacks → from ≢ to → IsNext wiring view from to (next wiring view from to) }
{}

/// What the laws of walks ask of a network is met, as by a square of four nodes.
pub fn square_is_wired()
    ensures nodes { JoinsNodes square }
    ensures ends { EndsDiffer square }
    ensures once { JoinsOnce square }
{}

/// Walks in the square: of two ways that cost the same the next hop is the lesser neighbour, a
/// link that is down is gone round, and a node that no walk reaches has no cost.
#[tactic(auto, unfolding(crate::specs::Paths::next))]
pub fn walks_in_the_square()
    ensures costs { dists_to square all_up 3 ≡ Some 20 ∷ Some 10 ∷ Some 10 ∷ Some 0 ∷ [] }
    ensures lesser { next square all_up 0 3 ≡ Some (1, 1) }
    ensures longer { dists_to square one_down 1 ≡ Some 30 ∷ Some 0 ∷ Some 20 ∷ Some 10 ∷ [] }
    ensures round { next square one_down 0 1 ≡ Some (2, 0) }
    ensures cut { dists_to square cut_off 0 ≡ Some 0 ∷ None ∷ None ∷ None ∷ [] }
    ensures nowhere { next square cut_off 1 0 ≡ None }
{}
