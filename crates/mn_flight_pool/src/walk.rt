//! Walks along the ring of a channel, each step counted.
ghost use Rattle.std.specs.Prelude.{◌≡◌, ◌+◌, ◌∷◌, ℕ, List};
ghost use Rattle.mn_flight_pool.specs.Rings.{IsIn, IsRing, next_of, prev_of};
ghost use Rattle.mn_flight_pool.specs.Pool.{steps_of};
ghost use Rattle.mn_flight_pool.specs.declared.node.Pair.TheVariants.{Channel};

use crate::node::{Pair, Place};
use crate::store::Store;
use mn_base::Steps;
use std::sync::ledger::Ledger;

/// The node so many steps behind one.
pub fn forth<T: Drop, L: Ledger>(
    store: &Store<T>,
    first: Place,
    count: u64,
    steps: &mut Steps<L>,
) -> Place
    requires { (s : ℕ) × (order : List ℕ) × IsRing Channel store.now s order × IsIn first.index (s ∷ order) }
    ensures node { result.index ≡ steps_of (next_of Channel store.now) first.index count }
    ensures steps { steps.new ≡ steps.old + count }
{
    let mut at = first;
    for _ in 0..count {
        steps.tick();
        at = store.next(Pair::Channel, at);
    }
    at
}

/// The node so many steps before one.
pub fn back<T: Drop, L: Ledger>(
    store: &Store<T>,
    first: Place,
    count: u64,
    steps: &mut Steps<L>,
) -> Place
    requires { (s : ℕ) × (order : List ℕ) × IsRing Channel store.now s order × IsIn first.index (s ∷ order) }
    ensures node { result.index ≡ steps_of (prev_of Channel store.now) first.index count }
    ensures steps { steps.new ≡ steps.old + count }
{
    let mut at = first;
    for _ in 0..count {
        steps.tick();
        at = store.prev(Pair::Channel, at);
    }
    at
}
