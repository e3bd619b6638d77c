//! The nodes of the items that were put since one was taken.
ghost use Rattle.std.specs.Prelude.{◌≡◌, ◌<◌, ◌≤◌, ◌+◌, ◌∷◌, ◌++◌, [], List, min, vec_len};
ghost use Rattle.std.specs.Vec.{vec_capacity};
ghost use Rattle.mn_flight_pool.specs.Whole.{AreLast, ptrs};
ghost use Rattle.mn_flight_pool.specs.declared.node.Place.{Place as PlaceOf};

use crate::node::Place;

/// How many are kept at most.
pub const MOST_RECENT: usize = 65_536;

/// A node comes to be the last of them. Where there are as many as are ever kept, it is the only one.
pub fn keep(recent: &mut Vec<Place>, node: Place)
    requires { min (vec_len recent.old + 1) 65536 ≤ vec_capacity recent.old }
    ensures last { AreLast (ptrs (recent.old.items ++ node ∷ [])) (ptrs recent.new.items) }
    ensures kept { vec_len recent.old < 65536 → recent.new.items ≡ recent.old.items ++ node ∷ [] }
    ensures capacity { vec_capacity recent.old ≤ vec_capacity recent.new }
{
    if recent.len() >= MOST_RECENT {
        recent.clear();
    }
    recent.push_reserved(node);
}
