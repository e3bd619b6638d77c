//! What comes next.
ghost use Rattle.std.specs.Prelude.{◌≡◌, ◌≤◌, ◌+◌, ℕ, List, true, false, None, IfSome};
ghost use Rattle.std.specs.List.{All};
ghost use Rattle.mn_ledger.specs.Prelude.{fits, injects, ticks_in};
ghost use Rattle.mn_ledger_laws.specs.Flight.{IsOpen};
ghost use Rattle.mn_course_laws.specs.Coming.{coming as ledgers, delivery};
ghost use Rattle.mn_course_laws.specs.Next.{first_due};
ghost use Rattle.mn_net.specs.Prelude.{StandsFor};
ghost use Rattle.mn_course_laws.specs.declared.coming.Kind;

use crate::coming::coming;
use crate::net::Net;
use crate::parts::Parts;
use mn_course_laws::{Coming, Kind};

impl Net {
    /// What comes next of a kind, if it is due by the limit: the item of the least due tick and, of these, of the least number,
    /// with the step that delivers it, and whether its link loses it. Nothing comes after running out of memory.
    pub fn coming(&self, kind: Kind, limit: u64) -> Option<Coming>
        ensures value { (inputs : List (List ℕ)) → StandsFor self.now inputs → result ≡ ledgers self.now.topology self.now.journal inputs kind limit }
        ensures within { IfSome result (λ item. item.due ≤ limit) }
        ensures soon { IfSome result (λ item. item.due ≤ self.now.tick + 1000) }
        ensures fits { IfSome result (λ item. (fits self.now.topology (delivery item) ≡ true) × (injects (delivery item) ≡ false) × (ticks_in (delivery item) ≡ 0)) }
        // No frame in flight is due before the first that comes, nor by the limit where none comes.
        ensures first { kind ≡ Kind.Frame → self.now.failed ≡ false → All (λ frame. first_due limit result ≤ frame.due) self.now.moving.flying }
        ensures nothing { self.now.failed ≡ true → result ≡ None }
        ensures opens { (inputs : List (List ℕ)) → StandsFor self.now inputs → IfSome result (λ item. IsOpen self.now.topology self.now.journal inputs (delivery item)) }
    {
        if self.failed {
            return None;
        }
        let parts = Parts {
            topology: &self.topology,
            transport: &self.transport,
            routes: &self.routes,
            transit: &self.transit,
            tally: &self.tally,
        };
        coming(parts, kind, limit)
    }
}
