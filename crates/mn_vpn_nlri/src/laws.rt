// What is read, against what the RFCs say is a route and what are targets.
ghost use Rattle.std.specs.Prelude.{◌≡◌, ◌≤◌, ◌<◌, ◌++◌, ◌∷◌, [], ℕ, Bool, List, Ok, Err, length, take, drop};
ghost use Rattle.mn_base.specs.declared.numbers.Rt.{Rt as Target};
ghost use Rattle.mn_vpn_nlri.specs.declared.message.VpnRoute.{VpnRoute as Route};
ghost use Rattle.mn_vpn_nlri.specs.declared.refusal.NlriBad.{NlriBad as Bad};
ghost use Rattle.mn_vpn_nlri.specs.Grammar.{IsVpnRoute, IsNlri, AreNlri, written, as_read, AreTargets, AllTargets, written_targets};
ghost use Rattle.mn_vpn_nlri.specs.Reading.{IsBytes, route_at, routes_of, behind, targets_of};

/// Each route is read from the front, whatever follows it, with its length; and what is read is that route.
pub fn route_is_read()
    ensures only { (bytes rest : List ℕ) (route : Route) → IsNlri bytes route → route_at (bytes ++ rest) ≡ Ok (route, length bytes) }
    ensures found { (bytes : List ℕ) (route : Route) (size : ℕ) →
        IsBytes bytes → route_at bytes ≡ Ok (route, size) → IsNlri (take size bytes) route }
    ensures within { (bytes : List ℕ) (route : Route) (size : ℕ) → route_at bytes ≡ Ok (route, size) → (0 < size) × (size ≤ length bytes) }
{}

/// Of a route that is cut short nothing is read.
pub fn no_front_is_read()
    ensures { (bytes : List ℕ) (route : Route) (size : ℕ) →
        IsNlri bytes route → size < length bytes → route_at (take size bytes) ≡ Err Bad.Short }
{}

/// What is written is a route and is read again, whatever follows it: a withdrawal as its distinguisher and prefix.
pub fn written_is_read()
    ensures grammar { (route : Route) (withdrawn : Bool) → IsVpnRoute route → IsNlri (written route withdrawn) (as_read route withdrawn) }
    ensures reading { (route : Route) (withdrawn : Bool) (rest : List ℕ) → IsVpnRoute route →
        route_at (written route withdrawn ++ rest) ≡ Ok (as_read route withdrawn, length (written route withdrawn)) }
{}

/// Bytes are read as routes one after another exactly where they are these routes.
pub fn routes_are_read()
    ensures only { (bytes : List ℕ) (routes : List Route) → AreNlri bytes routes → routes_of bytes ≡ Ok routes }
    ensures found { (bytes : List ℕ) (routes : List Route) → IsBytes bytes → routes_of bytes ≡ Ok routes → AreNlri bytes routes }
{}

/// Routes are read in turn, to the end or to the first refusal.
pub fn routes_in_turn()
    ensures end { routes_of [] ≡ Ok [] }
    ensures first { (bytes : List ℕ) (route : Route) (size : ℕ) →
        route_at bytes ≡ Ok (route, size) → routes_of bytes ≡ behind (route ∷ []) (routes_of (drop size bytes)) }
    ensures refused { (bytes : List ℕ) (bad : Bad) → 0 < length bytes → route_at bytes ≡ Err bad → routes_of bytes ≡ Err bad }
{}

/// Extended communities are read as the targets among them, and what is written is read again.
pub fn targets_are_read()
    ensures only { (bytes : List ℕ) (targets : List Target) → AreTargets bytes targets → targets_of bytes ≡ Ok targets }
    ensures found { (bytes : List ℕ) (targets : List Target) → IsBytes bytes → targets_of bytes ≡ Ok targets → AreTargets bytes targets }
    ensures written { (targets : List Target) → AllTargets targets → targets_of (written_targets targets) ≡ Ok targets }
{}
