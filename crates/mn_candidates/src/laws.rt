ghost use Rattle.std.specs.Prelude.{ℕ, List, ◌<◌, length};
ghost use Rattle.mn_ledger.specs.Prelude.{IsLawful, Network, HeldRoute};
ghost use Rattle.mn_topo.specs.Homes.{edge_of};
ghost use Rattle.mn_reach_laws.specs.Candidates.{AreCandidates};
ghost use Rattle.mn_failure_laws.specs.Failures.{Failure, config_under};
ghost use Rattle.mn_candidates.specs.Routes.{routes_for, AreFor};

use mn_failure_laws::candidates_are_of_the_topology;

/// The routes of a VRF for an address are its candidates, whatever fails.
pub fn routes_are_the_ledgers()
    ensures { (topology : Network) (failure : Failure) (v address : ℕ) (found : List HeldRoute) →
        IsLawful topology → v < length topology.vrfs → AreFor address (routes_for topology v) found →
        AreCandidates topology (config_under topology failure) (edge_of topology v) v address found }
{
    candidates_are_of_the_topology();
}
