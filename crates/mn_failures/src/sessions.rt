//! Which edges exchange routes, by the topology's own targets.
ghost use Rattle.std.specs.Prelude.{◌≡◌};
ghost use Rattle.std.specs.List.{list_any};
ghost use Rattle.mn_targets.specs.Targets.{has_target, meet};
ghost use Rattle.mn_failures.specs.Failures.{gives, takes_of, takes, exchange};

use mn_base::{NodeNo, Rt};
use mn_topo::{Topology, VrfDef};

fn has_target(target: Rt, others: &[Rt]) -> bool
    ensures { result ≡ has_target target others.now }
{
    others.iter().any(|other| other.0 == target.0)
}

/// Whether one of the targets is one of the others.
fn meet(targets: &[Rt], others: &[Rt]) -> bool
    ensures { result ≡ meet targets.now others.now }
{
    targets.iter().any(|target| has_target(*target, others))
}

/// Whether the VRF is one of the edge, and exports a target that this VRF imports.
fn gives(edge: NodeNo, vrf: &VrfDef, from: &VrfDef) -> bool
    ensures { result ≡ gives edge.0 vrf.now from.now }
{
    from.node.0 == edge.0 && meet(vrf.import.as_slice(), from.export.as_slice())
}

/// Whether a VRF of the edge gives to this VRF.
fn takes_from(topology: &Topology, edge: NodeNo, vrf: &VrfDef) -> bool
    ensures { result ≡ list_any (gives edge.0 vrf.now) topology.now.vrfs }
{
    topology.vrfs().iter().any(|from| gives(edge, vrf, from))
}

/// Whether the VRF is one of the one edge, and a VRF of the other edge gives to it.
fn takes_of(topology: &Topology, one: NodeNo, other: NodeNo, vrf: &VrfDef) -> bool
    ensures { result ≡ takes_of topology.now one.0 other.0 vrf.now }
{
    vrf.node.0 == one.0 && takes_from(topology, other, vrf)
}

/// Whether a VRF of the one edge imports a target that a VRF of the other exports.
fn takes(topology: &Topology, one: NodeNo, other: NodeNo) -> bool
    ensures { result ≡ takes topology.now one.0 other.0 }
{
    topology
        .vrfs()
        .iter()
        .any(|vrf| takes_of(topology, one, other, vrf))
}

/// Whether two edges exchange routes: one imports a target that the other exports.
pub fn exchange(topology: &Topology, one: NodeNo, other: NodeNo) -> bool
    ensures { result ≡ exchange topology.now one.0 other.0 }
{
    takes(topology, one, other) || takes(topology, other, one)
}
