//! What edges and VRFs have.
ghost use Rattle.std.specs.Prelude.{◌≡◌, ◌<◌, ◌≤◌, length, false, Some, option_map, unwrap_or, is_some, slice_index};
ghost use Rattle.mn_ledger.specs.Places.{edge_of, vrf_of, home_of};
ghost use Rattle.mn_targets.specs.Targets.{has_target};
ghost use Rattle.mn_vrf.specs.Vrf.{VrfState};
ghost use Rattle.mn_net.specs.Parts.{shown, targets_of};
ghost use Rattle.mn_net_laws.specs.Refusal.{of_vrf, site_label, site_with};

use mn_base::{NodeNo, Rt, SiteNo, VrfNo};
use mn_prefix::Prefix;
use mn_routing::Routes;
use mn_targets::Targets;
use mn_topo::Topology;
use mn_vrf::Vrf;

/// A VRF, at its edge.
pub(crate) fn vrf_at<'a>(topology: &Topology, routes: &'a Routes, vrf: VrfNo) -> Option<&'a Vrf>
    requires edges { length routes.now.edges ≡ length topology.now.loopbacks }
    requires there { vrf.0 < length topology.now.vrfs }
    ensures { option_map (λ held. held.now.vrf) result ≡ of_vrf topology.now (shown routes.now) vrf.0 Some }
{
    let edge = routes.edge(topology.edge_of(vrf))?;
    edge.vrf(vrf)
}

/// The targets that a VRF exports, or those that it imports.
pub(crate) fn targets_of<'a>(
    topology: &Topology,
    routes: &'a Routes,
    vrf: VrfNo,
    exported: bool,
) -> Option<&'a Targets>
    requires edges { length routes.now.edges ≡ length topology.now.loopbacks }
    requires there { vrf.0 < length topology.now.vrfs }
    ensures { option_map (λ targets. targets.now) result ≡ of_vrf topology.now (shown routes.now) vrf.0 (λ (state : VrfState). Some (targets_of exported state)) }
{
    let held = vrf_at(topology, routes, vrf)?;
    if exported {
        return Some(held.exports());
    }
    Some(held.imports())
}

/// A VRF exports a target, or imports it.
pub(crate) fn has_target(
    topology: &Topology,
    routes: &Routes,
    vrf: VrfNo,
    exported: bool,
    target: Rt,
) -> bool
    requires edges { length routes.now.edges ≡ length topology.now.loopbacks }
    requires there { vrf.0 < length topology.now.vrfs }
    ensures { result ≡ unwrap_or (of_vrf topology.now (shown routes.now) vrf.0 (λ (state : VrfState). Some (has_target target (targets_of exported state)))) false }
{
    match targets_of(topology, routes, vrf, exported) {
        Some(targets) => targets.has(target),
        None => false,
    }
}

/// The site over which a VRF has a prefix.
pub(crate) fn site_with(
    topology: &Topology,
    routes: &Routes,
    vrf: VrfNo,
    prefix: Prefix,
) -> Option<SiteNo>
    requires edges { length routes.now.edges ≡ length topology.now.loopbacks }
    requires there { vrf.0 < length topology.now.vrfs }
    ensures { option_map (λ site. site.0) result ≡ site_with topology.now (shown routes.now) vrf.0 prefix }
{
    let held = vrf_at(topology, routes, vrf)?;
    match held.static_of(prefix) {
        Some(route) => Some(route.site()),
        None => None,
    }
}

/// A site is attached.
pub(crate) fn is_attached(topology: &Topology, routes: &Routes, site: SiteNo) -> bool
    requires edges { length routes.now.edges ≡ length topology.now.loopbacks }
    requires there { site.0 < length topology.now.sites }
    ensures { result ≡ is_some (site_label topology.now (shown routes.now) site.0) }
{
    match routes.edge(topology.home_of(site)) {
        Some(edge) => edge.attached(site).is_some(),
        None => false,
    }
}
