//! The routes of a VRF, and those of them for an address.
ghost use Rattle.std.specs.Prelude.{◌≡◌, ◌<◌, ◌++◌, ◌≤◌, map, length, position, IfOk, OnOk};
ghost use Rattle.std.specs.List.{position_or_len};
ghost use Rattle.mn_candidates.specs.Routes.{source_in, held_as, source_of, routes_over, routes_for, AreFor};
ghost use Rattle.mn_ledger.specs.Held.{is_better};

use crate::pairs::takes_from;
use crate::route::{Route, Source, covers, is_better};
use mn_base::{NodeNo, SiteNo, VrfNo};
use mn_topo::Topology;
use std::alloc::{AllocError, Global};

/// The address of an edge.
fn loopback(topology: &Topology, edge: NodeNo) -> u32
    requires { edge.0 < length topology.now.loopbacks }
    ensures { result ≡ loopback topology.now edge.0 }
{
    topology.nodes()[usize::from(edge.0)].loopback
}

ghost use Rattle.mn_ledger.specs.Places.{loopback};

/// From where a VRF has the routes of another.
fn source_of(topology: &Topology, vrf: VrfNo, other: VrfNo) -> Source
    requires vrf { vrf.0 < length topology.now.vrfs }
    requires other { other.0 < length topology.now.vrfs }
    ensures { source_in result ≡ source_of topology.now vrf.0 other.0 }
{
    if other.0 == vrf.0 {
        return Source::Own;
    }
    let edge = topology.edge_of(other);
    if edge.0 == topology.edge_of(vrf).0 {
        return Source::Near(other);
    }
    Source::Far(
        loopback(topology, edge),
        topology.vrfs()[usize::from(other.0)].rd,
    )
}

/// Pushes the routes of a VRF over a site, where it takes routes of the site's VRF.
fn push_routes(
    topology: &Topology,
    vrf: VrfNo,
    site: SiteNo,
    routes: &mut Vec<Route>,
) -> Result<(), AllocError>
    requires vrf { vrf.0 < length topology.now.vrfs }
    requires site { site.0 < length topology.now.sites }
    ensures { OnOk result (map held_as routes.new.items ≡ map held_as routes.old.items ++ routes_over topology.now vrf.0 site.0) }
{
    let home = topology.vrf_of(site);
    if !takes_from(topology, vrf, home) {
        return Ok(());
    }
    let (source, edge) = (source_of(topology, vrf, home), topology.edge_of(home));
    for prefix in topology.sites()[usize::from(site.0)].prefixes.as_slice() {
        routes.push(Route {
            prefix: *prefix,
            source,
            edge,
            site,
        })?;
    }
    Ok(())
}

/// How many sites there are: at most 4,096.
fn site_count(topology: &Topology) -> u16
    ensures { result ≡ length topology.now.sites }
{
    topology.laws();
    topology.sites().len() as u16
}

/// The routes of a VRF.
pub fn routes_for(alloc: Global, topology: &Topology, vrf: VrfNo) -> Result<Vec<Route>, AllocError>
    requires { vrf.0 < length topology.now.vrfs }
    ensures { IfOk result (λ routes. map held_as routes.items ≡ routes_for topology.now vrf.0) }
{
    let mut routes = Vec::new(alloc);
    for site in 0..site_count(topology) {
        push_routes(topology, vrf, SiteNo(site), &mut routes)?;
    }
    Ok(routes)
}

/// Where the first stands of these routes than which the one is better.
fn first_worse(route: Route, routes: &[Route]) -> Option<usize>
    ensures { result ≡ position (λ other. is_better (held_as route) (held_as other)) routes.now }
{
    routes.iter().position(|other| is_better(route, *other))
}

/// The place of a route among others in preference: behind all that it isn't better than.
fn place_among(route: Route, routes: &[Route]) -> usize
    ensures place { result ≡ position_or_len (λ other. is_better (held_as route) (held_as other)) routes.now }
    ensures there { result ≤ length routes.now }
{
    first_worse(route, routes).unwrap_or(routes.len())
}

/// The routes that contain the address, in preference.
pub fn candidates(alloc: Global, routes: &[Route], address: u32) -> Result<Vec<Route>, AllocError>
    ensures { IfOk result (λ found. AreFor address (map held_as routes.now) (map held_as found.items)) }
{
    let mut found = Vec::new(alloc);
    for route in routes {
        if covers(*route, address) {
            let place = place_among(*route, found.as_slice());
            found.insert(place, *route)?;
        }
    }
    Ok(found)
}
