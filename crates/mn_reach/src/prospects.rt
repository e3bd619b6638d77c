//! What is found of each pair.
ghost use Rattle.std.specs.Prelude.{◌≡◌, ◌<◌, [], All, length, map, false, unwrap_or, IfOk, OnOk};
ghost use Rattle.std.specs.List.{Contains, flat_map};
ghost use Rattle.mn_wiring.specs.Wiring.{Wiring};
ghost use Rattle.mn_topo.specs.Homes.{vrf_of};
ghost use Rattle.mn_ledger.specs.Places.{edges as edges_of};
ghost use Rattle.mn_candidates.specs.Routes.{held_as, routes_for};
ghost use Rattle.mn_way.specs.Way.{links_on, way};
ghost use Rattle.mn_way.specs.Switched.{IsOver, edge_at};
ghost use Rattle.mn_reach.specs.Plans.{IsFor, IsPlaced, numbers_of};
ghost use Rattle.mn_reach.specs.Finding.{IsFresh, IsKnown, AreFound};

use crate::edges::place_of;
use crate::plan::{Candidate, Prospect};
use mn_base::{LinkNo, ListOf, NodeNo, VrfNo};
use mn_candidates::{Pair, Route, candidates, routes_are_the_ledgers, routes_for};
use mn_topo::Topology;
use mn_way::Ways;
use std::alloc::{AllocError, Global};

/// The routes of the VRF that was asked for last.
#[derive(Drop)]
struct Known {
    vrf: Option<VrfNo>,
    routes: Vec<Route>,
}

impl Known {
    /// Makes them those of this VRF.
    fn ask(&mut self, alloc: Global, topology: &Topology, vrf: VrfNo) -> Result<(), AllocError>
        requires vrf { vrf.0 < length topology.now.vrfs }
        requires known { IsKnown topology.now self.old }
        ensures known { OnOk result (IsKnown topology.now self.new) }
        ensures these { OnOk result (map held_as self.new.routes.items ≡ routes_for topology.now vrf.0) }
    {
        if let Some(last) = self.vrf {
            if last.0 == vrf.0 {
                return Ok(());
            }
        }
        self.routes = routes_for(alloc, topology, vrf)?;
        self.vrf = Some(vrf);
        Ok(())
    }
}

/// The routes, each with the place of its edge.
fn placed(alloc: Global, edges: &[NodeNo], routes: &[Route]) -> Result<Vec<Candidate>, AllocError>
    requires { All (λ route. Contains (numbers_of edges.now) route.edge.0) routes.now }
    ensures routes { IfOk result (λ found. map (λ candidate. candidate.route) found.items ≡ routes.now) }
    ensures placed { IfOk result (λ found. All (IsPlaced (numbers_of edges.now)) found.items) }
{
    let mut found = Vec::with_capacity(alloc, routes.len())?;
    for route in routes {
        found.push(Candidate {
            route: *route,
            place: place_of(edges, route.edge),
        })?;
    }
    Ok(found)
}

/// The links on the ways from an edge to those of the candidates.
fn links_to(
    alloc: Global,
    ways: &Ways,
    home: NodeNo,
    candidates: &[Candidate],
) -> Result<Vec<LinkNo>, AllocError>
    requires sound { ways.now.failed ≡ false }
    requires here { home.0 < ways.now.nodes }
    requires placed { All (IsPlaced ways.now.edges) candidates.now }
    ensures { (wiring : Wiring) → IsOver wiring ways.now → IfOk result (λ links. map (λ l. l.0) links.items
        ≡ flat_map (λ candidate. links_on (unwrap_or (way wiring ways.now.up home.0 (edge_at ways.now candidate.place)) [])) candidates.now) }
{
    let mut links = Vec::new(alloc);
    for candidate in candidates {
        ways.put_links(home, candidate.place, &mut links)?;
    }
    Ok(links)
}

/// A topology, the ways over it, and its edges.
#[derive(Clone, Copy)]
struct Ground<'g> {
    topology: &'g Topology,
    ways: &'g Ways,
    edges: &'g [NodeNo],
}

/// What is found of a pair, of the routes of its VRF.
fn prospect_for(
    alloc: Global,
    ground: Ground<'_>,
    routes: &[Route],
    pair: Pair,
) -> Result<Prospect, AllocError>
    requires fresh { IsFresh ground.topology.now ground.ways.now }
    requires edges { numbers_of ground.edges.now ≡ edges_of ground.topology.now }
    requires site { pair.site.0 < length ground.topology.now.sites }
    requires routes { map held_as routes.now ≡ routes_for ground.topology.now (vrf_of ground.topology.now pair.site.0) }
    ensures { IfOk result (IsFor ground.entry.topology.now (edges_of ground.entry.topology.now) pair) }
{
    ground.topology.laws();
    routes_are_the_ledgers();
    let home = ground.topology.home_of(pair.site);
    let found = candidates(alloc, routes, pair.address)?;
    let candidates = placed(alloc, ground.edges, found.as_slice())?;
    let links = links_to(alloc, ground.ways, home, candidates.as_slice())?;
    Ok(Prospect {
        candidates: ListOf::from_vec(candidates),
        links: ListOf::from_vec(links),
    })
}

/// What is found of each pair. Pairs of a VRF that stand one behind the other share its routes.
pub(crate) fn prospects_of(
    alloc: Global,
    topology: &Topology,
    ways: &Ways,
    edges: &[NodeNo],
    pairs: &[Pair],
) -> Result<Vec<Prospect>, AllocError>
    requires fresh { IsFresh topology.now ways.now }
    requires edges { numbers_of edges.now ≡ edges_of topology.now }
    requires sites { All (λ pair. pair.site.0 < length topology.now.sites) pairs.now }
    ensures { IfOk result (λ found. AreFound topology.now pairs.now (length pairs.now) found.items) }
{
    let ground = Ground {
        topology,
        ways,
        edges,
    };
    let mut found = Vec::with_capacity(alloc, pairs.len())?;
    let mut known = Known {
        vrf: None,
        routes: Vec::new(alloc),
    };
    for pair in pairs {
        known.ask(alloc, topology, topology.vrf_of(pair.site))?;
        found.push(prospect_for(alloc, ground, known.routes.as_slice(), *pair)?)?;
    }
    Ok(found)
}
